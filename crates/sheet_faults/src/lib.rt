// What is wrong with numbers that are to become a sheet: each is judged as the reader judges a sheet's, in the order of the sheet; and whether there is room
// for it.

#![tactic(auto)]

ghost use Rattle.std.specs.Prelude.{◌≡◌, ◌≤◌, ◌&&◌, ◌||◌, true, false, length, take, eqb, leb, OnOk};
ghost use Rattle.std.specs.List.{fold};
ghost use Rattle.varint.specs.Refusal.{number_in};
ghost use Rattle.sheet.specs.Reader.{is_mark, is_service};
ghost use Rattle.sheet.specs.Writer.{header_fault, arc_fault, arcs_fault, marks_fault, services_fault, size_fault, required_fault, draft_fault, first_of};
ghost use Rattle.sheet.specs.Draft.{DraftSized};
ghost use Rattle.sheet_faults.specs.Drafted.{drafted};

use sheet::{Header, LIMIT_END, MINUTES_END, SERVICE_END};
use sheet_required::arcs::Legs;
use varint::Refusal;
use walks::mark::Mark;
use walks::{ARCS, ITEMS, NODES};

const NODES_LEAST: usize = 2;

const MARK_GREATEST: u8 = 2;

// The numbers that are to become a sheet, as they were lent: they may be of any size, and the lists of any length.
// An arc is three numbers in a row and a mark a byte, as a program in C has them.
#[derive(Clone, Copy, Debug, PartialEq, Eq)]
pub struct Draft<'a> {
    pub header: Header,
    pub arcs: &'a [u32],
    pub marks: &'a [u8],
    pub services: &'a [u32],
}

// Judges the five numbers in front.
#[tactic(auto, unfolding(sheet::specs::Writer::header_fault, sheet::specs::Writer::first_of, sheet::specs::Writer::fault))]
fn header_fault(header: Header) -> Result<(), Refusal>
    ensures first_fault { number_in result ≡ header_fault header }
    ensures bounded { OnOk result ((header.nodes ≤ 64) × (header.arcs ≤ 512)) }
{
    if header.nodes < NODES_LEAST || NODES < header.nodes {
        return Err(Refusal::Nodes);
    }
    if ARCS < header.arcs {
        return Err(Refusal::Arcs);
    }
    if header.nodes <= header.source
        || header.nodes <= header.target
        || header.target == header.source
    {
        return Err(Refusal::Place);
    }
    if LIMIT_END <= header.limit {
        return Err(Refusal::Limit);
    }
    Ok(())
}

// Judges an arc of a graph of so many nodes.
#[tactic(auto, unfolding(sheet::specs::Writer::arc_fault, sheet::specs::Writer::first_of, sheet::specs::Writer::fault))]
fn arc_fault(nodes: u32, tail: u32, head: u32, minutes: u32) -> Result<(), Refusal>
    ensures { number_in result ≡ arc_fault nodes tail head minutes }
{
    if nodes <= tail || nodes <= head || head == tail {
        return Err(Refusal::ArcEnd);
    }
    if MINUTES_END <= minutes {
        return Err(Refusal::Minutes);
    }
    Ok(())
}

// Judges the arcs, three numbers each.
fn arcs_fault(nodes: u32, arcs: &[u32]) -> Result<(), Refusal>
    ensures { number_in result ≡ arcs_fault nodes arcs.now }
{
    for arc in arcs.chunks_exact(3) {
        arc_fault(nodes, arc[0], arc[1], arc[2])?;
    }
    Ok(())
}

// Whether each number is a mark. `fold` looks at many at a time.
fn are_marks(marks: &[u8]) -> bool
    ensures { result ≡ fold (λ all x. all && is_mark x) true marks.now }
{
    marks
        .iter()
        .fold(true, |all, &mark| all & (mark <= MARK_GREATEST))
}

// Whether some item is mandatory.
fn some_mandatory(marks: &[u8]) -> bool
    ensures { result ≡ fold (λ some m. some || eqb m 1) false marks.now }
{
    marks.iter().fold(false, |some, &mark| some | Mark::from(mark).is_mandatory())
}

// Whether no node's service minutes are too many.
fn are_services(services: &[u32]) -> bool
    ensures { result ≡ fold (λ all x. all && is_service x) true services.now }
{
    services
        .iter()
        .fold(true, |all, &minutes| all & (minutes < SERVICE_END))
}

// The marks that the bytes are. A loop over an array, as marks of a type of their own are not copied from bytes in one call.
fn marks_of(bytes: &[u8]) -> [Mark; ITEMS]
    requires { length bytes.now ≤ 576 }
    ensures { take (length bytes.now) result ≡ bytes.now }
{
    let mut marks = [Mark::OPEN; ITEMS];
    for i in 0..bytes.len() {
        marks[i] = Mark::from(bytes[i]);
    }
    marks
}

impl Draft<'_> {
    // Judges the lengths of the lists.
    #[tactic(auto, unfolding(sheet::specs::Writer::size_fault, sheet::specs::Writer::fault))]
    fn size_fault(&self) -> Result<(), Refusal>
        requires { (self.now.header.nodes ≤ 64) × (self.now.header.arcs ≤ 512) }
        ensures first_fault { number_in result ≡ size_fault (drafted self.now) }
        ensures sized { OnOk result (DraftSized (drafted self.now)) }
    {
        let header = self.header;
        if self.arcs.len() != 3 * header.arcs
            || self.marks.len() != header.nodes + header.arcs
            || self.services.len() != header.nodes
        {
            return Err(Refusal::Ends);
        }
        Ok(())
    }

    // Judges the marks and the service minutes.
    fn numbers_fault(&self) -> Result<(), Refusal>
        ensures { number_in result ≡ first_of (marks_fault self.now.marks.now) (services_fault self.now.services.now) }
    {
        if are_marks(self.marks) && are_services(self.services) {
            Ok(())
        } else {
            Err(Refusal::Mark)
        }
    }

    // Refused where more than eight items are required. Without a mandatory mark none is, and no marks are copied.
    #[tactic(auto, unfolding(sheet::specs::Writer::required_fault, sheet::specs::Writer::fault))]
    fn required_fault(&self) -> Result<(), Refusal>
        requires lists_sized { DraftSized (drafted self.now) }
        requires bounded { (self.now.header.nodes ≤ 64) × (self.now.header.arcs ≤ 512) }
        ensures { number_in result ≡ required_fault (drafted self.now) }
    {
        if !some_mandatory(self.marks) {
            return Ok(());
        }
        let marks = marks_of(self.marks);
        if sheet_required::few(
            self.header,
            &Legs { numbers: self.arcs },
            &marks[..self.marks.len()],
        ) {
            Ok(())
        } else {
            Err(Refusal::Required)
        }
    }

    // The first fault in the order of a sheet. The lengths of the lists are asked for behind the header, since only a good one bounds them.
    #[tactic(auto, using(crate::proofs::FaultLaws::stop, crate::proofs::FaultLaws::go, crate::proofs::FaultLaws::stop_both, crate::proofs::FaultLaws::go_both), unfolding(sheet::specs::Writer::draft_fault))]
    pub fn fault(&self) -> Result<(), Refusal>
        ensures { number_in result ≡ draft_fault (drafted self.now) }
    {
        header_fault(self.header)?;
        self.size_fault()?;
        arcs_fault(self.header.nodes as u32, self.arcs)?;
        self.numbers_fault()?;
        self.required_fault()
    }
}

// Whether a slice has room for so many bytes.
pub fn has_room(sheet: &[u8], size: usize) -> bool
    ensures { result ≡ leb size (length sheet.now) }
{
    size <= sheet.len()
}
