// The sheet's reader (docs/FORMATS.md, 'The sheet' and 'What is refused').

#![tactic(auto)]

ghost use Rattle.std.specs.Prelude.{◌≡◌, ◌+◌, ◌≤◌, length, take, Ok, IfOk, IfErr, OnOk, OnErr};
ghost use Rattle.lists.specs.Lists.{front};
ghost use Rattle.varint.specs.Varint.{got, refuse};
ghost use Rattle.varint.specs.Refusal.{number_of};
ghost use Rattle.sheet.specs.Reader.{read_arcs, lead, content, page, taken};
ghost use Rattle.sheet_services.specs.Services.{leading};
ghost use Rattle.sheet_reader.specs.Loaded.{Loaded, LoadedPage};
ghost use Rattle.sheet_reader.specs.Answer.{answered, read_behind, read_content, arcs_behind, marks_behind, sheet_behind, services_behind, arcs_begun, marks_begun, services_begun, arcs_left};

pub mod page;

use numbers::section;
use sheet::Header;
use sheet_values::Marks;
use varint::{Bytes, Refusal};
use walks::NODES;
use walks::arc::Arc;
use walks::mark::Mark;

// Takes the arcs and the marks of a sheet whose header was read, or nothing where one is refused. They are written here and in `read_behind`, so there is no
// `Sheet` yet.
fn take_lists(
    bytes: &mut Bytes,
    header: Header,
    arcs: &mut [Arc],
    marks: &mut [Mark],
) -> Result<(), Refusal>
    requires { (header.nodes ≤ 64) × (header.arcs ≤ 512) × (512 ≤ length arcs.old) × (576 ≤ length marks.old) }
    ensures got { let bs = bytes.old.rest.now in OnOk result (read_arcs header bs ≡ got (sheet_behind header bs) bytes.new.rest.now) }
    ensures refused { IfErr result (λ why. read_arcs header bytes.old.rest.now ≡ refuse (number_of why)) }
    ensures kept { OnErr result (bytes.new.rest.now ≡ bytes.old.rest.now) }
    ensures arcs_in_front { arcs.new ≡ front (arcs_behind header bytes.old.rest.now) arcs.old }
    ensures marks_in_front { marks.new ≡ front (marks_behind header bytes.old.rest.now) marks.old }
{
    let mut ahead = *bytes;
    sheet_parts::take_arcs(&mut ahead, header.nodes as u32, header.arcs, arcs)?;
    section::read_all(&Marks, &mut ahead, &mut marks[..header.nodes + header.arcs])?;
    *bytes = ahead;
    Ok(())
}

// Reads what stands behind the header, arcs, marks and service minutes, and judges the whole. `section` is the part of the sheet that starts at the
// limit's end.
fn read_behind(
    leads: bool,
    header: Header,
    section: &[u8],
    arcs: &mut [Arc],
    marks: &mut [Mark],
    services: &mut [u32],
) -> Result<(), Refusal>
    requires { (header.nodes ≤ 64) × (header.arcs ≤ 512) × (512 ≤ length arcs.old) × (576 ≤ length marks.old) × (64 ≤ length services.old) }
    ensures got { OnOk result (answered (read_behind (leading leads) header section.now) ≡ Ok header) }
    ensures refused { IfErr result (λ why. read_behind (leading leads) header section.now ≡ refuse (number_of why)) }
    ensures arcs_in_front { arcs.new ≡ front (arcs_behind header section.now) arcs.old }
    ensures marks_in_front { marks.new ≡ front (marks_behind header section.now) marks.old }
    ensures services_in_front { services.new ≡ front (services_behind (leading leads) header section.now) services.old }
{
    let mut bytes = Bytes { rest: section };
    take_lists(&mut bytes, header, arcs, marks)?;
    sheet_services::take_services(&mut bytes, usize::from(leads), header.nodes, services)?;
    if !bytes.rest.is_empty() {
        return Err(Refusal::Rest);
    }
    let arcs = &arcs[..header.arcs];
    let marks = &marks[..header.nodes + header.arcs];
    if sheet_required::few(header, &arcs, marks) {
        Ok(())
    } else {
        Err(Refusal::Required)
    }
}

// Reads the content of a sheet and what stands behind it.
fn read_content(
    leads: bool,
    content: &[u8],
    arcs: &mut [Arc],
    marks: &mut [Mark],
    services: &mut [u32],
) -> Result<Header, Refusal>
    requires { (512 ≤ length arcs.old) × (576 ≤ length marks.old) × (64 ≤ length services.old) }
    ensures got { IfOk result (λ header. answered (read_content (leading leads) content.now) ≡ Ok header) }
    ensures refused { IfErr result (λ why. read_content (leading leads) content.now ≡ refuse (number_of why)) }
    ensures arcs_in_front { arcs.new ≡ front (arcs_begun content.now) arcs.old }
    ensures marks_in_front { marks.new ≡ front (marks_begun content.now) marks.old }
    ensures services_in_front { services.new ≡ front (services_begun (leading leads) content.now) services.old }
{
    let mut bytes = Bytes { rest: content };
    let header = sheet_parts::take_header(&mut bytes)?;
    read_behind(leads, header, bytes.rest, arcs, marks, services)?;
    Ok(header)
}

// Reads a sheet. Its arcs are stored over the front of `arcs`, its marks over the front of `marks`, its service minutes over the
// front of `services`; where the sheet is taken, the arcs' weights are what it means, minutes and service minutes together. A refused sheet leaves there what
// was read before the fault. The clauses `taken_refused` and `loaded` follow from the others; they are what callers use.
pub fn read_page(
    sheet: &[u8],
    arcs: &mut [Arc],
    marks: &mut [Mark],
    services: &mut [u32],
) -> Result<Header, Refusal>
    requires { (512 ≤ length arcs.old) × (576 ≤ length marks.old) × (64 ≤ length services.old) }
    ensures header_told { IfOk result (λ header. answered (taken sheet.now) ≡ Ok header) }
    ensures refused { IfErr result (λ why. page sheet.now ≡ refuse (number_of why)) }
    ensures taken_refused { IfErr result (λ why. taken sheet.now ≡ refuse (number_of why)) }
    ensures arcs_in_front { let s = sheet.now in arcs.new ≡ front (arcs_left (taken s) (arcs_begun (content s))) arcs.old }
    ensures marks_in_front { marks.new ≡ front (marks_begun (content sheet.now)) marks.old }
    ensures services_in_front { let s = sheet.now in services.new ≡ front (services_begun (lead s) (content s)) services.old }
    ensures loaded { IfOk result (λ h. LoadedPage sheet.now h (take h.arcs arcs.new) (take (h.nodes + h.arcs) marks.new) (take h.nodes services.new)) }
{
    let (leads, content) = sheet_services::lead_and_content(sheet);
    let header = read_content(leads, content, arcs, marks, services)?;
    sheet_services::serve(&mut arcs[..header.arcs], &services[..header.nodes]);
    Ok(header)
}

// The same for a caller that looks at no service minutes by themselves.
pub fn read(sheet: &[u8], arcs: &mut [Arc], marks: &mut [Mark]) -> Result<Header, Refusal>
    requires { (512 ≤ length arcs.old) × (576 ≤ length marks.old) }
    ensures header_told { IfOk result (λ header. answered (taken sheet.now) ≡ Ok header) }
    ensures refused { IfErr result (λ why. taken sheet.now ≡ refuse (number_of why)) }
    ensures arcs_in_front { let s = sheet.now in arcs.new ≡ front (arcs_left (taken s) (arcs_begun (content s))) arcs.old }
    ensures marks_in_front { marks.new ≡ front (marks_begun (content sheet.now)) marks.old }
    ensures loaded { IfOk result (λ h. Loaded sheet.now h (take h.arcs arcs.new) (take (h.nodes + h.arcs) marks.new)) }
{
    let mut services = [0u32; NODES];
    read_page(sheet, arcs, marks, &mut services)
}
