// The pass (document 01): strikes off what no walk within the limit can use, or refuses the round and lists the closures to blame.
#![tactic(auto)]

ghost use Rattle.std.specs.Prelude.{◌≡◌, true, ◌≤◌, ◌<◌, length};
ghost use Rattle.lists.specs.Lists.{member, Put};
ghost use Rattle.varint.specs.Refusal.{number_in, length_in};
ghost use Rattle.rows.specs.Net.{net_of};
ghost use Rattle.rows.specs.Rows.{scratch_numbers};
ghost use Rattle.goal_table.specs.Table.{GoalsFit, Rowed};
ghost use Rattle.pass_rules.specs.Verdict.{reasons_for, pass_slip, verdict as verdict_of};
ghost use Rattle.sheet.specs.Answer.{wrote};
ghost use Rattle.pass_rules.specs.Pass.{pass_on, passed};
ghost use Rattle.sheet.specs.Sheet.{sheet_of};
ghost use Rattle.pass.specs.Blamed.{Blamed};

use item_fits::EndRows;
use lengths::Query;
use pass_verdict::Verdict;
use rows::SCRATCH_NUMBERS;
use rows::net::Net;
use sheet_reader::page::Page;
use sheet_required::whole::Sheet;
use slip_reader::claim::Claim;
use varint::Refusal;
use walks::mark::Mark;
use walks::{GOALS, ITEMS};
pub use work::SLIP_BYTES;

// Whether some item is forbidden.
fn any_forbidden(marks: &[Mark]) -> bool
    ensures { result ≡ member 2 marks.now }
{
    marks.contains(&Mark::FORBIDDEN)
}

// Has the rows for the goals ready in the scratch, where a list of reasons needs them. Where no walk meets the goals all at once they are there already.
// `first` is a number, as it is written: a claim would ask more of callers.
pub fn ready_rows(query: &Query, net: &Net, first: u32, goals: &[u32], scratch: &mut [u32])
    requires few_arcs { length net.now.arcs ≤ 512 }
    requires goals_and_scratch_fit { GoalsFit net.now goals.now × (length scratch.old ≡ scratch_numbers) × (query.now.from < net.now.nodes) }
    requires rows_ready_if_first_is_three { first ≡ 3 → Rowed net.now query.now.cap query.now.from goals.now scratch.old }
    ensures { member 2 net.now.marks ≡ true → Rowed net.now query.now.cap query.now.from goals.now scratch.new }
{
    if first != u32::from(Claim::Apart) && any_forbidden(net.marks) {
        lengths::start_rows(query, net, goals, scratch);
    }
}

// Writes the reasons for the goals, whose rows are in the scratch, over the front of `list` and gives their count. Where nothing is forbidden there are none.
pub fn list_for_sheet(sheet: &Sheet, goals: &[u32], scratch: &mut [u32], list: &mut [u32]) -> usize
    requires blamed { let s = sheet.now in
        Blamed s.header s.arcs.now s.marks.now goals.now × (length scratch.old ≡ scratch_numbers) × (576 ≤ length list.old) }
    requires rows_ready_if_forbidden { let s = sheet.now in
        let N = net_of s.header.nodes s.arcs.now s.marks.now in
        (member 2 s.marks.now ≡ true → Rowed N s.header.limit s.header.source goals.now scratch.old) }
    ensures { let s = sheet.now in
        let S = sheet_of s.header s.arcs.now s.marks.now in
        Put (reasons_for S goals.now) list.old list.new result }
{
    if any_forbidden(sheet.marks) {
        return greedy::list_reasons(
            &item_fits::sheet_query(sheet),
            &sheet.net(),
            goals,
            scratch,
            list,
        );
    }
    0
}

// Writes the slip of a taken sheet over the front of `slip` and gives its length.
pub fn write_answer(sheet: &Sheet, scratch: &mut [u32], slip: &mut [u8]) -> usize
    requires { (length scratch.old ≡ scratch_numbers) × (1200 ≤ length slip.old) }
    ensures { let s = sheet.now in
        let S = sheet_of s.header s.arcs.now s.marks.now in
        Put (pass_slip S (verdict_of S)) slip.old slip.new result }
{
    let rows = EndRows::of(sheet);
    let mut room = [0u32; GOALS];
    let verdict = pass_verdict::find_verdict(&rows, &mut room, scratch);
    if let Verdict::Stands = verdict {
        return pass_marks::write_stands(&rows, slip);
    }
    let first = verdict.number();
    let goals = verdict.goals();
    let mut list = [0u32; ITEMS];
    ready_rows(
        &item_fits::sheet_query(sheet),
        &sheet.net(),
        first,
        goals,
        scratch,
    );
    let n = list_for_sheet(sheet, goals, scratch, &mut list);
    slip_writer::write_slip(slip, first, goals, &list[..n])
}

// The same with a scratch of its own, which is made no sooner than the sheet is known to be good.
fn write_taken(sheet: &Sheet, slip: &mut [u8]) -> usize
    requires { 1200 ≤ length slip.old }
    ensures { let s = sheet.now in
        let S = sheet_of s.header s.arcs.now s.marks.now in
        Put (pass_slip S (verdict_of S)) slip.old slip.new result }
{
    let mut scratch = [0u32; SCRATCH_NUMBERS];
    write_answer(sheet, &mut scratch, slip)
}

// What pass answers to a sheet, for a slip that is long enough: 3 to 13, or the length of its slip.
pub fn pass_sheet(sheet: &[u8], slip: &mut [u8]) -> Result<usize, Refusal>
    requires { 1200 ≤ length slip.old }
    ensures { record { number = number_in result; length = length_in result; out = slip.new }
        ≡ wrote (pass_on sheet.now) slip.old }
{
    let mut page = Page::empty();
    let taken = page.read(sheet)?;
    Ok(write_taken(&taken, slip))
}

// The pass: for every sheet, work and slip what document 01 says, refused ones too.
pub fn pass(sheet: &[u8], work: &mut [u32], slip: &mut [u8]) -> Result<usize, Refusal>
    ensures { record { number = number_in result; length = length_in result; work = work.new; slip = slip.new }
        ≡ passed sheet.now work.old slip.old }
{
    work::lent(work, slip, |slip: &mut [u8]| pass_sheet(sheet, slip))
}
