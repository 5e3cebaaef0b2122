// Reason (document 01): which closures struck an item off.
#![tactic(auto)]

ghost use Rattle.std.specs.Prelude.{◌≡◌, [], ◌+◌, ◌≤◌, ◌<◌, length};
ghost use Rattle.varint.specs.Refusal.{number_in, length_in};
ghost use Rattle.sheet.specs.Answer.{answer_of, wrote};
ghost use Rattle.rows.specs.Rows.{scratch_numbers};
ghost use Rattle.sheet.specs.Sheet.{sheet_of};
ghost use Rattle.reason_rules.specs.Reason.{prunes, reason_in, reason_on, reasoned};

use item_fits::EndRows;
use pass_verdict::Verdict;
use sheet_reader::page::Page;
use sheet_required::whole::Sheet;
use slip_reader::claim::Claim;
use varint::Refusal;
use walks::{GOALS, ITEMS};

// Whether the pass on this sheet prunes the item: its verdict is 0, the item is open, and no walk within the limit meets it.
fn is_pruned(sheet: &Sheet, scratch: &mut [u32], item: usize) -> bool
    requires { let s = sheet.now in (length scratch.old ≡ scratch_numbers) × (item < s.header.nodes + s.header.arcs) }
    ensures { let s = sheet.now in result ≡ prunes (sheet_of s.header s.arcs.now s.marks.now) item }
{
    let rows = EndRows::of(sheet);
    let mut room = [0u32; GOALS];
    match pass_verdict::find_verdict(&rows, &mut room, scratch) {
        Verdict::Stands => sheet.mark(item).is_open() && !rows.fits_item(item),
        _ => false,
    }
}

// The answer for an item of a taken sheet: 15, 16, or its slip over the front of `slip`.
fn explain_item(
    sheet: &Sheet,
    scratch: &mut [u32],
    slip: &mut [u8],
    item: u32,
) -> Result<usize, Refusal>
    requires { (length scratch.old ≡ scratch_numbers) × (1200 ≤ length slip.old) }
    ensures { let s = sheet.now in
        let S = sheet_of s.header s.arcs.now s.marks.now in
        record { number = number_in result; length = length_in result; out = slip.new } ≡ wrote (answer_of (reason_in item S [])) slip.old }
{
    if sheet.items() <= item as usize {
        return Err(Refusal::NoItem);
    }
    if !is_pruned(sheet, scratch, item as usize) {
        return Err(Refusal::NotStruck);
    }
    let first = u32::from(Claim::Struck);
    let goals = [item; 1];
    let mut list = [0u32; ITEMS];
    pass::ready_rows(
        &item_fits::sheet_query(sheet),
        &sheet.net(),
        first,
        &goals,
        scratch,
    );
    let n = pass::list_for_sheet(sheet, &goals, scratch, &mut list);
    Ok(slip_writer::write_slip(slip, first, &goals, &list[..n]))
}

// The same with a scratch of its own, which is made no sooner than the sheet is known to be good.
fn explain_taken(sheet: &Sheet, slip: &mut [u8], item: u32) -> Result<usize, Refusal>
    requires { 1200 ≤ length slip.old }
    ensures { let s = sheet.now in
        let S = sheet_of s.header s.arcs.now s.marks.now in
        record { number = number_in result; length = length_in result; out = slip.new } ≡ wrote (answer_of (reason_in item S [])) slip.old }
{
    let mut scratch = [0u32; rows::SCRATCH_NUMBERS];
    explain_item(sheet, &mut scratch, slip, item)
}

// What reason answers to a sheet, for a slip that is long enough: 3 to 13, 15, 16, or the item's slip.
pub fn reason_sheet(sheet: &[u8], slip: &mut [u8], item: u32) -> Result<usize, Refusal>
    requires { 1200 ≤ length slip.old }
    ensures { record { number = number_in result; length = length_in result; out = slip.new }
        ≡ wrote (reason_on sheet.now item) slip.old }
{
    let mut page = Page::empty();
    let taken = page.read(sheet)?;
    explain_taken(&taken, slip, item)
}

// Reason: for every sheet, work, slip and item number what document 01 says, refused ones too.
pub fn reason(sheet: &[u8], work: &mut [u32], slip: &mut [u8], item: u32) -> Result<usize, Refusal>
    ensures { record { number = number_in result; length = length_in result; work = work.new; slip = slip.new }
        ≡ reasoned sheet.now work.old slip.old item }
{
    work::lent(
        work,
        slip,
        |slip: &mut [u8]| reason_sheet(sheet, slip, item),
    )
}
