// The operation check (docs/FORMATS.md, 'The slip'): whether the list of a slip is a reason for its goals.
#![tactic(auto)]

ghost use Rattle.std.specs.Prelude.{◌≡◌, ◌||◌, [], ◌+◌, ◌≤◌, ltb, length, IfOk, IfErr};
ghost use Rattle.varint.specs.Refusal.{number_of, number_in};
ghost use Rattle.varint.specs.Varint.{got, refuse, after};
ghost use Rattle.sheet.specs.Slip.{read_slip};
ghost use Rattle.sheet.specs.Sheet.{sheet_of};
ghost use Rattle.slip_reader.specs.Form.{slip_in};
ghost use Rattle.check_rules.specs.Check.{judged_on, check_on, yes_in, checked};

use rows::net::Net;
use sheet_reader::page::Page;
use sheet_required::whole::Sheet;
use slip_reader::SlipForm;
use varint::Refusal;
use walks::{GOALS, ITEMS};

// Judges the goals and the reasons of a slip: 18, or yes or no.
fn answer_lists(sheet: &Sheet, form: &SlipForm, scratch: &mut [u32]) -> Result<bool, Refusal>
    requires scratch_long { 3072 ≤ length scratch.old }
    requires lists_short { let h = sheet.now.header in (form.now.goals.count ≤ 8) × (form.now.reasons.count ≤ h.nodes + h.arcs) }
    ensures judged { let s = sheet.now in
        let S = sheet_of s.header s.arcs.now s.marks.now in IfOk result (λ answer. judged_on S (slip_in form.now) [] ≡ got answer []) }
    ensures refused { let s = sheet.now in
        let S = sheet_of s.header s.arcs.now s.marks.now in
        IfErr result (λ why. judged_on S (slip_in form.now) [] ≡ refuse (number_of why)) }
{
    let mut goal_list = [0u32; GOALS];
    let mut reason_list = [0u32; ITEMS];
    let goals = form.goals.read(&mut goal_list);
    let reasons = form.reasons.read(&mut reason_list);
    let first = u32::from(form.claim);
    if !check_claim::well_formed(sheet.header, first, goals, reasons) {
        return Err(Refusal::BadClaim);
    }
    if !check_claim::kinds_hold(sheet, first, goals, reasons) {
        return Ok(false);
    }
    let closed = closed_marks::closing(reasons);
    let net = Net {
        nodes: sheet.header.nodes,
        arcs: sheet.arcs,
        marks: &closed,
    };
    Ok(!item_fits::fits_goals(&item_fits::sheet_query(sheet), &net, goals, scratch))
}

// Whether a slip has more goals or reasons than any that is well formed.
fn too_long(sheet: &Sheet, form: &SlipForm) -> bool
    ensures { let h = sheet.now.header in result ≡ (ltb 8 form.now.goals.count || ltb (h.nodes + h.arcs) form.now.reasons.count) }
{
    form.goals.count as usize > GOALS || form.reasons.count as usize > sheet.items()
}

// Judges a slip against a sheet that was taken: 17, 18, or yes or no. A list that is longer than any that is well formed is not read.
#[tactic(auto, unfolding(varint::specs::Varint::after))]
pub fn answer_slip(sheet: &Sheet, slip: &[u8], scratch: &mut [u32]) -> Result<bool, Refusal>
    requires { 3072 ≤ length scratch.old }
    ensures judged { let s = sheet.now in
        let S = sheet_of s.header s.arcs.now s.marks.now in
        IfOk result (λ answer. after (read_slip slip.now) (judged_on S) ≡ got answer []) }
    ensures refused { let s = sheet.now in
        let S = sheet_of s.header s.arcs.now s.marks.now in
        IfErr result (λ why. after (read_slip slip.now) (judged_on S) ≡ refuse (number_of why)) }
{
    let form = slip_reader::judge_slip(slip)?;
    if too_long(sheet, &form) {
        return Err(Refusal::BadClaim);
    }
    answer_lists(sheet, &form, scratch)
}

// The same with a scratch of its own, which is made no sooner than the sheet is known to be good.
pub fn answer_taken(sheet: &Sheet, slip: &[u8]) -> Result<bool, Refusal>
    ensures judged { let s = sheet.now in
        let S = sheet_of s.header s.arcs.now s.marks.now in
        IfOk result (λ answer. after (read_slip slip.now) (judged_on S) ≡ got answer []) }
    ensures refused { let s = sheet.now in
        let S = sheet_of s.header s.arcs.now s.marks.now in
        IfErr result (λ why. after (read_slip slip.now) (judged_on S) ≡ refuse (number_of why)) }
{
    let mut scratch = [0u32; rows::SCRATCH_NUMBERS];
    answer_slip(sheet, slip, &mut scratch)
}

// What check answers to a sheet and a slip: 3 to 13 for the sheet, then 17 and 18 for the slip; yes or no.
#[tactic(auto, unfolding(check_rules::specs::Check::check_on, varint::specs::Varint::after))]
pub fn check_sheet(sheet: &[u8], slip: &[u8]) -> Result<bool, Refusal>
    ensures judged { IfOk result (λ answer. check_on sheet.now slip.now ≡ got answer []) }
    ensures refused { IfErr result (λ why. check_on sheet.now slip.now ≡ refuse (number_of why)) }
{
    let mut page = Page::empty();
    let taken = page.read(sheet)?;
    answer_taken(&taken, slip)
}

// Check: its answer for every sheet, work and slip, refused ones too.
pub fn check(sheet: &[u8], work: &mut [u32], slip: &[u8]) -> Result<bool, Refusal>
    ensures { record { number = number_in result; yes = yes_in result; work = work.new } ≡ checked sheet.now work.old slip.now }
{
    work::lent_work(work, || check_sheet(sheet, slip))
}
