// What the tool prints for an item number and a sheet.
#![tactic(auto)]

ghost use Rattle.std.specs.Prelude.{◌≡◌, [], ◌∷◌, ◌+◌, ◌≤◌, ◌<◌, length, take};
ghost use Rattle.lists.specs.Lists.{Put};
ghost use Rattle.sheet.specs.Answer.{finished, answer_of};
ghost use Rattle.sheet.specs.Sheet.{sheet_of};
ghost use Rattle.sheet.specs.Slip.{slip_bytes};
ghost use Rattle.pass_rules.specs.Verdict.{reasons_for, slip_for};
ghost use Rattle.reason_rules.specs.Reason.{reason_on};
ghost use Rattle.cost_rules.specs.Cost.{cost_lines, cost_for, text_of, cost_text};
ghost use Rattle.text_cost.specs.Told.{told_text};

mod display;

use cost_lines::Costs;
use sheet_reader::page::Page;
use sheet_required::whole::Sheet;
use text_answer::Refused;
use varint::{Bytes, Refusal};
use walks::ITEMS;

// What is told of an item number and a sheet: what the closures cost, or a refusal.
#[derive(Debug, Drop)]
pub enum Told {
    Costs(Costs<ITEMS>),
    Refuses(Refusal),
}

impl Told {
    // Writes the lines over the front of `out` and gives their length.
    pub fn put(&self, out: &mut [u8]) -> usize
        requires { length (told_text self.now) ≤ length out.old }
        ensures { Put (told_text self.now) out.old out.new result }
    {
        match self {
            Told::Costs(costs) => costs.put(out),
            Told::Refuses(why) => Refused(u32::from(*why)).put(out),
        }
    }
}

// What is told of an item by the slip for it, with the closures that the slip lists.
fn listed(sheet: &Sheet, item: usize, slip: &[u8]) -> Told
    requires { let s = sheet.now in (item < s.header.nodes + s.header.arcs)
        × (slip_bytes (slip_for (sheet_of s.header s.arcs.now s.marks.now) 4 (item ∷ [])) ≡ slip.now) }
    ensures { let s = sheet.now in
        let S = sheet_of s.header s.arcs.now s.marks.now in
        told_text result ≡ cost_lines S item (reasons_for S (item ∷ [])) }
{
    match slip_reader::judge_slip(slip) {
        Ok(form) => {
            let mut list = [0u32; ITEMS];
            let closures = form.reasons.read(&mut list);
            Told::Costs(cost_lines::weigh(sheet, item, closures))
        }
        // never: reason wrote it
        Err(why) => Told::Refuses(why),
    }
}

// What is told of an item by the slip that reason wrote for it.
fn explained(sheet: &[u8], item: u32, slip: &[u8]) -> Told
    requires { reason_on sheet.now item ≡ finished slip.now }
    ensures { told_text result ≡ text_of (answer_of (cost_for item sheet.now)) }
{
    let mut page = Page::empty();
    match page.read(sheet) {
        Ok(taken) => listed(&taken, item as usize, slip),
        // never: reason has read it
        Err(why) => Told::Refuses(why),
    }
}

// What is told of an item number that was read and the sheet behind it.
fn answered(sheet: &[u8], item: u32) -> Told
    ensures { told_text result ≡ text_of (answer_of (cost_for item sheet.now)) }
{
    let mut slip = [0u8; work::SLIP_BYTES];
    match reason::reason_sheet(sheet, &mut slip, item) {
        Ok(length) => explained(sheet, item, &slip[..length]),
        Err(why) => Told::Refuses(why),
    }
}

// Reads an item number and the sheet behind it, and tells what the closures cost.
pub fn tell_cost(input: &[u8]) -> Told
    ensures { told_text result ≡ cost_text input.now }
{
    let mut bytes = Bytes { rest: input };
    match bytes.take_number() {
        Ok(item) => answered(bytes.rest, item),
        Err(fault) => Told::Refuses(fault),
    }
}

// Reads an item number and the sheet behind it, writes what the closures cost over the front of `out` and gives the text's length. The last clause follows
// from the first; it lets a caller take that part of `out` with no proof of its own.
pub fn report_cost(input: &[u8], out: &mut [u8]) -> usize
    requires { 8192 ≤ length out.old }
    ensures text_in_front { Put (cost_text input.now) out.old out.new result }
    ensures length_inside { (result ≤ length out.new) × (result ≡ length (take result out.new)) }
{
    tell_cost(input).put(out)
}
