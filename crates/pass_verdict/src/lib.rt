// The verdict on a sheet: its round stands, or what no walk within the limit meets.
#![tactic(auto)]

ghost use Rattle.std.specs.Prelude.{◌≡◌, true, [], ◌+◌, ◌≤◌, ◌<◌, length, slice_get};
ghost use Rattle.sheet.specs.Sheet.{sheet_of};
ghost use Rattle.pass_rules.specs.Verdict.{fits_sheet, unmet};
ghost use Rattle.pass_verdict.specs.VerdictFound.{goals_of, number_of_verdict, VerdictFound};

use item_fits::EndRows;
use sheet_required::whole::Sheet;
use std::slice;

// What a pass finds of a sheet.
#[derive(Clone, Copy, Debug, PartialEq, Eq)]
pub enum Verdict<'a> {
    // Some walk within the limit meets all that it has to meet.
    Stands,
    // No walk keeps within the limit, whatever it meets.
    NoWay,
    // No such walk meets this item, the lowest of the mandatory ones that none meets.
    Unmet(u32),
    // Some such walk meets each of the mandatory items, but none meets these, the required ones, all at once.
    Apart(&'a [u32]),
}

impl<'a> Verdict<'a> {
    // Its number, the first of the slip.
    pub fn number(&self) -> u32
        ensures { result ≡ number_of_verdict self.now }
    {
        match self {
            Verdict::Stands => 0,
            Verdict::NoWay => 1,
            Verdict::Unmet(_) => 2,
            Verdict::Apart(_) => 3,
        }
    }

    // What no walk meets.
    pub fn goals(&self) -> &[u32]
        ensures { result.now ≡ goals_of self.now }
    {
        match self {
            Verdict::Stands => &[],
            Verdict::NoWay => &[],
            Verdict::Unmet(item) => slice::from_ref(item),
            Verdict::Apart(goals) => goals,
        }
    }
}

// The lowest mandatory item that no walk meets, if there is one.
fn first_unmet(rows: &EndRows) -> Option<u32>
    ensures { let s = rows.now.sheet in result ≡ slice_get (unmet (sheet_of s.header s.arcs.now s.marks.now)) 0 }
{
    for (item, &mark) in rows.sheet.marks.iter().enumerate() {
        if mark.is_mandatory() && !rows.fits_item(item) {
            return Some(item as u32);
        }
    }
    None
}

// The verdict where each mandatory item is met: the required items stand in front of `room` where no walk meets them together.
fn judge_together<'a>(sheet: &Sheet, room: &'a mut [u32], scratch: &mut [u32]) -> Verdict<'a>
    requires room_long { (length room.old ≡ 8) × (3072 ≤ length scratch.old) }
    requires fits_and_each_must_met { let s = sheet.now in
        let S = sheet_of s.header s.arcs.now s.marks.now in (fits_sheet S [] ≡ true) × (unmet S ≡ []) }
    ensures { let s = sheet.now in VerdictFound s.header s.arcs.now s.marks.now result scratch.new }
{
    let count = sheet_required::required_items(sheet.header, &sheet.arcs, sheet.marks, room);
    let goals = &room[..count];
    let query = item_fits::sheet_query(sheet);
    if count == 0 || item_fits::fits_goals(&query, &sheet.net(), goals, scratch) {
        return Verdict::Stands;
    }
    Verdict::Apart(goals)
}

// The verdict on a sheet. Required items that no walk meets together lie in `room`, and their rows in the scratch.
pub fn find_verdict<'a>(rows: &EndRows, room: &'a mut [u32], scratch: &mut [u32]) -> Verdict<'a>
    requires { (length room.old ≡ 8) × (3072 ≤ length scratch.old) }
    ensures { let s = rows.now.sheet in VerdictFound s.header s.arcs.now s.marks.now result scratch.new }
{
    if !rows.fits_some() {
        return Verdict::NoWay;
    }
    if let Some(item) = first_unmet(rows) {
        return Verdict::Unmet(item);
    }
    judge_together(&rows.sheet, room, scratch)
}
