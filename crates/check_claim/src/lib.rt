// What a slip says of a sheet (docs/FORMATS.md, 'The slip'): whether its goals and reasons are well formed and of their kinds on the sheet.
#![tactic(auto)]

ghost use Rattle.std.specs.Prelude.{◌≡◌, true, ◌&&◌, ◌+◌, ◌≤◌, ◌<◌, get_or, eqb, ltb};
ghost use Rattle.lists.specs.Lists.{member, every, ascends};
ghost use Rattle.walks.specs.Graph.{item_count};
ghost use Rattle.sheet.specs.Sheet.{Sheet as Plan, is_forbidden, required, sheet_of};
ghost use Rattle.slip_reader.specs.Form.{slip_from};
ghost use Rattle.check_rules.specs.Check.{goal_count, well_formed, is_goal};

pub mod item;

use crate::item::Item;
use sheet::Header;
use sheet_required::whole::Sheet;
use walks::GOALS;
use walks::mark::Mark;

// The mark of an item, open where there is none.
fn mark_of(marks: &[Mark], item: usize) -> Mark
    ensures { result ≡ get_or marks.now item 0 }
{
    marks.get(item).copied().unwrap_or(Mark::OPEN)
}

// Whether each of the items has the mark.
pub fn all_marked<I: Item>(marks: &[Mark], items: &[I], mark: Mark) -> bool
    ensures { result ≡ every (λ x. eqb (get_or marks.now x 0) mark) (I.numbers items.now) }
{
    items
        .iter()
        .all(|&item| mark_of(marks, item.index()) == mark)
}

// Whether a slip with this first number, which may be any, may have so many goals.
#[tactic(auto, unfolding(check_rules::specs::Check::goal_count))]
fn count_fits(first: u32, count: usize) -> bool
    ensures { result ≡ goal_count first count }
{
    match first {
        1 => count == 0,
        3 => 1 <= count && count <= GOALS,
        _ => count == 1,
    }
}

// Whether the items are below the bound.
fn below<I: Item>(items: &[I], bound: usize) -> bool
    ensures { result ≡ every (λ i. ltb i bound) (I.numbers items.now) }
{
    items.iter().all(|&item| item.index() < bound)
}

// Whether the items are strictly ascending.
fn rising<I: Item>(items: &[I]) -> bool
    ensures { result ≡ ascends (I.numbers items.now) }
{
    items.is_sorted_by(|&x, &y| x.index() < y.index())
}

// Whether the items are below the bound and strictly ascending.
fn rising_below<I: Item>(items: &[I], bound: usize) -> bool
    ensures { let numbers = I.numbers items.now in result ≡ (every (λ i. ltb i bound) numbers && ascends numbers) }
{
    below(items, bound) && rising(items)
}

// What 18 asks: known items, goals and reasons strictly ascending, the goal count.
pub fn well_formed<I: Item>(header: Header, first: u32, goals: &[I], reasons: &[I]) -> bool
    requires { (header.nodes ≤ 64) × (header.arcs ≤ 512) }
    ensures { let s = slip_from first (I.numbers goals.now) (I.numbers reasons.now) in
        ((S : Plan) → item_count S.graph ≡ header.nodes + header.arcs → result ≡ well_formed S s) }
{
    let items = header.nodes + header.arcs;
    rising_below(goals, items) && rising_below(reasons, items) && count_fits(first, goals.len())
}

// Whether the list has the number.
fn is_listed(number: usize, list: &[u32]) -> bool
    ensures { result ≡ member number list.now }
{
    list.iter().any(|&entry| entry as usize == number)
}

// Whether each of the goals is a required item.
fn all_required<I: Item>(sheet: &Sheet, goals: &[I]) -> bool
    ensures { let s = sheet.now in
        result ≡ every (λ x. member x (required (sheet_of s.header s.arcs.now s.marks.now))) (I.numbers goals.now) }
{
    let mut items = [0u32; GOALS];
    let count = sheet_required::required_items(sheet.header, &sheet.arcs, sheet.marks, &mut items);
    let required = &items[..count];
    goals.iter().all(|&goal| is_listed(goal.index(), required))
}

// Whether the goals are as the first number says: mandatory for 2, required for 3, else open.
#[tactic(auto, unfolding(check_rules::specs::Check::is_goal, sheet::specs::Sheet::is_mandatory, sheet::specs::Sheet::is_open, sheet::specs::Sheet::mark_of))]
fn goals_hold<I: Item>(sheet: &Sheet, first: u32, goals: &[I]) -> bool
    ensures { let s = sheet.now in
        result ≡ every (is_goal (sheet_of s.header s.arcs.now s.marks.now) first) (I.numbers goals.now) }
{
    match first {
        2 => all_marked(sheet.marks, goals, Mark::MANDATORY),
        3 => all_required(sheet, goals),
        _ => all_marked(sheet.marks, goals, Mark::OPEN),
    }
}

// Whether every reason is forbidden on the sheet, and the goals are as the first number says.
#[tactic(auto, unfolding(sheet::specs::Sheet::is_forbidden))]
pub fn kinds_hold<I: Item>(sheet: &Sheet, first: u32, goals: &[I], reasons: &[I]) -> bool
    ensures { let s = sheet.now in
        let S = sheet_of s.header s.arcs.now s.marks.now in
        result ≡ (every (is_forbidden S) (I.numbers reasons.now) && every (is_goal S first) (I.numbers goals.now)) }
{
    all_marked(sheet.marks, reasons, Mark::FORBIDDEN) && goals_hold(sheet, first, goals)
}
