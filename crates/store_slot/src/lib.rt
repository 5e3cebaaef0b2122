// A slot of the store: a shelved slip with its sheet's limit, and what is asked of it.
//
// A slot may hold any numbers, since a program in C lends the store: its counts are not trusted, and every slot shows some slip.
#![tactic(auto)]

ghost use Rattle.std.specs.Prelude.{◌≡◌, ◌++◌, ◌+◌, ◌≤◌, ◌==◌, min, length, get_or, eqb};
ghost use Rattle.std.specs.List.{list_all};
ghost use Rattle.lists.specs.Lists.{front};
ghost use Rattle.slip_reader.specs.Claim.{claim_number};
ghost use Rattle.slip_reader.specs.Form.{slip_in};
ghost use Rattle.store_rules.specs.Shelf.{subsumes, nogood_of};
ghost use Rattle.store_slot.specs.Slot.{goals_in, reasons_in, shown, empty_slot};
ghost use Rattle.store_slot.specs.Lists.{applies_by};

use slip_reader::SlipForm;
use walks::mark::Mark;

// The most goals and reasons together.
pub const SLOT_ITEMS: usize = 24;

// A shelved slip: its first number, its sheet's limit, how many goals and reasons it has, and the items, goals first. Its counts are plain numbers beside the
// items, and no list: a program in C lends it.
#[repr(C)]
#[derive(Clone, Copy, Debug, PartialEq, Eq)]
pub struct Slot {
    pub first: u32,
    pub limit: u32,
    pub goals: u32,
    pub reasons: u32,
    pub items: [u32; SLOT_ITEMS],
}

// Whether the item has the mark; one past the marks is open.
fn is_marked(marks: &[Mark], item: u32, mark: Mark) -> bool
    ensures { result ≡ eqb (get_or marks.now item 0) mark }
{
    marks.get(item as usize).copied().unwrap_or(Mark::OPEN) == mark
}

// Whether each of the items has the mark.
fn all_marked(marks: &[Mark], items: &[u32], mark: Mark) -> bool
    ensures { result ≡ list_all (λ x. eqb (get_or marks.now x 0) mark) items.now }
{
    items.iter().all(|&item| is_marked(marks, item, mark))
}

// Reads the goals and then the reasons of a slip that is well written over the front of `items`.
fn read_items(form: &SlipForm, items: &mut [u32])
    requires { form.now.goals.count + form.now.reasons.count ≤ length items.old }
    ensures { let s = slip_in form.now in
        items.new ≡ front (s.goals ++ s.reasons) items.old }
{
    let goals = form.goals.count as usize;
    let reasons = form.reasons.count as usize;
    numbers::values_at(form.goals.bytes, 0, goals, items);
    numbers::values_at(form.reasons.bytes, 0, reasons, &mut items[goals..]);
}

impl Slot {
    // A slot that holds nothing. A function and no constant, since a constant promises nothing.
    #[tactic(auto, unfolding(crate::specs::Slot::empty_slot, sheet::specs::Lent::zeros))]
    pub fn empty() -> Slot
        ensures { result ≡ empty_slot }
    {
        Slot {
            first: 0,
            limit: 0,
            goals: 0,
            reasons: 0,
            items: [0; SLOT_ITEMS],
        }
    }

    // The slot of a slip that is well written, with its sheet's limit.
    pub fn of_slip(form: &SlipForm, limit: u32) -> Slot
        requires { (claim_number form.now.claim ≤ 3) × (form.now.goals.count + form.now.reasons.count ≤ 24) }
        ensures { shown result ≡ nogood_of limit (slip_in form.now) }
    {
        let mut items = [0; SLOT_ITEMS];
        read_items(form, &mut items);
        Slot {
            first: u32::from(form.claim),
            limit,
            goals: form.goals.count,
            reasons: form.reasons.count,
            items,
        }
    }

    // How many goals there are, as far as there is room.
    fn goal_count(&self) -> usize
        ensures { result ≡ min self.now.goals 24 }
    {
        (self.goals as usize).min(SLOT_ITEMS)
    }

    // The goals that the slot shows.
    pub fn goals(&self) -> &[u32]
        ensures { result.now ≡ goals_in self.now }
    {
        &self.items[..self.goal_count()]
    }

    // The reasons that the slot shows, behind the goals.
    pub fn reasons(&self) -> &[u32]
        ensures shown { result.now ≡ reasons_in self.now }
        ensures few { length (goals_in self.now) + length (reasons_in self.now) ≤ 24 }
    {
        let behind = &self.items[self.goal_count()..];
        &behind[..(self.reasons as usize).min(behind.len())]
    }

    // The first number that the slot shows.
    #[tactic(auto, unfolding(crate::specs::Slot::shown))]
    pub fn first_number(&self) -> u32
        ensures { result ≡ (shown self.now).first }
    {
        if self.first <= 3 { self.first } else { 0 }
    }

    // Whether it subsumes the other: its goals and reasons are the other's too, and its limit is at least as great.
    pub fn subsumes(&self, other: &Slot) -> bool
        ensures { result ≡ subsumes (shown self.now) (shown other.now) }
    {
        if self.limit < other.limit {
            return false;
        }
        lists::all_listed(self.goals(), other.goals())
            && lists::all_listed(self.reasons(), other.reasons())
    }

    // Whether the slip's reasons are forbidden and its goals mandatory by the marks, and the limit is no greater than its own.
    pub fn applies(&self, marks: &[Mark], limit: u32) -> bool
        ensures { result ≡ applies_by (shown self.now) marks.now limit }
    {
        if self.limit < limit {
            return false;
        }
        all_marked(marks, self.reasons(), Mark::FORBIDDEN)
            && all_marked(marks, self.goals(), Mark::MANDATORY)
    }
}
