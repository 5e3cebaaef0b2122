// The nogood store by value: slips of refused rounds, kept for later sheets of one map with its service minutes, start and finish (docs/FORMATS.md, 'A shelf of
// reasons').
//
// A program in C lends the store, so it may hold any numbers: no count in it is trusted, and every store shows some shelf (`shelf_of`).
#![tactic(auto)]

ghost use Rattle.std.specs.Prelude.{◌≡◌, ◌&&◌, ◌+◌, ◌*◌, ◌≤◌, ◌<◌, ◌↔◌, length, leb, take, option_map, IsTrue};
ghost use Rattle.std.specs.List.{find, list_any};
ghost use Rattle.lists.specs.Lists.{front};
ghost use Rattle.varint.specs.Refusal.{number_in};
ghost use Rattle.walks.specs.Flat.{flat};
ghost use Rattle.sheet.specs.Sheet.{sheet_of};
ghost use Rattle.sheet.specs.Slip.{read_slip};
ghost use Rattle.slip_reader.specs.Claim.{claim_number};
ghost use Rattle.store_rules.specs.Shelf.{fits_base, subsumes};
ghost use Rattle.store_rules.specs.Store.{put_on, put, ask};
ghost use Rattle.store_slot.specs.Slot.{shown};
ghost use Rattle.store_slot.specs.Lists.{applies_by};
ghost use Rattle.store.specs.Held.{base_from, held_in, shelf_of, empty_store, found_in};
ghost use Rattle.store.specs.Steps.{PutAs, entered_on, Rest, Based, Added, Slotted, Judges};

use sheet_reader::page::{Page, ServicedSheet};
use sheet_required::whole::Sheet;
use slip_reader::{Claim, SlipForm};
use store_slot::{SLOT_ITEMS, Slot};
use varint::Refusal;
use walks::arc::Arc;
use walks::mark::Mark;
use walks::{ARC_NUMBERS, ARCS, NODES};

// The most slips.
pub const SLOTS: usize = 64;

// How many slips there are, earliest put first, and the map, start and finish that they are for: nodes, arcs, source, target; tail, head and weight of each
// arc, where a weight is the arc's minutes and the service minutes of its head; and the service minutes of each node. All plain numbers, since a program in C
// lends it.
#[repr(C)]
#[derive(Clone, Copy, Debug, PartialEq, Eq)]
pub struct Store {
    pub count: u32,
    pub nodes: u32,
    pub arcs: u32,
    pub source: u32,
    pub target: u32,
    pub legs: [u32; ARC_NUMBERS],
    pub services: [u32; NODES],
    pub slots: [Slot; SLOTS],
}

// What put gives: the store, and whether the call finished.
#[derive(Clone, Copy, Debug, PartialEq, Eq)]
pub struct Putting {
    pub store: Store,
    pub outcome: Result<(), Refusal>,
}

// Whether a slip is one of a refused round and has at most 24 goals and reasons.
fn fits_slot(form: &SlipForm) -> bool
    ensures { result ≡ (leb (claim_number form.now.claim) 3 && leb (form.now.goals.count + form.now.reasons.count) 24) }
{
    form.claim != Claim::Struck
        && form.goals.count as usize + form.reasons.count as usize <= SLOT_ITEMS
}

// The slot of a slip that check says yes to, on a sheet with this limit.
fn slot_of(slip: &[u8], limit: u32) -> Result<Slot, Refusal>
    ensures { Slotted limit (read_slip slip.now) result }
{
    let form = slip_reader::judge_slip(slip)?;
    if !fits_slot(&form) {
        return Err(Refusal::NotShelved);
    }
    Ok(Slot::of_slip(&form, limit))
}

// Judges a slip against a sheet that was taken: 17, 18 and 20, whatever the store; or the slot that is to be put.
fn judge(sheet: &Sheet, slip: &[u8]) -> Result<Slot, Refusal>
    ensures { let S = sheet_of sheet.now.header sheet.now.arcs.now sheet.now.marks.now in Judges S slip.now result }
{
    let yes = checker::answer_taken(sheet, slip)?;
    if !yes {
        return Err(Refusal::NotShelved);
    }
    slot_of(slip, sheet.header.limit)
}

// Whether the numbers are the arcs', tail, head and weight of each.
fn same_legs(arcs: &[Arc], legs: &[u32]) -> bool
    requires { length arcs.now ≤ 512 }
    ensures { IsTrue result ↔ (legs.now ≡ flat arcs.now) }
{
    if legs.len() != 3 * arcs.len() {
        return false;
    }
    for i in 0..arcs.len() {
        let leg = Arc {
            tail: legs[i * 3],
            head: legs[i * 3 + 1],
            weight: legs[i * 3 + 2],
        };
        if leg != arcs[i] {
            return false;
        }
    }
    true
}

// Puts the numbers over the front of those that are kept. A loop, since the library's copy of a slice would have the archive for C ask for `memmove`.
fn write_front(kept: &mut [u32], numbers: &[u32])
    requires { length numbers.now ≤ length kept.old }
    ensures { kept.new ≡ front numbers.now kept.old }
{
    for i in 0..numbers.len() {
        kept[i] = numbers[i];
    }
}

// Puts the arcs over the front of the numbers, tail, head and weight of each.
fn put_legs(arcs: &[Arc], legs: &mut [u32])
    requires { 3 * length arcs.now ≤ length legs.old }
    ensures { legs.new ≡ front (flat arcs.now) legs.old }
{
    for i in 0..arcs.len() {
        let arc = arcs[i];
        legs[i * 3] = arc.tail;
        legs[i * 3 + 1] = arc.head;
        legs[i * 3 + 2] = arc.weight;
    }
}

impl Store {
    // A store that holds nothing. A function and no constant, since a constant promises nothing.
    #[tactic(auto, unfolding(crate::specs::Held::empty_store, crate::specs::Held::empty_slots, sheet::specs::Lent::zeros))]
    pub fn empty() -> Store
        ensures { result ≡ empty_store }
    {
        Store {
            count: 0,
            nodes: 0,
            arcs: 0,
            source: 0,
            target: 0,
            legs: [0; ARC_NUMBERS],
            services: [0; NODES],
            slots: [Slot::empty(); SLOTS],
        }
    }

    // The slots that count.
    pub fn slips(&self) -> &[Slot]
        ensures { result.now ≡ held_in self.now }
    {
        &self.slots[..(self.count as usize).min(SLOTS)]
    }

    // The legs of the arcs that count.
    pub fn legs(&self) -> &[u32]
        ensures { result.now ≡ take (3 * self.now.arcs) self.now.legs }
    {
        let arcs = (self.arcs as usize).min(ARCS);
        &self.legs[..3 * arcs]
    }

    // The service minutes of the nodes that count.
    pub fn services(&self) -> &[u32]
        ensures { result.now ≡ take self.now.nodes self.now.services }
    {
        &self.services[..(self.nodes as usize).min(NODES)]
    }

    // Whether the store's map, service minutes, source and target are those of a sheet.
    fn same_base(&self, taken: &ServicedSheet) -> bool
        ensures { let h = taken.now.sheet.header in let s = self.now in
            IsTrue result ↔ ((s.nodes ≡ h.nodes) × (s.source ≡ h.source) × (s.target ≡ h.target)
            × (take s.nodes s.services ≡ taken.now.services.now) × (take (3 * s.arcs) s.legs ≡ flat taken.now.sheet.arcs.now)) }
    {
        self.nodes as usize == taken.sheet.header.nodes
            && self.source as usize == taken.sheet.header.source
            && self.target as usize == taken.sheet.header.target
            && self.services() == taken.services
            && same_legs(taken.sheet.arcs, self.legs())
    }

    // Whether a sheet may be put on the store or asked of it: the store has no slip, or is for the sheet's map, service minutes, source and target.
    fn fits_base(&self, taken: &ServicedSheet) -> bool
        ensures { result ≡ fits_base (shelf_of self.now) (base_from taken.now.sheet.header taken.now.sheet.arcs.now taken.now.services.now) }
    {
        self.count == 0 || self.same_base(taken)
    }

    // Whether some slip of the store subsumes the newcomer.
    fn some_subsumes(&self, slot: &Slot) -> bool
        ensures { result ≡ list_any (λ k. subsumes (shown k) (shown slot.now)) (held_in self.now) }
    {
        self.slips().iter().any(|kept| kept.subsumes(slot))
    }

    // Leaves out the slips that the newcomer subsumes; the others move up, in their order. What stands in the slots behind them is free.
    fn remove_subsumed(&mut self, slot: &Slot)
        ensures { Rest self.old slot.now self.new }
    {
        let count = self.slips().len();
        let mut left: usize = 0;
        for i in 0..count {
            let kept = self.slots[i];
            if !slot.subsumes(&kept) {
                self.slots[left] = kept;
                left += 1;
            }
        }
        self.count = left as u32;
    }

    // Takes a sheet's map, service minutes, source and target.
    fn set_base(&mut self, taken: &ServicedSheet)
        ensures { Based self.old (base_from taken.now.sheet.header taken.now.sheet.arcs.now taken.now.services.now) self.new }
    {
        self.nodes = taken.sheet.header.nodes as u32;
        self.arcs = taken.sheet.header.arcs as u32;
        self.source = taken.sheet.header.source as u32;
        self.target = taken.sheet.header.target as u32;
        put_legs(taken.sheet.arcs, &mut self.legs);
        write_front(&mut self.services, taken.services);
    }

    // Puts the newcomer behind the slips.
    fn push(&mut self, slot: &Slot)
        requires { self.old.count < 64 }
        ensures { Added self.old slot.now self.new }
    {
        self.slots[self.count as usize] = *slot;
        self.count += 1;
    }

    // Puts a newcomer on the store: 22, another map, other service minutes, another source or target; nothing is changed where it is subsumed; 23, there is no
    // room. A function of its own in the compiled code too, so that its copy of the store is not on the stack while check runs.
    #[inline(never)]
    fn enter(&mut self, taken: &ServicedSheet, slot: &Slot) -> Result<(), Refusal>
        ensures { let base = base_from taken.now.sheet.header taken.now.sheet.arcs.now taken.now.services.now in
            PutAs self.old (entered_on (shelf_of self.old) base (shown slot.now)) self.new result }
    {
        if !self.fits_base(taken) {
            return Err(Refusal::OtherMap);
        }
        if self.some_subsumes(slot) {
            return Ok(());
        }
        let before = *self;
        self.remove_subsumed(slot);
        if self.count as usize >= SLOTS {
            *self = before;
            return Err(Refusal::Full);
        }
        self.set_base(taken);
        self.push(slot);
        Ok(())
    }

    // Puts the slip of a sheet's refused round on the store: 3 to 13 for the sheet, 17 and 18 for the slip, 20, 22, 23.
    fn take(&mut self, sheet: &[u8], slip: &[u8]) -> Result<(), Refusal>
        ensures { PutAs self.old (put_on (shelf_of self.old) sheet.now slip.now) self.new result }
    {
        let mut page = Page::empty();
        let taken = page.read_serviced(sheet)?;
        let slot = judge(&taken.sheet, slip)?;
        self.enter(&taken, &slot)
    }

    // What put answers to a sheet and a slip.
    pub fn put_sheet(mut self, sheet: &[u8], slip: &[u8]) -> Putting
        ensures { PutAs self (put_on (shelf_of self) sheet.now slip.now) result.store result.outcome }
    {
        let outcome = self.take(sheet, slip);
        Putting {
            store: self,
            outcome,
        }
    }

    // Put: for every store, sheet, work and slip, refused ones too. Where the shelf is as it was, so is every number of the store; what a finished call leaves
    // in slots past the count, and in numbers past the end of a list, the arcs or the service minutes, is free.
    pub fn put(self, sheet: &[u8], work: &mut [u32], slip: &[u8]) -> Putting
        ensures { (record { number = number_in result.outcome; shelf = shelf_of result.store; work = work.new }
            ≡ put (shelf_of self) sheet.now work.old slip.now)
            × (shelf_of result.store ≡ shelf_of self → result.store ≡ self) }
    {
        // not by `lent_work`: of a store that a call changes, a proof learns nothing
        match work::enough_work(work) {
            Ok(()) => {
                let answer = self.put_sheet(sheet, slip);
                work::leave(work, work::number(&answer.outcome));
                answer
            }
            Err(why) => Putting {
                store: self,
                outcome: Err(why),
            },
        }
    }

    // The earliest put slip that applies by the marks and the limit.
    fn first_applying(&self, marks: &[Mark], limit: u32) -> Option<&Slot>
        ensures { option_map (λ k. k.now) result ≡ find (λ k. applies_by (shown k) marks.now limit) (held_in self.now) }
    {
        self.slips().iter().find(|kept| kept.applies(marks, limit))
    }

    // Ask: for every store and sheet, refused ones too: the earliest put slip that applies to the sheet, if one does. What its slot holds past its lists is
    // free.
    pub fn ask(&self, sheet: &[u8]) -> Result<Option<Slot>, Refusal>
        ensures { record { number = number_in result; found = found_in result } ≡ ask (shelf_of self.now) sheet.now }
    {
        let mut page = Page::empty();
        let taken = page.read_serviced(sheet)?;
        if !self.fits_base(&taken) {
            return Err(Refusal::OtherMap);
        }
        Ok(
            self.first_applying(taken.sheet.marks, taken.sheet.header.limit)
                .copied(),
        )
    }
}
