// The store for a program in C, by value: put with the work lent as bytes, and ask with the slip written. What C calls is in the crate `planner_c`.
#![tactic(auto)]

ghost use Rattle.std.specs.Prelude.{◌≡◌, ◌+◌, ◌*◌, ◌≤◌, length};
ghost use Rattle.lists.specs.Lists.{Put};
ghost use Rattle.varint.specs.Refusal.{number_in, length_in};
ghost use Rattle.sheet.specs.Slip.{slip_bytes};
ghost use Rattle.store_rules.specs.Shelf.{slip_of};
ghost use Rattle.store_slot.specs.Slot.{shown};
ghost use Rattle.store.specs.Held.{shelf_of};
ghost use Rattle.store_bytes.specs.Bytes.{put_bytes, ask_bytes};
ghost use Rattle.store_bytes.specs.Named.{Named};

use store::Store;
use store_slot::Slot;
use varint::Refusal;

// Put over bytes: the one number of the call, and the store.
pub fn put_bytes(store: Store, sheet: &[u8], work: &mut [u8], slip: &[u8]) -> (u32, Store)
    ensures { (record { number = result.0; shelf = shelf_of result.1; work = work.new }
        ≡ put_bytes (shelf_of store) sheet.now work.old slip.now)
        × (shelf_of result.1 ≡ shelf_of store → result.1 ≡ store) }
{
    // not by `lent_work`: of a store that a call changes, a proof learns nothing
    match work::enough_work(work) {
        Ok(()) => {
            let answer = store.put_sheet(sheet, slip);
            let number = work::number(&answer.outcome);
            work::leave(work, number);
            (work::one_number(number, 0), answer.store)
        }
        Err(why) => (work::one_number(u32::from(why), 0), store),
    }
}

// Writes the slip that a slot shows over the front of `slip` and gives its length.
fn write_slot(slip: &mut [u8], slot: &Slot) -> usize
    requires { Named (shown slot.now) × (1200 ≤ length slip.old) }
    ensures { Put (slip_bytes (slip_of (shown slot.now))) slip.old slip.new result × (result ≤ 51) }
{
    slip_writer::write_slip(slip, slot.first_number(), slot.goals(), slot.reasons())
}

// What ask answers: the length of the slip that was found and is written over the front of `slip`, or 0 where none applies.
fn ask_into(store: &Store, sheet: &[u8], slip: &mut [u8]) -> Result<usize, Refusal>
    ensures told { record { number = 65536 * number_in result + length_in result; slip = slip.new } ≡ ask_bytes (shelf_of store.now) sheet.now slip.old }
    ensures small { (number_in result ≤ 27) × (length_in result ≤ 65535) }
{
    // not by `lent`: no work is lent
    work::enough_slip(slip)?;
    let found = store.ask(sheet)?;
    match found {
        Some(slot) => Ok(write_slot(slip, &slot)),
        None => Ok(0),
    }
}

// Ask over bytes: where a slip applies it is written over the front of `slip`.
pub fn ask_bytes(store: &Store, sheet: &[u8], slip: &mut [u8]) -> u32
    ensures { record { number = result; slip = slip.new } ≡ ask_bytes (shelf_of store.now) sheet.now slip.old }
{
    work::one_number_of(ask_into(store, sheet, slip))
}
