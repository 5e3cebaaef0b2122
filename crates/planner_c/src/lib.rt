// What a program in C calls of the planner's layer: each export calls the function of the same name in `planner`, with its clauses.
#![tactic(auto)]

ghost use Rattle.std.specs.Prelude.{◌≡◌};
ghost use Rattle.planner.specs.Layer.{passed_bytes, reasoned_bytes};
ghost use Rattle.planner.specs.Check.{checked_bytes};
ghost use Rattle.planner.specs.Write.{written_number};
ghost use Rattle.sheet.specs.Draft.{draft_of};
ghost use Rattle.store.specs.Held.{shelf_of, empty_store};
ghost use Rattle.store_bytes.specs.Bytes.{put_bytes, ask_bytes};

use store::Store;

// Pass for a program in C.
#[unsafe(no_mangle)]
pub extern "C" fn ways_pass(sheet: &[u8], work: &mut [u8], slip: &mut [u8]) -> u32
    ensures { record { number = result; work = work.new; slip = slip.new }
        ≡ passed_bytes sheet.now work.old slip.old }
{
    planner::ways_pass(sheet, work, slip)
}

// Reason for a program in C.
#[unsafe(no_mangle)]
pub extern "C" fn ways_reason(sheet: &[u8], work: &mut [u8], slip: &mut [u8], item: u32) -> u32
    ensures { record { number = result; work = work.new; slip = slip.new }
        ≡ reasoned_bytes sheet.now work.old slip.old item }
{
    planner::ways_reason(sheet, work, slip, item)
}

// Check for a program in C.
#[unsafe(no_mangle)]
pub extern "C" fn ways_check(sheet: &[u8], work: &mut [u8], slip: &[u8]) -> u32
    ensures { record { number = result; work = work.new } ≡ checked_bytes sheet.now work.old slip.now }
{
    planner::ways_check(sheet, work, slip)
}

// Writes a sheet for a program in C.
#[unsafe(no_mangle)]
pub extern "C" fn ways_write(
    n: u32,
    m: u32,
    start: u32,
    finish: u32,
    limit: u32,
    legs: &[u32],
    marks: &[u8],
    services: &[u32],
    sheet: &mut [u8],
) -> u32
    ensures { let d = draft_of (record { nodes = n; arcs = m; source = start; target = finish; limit = limit })
        legs.now marks.now services.now in
        record { number = result; out = sheet.new } ≡ written_number d sheet.old }
{
    planner::ways_write(n, m, start, finish, limit, legs, marks, services, sheet)
}

// Put for a program in C: the store itself is lent and holds the change afterwards.
#[unsafe(no_mangle)]
pub extern "C" fn ways_store_put(
    store: &mut Store,
    sheet: &[u8],
    work: &mut [u8],
    slip: &[u8],
) -> u32
    ensures { (record { number = result; shelf = shelf_of store.new; work = work.new }
        ≡ put_bytes (shelf_of store.old) sheet.now work.old slip.now)
        × (shelf_of store.new ≡ shelf_of store.old → store.new ≡ store.old) }
{
    planner::ways_store_put(store, sheet, work, slip)
}

// Ask for a program in C: the store is lent, only to be read.
#[unsafe(no_mangle)]
pub extern "C" fn ways_store_ask(store: &Store, sheet: &[u8], slip: &mut [u8]) -> u32
    ensures { record { number = result; slip = slip.new } ≡ ask_bytes (shelf_of store.now) sheet.now slip.old }
{
    planner::ways_store_ask(store, sheet, slip)
}

// The store that is lent holds nothing afterwards.
#[unsafe(no_mangle)]
pub extern "C" fn ways_store_empty(store: &mut Store)
    ensures { store.new ≡ empty_store }
{
    planner::ways_store_empty(store)
}
