// The planner's layer: the operations with numbers and slices alone, and their refusals as one number. What a program in C calls are the functions of the
// same names in `planner_c`, which call these.
//
// The work is lent as bytes, four per number, low byte first. What its numbers hold has no effect on an answer, and an operation leaves them as found or zero;
// so each call lends the operation nothing of them, and the bytes are left as found or zeroed by the same rule. That this is what copying the bytes in and
// the numbers out would give are the laws `pass_copied`, `reason_copied` and `check_copied`.
#![tactic(auto)]

ghost use Rattle.std.specs.Prelude.{◌≡◌};
ghost use Rattle.varint.specs.Refusal.{number_in, length_in};
ghost use Rattle.planner.specs.Layer.{passed_bytes, reasoned_bytes};
ghost use Rattle.check_rules.specs.Check.{yes_in};
ghost use Rattle.planner.specs.Check.{yes_number, checked_bytes};
ghost use Rattle.planner.specs.Write.{written_number};
ghost use Rattle.sheet.specs.Draft.{draft_of};
ghost use Rattle.store.specs.Held.{shelf_of, empty_store};
ghost use Rattle.store_bytes.specs.Bytes.{put_bytes, ask_bytes};

use sheet::Header;
use sheet_writer::Draft;
use store::Store;
use varint::Refusal;

// What check answers as a length: 1 for yes.
fn counted(answer: Result<bool, Refusal>) -> Result<usize, Refusal>
    ensures number { number_in result ≡ number_in answer }
    ensures length { length_in result ≡ yes_number (yes_in answer) }
{
    Ok(usize::from(answer?))
}

// Pass with the work lent as bytes: the one number of the call.
pub fn ways_pass(sheet: &[u8], work: &mut [u8], slip: &mut [u8]) -> u32
    ensures { record { number = result; work = work.new; slip = slip.new }
        ≡ passed_bytes sheet.now work.old slip.old }
{
    let answer = work::lent(work, slip, |slip: &mut [u8]| pass::pass_sheet(sheet, slip));
    work::one_number_of(answer)
}

// Reason with the work lent as bytes: the one number of the call.
pub fn ways_reason(sheet: &[u8], work: &mut [u8], slip: &mut [u8], item: u32) -> u32
    ensures { record { number = result; work = work.new; slip = slip.new }
        ≡ reasoned_bytes sheet.now work.old slip.old item }
{
    let answer = work::lent(
        work,
        slip,
        |slip: &mut [u8]| reason::reason_sheet(sheet, slip, item),
    );
    work::one_number_of(answer)
}

// Check with the work lent as bytes: the one number of the call.
pub fn ways_check(sheet: &[u8], work: &mut [u8], slip: &[u8]) -> u32
    ensures { record { number = result; work = work.new } ≡ checked_bytes sheet.now work.old slip.now }
{
    let answer = work::lent_work(work, || checker::check_sheet(sheet, slip));
    work::one_number_of(counted(answer))
}

// The header of the numbers that C hands over.
fn header_of(n: u32, m: u32, start: u32, finish: u32, limit: u32) -> Header
    ensures { result ≡ record { nodes = n; arcs = m; source = start; target = finish; limit = limit } }
{
    Header {
        nodes: n as usize,
        arcs: m as usize,
        source: start as usize,
        target: finish as usize,
        limit,
    }
}

// Writes a sheet: the one number of the call. It has more than six parameters, since C lends no struct here: each number of the header comes by itself.
pub fn ways_write(
    n: u32,
    m: u32,
    start: u32,
    finish: u32,
    limit: u32,
    legs: &[u32],
    marks: &[u8],
    services: &[u32],
    sheet: &mut [u8],
) -> u32
    ensures { let d = draft_of (record { nodes = n; arcs = m; source = start; target = finish; limit = limit })
        legs.now marks.now services.now in
        record { number = result; out = sheet.new } ≡ written_number d sheet.old }
{
    let draft = Draft {
        header: header_of(n, m, start, finish, limit),
        arcs: legs,
        marks,
        services,
    };
    work::one_number_of(sheet_writer::write_sheet(&draft, sheet))
}

// Put with the work lent as bytes: the store itself is lent and holds the change afterwards.
pub fn ways_store_put(store: &mut Store, sheet: &[u8], work: &mut [u8], slip: &[u8]) -> u32
    ensures { (record { number = result; shelf = shelf_of store.new; work = work.new }
        ≡ put_bytes (shelf_of store.old) sheet.now work.old slip.now)
        × (shelf_of store.new ≡ shelf_of store.old → store.new ≡ store.old) }
{
    let (number, after) = store_bytes::put_bytes(*store, sheet, work, slip);
    *store = after;
    number
}

// Ask with the slip written: the store is lent, only to be read.
pub fn ways_store_ask(store: &Store, sheet: &[u8], slip: &mut [u8]) -> u32
    ensures { record { number = result; slip = slip.new } ≡ ask_bytes (shelf_of store.now) sheet.now slip.old }
{
    store_bytes::ask_bytes(store, sheet, slip)
}

// The store that is lent holds nothing afterwards.
pub fn ways_store_empty(store: &mut Store)
    ensures { store.new ≡ empty_store }
{
    *store = Store::empty();
}
