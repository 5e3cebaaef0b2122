// Rows filled from nothing: from a node, to a node, or from several nodes over arcs packed once.
#![tactic(auto)]

ghost use Rattle.std.specs.Prelude.{◌≡◌, ℕ, ◌*◌, ◌≤◌, ◌<◌, length, get_or, drop};
ghost use Rattle.rows.specs.Net.{Net as Graph, arc_count, Joins};
ghost use Rattle.rows.specs.Rows.{RowIs, RowTo, AwayMissing, NoneBehind, StartOf, StartsOf, StartsFit, RowsAre, row_at};
ghost use Rattle.row_spread.specs.Arcs.{Chained, TurnedTo};

use row_spread::{CHAIN_NUMBERS, Mend};
use rows::cap::Cap;
use rows::net::Net;
use rows::{MISSING, ROW_LENGTH};
use walks::ARCS;
use walks::arc::Arc;
use walks::mark::Mark;

// The same whatever the row held.
fn fill_row(arcs: &[Arc], chains: &[u32], marks: &[Mark], from: usize, row: &mut [u32], cap: Cap)
    requires arcs_chained { Joins 64 arcs.now × Chained arcs.now chains.now }
    requires row_and_start_fit { (length row.old ≡ 64) × (from < 64) × (from < length marks.now) }
    ensures least_lengths { (N : Graph) → StartOf N arcs.now marks.now from → RowIs N cap from row.new }
    ensures away_missing { AwayMissing arcs.now from row.new }
{
    // Called for what every cap keeps: it is less than MISSING.
    let _ = cap.length();
    row.fill(MISSING);
    let mend = Mend {
        from,
        active: 1u64 << from,
        cap,
    };
    row_spread::mend_row(mend, arcs, chains, marks, row);
}

// Leaves in `row` the least length from `from` to each node, clear of the forbidden items; MISSING above `cap`.
pub fn row_from(net: &Net, from: usize, row: &mut [u32], cap: Cap)
    requires few_arcs { length net.now.arcs ≤ 512 }
    requires row_and_start_fit { (length row.old ≡ 64) × (from < net.now.nodes) }
    ensures { RowIs net.now cap from row.new × NoneBehind net.now.nodes row.new }
{
    let marks = net.marks;
    let mut packed = [Arc::ZERO; ARCS];
    let used = row_arcs::pack(net, &mut packed);
    let arcs = &packed[..used];
    let mut chains = [0u32; CHAIN_NUMBERS];
    row_spread::chain(arcs, &mut chains);
    fill_row(arcs, &chains, marks, from, row, cap);
}

// Writes the arcs with tail and head exchanged to the front of `back`.
fn turn(arcs: &[Arc], back: &mut [Arc; ARCS])
    requires { length arcs.now ≤ 512 }
    ensures { TurnedTo (arc_count arcs.now) arcs.now back.new }
{
    for arc in 0..arcs.len() {
        let Arc { tail, head, weight } = arcs[arc];
        back[arc] = Arc {
            tail: head,
            head: tail,
            weight,
        };
    }
}

// Stays beside `row_from`: the two are over one filling, and this one only exchanges the arcs' ends before it.
// Leaves in `row` the least length from each node to `to`, clear of the forbidden items; MISSING above `cap`.
pub fn row_to(net: &Net, to: usize, row: &mut [u32], cap: Cap)
    requires few_arcs { length net.now.arcs ≤ 512 }
    requires row_and_end_fit { (length row.old ≡ 64) × (to < net.now.nodes) }
    ensures { RowTo net.now cap to row.new × NoneBehind net.now.nodes row.new }
{
    let arcs = net.arcs;
    let mut back = [Arc::ZERO; ARCS];
    turn(arcs, &mut back);
    let turned = Net {
        nodes: net.nodes,
        arcs: &back[..arcs.len()],
        marks: net.marks,
    };
    row_from(&turned, to, row, cap);
}

// Fills the row of each start, whatever the work held. Row `i` has the 64 numbers of the work from `i` * 64 on.
pub fn fill_rows(arcs: &[Arc], marks: &[Mark], starts: &[usize], work: &mut [u32], cap: Cap)
    requires { Joins 64 arcs.now × StartsFit marks.now starts.now work.old × (length arcs.now ≤ 512) }
    ensures rows_filled { let ss = starts.now in
        ((N : Graph) → StartsOf N arcs.now marks.now ss → RowsAre N cap ss (length ss) work.new) }
    ensures behind_rows_unchanged { let n = length starts.now * 64 in drop n work.new ≡ drop n work.old }
    ensures away_missing { let ss = starts.now in
        ((i : ℕ) → i < length ss → AwayMissing arcs.now (get_or ss i 0) (row_at work.new i)) }
{
    let mut chains = [0u32; CHAIN_NUMBERS];
    row_spread::chain(arcs, &mut chains);
    for (number, &start) in starts.iter().enumerate() {
        let at = number * ROW_LENGTH;
        let row = &mut work[at..at + ROW_LENGTH];
        fill_row(arcs, &chains, marks, start, row, cap);
    }
}
