// A row mended from a few nodes on, by the arcs that leave them, chained by their tails.
#![tactic(auto)]

ghost use Rattle.std.specs.Prelude.{◌≡◌, ℕ, ◌+◌, ◌≤◌, ◌<◌, length, get_or, set, drop, Option, Some, None, IfSome};
ghost use lib.Count.{count_trailing_zeros};
ghost use Rattle.rows.specs.Net.{arc_count, Joins};
ghost use Rattle.rows.specs.Rows.{Keeps, Settled, AwaySame};
ghost use Rattle.rows.specs.Bits.{bit_of};
ghost use Rattle.row_spread.specs.Active.{Still, Nearest, Tries, Added, Mended};
ghost use Rattle.row_spread.specs.Arcs.{Chained};

use rows::ROW_LENGTH;
use rows::cap::Cap;
use walks::ARCS;
use walks::arc::Arc;
use walks::mark::Mark;

// The numbers of the arcs chained by their tails, one for each node and one for each arc.
pub const CHAIN_NUMBERS: usize = ROW_LENGTH + ARCS;

// Puts the arc in front of its tail's chain.
pub fn chain_arc(chains: &mut [u32], tail: usize, arc: usize)
    requires { (length chains.old ≡ 576) × (tail < 64) × (arc < 512) }
    ensures { let d = chains.old in
        chains.new ≡ set (set d (64 + arc) (get_or d tail 0)) tail (arc + 1) }
{
    chains[ROW_LENGTH + arc] = chains[tail];
    chains[tail] = arc as u32 + 1;
}

// Chains the arcs by their tails, whatever the chains held: number `u` leads to the last arc that leaves node `u`, number 64 + `i` from arc `i` to the
// one before it. The numbers behind that of the last arc stay.
pub fn chain(arcs: &[Arc], chains: &mut [u32])
    requires { Joins 64 arcs.now × (length arcs.now ≤ 512) × (length chains.old ≡ 576) }
    ensures arcs_chained { Chained arcs.now chains.new }
    ensures behind_unchanged { let n = 64 + arc_count arcs.now in drop n chains.new ≡ drop n chains.old }
{
    chains[..ROW_LENGTH].fill(0);
    for arc in 0..arcs.len() {
        chain_arc(chains, arcs[arc].tail as usize, arc);
    }
}

// Tries the arc. Where its head's entry is cut, the head is added to the active nodes: those whose arcs are to be tried, one bit each.
fn try_adding(arcs: &[Arc], row: &mut [u32], arc: usize, active: u64, cap: u32) -> u64
    requires { Joins 64 arcs.now × (length row.old ≡ 64) × (arc < arc_count arcs.now) }
    ensures { Added cap arcs.now arc row.old active row.new result }
{
    if rows::try_arc(arcs, row, arc, cap) {
        return active | 1u64 << arcs[arc].head;
    }
    active
}

// Takes the active node off and tries the arcs that leave it.
fn spread_node(
    arcs: &[Arc],
    chains: &[u32],
    row: &mut [u32],
    node: usize,
    active: u64,
    cap: u32,
) -> u64
    requires { Joins 64 arcs.now × Chained arcs.now chains.now × (length row.old ≡ 64) × (node < 64) × (bit_of active node ≡ 1) }
    ensures good_stays_good { let xs = arcs.now in
        let d = row.old in
        let e = row.new in
        Keeps cap xs d e × ((s : ℕ) → AwaySame xs s d e) }
    ensures still_kept { Still cap arcs.now active row.old → Still cap arcs.now result row.new }
    ensures active_or_total_falls { Tries row.old ((bit_of result node ≡ 0) × ((x : ℕ) → bit_of active x ≡ 0 → bit_of result x ≡ 0)) row.new }
{
    let mut left = active ^ 1u64 << node;
    let mut link = chains[node];
    // `while`, since no list is walked: where the chain ends stands in `chains`
    while link > 0 {
        let arc = link as usize - 1;
        left = try_adding(arcs, row, arc, left, cap);
        link = chains[ROW_LENGTH + arc];
    }
    left
}

// The lowest node of the set.
fn lowest(set: u64) -> Option<usize>
    ensures some { IfSome result (λ node. (0 < set) × (node < 64) × (node ≡ count_trailing_zeros 64 set)) }
    ensures none { result ≡ None → set ≡ 0 }
{
    if set == 0 {
        return None;
    }
    Some(set.trailing_zeros() as usize)
}

// The active node with the least entry.
fn nearest(row: &[u32], active: u64) -> usize
    requires { (length row.now ≡ 64) × (0 < active) }
    ensures { Nearest row.now active result }
{
    let mut best = active.trailing_zeros() as usize;
    let mut rest = active & (active - 1);
    while let Some(node) = lowest(rest) {
        if row[node] < row[best] {
            best = node;
        }
        rest &= rest - 1;
    }
    best
}

// Tries the arcs outward from the active nodes, those of a node again where its entry was cut, until no node is active. The arcs of all other nodes
// can cut no entry, so none can then. The nearest node goes first, so that a row takes the same time however the nodes are numbered.
fn spread_active(arcs: &[Arc], chains: &[u32], row: &mut [u32], active: u64, cap: u32)
    requires { Joins 64 arcs.now × Chained arcs.now chains.now × (length row.old ≡ 64) }
    ensures good_stays_good { let xs = arcs.now in
        let d = row.old in
        let e = row.new in
        Keeps cap xs d e × ((s : ℕ) → AwaySame xs s d e) }
    ensures all_settled { let xs = arcs.now in
        (Still cap xs active row.old → Settled cap xs 0 (arc_count xs) row.new) }
{
    let mut left = active;
    // `while`, since no list is walked: nodes are added as entries are cut
    while left != 0 {
        let node = nearest(row, left);
        left = spread_node(arcs, chains, row, node, left, cap);
    }
}

// A row that starts at `from`, with the nodes whose arcs are to be tried first, one bit each, and the cap.
#[derive(Clone, Copy, Debug, PartialEq, Eq)]
pub struct Mend {
    pub from: usize,
    pub active: u64,
    pub cap: Cap,
}

// Leaves in `row` the least length from the start to each node over the packed arcs; MISSING above the cap. The row comes in sound: each entry
// MISSING or the length of such a walk, and no arc whose tail is not active can cut an entry. So is an empty row with its start active, and a row made
// when more items were forbidden with the tails of the opened arcs active.
pub fn mend_row(mend: Mend, arcs: &[Arc], chains: &[u32], marks: &[Mark], row: &mut [u32])
    requires arcs_chained { Joins 64 arcs.now × Chained arcs.now chains.now }
    requires row_and_start_fit { (length row.old ≡ 64) × (mend.from < 64) × (mend.from < length marks.now) }
    ensures { let xs = arcs.now in
        let d = row.old in
        let e = row.new in
        Mended mend.cap xs marks.now mend.from mend.active d e × AwaySame xs mend.from d e }
{
    rows::start(marks, mend.from, row);
    spread_active(arcs, chains, row, mend.active, mend.cap.length());
}
