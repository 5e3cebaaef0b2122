// The least length of a walk that meets some goals, by rows from where the goals are left and a table over their sets.
#![tactic(auto)]

ghost use Rattle.std.specs.Prelude.{◌≡◌, ℕ, ◌+◌, ◌≤◌, ◌<◌, length, get_or, take, drop};
ghost use Rattle.walks.specs.Lengths.{Least};
ghost use Rattle.walks.specs.Graph.{least as least_of};
ghost use Rattle.walks.specs.Flat.{graph_of};
ghost use Rattle.rows.specs.Held.{held, at_most};
ghost use Rattle.rows.specs.Net.{graph, closed, arc_count, Joins};
ghost use Rattle.lengths.specs.Told.{as_least, ToldAll};
ghost use Rattle.goal_table.specs.Table.{GoalsFit, StartsAre, Rowed, Noted, FillsSet, FillsTable, TableFits, SetFits, TableOnly};

use goal_table::{GoalSet, OWN_LENGTHS};
use rows::cap::Cap;
use rows::net::Net;
use rows::{ENTRIES, MISSING, ROWS};
use walks::ARCS;
use walks::arc::Arc;

// What a least length is asked for: a walk from `from` to `to` of length at most `cap`.
#[derive(Clone, Copy, Debug, PartialEq, Eq)]
pub struct Query {
    pub from: usize,
    pub to: usize,
    pub cap: Cap,
}

impl Query {
    // A length as the rows hold it, told apart from one that is missing or above the cap.
    pub fn told(&self, length: u32) -> Option<u32>
        ensures { (r : Least) → length ≡ held self.now.cap r → as_least result ≡ at_most self.now.cap r }
    {
        let most = self.cap.length();
        (length <= most).then_some(length)
    }
}

// Writes where the rows start: at `from`, and where each goal is left.
pub fn set_starts(nodes: usize, arcs: &[Arc], from: usize, goals: &[u32], starts: &mut [usize])
    requires arcs_join_nodes { Joins nodes arcs.now × (length goals.now < length starts.old) × (from < nodes) }
    requires goals_are_items { (i : ℕ) → i < length goals.now → get_or goals.now i 0 < nodes + arc_count arcs.now }
    ensures { StartsAre (graph_of nodes arcs.now) from goals.now starts.new }
{
    starts[0] = from;
    for (i, &goal) in goals.iter().enumerate() {
        starts[i + 1] = goals::exit(nodes, arcs, goal as usize);
    }
}

// Notes where each goal is entered, and its own length: MISSING for none, since the work is lent as numbers.
pub fn note_goals(net: &Net, goals: &[u32], work: &mut [u32], cap: u32)
    requires { GoalsFit net.now goals.now × (592 ≤ length work.old) }
    ensures noted { Noted net.now cap goals.now work.new }
    ensures only_notes_written { (take 576 work.new ≡ take 576 work.old) × (drop 592 work.new ≡ drop 592 work.old) }
{
    for (i, &goal) in goals.iter().enumerate() {
        let goal = goal as usize;
        work[ENTRIES + i] = goals::entry(net.nodes, net.arcs, goal) as u32;
        work[OWN_LENGTHS + i] = goals::own(net, goal, cap).unwrap_or(MISSING);
    }
}

// Fills the table's entries for the goals of a set.
fn fill_set(work: &mut [u32], set: GoalSet, cap: Cap)
    requires { SetFits set.bits work.old }
    ensures fills_set { FillsSet cap set.bits work.old work.new }
    ensures outside_table_unchanged { TableOnly work.old work.new }
{
    let mut rest = set;
    while let Some(i) = rest.take_first() {
        goal_table::put(work, set, i, cap);
    }
}

// Fills the table for all sets of goals, the smaller numbers first: a set without one of its goals has a smaller number, so its entries are there.
pub fn fill_table(work: &mut [u32], count: usize, cap: Cap)
    requires { TableFits count work.old }
    ensures fills_table { FillsTable cap count work.old work.new }
    ensures outside_table_unchanged { TableOnly work.old work.new }
{
    for bits in 0..1u32 << count {
        fill_set(work, GoalSet { bits }, cap);
    }
}

// The least length from the source to the query's end that meets all goals, where it is at most the cap, once the table is filled.
pub fn reach_goals(query: &Query, work: &[u32], count: usize) -> Option<u32>
    requires { (3072 ≤ length work.now) × (count ≤ 8) × (query.now.to < 64) }
    ensures { ToldAll query.now.cap count query.now.to work.now result }
{
    if count == 0 {
        return query.told(work[query.to]);
    }
    query.told(goal_table::reach(work, GoalSet::below(count), query.to, query.cap))
}

// Fills the rows: from the source, and from where each goal is left.
pub fn start_rows(query: &Query, net: &Net, goals: &[u32], work: &mut [u32])
    requires few_arcs { length net.now.arcs ≤ 512 }
    requires goals_and_work_fit { GoalsFit net.now goals.now × (3072 ≤ length work.old) × (query.now.from < net.now.nodes) }
    ensures rows_filled { Rowed net.now query.now.cap query.now.from goals.now work.new }
    ensures behind_rows_unchanged { drop 576 work.new ≡ drop 576 work.old }
{
    let marks = net.marks;
    let mut packed = [Arc::ZERO; ARCS];
    let used = row_arcs::pack(net, &mut packed);
    let mut starts = [0usize; ROWS];
    set_starts(net.nodes, net.arcs, query.from, goals, &mut starts);
    let count = goals.len() + 1;
    row_fill::fill_rows(&packed[..used], marks, &starts[..count], work, query.cap);
}

// The least length of a walk from `from` to `to`, clear of the forbidden items, that meets all goals, where there is one of at most `cap`.
// The rows are left in the work; its first 3072 numbers are overwritten, the rest stays.
pub fn least(query: &Query, net: &Net, goals: &[u32], work: &mut [u32]) -> Option<u32>
    requires few_arcs { length net.now.arcs ≤ 512 }
    requires goals_and_work_fit { GoalsFit net.now goals.now × (3072 ≤ length work.old) × (query.now.from < net.now.nodes) × (query.now.to < net.now.nodes) }
    ensures least_length { let G = graph net.now in
        as_least result ≡ at_most query.now.cap (least_of G (closed net.now) goals.now query.now.from query.now.to) }
    ensures rows_filled { Rowed net.now query.now.cap query.now.from goals.now work.new }
    ensures behind_table_unchanged { drop 3072 work.new ≡ drop 3072 work.old }
{
    // Opened for what every net keeps: its arcs join its nodes.
    let _ = &net.nodes;
    start_rows(query, net, goals, work);
    note_goals(net, goals, work, query.cap.length());
    fill_table(work, goals.len(), query.cap);
    reach_goals(query, work, goals.len())
}
