// An entry of the table over sets of goals: the least length of a walk that meets the goals of a set and has just met one of them.
#![tactic(auto)]

ghost use Rattle.std.specs.Prelude.{◌≡◌, true, List, ℕ, ◌+◌, ◌-◌, ◌*◌, ◌^◌, ◌≤◌, ◌<◌, length, get_or, IfSome, IfNone};
ghost use Rattle.walks.specs.Lengths.{some};
ghost use Rattle.rows.specs.Held.{held};
ghost use Rattle.goal_table.specs.Sets.{has, chosen, FirstOff};
ghost use Rattle.goal_table.specs.Table.{Bettered, ReachedBy, Puts, SetFits, TableOnly};

use rows::cap::Cap;
use rows::{ENTRIES, MISSING, ROW_LENGTH};
use walks::GOALS;

// Where things lie in the work: the row of the first goal behind that of the source, each goal's own length behind the goals' entries, and the table, an
// entry for each set of goals and goal just reached.
const GOAL_ROWS: usize = ROW_LENGTH;

pub const OWN_LENGTHS: usize = ENTRIES + GOALS;

const TABLE: usize = 1024;

// A set of goals: bit i says whether goal i is in it.
#[derive(Clone, Copy, Debug, PartialEq, Eq)]
pub struct GoalSet {
    pub bits: u32,
}

impl GoalSet {
    // The goals below `count`.
    pub fn below(count: usize) -> GoalSet
        requires { count ≤ 8 }
        ensures { result.bits ≡ 2 ^ count - 1 }
    {
        GoalSet {
            bits: (1u32 << count) - 1,
        }
    }

    // How many goals the set holds: the number of ones in its mark.
    fn len(self) -> u32
        ensures { (goals : List ℕ) → self.bits < 2 ^ length goals → result ≡ length (chosen goals self.bits) }
    {
        self.bits.count_ones()
    }

    // Takes the first goal off the set, where it has one.
    pub fn take_first(&mut self) -> Option<usize>
        ensures taken { IfSome result (λ i. FirstOff self.old.bits i self.new.bits) }
        ensures empty { IfNone result (self.old.bits ≡ 0) }
    {
        if self.bits == 0 {
            return None;
        }
        let i = self.bits.trailing_zeros() as usize;
        self.bits &= self.bits - 1;
        Some(i)
    }

    // The set's other goals.
    fn without(self, i: usize) -> GoalSet
        requires { (self.bits < 256) × (has self.bits i ≡ true) }
        ensures { (result.bits ≡ self.bits - 2 ^ i) × (i < 8) }
    {
        GoalSet {
            bits: self.bits - (1u32 << i),
        }
    }

    // Where the table has the entry for goal `i` of the set as the last one.
    fn entry(self, i: usize) -> usize
        requires { (self.bits < 256) × (i < 8) }
        ensures { result ≡ 1024 + self.bits * 8 + i }
    {
        TABLE + self.bits as usize * GOALS + i
    }
}

// A length as the rows and the table hold it: a number, and MISSING for none, so that `better` adds two of them with no test in the loop's way.
fn capped(sum: u64, cap: u32) -> u32
    ensures { result ≡ held cap (some sum) }
{
    if sum > cap as u64 {
        return MISSING;
    }
    sum as u32
}

// The lesser of `best` and the way on to `node` from goal `i` as the last goal of the set. The sum is taken in 64 bits, where what is missing adds up to more
// than any cap, so that no test stands in the loop's way.
fn better(work: &[u32], set: GoalSet, i: usize, node: usize, best: u64) -> u64
    requires { (3072 ≤ length work.now) × (set.bits < 256) × (i < 8) × (node < 64) }
    ensures { let W = work.now in
        Bettered (get_or W (1024 + set.bits * 8 + i) 0) (get_or W (64 + i * 64 + node) 0) best result }
{
    let before = work[set.entry(i)];
    let through = before as u64 + work[GOAL_ROWS + i * ROW_LENGTH + node] as u64;
    if through < best {
        return through;
    }
    best
}

// The least length from the source to `node` that meets the goals of the set, which holds at least one, as the table holds it.
pub fn reach(work: &[u32], set: GoalSet, node: usize, cap: Cap) -> u32
    requires { (3072 ≤ length work.now) × (0 < set.bits) × (set.bits < 256) × (node < 64) }
    ensures { ReachedBy cap set.bits node work.now result }
{
    let most = cap.length();
    let mut best = MISSING as u64;
    let mut rest = set;
    while let Some(i) = rest.take_first() {
        best = better(work, set, i, node, best);
    }
    capped(best, most)
}

// Fills the table's entry for goal `i` of the set as the last one, MISSING for none. A set of this goal alone is begun from the source's row, a larger one
// from the set without the goal.
pub fn put(work: &mut [u32], set: GoalSet, i: usize, cap: Cap)
    requires { SetFits set.bits work.old × (has set.bits i ≡ true) }
    ensures goal_done { Puts cap set.bits i work.old work.new }
    ensures outside_table_unchanged { TableOnly work.old work.new }
{
    let rest = set.without(i);
    let at = work[ENTRIES + i] as usize;
    let way = if set.len() == 1 {
        work[at]
    } else {
        reach(work, rest, at, cap)
    };
    work[set.entry(i)] = goals::sum(way, work[OWN_LENGTHS + i], cap).unwrap_or(MISSING);
}
