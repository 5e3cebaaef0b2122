// Goals: where one is entered and left, its own length, and sums up to the cap.
#![tactic(auto)]

ghost use Rattle.std.specs.Prelude.{◌≡◌, ◌+◌, ◌<◌};
ghost use Rattle.walks.specs.Flat.{graph_of};
ghost use Rattle.walks.specs.Lengths.{Least, plus};
ghost use Rattle.walks.specs.Goals.{entry_of, exit_of, own_of};
ghost use Rattle.rows.specs.Held.{held, at_most};
ghost use Rattle.rows.specs.Net.{graph, closed, count, arc_count, Joins};
ghost use Rattle.goals.specs.Told.{as_least};

use rows::cap::Cap;
use rows::net::Net;
use walks::arc::Arc;

// The node where a walk comes to the goal.
pub fn entry(nodes: usize, arcs: &[Arc], goal: usize) -> usize
    requires { Joins nodes arcs.now × (goal < nodes + arc_count arcs.now) }
    ensures { (result ≡ entry_of (graph_of nodes arcs.now) goal) × (result < nodes) }
{
    if goal < nodes {
        return goal;
    }
    arcs[goal - nodes].tail as usize
}

// The node where a walk leaves the goal.
pub fn exit(nodes: usize, arcs: &[Arc], goal: usize) -> usize
    requires { Joins nodes arcs.now × (goal < nodes + arc_count arcs.now) }
    ensures { (result ≡ exit_of (graph_of nodes arcs.now) goal) × (result < nodes) }
{
    if goal < nodes {
        return goal;
    }
    arcs[goal - nodes].head as usize
}

// The length of the goal itself, where it is open and its length at most `cap`.
pub fn own(net: &Net, goal: usize, cap: u32) -> Option<u32>
    requires { goal < net.now.nodes + count net.now }
    ensures { as_least result ≡ at_most cap (own_of (graph net.now) (closed net.now) goal) }
{
    if goal < net.nodes {
        return Some(0);
    }
    if net.is_closed(goal) {
        return None;
    }
    let weight = net.weight(goal - net.nodes);
    (weight <= cap).then_some(weight)
}

// The sum of two lengths as a row holds them, where it is at most `cap`: what is missing adds up to more.
pub fn sum(x: u32, y: u32, cap: Cap) -> Option<u32>
    ensures { (p q : Least) → x ≡ held cap p → y ≡ held cap q → as_least result ≡ at_most cap (plus p q) }
{
    let most = cap.length();
    let both = x.checked_add(y)?;
    (both <= most).then_some(both)
}
