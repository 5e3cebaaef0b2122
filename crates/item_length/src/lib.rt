// The least length of a walk through one item, with any cap: how long the way is that was struck off.
#![tactic(auto)]

ghost use Rattle.std.specs.Prelude.{◌≡◌, [], ◌∷◌, ◌+◌, ◌≤◌, ◌<◌, length};
ghost use Rattle.walks.specs.Graph.{least};
ghost use Rattle.rows.specs.Held.{at_most};
ghost use Rattle.lengths.specs.Told.{as_least};
ghost use Rattle.rows.specs.Net.{graph, closed, count};

use lengths::Query;
use rows::ROW_LENGTH;
use rows::net::Net;

// The least length of a walk that meets the item, clear of the forbidden items: to its entry, over it, and on from its exit; where there is one of at
// most `cap`.
pub fn least_through(query: &Query, net: &Net, item: usize) -> Option<u32>
    requires few_arcs { length net.now.arcs ≤ 512 }
    requires item_and_ends { (item < net.now.nodes + count net.now) × (query.now.from < net.now.nodes) × (query.now.to < net.now.nodes) }
    ensures { let G = graph net.now in
        as_least result ≡ at_most query.now.cap (least G (closed net.now) (item ∷ []) query.now.from query.now.to) }
{
    let mut there = [0u32; ROW_LENGTH];
    let mut back = [0u32; ROW_LENGTH];
    row_fill::row_from(net, query.from, &mut there, query.cap);
    row_fill::row_to(net, query.to, &mut back, query.cap);
    let own = goals::own(net, item, query.cap.length())?;
    let entry = goals::entry(net.nodes, net.arcs, item);
    let exit = goals::exit(net.nodes, net.arcs, item);
    let past = goals::sum(there[entry], own, query.cap)?;
    goals::sum(past, back[exit], query.cap)
}
