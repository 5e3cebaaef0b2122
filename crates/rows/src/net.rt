// A graph with a mark for each item, as the length layer is lent it.

ghost use Rattle.std.specs.Prelude.{◌≡◌, ◌+◌, ◌<◌, ◌↔◌, IsTrue};
ghost use Rattle.walks.specs.Graph.{closed_in};
ghost use Rattle.rows.specs.Net.{count, arc_at, tail_at, head_at, weight_at, Open};

use std::marker::Model;
use walks::arc::Arc;
use walks::mark::Mark;

// At most 64 nodes, arcs between them, and a mark for each item, the nodes before the arcs.
#[derive(Drop)]
pub struct Net<'a> {
    pub nodes: usize,
    pub arcs: &'a [Arc],
    pub marks: &'a [Mark],
}

impl<'a> Model for Net<'a> {
    ghost use Rattle.rows.specs.Net as net;

    ghost Value = { net.Net };

    ghost view = { λ n. net.net_of n.nodes n.arcs.now n.marks.now };

    ghost invariant = { λ n. net.Proper (net.net_of n.nodes n.arcs.now n.marks.now) };
}

impl<'a> Net<'a> {
    pub fn arc_count(&self) -> usize
        ensures { result ≡ count self.now }
    {
        self.arcs.len()
    }

    // The arc itself.
    pub fn arc(&self, arc: usize) -> Arc
        requires { arc < count self.now }
        ensures { result ≡ arc_at self.now arc }
    {
        let all = self.arcs;
        all[arc]
    }

    // The node that the arc leaves.
    pub fn tail(&self, arc: usize) -> usize
        requires { arc < count self.now }
        ensures { (result ≡ tail_at self.now arc) × (result < self.now.nodes) }
    {
        let arcs = self.arcs;
        arcs[arc].tail as usize
    }

    // The node that the arc enters.
    pub fn head(&self, arc: usize) -> usize
        requires { arc < count self.now }
        ensures { (result ≡ head_at self.now arc) × (result < self.now.nodes) }
    {
        let arcs = self.arcs;
        arcs[arc].head as usize
    }

    pub fn weight(&self, arc: usize) -> u32
        requires { arc < count self.now }
        ensures { result ≡ weight_at self.now arc }
    {
        let arcs = self.arcs;
        arcs[arc].weight
    }

    // Whether the item is forbidden.
    pub fn is_closed(&self, item: usize) -> bool
        requires { item < self.now.nodes + count self.now }
        ensures { result ≡ closed_in self.now.marks item }
    {
        self.marks[item].is_forbidden()
    }

    // Whether the arc and the node that it enters are open.
    pub fn is_open(&self, arc: usize) -> bool
        requires { arc < count self.now }
        ensures { IsTrue result ↔ Open self.now arc }
    {
        !self.is_closed(self.nodes + arc) && !self.is_closed(self.head(arc))
    }
}
