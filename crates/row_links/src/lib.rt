// The open arcs, packed and chained by their tails, while items are opened and closed again.
#![tactic(auto)]

ghost use Rattle.std.specs.Prelude.{◌≡◌, ◌+◌, ◌-◌, ◌≤◌, ◌<◌, length, take};
ghost use Rattle.rows.specs.Net.{count as arcs_of, tail_in};
ghost use Rattle.row_links.specs.Links.{taken_off, AllLinked, ItemLinked};

use row_spread::CHAIN_NUMBERS;
use rows::ROW_LENGTH;
use rows::net::Net;
use walks::arc::Arc;
use walks::{ARC_NUMBERS, ARCS};

// The numbers that `Links::arcs` takes, three for each arc: where the chains begin in a list that has them behind the arcs.
pub const CHAINS: usize = ARC_NUMBERS;

// The numbers that `Links::arcs` and `Links::chains` take together.
pub const LINK_NUMBERS: usize = CHAINS + CHAIN_NUMBERS;

// The open arcs of a graph, packed to the front, their chains, and how many there are.
#[derive(Clone, Debug, PartialEq, Eq, Drop)]
pub struct Links {
    pub arcs: [Arc; ARCS],
    pub chains: [u32; CHAIN_NUMBERS],
    pub count: usize,
}

impl Links {
    // Packs the open arcs and chains them.
    pub fn pack(&mut self, net: &Net)
        requires few_arcs { length net.now.arcs ≤ 512 }
        ensures { AllLinked net.now self.new.count self.old.arcs self.old.chains self.new.arcs self.new.chains }
    {
        // Opened for what every net keeps: its arcs join its nodes.
        let _ = &net.nodes;
        self.count = row_arcs::pack(net, &mut self.arcs);
        row_spread::chain(&self.arcs[..self.count], &mut self.chains);
    }

    // Puts the arc behind the packed ones, and in front of its tail's chain, where its head is open.
    fn add_arc(&mut self, net: &Net, arc: usize)
        requires { (arc < arcs_of net.now) × (self.old.count < 512) }
        ensures { ItemLinked net.now (net.now.nodes + arc) self.old.count self.old.arcs self.old.chains self.new.arcs self.new.chains self.new.count }
    {
        // Opened for what every net keeps: its nodes are few.
        let _ = &net.nodes;
        if net.is_closed(net.head(arc)) {
            return;
        }
        self.arcs[self.count] = net.arc(arc);
        row_spread::chain_arc(&mut self.chains, net.tail(arc), self.count);
        self.count += 1;
    }

    // The item is opened: an arc is put behind the packed ones, and else all are packed anew.
    pub fn open(&mut self, net: &Net, item: usize)
        requires few_arcs_and_item { (length net.now.arcs ≤ 512) × (item < net.now.nodes + arcs_of net.now) }
        ensures { ItemLinked net.now item self.old.count self.old.arcs self.old.chains self.new.arcs self.new.chains self.new.count }
    {
        let before = self.count;
        if item < net.nodes || before >= ARCS {
            self.pack(net);
            return;
        }
        self.add_arc(net, item - net.nodes);
    }

    // Takes the last arc off its tail's chain.
    pub fn take_off(&mut self)
        requires { (0 < self.old.count) × (self.old.count ≤ 512) × (tail_in self.old.arcs (self.old.count - 1) < 64) }
        ensures { (self.new.count + 1 ≡ self.old.count) × (self.new.arcs ≡ self.old.arcs)
            × (self.new.chains ≡ taken_off self.old.arcs self.old.chains self.new.count) }
    {
        self.count -= 1;
        let tail = self.arcs[self.count].tail as usize;
        self.chains[tail] = self.chains[ROW_LENGTH + self.count];
    }

    // The packed arcs alone.
    pub fn arcs(&self) -> &[Arc]
        requires { self.now.count ≤ 512 }
        ensures { result.now ≡ take self.now.count self.now.arcs }
    {
        &self.arcs[..self.count]
    }
}
