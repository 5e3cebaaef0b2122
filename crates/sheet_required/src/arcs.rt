// Lists of arcs that are read by number.

ghost use Rattle.std.specs.Prelude.{◌≡◌, ◌<◌, List, length, get_or};
ghost use Rattle.walks.specs.declared.arc.Arc.{Arc as Of};
ghost use Rattle.walks.specs.Graph.{no_arc};
ghost use Rattle.walks.specs.Flat.{arcs_of};

use walks::arc::Arc;

// A list of arcs, however it is lent.
pub trait ArcList {
    ghost arcs: { Self → List Of };

    // The arc of this number.
    fn arc(&self, number: usize) -> Arc
        requires { number < length (arcs self.now) }
        ensures { result ≡ get_or (arcs self.now) number no_arc };
}

impl ArcList for &[Arc] {
    ghost arcs = { λ list. list.now };

    fn arc(&self, number: usize) -> Arc {
        self[number]
    }
}

// The arcs as a program in C lends them: tail, head and weight of each, in one list of numbers.
#[derive(Clone, Copy, Debug, PartialEq, Eq)]
pub struct Legs<'a> {
    pub numbers: &'a [u32],
}

impl ArcList for Legs<'_> {
    ghost arcs = { λ legs. arcs_of legs.numbers.now };

    #[tactic(auto, using(walks::proofs::FlatLaws::arcs_count, walks::proofs::FlatLaws::arc_at))]
    fn arc(&self, number: usize) -> Arc {
        let at = number * 3;
        Arc {
            tail: self.numbers[at],
            head: self.numbers[at + 1],
            weight: self.numbers[at + 2],
        }
    }
}
