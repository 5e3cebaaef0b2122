// A sheet that is taken.

ghost use Rattle.std.specs.Prelude.{◌≡◌, ◌+◌, ◌<◌, get_or};
ghost use Rattle.sheet_required.specs.Whole.{Whole};
ghost use Rattle.std.proofs.Props.{props};
ghost use Rattle.rows.specs.Net.{net_of};

use rows::net::Net;
use sheet::Header;
use walks::arc::Arc;
use walks::mark::Mark;

// The header, the arcs, and a mark for each item: what the reader takes, and nothing else.
#[derive(Clone, Copy, Debug, PartialEq, Eq)]
pub struct Sheet<'a> {
    pub header: Header,
    pub arcs: &'a [Arc],
    pub marks: &'a [Mark],
    ghost whole: { Whole header arcs.now marks.now } by { Prim.hlevel props },
}

impl<'a> Sheet<'a> {
    // The graph with its marks.
    pub fn net(&self) -> Net<'a>
        ensures { result ≡ net_of self.now.header.nodes self.now.arcs.now self.now.marks.now }
    {
        Net {
            nodes: self.header.nodes,
            arcs: self.arcs,
            marks: self.marks,
        }
    }

    // How many items there are.
    pub fn items(&self) -> usize
        ensures { result ≡ self.now.header.nodes + self.now.header.arcs }
    {
        self.header.nodes + self.header.arcs
    }

    // The mark of an item.
    pub fn mark(&self, item: usize) -> Mark
        requires { item < self.now.header.nodes + self.now.header.arcs }
        ensures { result ≡ get_or self.now.marks.now item 0 }
    {
        self.marks[item]
    }
}
