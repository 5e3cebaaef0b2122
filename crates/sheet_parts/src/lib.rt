// The parts of a sheet in front of the marks (docs/FORMATS.md, 'The sheet'): the five numbers and the arcs.

#![tactic(auto)]

ghost use Rattle.std.specs.Prelude.{◌≡◌, ◌≤◌, length, IfOk, IfErr, OnOk, OnErr};
ghost use Rattle.lists.specs.Lists.{front};
ghost use Rattle.varint.specs.Varint.{got, refuse, several};
ghost use Rattle.varint.specs.Refusal.{number_of};
ghost use Rattle.sheet.specs.Reader.{read_header, read_arc};
ghost use Rattle.numbers.specs.Begun.{begun};
ghost use Rattle.sheet_parts.specs.Fits.{Fits};

use numbers::section::{self, Kind};
use sheet::{Header, LIMIT_END, MINUTES_END};
use varint::{Bytes, Refusal};
use walks::arc::Arc;

const NODES_LEAST: u32 = 2;

const NODES_END: u32 = 65;

const ARCS_END: u32 = 513;

// Takes the five numbers in front, or nothing where one is refused.
pub fn take_header(bytes: &mut Bytes) -> Result<Header, Refusal>
    ensures got { IfOk result (λ h. read_header bytes.old.rest.now ≡ got h bytes.new.rest.now) }
    ensures refused { IfErr result (λ why. read_header bytes.old.rest.now ≡ refuse (number_of why)) }
    ensures kept { OnErr result (bytes.new.rest.now ≡ bytes.old.rest.now) }
    ensures fits { IfOk result Fits }
{
    let mut ahead = *bytes;
    let nodes = ahead.take_below(NODES_END, Refusal::Nodes)?;
    if nodes < NODES_LEAST {
        return Err(Refusal::Nodes);
    }
    let arcs = ahead.take_below(ARCS_END, Refusal::Arcs)?;
    let source = ahead.take_below(nodes, Refusal::Place)?;
    let target = ahead.take_below(nodes, Refusal::Place)?;
    if target == source {
        return Err(Refusal::Place);
    }
    let limit = ahead.take_below(LIMIT_END, Refusal::Limit)?;
    *bytes = ahead;
    Ok(Header {
        nodes: nodes as usize,
        arcs: arcs as usize,
        source: source as usize,
        target: target as usize,
        limit,
    })
}

// The arcs of a graph of `nodes` nodes.
#[derive(Clone, Copy, Debug, PartialEq, Eq)]
pub struct Arcs {
    pub nodes: u32,
}

impl Kind for Arcs {
    type Value = Arc;

    ghost reads = { λ kind bs. read_arc kind.nodes bs };

    fn take(&self, bytes: &mut Bytes) -> Result<Arc, Refusal>
        ensures got { IfOk result (λ x. read_arc self.now.nodes bytes.old.rest.now ≡ got x bytes.new.rest.now) }
        ensures refused { IfErr result (λ why. read_arc self.now.nodes bytes.old.rest.now ≡ refuse (number_of why)) }
        ensures kept { OnErr result (bytes.new.rest.now ≡ bytes.old.rest.now) }
    {
        let mut ahead = *bytes;
        let tail = ahead.take_below(self.nodes, Refusal::ArcEnd)?;
        let head = ahead.take_below(self.nodes, Refusal::ArcEnd)?;
        if head == tail {
            return Err(Refusal::ArcEnd);
        }
        let weight = ahead.take_below(MINUTES_END, Refusal::Minutes)?;
        *bytes = ahead;
        Ok(Arc { tail, head, weight })
    }
}

// Takes the arcs at the front of the leg section, which is handed on as `bytes`, and stores them over the front of `arcs`, up to the first that is refused;
// where one is, none is taken from `bytes`.
pub fn take_arcs(
    bytes: &mut Bytes,
    nodes: u32,
    count: usize,
    arcs: &mut [Arc],
) -> Result<(), Refusal>
    requires { count ≤ length arcs.old }
    ensures got { let f = read_arc nodes in
        OnOk result (several f count bytes.old.rest.now ≡ got (begun f count bytes.old.rest.now) bytes.new.rest.now) }
    ensures refused { IfErr result (λ why. several (read_arc nodes) count bytes.old.rest.now ≡ refuse (number_of why)) }
    ensures kept { OnErr result (bytes.new.rest.now ≡ bytes.old.rest.now) }
    ensures arcs_in_front { arcs.new ≡ front (begun (read_arc nodes) count bytes.old.rest.now) arcs.old }
{
    section::read_all(&Arcs { nodes }, bytes, &mut arcs[..count])?;
    Ok(())
}
