// The forced nodes and the required items of a sheet: the things that a pass counts.

#![tactic(auto)]

ghost use Rattle.std.specs.Prelude.{◌≡◌, true, false, not, ◌&&◌, ◌||◌, ◌+◌, ◌≤◌, ◌<◌, length, get_or, set, eqb, ltb, leb};
ghost use Rattle.std.specs.List.{fold};
ghost use Rattle.sheet.specs.Sheet.{required, sheet_of, Sized};
ghost use Rattle.sheet_required.specs.Whole.{ForcedNodes, RoomListed};

pub mod arcs;
pub mod whole;

use arcs::ArcList;
use sheet::Header;
use walks::arc::Arc;
use walks::mark::Mark;
use walks::{GOALS, NODES};

// The node is marked, where it is one of those that `nodes` has a place for.
fn mark_node(nodes: &mut [bool], node: usize)
    ensures { nodes.new ≡ set nodes.old node true }
{
    if node < nodes.len() {
        nodes[node] = true;
    }
}

// Both ends of an arc are marked.
fn mark_ends(nodes: &mut [bool], arc: Arc)
    ensures { nodes.new ≡ set (set nodes.old arc.tail true) arc.head true }
{
    mark_node(nodes, arc.tail as usize);
    mark_node(nodes, arc.head as usize);
}

// The nodes that every route meets whatever else is marked: source, target and the ends of mandatory arcs.
pub fn forced_nodes<L: ArcList>(header: Header, arcs: &L, marks: &[Mark]) -> [bool; NODES]
    requires { Sized header (L.arcs arcs.now) marks.now }
    ensures { ForcedNodes (sheet_of header (L.arcs arcs.now) marks.now) result }
{
    let mut forced = [false; NODES];
    for j in 0..header.arcs {
        if marks[header.nodes + j].is_mandatory() {
            mark_ends(&mut forced, arcs.arc(j));
        }
    }
    mark_node(&mut forced, header.source);
    mark_node(&mut forced, header.target);
    forced
}

// Whether an item with this mark is required: mandatory, and an arc or a node that is not forced.
fn is_required(item: usize, nodes: usize, mark: Mark, forced: &[bool]) -> bool
    requires { nodes ≤ length forced.now }
    ensures { result ≡ (eqb mark 1 && not (ltb item nodes && get_or forced.now item false)) }
{
    mark.is_mandatory() && !(item < nodes && forced[item])
}

// Stores the item behind the `count` that were found before it, where the list has room. Gives how many were found with it.
fn note_item(list: &mut [u32], count: usize, item: u32) -> usize
    requires { count < 576 }
    ensures { (result ≡ count + 1) × (list.new ≡ set list.old count item) }
{
    if count < list.len() {
        list[count] = item;
    }
    count + 1
}

// Whether some mark is mandatory. `fold` looks at many at a time, which `contains` does for plain bytes alone.
fn some_mandatory(marks: &[Mark]) -> bool
    ensures { result ≡ fold (λ some m. some || eqb m 1) false marks.now }
{
    marks
        .iter()
        .fold(false, |some, &mark| some | mark.is_mandatory())
}

// Gives how many required items there are and writes as many of them, ascending, over the front of `list` as it has room for.
pub fn required_items<L: ArcList>(
    header: Header,
    arcs: &L,
    marks: &[Mark],
    list: &mut [u32],
) -> usize
    requires { Sized header (L.arcs arcs.now) marks.now × (header.nodes ≤ 64) × (header.arcs ≤ 512) }
    ensures { let S = sheet_of header (L.arcs arcs.now) marks.now in
        RoomListed (required S) list.old list.new result }
{
    if !some_mandatory(marks) {
        return 0;
    }
    let forced = forced_nodes(header, arcs, marks);
    let mut count: usize = 0;
    for (i, &mark) in marks.iter().enumerate() {
        if is_required(i, header.nodes, mark, &forced) {
            count = note_item(list, count, i as u32);
        }
    }
    count
}

// Whether at most eight items are required. This and the two above are asked of numbers that are not judged yet, so they take no `Sheet`.
pub fn few<L: ArcList>(header: Header, arcs: &L, marks: &[Mark]) -> bool
    requires { Sized header (L.arcs arcs.now) marks.now × (header.nodes ≤ 64) × (header.arcs ≤ 512) }
    ensures { result ≡ leb (length (required (sheet_of header (L.arcs arcs.now) marks.now))) 8 }
{
    let mut list = [0u32; 0];
    required_items(header, arcs, marks, &mut list) <= GOALS
}
