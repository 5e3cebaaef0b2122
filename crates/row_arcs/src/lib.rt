// The open arcs with an open head, packed to the front of an array.
#![tactic(auto)]

ghost use Rattle.std.specs.Prelude.{◌≡◌, ◌≤◌, length, take};
ghost use Rattle.lists.specs.Lists.{Put};
ghost use Rattle.rows.specs.Net.{Packed};
ghost use Rattle.row_arcs.specs.OpenArcs.{open_arcs};

use rows::net::Net;
use walks::arc::Arc;

// Writes the open arcs with an open head to the front of `packed`, in their order, and gives how many there are.
pub fn pack(net: &Net, packed: &mut [Arc]) -> usize
    requires { length net.now.arcs ≤ length packed.old }
    ensures { let N = net.now in
        let out = packed.new in
        (result ≤ length out) × Packed N (take result out) × (result ≤ length N.arcs) × Put (open_arcs N) packed.old out result }
{
    let mut count = 0;
    for arc in 0..net.arc_count() {
        if net.is_open(arc) {
            packed[count] = net.arc(arc);
            count += 1;
        }
    }
    count
}
