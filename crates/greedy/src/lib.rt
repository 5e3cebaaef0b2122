// The greedy list of a reason.
#![tactic(auto)]

ghost use Rattle.std.specs.Prelude.{◌≡◌, ℕ, ◌≤◌, length, get_or};
ghost use Rattle.lists.specs.Lists.{Put};
ghost use Rattle.reason_list.specs.Reasons.{reasons};
ghost use Rattle.goal_table.specs.Table.{GoalsFit};
ghost use Rattle.greedy_turn.specs.Turns.{task_is, map, source, task_items, Setting, State};
ghost use Rattle.greedy.specs.Listing.{reasons_in, Listable, Stuck};

use greedy_turn::Task;
use lengths::Query;
use row_links::Links;
use row_spread::CHAIN_NUMBERS;
use rows::ROWS;
use rows::net::Net;
use walks::arc::Arc;
use walks::mark::Mark;
use walks::{ARCS, ITEMS};

// The marks in an array of their own, open past their end. Written out: std makes an array of a slice of its very length alone.
fn copied(marks: &[Mark]) -> [Mark; ITEMS]
    requires { length marks.now ≤ 576 }
    ensures { (length result ≡ 576) × ((j : ℕ) → get_or result j 0 ≡ get_or marks.now j 0) }
{
    let mut copy = [Mark::OPEN; ITEMS];
    copy[..marks.len()].copy_from_slice(marks);
    copy
}

// Takes the items' turns in ascending order and writes the listed ones to the front of `list`. The marks are left with the opened items open.
fn fill_list(
    task: &Task,
    marks: &mut [Mark],
    links: &mut Links,
    work: &mut [u32],
    list: &mut [u32],
) -> usize
    requires { let T = task_is task.now in
        Setting T × State T marks.old links.old.arcs links.old.chains links.old.count work.old × (task_items T ≤ length list.old) }
    ensures { let T = task_is task.now in
        Put (reasons (map T) (source T) T.to T.cap T.goals marks.old) list.old list.new result }
{
    let mut listed = 0;
    for item in 0..task.nodes + task.arcs.len() {
        if task.take_turn(item, marks, links, work) {
            list[listed] = item as u32;
            listed += 1;
        }
    }
    listed
}

// Writes the reason for the goals and the query's limit to the front of `list` and gives how many items it has: the greedy list. No walk clear of the
// forbidden items meets the goals within the limit, and the rows for the goals are in the work, which is left with what was found.
pub fn list_reasons(
    query: &Query,
    net: &Net,
    goals: &[u32],
    work: &mut [u32],
    list: &mut [u32],
) -> usize
    requires few_arcs { length net.now.arcs ≤ 512 }
    requires goals_fit { GoalsFit net.now goals.now × (length net.now.marks ≤ 576) }
    requires listable { Listable query.now net.now work.old list.old }
    requires no_walk_fits { Stuck net.now query.now.from query.now.to query.now.cap goals.now work.old }
    ensures { Put (reasons_in net.now query.now.from query.now.to query.now.cap goals.now) list.old list.new result }
{
    let mut open = copied(net.marks);
    let copy = Net {
        nodes: net.nodes,
        arcs: net.arcs,
        marks: &open,
    };
    let mut starts = [0usize; ROWS];
    lengths::set_starts(net.nodes, net.arcs, query.from, goals, &mut starts);
    lengths::note_goals(&copy, goals, work, query.cap.length());
    let mut links = Links {
        arcs: [Arc::ZERO; ARCS],
        chains: [0; CHAIN_NUMBERS],
        count: 0,
    };
    links.pack(&copy);
    let task = Task {
        nodes: net.nodes,
        arcs: net.arcs,
        to: query.to,
        cap: query.cap,
        goals,
        starts: &starts[..goals.len() + 1],
    };
    fill_list(&task, &mut open, &mut links, work, list)
}
