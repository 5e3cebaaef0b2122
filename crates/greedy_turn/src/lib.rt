// An item's turn in the greedy list.
#![tactic(auto)]

ghost use Rattle.std.specs.Prelude.{◌≡◌, true, false, not, ◌+◌, ◌≤◌, ◌<◌, eqb, length, drop};
ghost use Rattle.std.specs.List.{list_any};
ghost use Rattle.lists.specs.Lists.{member};
ghost use Rattle.row_save.specs.Kept.{RowsBack};
ghost use Rattle.rows.specs.Rows.{scratch_numbers};
ghost use Rattle.row_save.specs.Unmoved.{Entered, Unmoved};
ghost use Rattle.row_links.specs.Links.{Linked, Shaped, taken_off};
ghost use Rattle.goal_table.specs.Table.{GoalsFit};
ghost use Rattle.greedy_turn.specs.Turns.{task_is, task_items, Setting, Told, NotedBeside, Judges, InTurn, State, Turned};

use lengths::Query;
use row_links::Links;
use row_save::RowSet;
use rows::cap::Cap;
use rows::net::Net;
use walks::arc::Arc;
use walks::mark::Mark;

// Whether some walk meets the goals within the limit, by the rows in the work.
fn fits_limit(query: &Query, net: &Net, goals: &[u32], work: &mut [u32]) -> bool
    requires { GoalsFit net.now goals.now × (3072 ≤ length work.old) × (query.now.to < net.now.nodes) }
    ensures tells_whether_fits { Told net.now query.now.from query.now.to query.now.cap goals.now work.old result }
    ensures goals_noted { NotedBeside net.now query.now.cap goals.now work.old work.new }
    ensures kept_rows_unchanged { drop 3072 work.new ≡ drop 3072 work.old }
{
    // Opened for what every net keeps: its nodes are few.
    let _ = &net.nodes;
    lengths::note_goals(net, goals, work, query.cap.length());
    lengths::fill_table(work, goals.len(), query.cap);
    lengths::reach_goals(query, work, goals.len()).is_some()
}

// Whether no walk meets the goals within the limit. Where one does, the rows that were kept are put back.
fn stays_open(query: &Query, kept: RowSet, net: &Net, goals: &[u32], work: &mut [u32]) -> bool
    requires { GoalsFit net.now goals.now × (length work.old ≡ scratch_numbers) × (query.now.to < net.now.nodes) }
    ensures tells_whether_blocked { Told net.now query.now.from query.now.to query.now.cap goals.now work.old (not result) }
    ensures goals_noted_if_open { result ≡ true → NotedBeside net.now query.now.cap goals.now work.old work.new }
    ensures rows_back_if_not { result ≡ false → RowsBack work.old (length goals.now + 1) kept.bits work.new }
{
    if fits_limit(query, net, goals, work) {
        row_save::put_back(work, goals.len() + 1, kept);
        return false;
    }
    true
}

// Links the open arcs once the item is closed again, where `before` of them were linked before it was opened.
fn link_closed(net: &Net, links: &mut Links, item: usize, before: usize)
    requires few_arcs { length net.now.arcs ≤ 512 }
    requires shaped { Shaped links.old.count links.old.arcs links.old.chains × (before ≤ 512) }
    requires linked_but_for_last { let arcs = links.old.arcs in
        (net.now.nodes ≤ item → links.old.count ≡ before + 1 → Linked net.now before arcs (taken_off arcs links.old.chains before)) }
    ensures { Linked net.now links.new.count links.new.arcs links.new.chains }
{
    if item >= net.nodes && links.count == before + 1 {
        links.take_off();
        return;
    }
    links.pack(net);
}

// What stays over the turns: the graph but for its marks, the target and the limit, the goals, and where the rows start, first of all at the source.
#[derive(Clone, Copy, Debug, PartialEq, Eq)]
pub struct Task<'a> {
    pub nodes: usize,
    pub arcs: &'a [Arc],
    pub to: usize,
    pub cap: Cap,
    pub goals: &'a [u32],
    pub starts: &'a [usize],
}

impl<'a> Task<'a> {
    // Whether the item is one of the goals.
    fn has_goal(&self, item: usize) -> bool
        ensures { result ≡ list_any (λ goal. eqb goal item) self.now.goals.now }
    {
        self.goals.iter().any(|&goal| goal as usize == item)
    }

    // Whether a walk may fit now that the item is open: it is a goal, or an entry that matters is another.
    fn may_fit(&self, item: usize, kept: RowSet, work: &[u32]) -> bool
        requires work_and_task_fit { (length work.now ≡ scratch_numbers) × (length self.now.starts.now ≤ 9) × (self.now.to < 64) }
        requires goals_entered { (length self.now.goals.now ≤ 8) × Entered (length self.now.goals.now) work.now }
        ensures not_a_goal_if_false { result ≡ false → member item self.now.goals.now ≡ false }
        ensures unmoved_if_false { let T = task_is self.now in
            (result ≡ false → Unmoved work.now (length T.starts) kept.bits (length T.goals) T.to) }
    {
        if self.has_goal(item) {
            return true;
        }
        row_save::moved(work, self.starts.len(), kept, self.goals.len(), self.to)
    }

    // Whether no walk meets the goals within the limit once the item is opened, for the marks and the linked arcs with the item open. The rows are
    // then those of the marks, and else as they were.
    fn blocked(&self, item: usize, marks: &[Mark], links: &Links, work: &mut [u32]) -> bool
        requires { let T = task_is self.now in
            Setting T × InTurn T item marks.now links.now.arcs links.now.chains links.now.count work.old }
        ensures { Judges (task_is self.now) item marks.now work.old work.new result }
    {
        let net = Net {
            nodes: self.nodes,
            arcs: self.arcs,
            marks,
        };
        let kept = row_reopen::open_item(&net, links, item, self.cap, self.starts, work);
        if !self.may_fit(item, kept, work) {
            return true;
        }
        let query = Query {
            from: self.starts[0],
            to: self.to,
            cap: self.cap,
        };
        stays_open(&query, kept, &net, self.goals, work)
    }

    // Takes an item's turn: one that is closed is opened, with those opened earlier also open and later ones still closed. If no walk then meets the
    // goals within the limit it remains open; otherwise it is closed again and listed. Gives whether it is listed.
    pub fn take_turn(
        &self,
        item: usize,
        marks: &mut [Mark],
        links: &mut Links,
        work: &mut [u32],
    ) -> bool
        requires setting_holds { let T = task_is self.now in
            Setting T × (item < task_items T) }
        requires state_before { State (task_is self.now) marks.old links.old.arcs links.old.chains links.old.count work.old }
        ensures item_turned { Turned (task_is self.now) marks.old item marks.new result }
        ensures state_after { State (task_is self.now) marks.new links.new.arcs links.new.chains links.new.count work.new }
    {
        if !marks[item].is_forbidden() {
            return false;
        }
        let before = links.count;
        marks[item] = Mark::OPEN;
        let opened = Net {
            nodes: self.nodes,
            arcs: self.arcs,
            marks: &*marks,
        };
        links.open(&opened, item);
        if self.blocked(item, marks, links, work) {
            return false;
        }
        marks[item] = Mark::FORBIDDEN;
        let closed = Net {
            nodes: self.nodes,
            arcs: self.arcs,
            marks: &*marks,
        };
        lengths::note_goals(&closed, self.goals, work, self.cap.length());
        link_closed(&closed, links, item, before);
        true
    }
}
