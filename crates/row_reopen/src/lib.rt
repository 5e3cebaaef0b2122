// A forbidden item opened: the rows mended for it, and those that it cuts kept.
#![tactic(auto)]

ghost use Rattle.std.specs.Prelude.{◌≡◌, true, false, ◌+◌, ◌≤◌, ◌<◌, length, take};
ghost use Rattle.rows.specs.Net.{count as arcs_of, arc_count, Joins};
ghost use Rattle.rows.specs.Rows.{AwaySame, row_at, StartsFit, scratch_numbers};
ghost use Rattle.row_links.specs.Links.{Shaped};
ghost use Rattle.row_reopen.specs.Openings.{change_is, Mends, RowMended, Saves, Spared, RowsAway, RowsMended, Entering, ItemOpened, Idle};

use row_links::Links;
use row_save::RowSet;
use row_spread::Mend;
use rows::ROW_LENGTH;
use rows::cap::Cap;
use rows::net::Net;
use walks::arc::Arc;
use walks::mark::Mark;

// What is opened, as the rows meet it.
#[derive(Clone, Copy, Debug, PartialEq, Eq)]
pub enum Change {
    Node,
    Arc(Arc),
}

// How the rows are mended for a change: over the linked arcs, clear of what the marks forbid, for walks of length at most `cap`, with the arcs of the
// active nodes tried first, one bit each.
#[derive(Clone, Copy, Debug, PartialEq, Eq)]
pub struct Mending<'a> {
    pub change: Change,
    pub active: u64,
    pub cap: Cap,
    pub links: &'a Links,
    pub marks: &'a [Mark],
}

impl<'a> Mending<'a> {
    // Whether a row has to be mended: for a node always, for an arc where it can cut an entry.
    fn may_cut(&self, row: &[u32]) -> bool
        requires { let C = change_is self.now.change in
            (C.tail < length row.now) × (C.head < length row.now) }
        ensures { let C = change_is self.now.change in
            (result ≡ false → (C.node ≡ false) × Idle self.now.cap C row.now) × (result ≡ true → C.node ≡ false → Idle self.now.cap C row.now → ⊥) }
    {
        match self.change {
            Change::Node => true,
            Change::Arc(Arc { tail, head, weight }) => {
                let cap = self.cap.length();
                rows::shorter(row, tail as usize, head as usize, weight, cap).is_some()
            }
        }
    }

    // Keeps the row, which starts at `from`, and mends it, if it has to be mended, and gives the rows that are kept then.
    fn mend(&self, row: usize, from: usize, kept: RowSet, work: &mut [u32]) -> RowSet
        requires shaped { Shaped self.now.links.now.count self.now.links.now.arcs self.now.links.now.chains × (row < 9) × (length work.old ≡ scratch_numbers) }
        requires start_and_change_fit { let C = change_is self.now.change in
            (from < 64) × (from < length self.now.marks.now) × (C.tail < 64) × (C.head < 64) }
        ensures row_kept_if_cut { Mends row self.now.cap (change_is self.now.change) kept.bits work.old work.new result.bits }
        ensures row_mended { let ys = take self.now.links.now.count self.now.links.now.arcs in
            let old = row_at work.old row in
            let new = row_at work.new row in
            RowMended self.now.cap ys self.now.marks.now from self.now.active (change_is self.now.change) old new × AwaySame ys from old new }
    {
        let at = row * ROW_LENGTH;
        if !self.may_cut(&work[at..at + ROW_LENGTH]) {
            return kept;
        }
        row_save::keep_row(work, row);
        let mend = Mend {
            from,
            active: self.active,
            cap: self.cap,
        };
        row_spread::mend_row(
            mend,
            self.links.arcs(),
            &self.links.chains,
            self.marks,
            &mut work[at..at + ROW_LENGTH],
        );
        kept.with(row)
    }

    // Mends every row that has to be mended, and gives those that were; they are kept as they were.
    fn mend_all(&self, starts: &[usize], work: &mut [u32]) -> RowSet
        requires shaped_with_starts { let n = length starts.now in
            let links = self.now.links.now in
            Shaped links.count links.arcs links.chains × StartsFit self.now.marks.now starts.now work.old × (n ≤ 9) × (length work.old ≡ scratch_numbers) }
        requires change_fits { let C = change_is self.now.change in
            (C.tail < 64) × (C.head < 64) }
        ensures cut_rows_saved { Saves (length starts.now) self.now.cap (change_is self.now.change) work.old work.new result.bits }
        ensures rows_mended { let ys = take self.now.links.now.count self.now.links.now.arcs in
            RowsMended self.now.cap ys self.now.marks.now starts.now self.now.active (change_is self.now.change) work.old work.new }
        ensures away_same_and_others_spared { let ys = take self.now.links.now.count self.now.links.now.arcs in
            let ss = starts.now in
            let before = work.old in
            RowsAway (length ss) ys ss before work.new × Spared (length ss) self.now.cap (change_is self.now.change) before result.bits }
    {
        let mut kept = RowSet::EMPTY;
        for row in 0..starts.len() {
            kept = self.mend(row, starts[row], kept, work);
        }
        kept
    }
}

// The nodes whose arcs may cut an entry once a node is opened: itself, and where the arcs that enter it come from.
fn entering(arcs: &[Arc], node: usize) -> u64
    requires { Joins 64 arcs.now × (node < 64) }
    ensures { Entering (arc_count arcs.now) arcs.now node result }
{
    let mut active = 1u64 << node;
    for arc in 0..arcs.len() {
        if arcs[arc].head as usize == node {
            active |= 1u64 << arcs[arc].tail;
        }
    }
    active
}

// The rows once the item is opened, and its arcs linked. The rows that were mended are kept as they were; it gives which. An arc to a forbidden node
// changes nothing.
pub fn open_item(
    net: &Net,
    links: &Links,
    item: usize,
    cap: Cap,
    starts: &[usize],
    work: &mut [u32],
) -> RowSet
    requires item_of_net { item < net.now.nodes + arcs_of net.now }
    requires shaped_with_starts { let n = length starts.now in
        Shaped links.now.count links.now.arcs links.now.chains × StartsFit net.now.marks starts.now work.old × (n ≤ 9) × (length work.old ≡ scratch_numbers) }
    ensures { let N = net.now in
        let ys = take links.now.count links.now.arcs in
        ItemOpened N.nodes N.arcs item cap N.marks ys starts.now work.old work.new result.bits }
{
    // Called for what every cap keeps: it is less than what stands for a missing length.
    let _ = cap.length();
    if item < net.nodes {
        let mending = Mending {
            change: Change::Node,
            active: entering(links.arcs(), item),
            cap,
            links,
            marks: net.marks,
        };
        return mending.mend_all(starts, work);
    }
    let arc = item - net.nodes;
    let tail = net.tail(arc);
    let head = net.head(arc);
    if net.is_closed(head) {
        return RowSet::EMPTY;
    }
    let mending = Mending {
        change: Change::Arc(net.arc(arc)),
        active: 1u64 << tail,
        cap,
        links,
        marks: net.marks,
    };
    mending.mend_all(starts, work)
}
