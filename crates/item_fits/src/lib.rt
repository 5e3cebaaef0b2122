// Whether some walk within a sheet's limit meets an item, by the least lengths from the source and to the target, or several goals at once. What a sheet
// asks of the length layer is said here alone.
#![tactic(auto)]

ghost use Rattle.std.specs.Prelude.{◌≡◌, [], ◌∷◌, ◌+◌, ◌≤◌, ◌<◌, length};
ghost use Rattle.std.proofs.Props.{props};
ghost use Rattle.walks.specs.Flat.{graph_of};
ghost use Rattle.walks.specs.Graph.{closed_in, least as least_of, fits};
ghost use Rattle.rows.specs.Held.{at_most};
ghost use Rattle.rows.specs.Net.{graph, closed};
ghost use Rattle.goals.specs.Told.{as_least};
ghost use Rattle.goal_table.specs.Table.{GoalsFit, Rowed};
ghost use Rattle.pass_rules.specs.Verdict.{fits_sheet};
ghost use Rattle.sheet.specs.Sheet.{sheet_of};
ghost use Rattle.item_fits.specs.Rows.{Rows};
ghost use Rattle.item_fits.specs.Asked.{QueryOf};

use lengths::Query;
use rows::ROW_LENGTH;
use rows::cap::Cap;
use rows::net::Net;
use sheet::Header;
use sheet_required::whole::Sheet;

// The numbers of the two rows by which a sheet is judged.
pub const TWO_ROWS: usize = 2 * ROW_LENGTH;

// What a header asks of a walk in a graph of `nodes` nodes: from `from` to `to`, of length at most `cap`. The cap may be any number.
#[derive(Clone, Copy, Debug, PartialEq, Eq)]
pub struct Asked {
    pub nodes: usize,
    pub from: usize,
    pub to: usize,
    pub cap: u32,
}

// What a header asks of a walk: from its source to its target, within its limit.
pub fn query_of(header: Header) -> Asked
    ensures { QueryOf header result }
{
    Asked {
        nodes: header.nodes,
        from: header.source,
        to: header.target,
        cap: header.limit,
    }
}

// The same of a sheet, as the length layer takes it: a sheet's limit is a cap.
pub fn sheet_query(sheet: &Sheet) -> Query
    ensures { let h = sheet.now.header in result ≡ record { from = h.source; to = h.target; cap = h.limit } }
{
    let asked = query_of(sheet.header);
    Query {
        from: asked.from,
        to: asked.to,
        cap: Cap::new(asked.cap),
    }
}

// The two rows by which a sheet is judged: the least lengths from its source to each node, and from each node to its target.
#[derive(Clone, Copy, Debug, PartialEq, Eq)]
pub struct EndRows<'a> {
    pub sheet: Sheet<'a>,
    pub there: [u32; ROW_LENGTH],
    pub back: [u32; ROW_LENGTH],
    pub ghost filled: { Rows sheet.header sheet.arcs.now sheet.marks.now there back } by { Prim.hlevel props },
}

impl<'a> EndRows<'a> {
    // The rows of a sheet.
    pub fn of(sheet: &Sheet<'a>) -> EndRows<'a>
        ensures { result.sheet ≡ sheet.now }
    {
        let net = sheet.net();
        let query = sheet_query(sheet);
        let mut there = [0u32; ROW_LENGTH];
        let mut back = [0u32; ROW_LENGTH];
        row_fill::row_from(&net, query.from, &mut there, query.cap);
        row_fill::row_to(&net, query.to, &mut back, query.cap);
        EndRows {
            sheet: *sheet,
            there,
            back,
        }
    }

    // Whether any walk clear of the forbidden items keeps to the limit.
    pub fn fits_some(&self) -> bool
        ensures { let s = self.now.sheet in result ≡ fits_sheet (sheet_of s.header s.arcs.now s.marks.now) [] }
    {
        let header = self.sheet.header;
        self.there[header.target] <= header.limit
    }

    // The least length of a walk clear of the forbidden items that meets the item, where it is within the limit: to the item's entry, over it, and on from
    // its exit.
    fn least_through(&self, item: usize) -> Option<u32>
        requires { let h = self.now.sheet.header in item < h.nodes + h.arcs }
        ensures { let s = self.now.sheet in
            let h = s.header in
            as_least result ≡ at_most h.limit (least_of (graph_of h.nodes s.arcs.now) (closed_in s.marks.now) (item ∷ []) h.source h.target) }
    {
        let sheet = &self.sheet;
        let nodes = sheet.header.nodes;
        let cap = sheet_query(sheet).cap;
        let own = goals::own(&sheet.net(), item, cap.length())?;
        let past = goals::sum(self.there[goals::entry(nodes, sheet.arcs, item)], own, cap)?;
        goals::sum(past, self.back[goals::exit(nodes, sheet.arcs, item)], cap)
    }

    // Whether some walk within the limit, clear of the forbidden items, meets the item.
    pub fn fits_item(&self, item: usize) -> bool
        requires { let h = self.now.sheet.header in item < h.nodes + h.arcs }
        ensures { let s = self.now.sheet in result ≡ fits_sheet (sheet_of s.header s.arcs.now s.marks.now) (item ∷ []) }
    {
        self.least_through(item).is_some()
    }
}

// Whether some walk within the query's cap, clear of the items that the marks close, meets all goals. The rows for the goals are left in the scratch.
pub fn fits_goals(query: &Query, net: &Net, goals: &[u32], scratch: &mut [u32]) -> bool
    requires few_arcs { length net.now.arcs ≤ 512 }
    requires goals_and_scratch_fit { let q = query.now in
        GoalsFit net.now goals.now × (3072 ≤ length scratch.old) × (q.from < net.now.nodes) × (q.to < net.now.nodes) }
    ensures tells_whether_fits { let q = query.now in result ≡ fits (graph net.now) q.from q.to q.cap (closed net.now) goals.now }
    ensures rows_filled { Rowed net.now query.now.cap query.now.from goals.now scratch.new }
{
    lengths::least(query, net, goals, scratch).is_some()
}
