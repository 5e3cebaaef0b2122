// What closures cost, for a sheet that was read and a list of closures, and its lines.
#![tactic(auto)]

ghost use Rattle.std.specs.Prelude.{◌≡◌, [], ◌∷◌, ◌+◌, ◌≤◌, ◌<◌, length};
ghost use Rattle.lists.specs.Lists.{Put};
ghost use Rattle.walks.specs.Flat.{graph_of};
ghost use Rattle.walks.specs.Graph.{closed_in, least};
ghost use Rattle.sheet.specs.Sheet.{sheet_of};
ghost use Rattle.closed_marks.specs.Closing.{Markable};
ghost use Rattle.cost_rules.specs.Cost.{cost_lines, opened_line, length_line, slack_line};
ghost use Rattle.lengths.specs.Told.{as_least};
ghost use Rattle.cost_lines.specs.Ask.{line_of};
ghost use Rattle.cost_lines.specs.Told.{costs_text};

mod display;

use arrayvec::ArrayVec;
use lengths::Query;
use rows::cap::Cap;
use rows::net::Net;
use sheet_required::whole::Sheet;
use text_lines::{DifferenceLine, Line, NumberLine};
use walks::mark::Mark;

// A length alone on its line, or `none`.
#[derive(Clone, Copy, Debug, PartialEq, Eq)]
pub struct LengthLine(pub Option<u32>);

impl LengthLine {
    // Writes the line over the front of `out` and gives its length.
    pub fn put(&self, out: &mut [u8]) -> usize
        requires { length (length_line (as_least self.now.0)) ≤ length out.old }
        ensures { Put (length_line (as_least self.now.0)) out.old out.new result }
    {
        match self.0 {
            None => {
                let none = Line {
                    word: b"none",
                    numbers: &[],
                };
                none.put(out)
            }
            Some(length) => NumberLine(length).put(out),
        }
    }
}

// How far a length is below the limit, or `none`.
#[derive(Clone, Copy, Debug, PartialEq, Eq)]
pub struct SlackLine {
    pub limit: u32,
    pub length: Option<u32>,
}

impl SlackLine {
    // Writes the line over the front of `out` and gives its length.
    pub fn put(&self, out: &mut [u8]) -> usize
        requires { length (slack_line self.now.limit (as_least self.now.length)) ≤ length out.old }
        ensures { Put (slack_line self.now.limit (as_least self.now.length)) out.old out.new result }
    {
        match self.length {
            None => LengthLine(None).put(out),
            Some(length) => {
                let line = DifferenceLine {
                    whole: self.limit,
                    part: length,
                };
                line.put(out)
            }
        }
    }
}

// What closures cost: how far the length through an item is below the limit, and that length once each of them is open, of at most `N`.
#[derive(Debug, Drop)]
pub struct Costs<const N: usize> {
    pub slack: SlackLine,
    pub opened: ArrayVec<Option<u32>, N>,
}

impl<const N: usize> Costs<N> {
    // Writes the lines over the front of `out` and gives their length.
    pub fn put(&self, out: &mut [u8]) -> usize
        requires { length (costs_text self.now) ≤ length out.old }
        ensures { Put (costs_text self.now) out.old out.new result }
    {
        let mut at = self.slack.put(out);
        for length in self.opened.as_slice() {
            at += LengthLine(*length).put(&mut out[at..]);
        }
        at
    }
}

// The least length of a walk of the sheet through the item, clear of what these marks close, if there is one. No length of a sheet comes near the cap, so
// that nothing is cut off.
fn length_through(sheet: &Sheet, marks: &[Mark], item: usize) -> Option<u32>
    requires { let h = sheet.now.header in (h.nodes + h.arcs ≤ length marks.now) × (item < h.nodes + h.arcs) }
    ensures { let s = sheet.now in
        let G = graph_of s.header.nodes s.arcs.now in
        as_least result ≡ least G (closed_in marks.now) (item ∷ []) s.header.source s.header.target }
{
    let net = Net {
        nodes: sheet.header.nodes,
        arcs: sheet.arcs,
        marks,
    };
    let query = Query {
        from: sheet.header.source,
        to: sheet.header.target,
        cap: Cap::GREATEST,
    };
    item_length::least_through(&query, &net, item)
}

// The same once one of the listed closures is open, the others are shut and all else is open. The sheet's own marks do not count.
fn length_opened(sheet: &Sheet, item: usize, list: &[u32], opened: usize) -> Option<u32>
    requires { let h = sheet.now.header in (item < h.nodes + h.arcs) × Markable list.now × (opened < 576) }
    ensures { line_of result ≡ opened_line (sheet_of sheet.now.header sheet.now.arcs.now []) item list.now opened }
{
    let marks = closed_marks::closing_but(list, opened);
    length_through(sheet, &marks, item)
}

// What the listed closures cost, in the list's order.
pub fn weigh<const N: usize>(sheet: &Sheet, item: usize, list: &[u32]) -> Costs<N>
    requires { let h = sheet.now.header in (item < h.nodes + h.arcs) × Markable list.now × (length list.now ≤ N) }
    ensures { let s = sheet.now in
        costs_text result ≡ cost_lines (sheet_of s.header s.arcs.now s.marks.now) item list.now }
{
    let length = length_through(sheet, sheet.marks, item);
    let slack = SlackLine {
        limit: sheet.header.limit,
        length,
    };
    let mut opened = ArrayVec::new();
    for &closure in list {
        opened.push(length_opened(sheet, item, list, closure as usize));
    }
    Costs { slack, opened }
}
