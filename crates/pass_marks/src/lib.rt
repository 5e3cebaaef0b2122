// The marks that a pass leaves where the round stands, and their slip.
#![tactic(auto)]

ghost use Rattle.std.specs.Prelude.{◌≡◌, ◌∷◌, ◌+◌, ◌≤◌, ◌<◌, length};
ghost use Rattle.lists.specs.Lists.{front, Put};
ghost use Rattle.pass_rules.specs.Verdict.{new_mark, new_marks};
ghost use Rattle.sheet.specs.Sheet.{sheet_of};
ghost use Rattle.sheet_required.specs.Whole.{ForcedNodes};

use item_fits::EndRows;
use walks::mark::Mark;

// An item's mark after a pass of verdict 0: an open item that no walk meets becomes forbidden, an open node that is forced mandatory.
fn new_mark(rows: &EndRows, forced: &[bool], item: usize) -> Mark
    requires item_known { let h = rows.now.sheet.header in item < h.nodes + h.arcs }
    requires forced_nodes { let s = rows.now.sheet in ForcedNodes (sheet_of s.header s.arcs.now s.marks.now) forced.now }
    ensures { let s = rows.now.sheet in result ≡ new_mark (sheet_of s.header s.arcs.now s.marks.now) item }
{
    let mark = rows.sheet.mark(item);
    if !mark.is_open() {
        return mark;
    }
    if !rows.fits_item(item) {
        return Mark::FORBIDDEN;
    }
    if item < rows.sheet.header.nodes && forced[item] {
        return Mark::MANDATORY;
    }
    Mark::OPEN
}

// Writes the marks after a pass of verdict 0 over the front of `out`.
fn put_marks(rows: &EndRows, out: &mut [u8])
    requires { let h = rows.now.sheet.header in h.nodes + h.arcs ≤ length out.old }
    ensures { let s = rows.now.sheet in out.new ≡ front (new_marks (sheet_of s.header s.arcs.now s.marks.now)) out.old }
{
    let sheet = &rows.sheet;
    let forced = sheet_required::forced_nodes(sheet.header, &sheet.arcs, sheet.marks);
    for item in 0..sheet.items() {
        out[item] = u8::from(new_mark(rows, &forced, item));
    }
}

// Writes the slip of verdict 0, the number 0 and the new marks, over the front of `slip` and gives its length.
pub fn write_stands(rows: &EndRows, slip: &mut [u8]) -> usize
    requires { 1200 ≤ length slip.old }
    ensures { let s = rows.now.sheet in Put (0 ∷ new_marks (sheet_of s.header s.arcs.now s.marks.now)) slip.old slip.new result }
{
    slip[0] = 0;
    put_marks(rows, &mut slip[1..]);
    1 + rows.sheet.items()
}
