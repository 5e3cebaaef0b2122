// Rows kept while an item is opened: put aside, put back, compared.
#![tactic(auto)]

ghost use Rattle.std.specs.Prelude.{◌≡◌, true, false, ◌⊎◌, ◌+◌, ◌*◌, ◌≤◌, ◌<◌, eqb, length};
ghost use Rattle.std.specs.Int.Bits.{bit_or};
ghost use Rattle.rows.specs.Bits.{bit_of, alone};
ghost use Rattle.row_save.specs.Kept.{RowPut, PutBack};
ghost use Rattle.rows.specs.Rows.{scratch_numbers};
ghost use Rattle.row_save.specs.Unmoved.{Entered, UnmovedAt, Unmoved, Moved};

use rows::{ENTRIES, ROW_LENGTH};

// Where the work has the rows as they were before an item was opened: behind the rows, the goals' entries and the table.
const KEPT: usize = 3072;

// Which rows are kept.
#[derive(Clone, Copy, Debug, PartialEq, Eq)]
pub struct RowSet {
    pub bits: u64,
}

impl RowSet {
    pub const EMPTY: RowSet = RowSet { bits: 0 };

    fn has(self, row: usize) -> bool
        requires { row < 9 }
        ensures { result ≡ eqb (bit_of self.bits row) 1 }
    {
        (self.bits >> row) % 2 == 1
    }

    // This set and the row.
    pub fn with(self, row: usize) -> RowSet
        requires { row < 9 }
        ensures { result.bits ≡ bit_or self.bits (alone row) }
    {
        RowSet {
            bits: self.bits | 1u64 << row,
        }
    }
}

// Copies the row that begins at `from` over the one that begins at `to`.
fn copy_row(work: &mut [u32], from: usize, to: usize)
    requires { (from + 64 ≤ length work.old) × (to + 64 ≤ length work.old) × ((from + 64 ≤ to) ⊎ (to + 64 ≤ from)) }
    ensures { RowPut work.old from to work.new }
{
    work.copy_within(from..from + ROW_LENGTH, to);
}

// Keeps row `row`.
pub fn keep_row(work: &mut [u32], row: usize)
    requires { (row < 9) × (length work.old ≡ scratch_numbers) }
    ensures { RowPut work.old (row * 64) (3072 + row * 64) work.new }
{
    let at = row * ROW_LENGTH;
    copy_row(work, at, KEPT + at);
}

// Puts those of the first `rows` rows back that are kept.
pub fn put_back(work: &mut [u32], rows: usize, kept: RowSet)
    requires { (rows ≤ 9) × (length work.old ≡ scratch_numbers) }
    ensures { PutBack work.old rows kept.bits work.new }
{
    for row in 0..rows {
        if kept.has(row) {
            let at = row * ROW_LENGTH;
            copy_row(work, KEPT + at, at);
        }
    }
}

// Whether an entry of row `row` that matters, at the target or where a goal is entered, is another than in the kept row.
fn row_moved(work: &[u32], row: usize, count: usize, to: usize) -> bool
    requires { (length work.now ≡ scratch_numbers) × (row < 9) × (count ≤ 8) × (to < 64) × Entered count work.now }
    ensures { (result ≡ false → UnmovedAt work.now row count to) × (result ≡ true → UnmovedAt work.now row count to → ⊥) }
{
    let at = row * ROW_LENGTH;
    if work[KEPT + at + to] != work[at + to] {
        return true;
    }
    for goal in 0..count {
        let node = work[ENTRIES + goal] as usize;
        if work[KEPT + at + node] != work[at + node] {
            return true;
        }
    }
    false
}

// Whether such an entry is another in any of the first `rows` rows that are kept.
pub fn moved(work: &[u32], rows: usize, kept: RowSet, count: usize, to: usize) -> bool
    requires { (length work.now ≡ scratch_numbers) × (rows ≤ 9) × (count ≤ 8) × (to < 64) × Entered count work.now }
    ensures { (result ≡ false → Unmoved work.now rows kept.bits count to) × (result ≡ true → Moved work.now rows kept.bits count to) }
{
    for row in 0..rows {
        if kept.has(row) && row_moved(work, row, count, to) {
            return true;
        }
    }
    false
}
