// Several numbers one behind the other: passed over, read, measured and written.

#![tactic(auto)]

ghost use Rattle.std.specs.Prelude.{◌≡◌, true, ◌≤◌, length, drop};
ghost use Rattle.lists.specs.Lists.{front, Put};
ghost use Rattle.varint.specs.Varint.{read_number, write_numbers};
ghost use Rattle.numbers.specs.Begun.{begun};
ghost use Rattle.varint.specs.Answer.{small};

pub mod section;

use section::Plain;
use varint::Bytes;

// Stores the numbers that stand from `from` on over the front of `out`, up to the first that cannot be read.
#[tactic(auto, using(crate::proofs::SeveralLaws::none_stored))]
pub fn values_at(bytes: &[u8], from: usize, count: usize, out: &mut [u32])
    requires { count ≤ length out.old }
    ensures { out.new ≡ front (begun read_number count (drop from bytes.now)) out.old }
{
    if let Some(rest) = bytes.get(from..) {
        let _ = section::read_all(&Plain, &mut Bytes { rest }, &mut out[..count]);
    }
}

// Writes the numbers in a row over the front of `out` and gives the count of bytes.
#[tactic(auto, using(crate::proofs::RowRules::row_rules))]
pub fn put_numbers(out: &mut [u8], numbers: &[u32]) -> usize
    requires { (small numbers.now ≡ true) × (length (write_numbers numbers.now) ≤ length out.old) }
    ensures { Put (write_numbers numbers.now) out.old out.new result }
{
    let mut at = 0;
    for &x in numbers {
        at += varint::put_number(&mut out[at..], x);
    }
    at
}

// How many bytes `put_numbers` writes for the numbers.
#[tactic(auto, using(varint::proofs::WriteLaws::small_at))]
pub fn sizes(numbers: &[u32]) -> usize
    requires { small numbers.now ≡ true }
    ensures { result ≡ length (write_numbers numbers.now) }
{
    let mut total = 0;
    for &x in numbers {
        total += varint::size_of(x);
    }
    total
}

// Copies the bytes over the front of `out` and gives their count. A loop, since the library's copy of a slice would have the archive for C ask for `memmove`.
pub fn put_bytes(out: &mut [u8], bytes: &[u8]) -> usize
    requires { length bytes.now ≤ length out.old }
    ensures { Put bytes.now out.old out.new result }
{
    for i in 0..bytes.len() {
        out[i] = bytes[i];
    }
    bytes.len()
}
