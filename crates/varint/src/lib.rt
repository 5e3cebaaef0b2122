// Numbers in groups of seven bits, lowest group first (docs/FORMATS.md, 'Numbers'): read and written.
#![tactic(auto)]

ghost use Rattle.std.specs.Prelude.{◌≡◌, ◌≤◌, ◌<◌, length};
ghost use Rattle.lists.specs.Lists.{Put};
ghost use Rattle.varint.specs.Varint.{write_number};

pub mod bytes;
pub mod refusal;

pub use bytes::Bytes;
pub use refusal::Refusal;

// Writes x, in its shortest form, over the front of `out` and gives the count of bytes. The loop stays a `while`: it ends by the value, not by a count.
#[tactic(auto, using(crate::proofs::WriteLaws::writing))]
pub fn put_number(out: &mut [u8], x: u32) -> usize
    requires { (x < 268435456) × (length (write_number x) ≤ length out.old) }
    ensures { Put (write_number x) out.old out.new result }
{
    let mut rest = x;
    let mut i = 0;
    while rest >= 128 {
        out[i] = (128 + rest % 128) as u8;
        rest /= 128;
        i += 1;
    }
    out[i] = rest as u8;
    i + 1
}

// How many bytes `put_number` writes for x.
#[tactic(auto, using(crate::proofs::SizeLaws::sized))]
pub fn size_of(x: u32) -> usize
    requires { x < 268435456 }
    ensures { result ≡ length (write_number x) }
{
    match x {
        0..=127 => 1,
        128..=16_383 => 2,
        16_384..=2_097_151 => 3,
        _ => 4,
    }
}
