ghost use Rattle.std.specs.Prelude.{◌≡◌, length};
ghost use Rattle.varint.specs.Varint.{read_number};
ghost use Rattle.numbers.specs.Begun.{begun};

use crate::claim::Claim;

// A list of a slip: how many numbers it has, and the slip's bytes from the first of them on. As many as are said are there.
#[derive(Clone, Copy, Debug, PartialEq, Eq)]
pub struct NumberList<'a> {
    pub count: u32,
    pub bytes: &'a [u8],
    ghost counted: { length (begun read_number count bytes.now) ≡ count },
}

// A slip that is well written: its claim, told by its first number, its goals and its reasons.
#[derive(Clone, Copy, Debug, PartialEq, Eq)]
pub struct SlipForm<'a> {
    pub claim: Claim,
    pub goals: NumberList<'a>,
    pub reasons: NumberList<'a>,
}
