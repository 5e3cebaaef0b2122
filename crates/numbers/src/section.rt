ghost use Rattle.std.specs.Prelude.{◌≡◌, ℕ, List, length, IfOk, IfErr, OnOk, OnErr};
ghost use Rattle.varint.specs.Varint.{Read, got, refuse, read_number, several};
ghost use Rattle.varint.specs.Refusal.{number_of};
ghost use Rattle.lists.specs.Lists.{front};
ghost use Rattle.numbers.specs.Begun.{begun};

use varint::{Bytes, Refusal};

// A kind of value of which several stand one behind the other.
pub trait Kind {
    type Value: Copy;

    ghost reads: { Self → List ℕ → Read Self.Value };

    // Takes the value at the front. Where it is refused, nothing is promised of what is left in `bytes`.
    fn take(&self, bytes: &mut Bytes) -> Result<Self::Value, Refusal>
        ensures got { IfOk result (λ x. reads self.now bytes.old.rest.now ≡ got x bytes.new.rest.now) }
        ensures refused { IfErr result (λ why. reads self.now bytes.old.rest.now ≡ refuse (number_of why)) };

    // The same, and where the value is refused, nothing is taken.
    fn attempt(&self, bytes: &mut Bytes) -> Result<Self::Value, Refusal>
        ensures got { IfOk result (λ x. reads self.now bytes.old.rest.now ≡ got x bytes.new.rest.now) }
        ensures refused { IfErr result (λ why. reads self.now bytes.old.rest.now ≡ refuse (number_of why)) }
        ensures kept { OnErr result (bytes.new.rest.now ≡ bytes.old.rest.now) }
    {
        let mut ahead = *bytes;
        let value = self.take(&mut ahead)?;
        *bytes = ahead;
        Ok(value)
    }
}

// Numbers as they are.
#[derive(Clone, Copy, Debug, PartialEq, Eq)]
pub struct Plain;

impl Kind for Plain {
    type Value = u32;

    ghost reads = { λ kind bs. read_number bs };

    fn take(&self, bytes: &mut Bytes) -> Result<u32, Refusal>
        ensures got { IfOk result (λ x. read_number bytes.old.rest.now ≡ got x bytes.new.rest.now) }
        ensures refused { IfErr result (λ why. read_number bytes.old.rest.now ≡ refuse (number_of why)) }
        ensures kept { OnErr result (bytes.new.rest.now ≡ bytes.old.rest.now) }
    {
        bytes.take_number()
    }
}

// Takes as many values as `out` has places and stores each, up to the first that is refused; where one is, none is taken from `bytes`.
pub fn read_all<K: Kind>(kind: &K, bytes: &mut Bytes, out: &mut [K::Value]) -> Result<(), Refusal>
    ensures got { OnOk result (several (K.reads kind.now) (length out.old) bytes.old.rest.now ≡ got out.new bytes.new.rest.now) }
    ensures refused { IfErr result (λ why. several (K.reads kind.now) (length out.old) bytes.old.rest.now ≡ refuse (number_of why)) }
    ensures kept { OnErr result (bytes.new.rest.now ≡ bytes.old.rest.now) }
    ensures in_front { out.new ≡ front (begun (K.reads kind.now) (length out.old) bytes.old.rest.now) out.old }
{
    let mut ahead = *bytes;
    for i in 0..out.len() {
        out[i] = kind.take(&mut ahead)?;
    }
    *bytes = ahead;
    Ok(())
}

// Passes over `count` numbers, or over none where one of them is refused.
#[tactic(auto, using(crate::proofs::SeveralLaws::gone))]
pub fn skip_numbers(bytes: &mut Bytes, count: usize) -> Result<(), Refusal>
    ensures got { OnOk result (several read_number count bytes.old.rest.now ≡ got (begun read_number count bytes.old.rest.now) bytes.new.rest.now) }
    ensures refused { IfErr result (λ why. several read_number count bytes.old.rest.now ≡ refuse (number_of why)) }
    ensures kept { OnErr result (bytes.new.rest.now ≡ bytes.old.rest.now) }
{
    let mut ahead = *bytes;
    for i in 0..count {
        ahead.take_number()?;
    }
    *bytes = ahead;
    Ok(())
}

#[cfg(test)]
mod tests;
