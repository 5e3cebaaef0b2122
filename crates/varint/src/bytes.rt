ghost use Rattle.std.specs.Prelude.{◌≡◌, ◌<◌, ltb, IfOk, IfErr, OnErr};
ghost use Rattle.varint.specs.Varint.{got, refuse, read_number, number};
ghost use Rattle.varint.specs.Refusal.{number_of};
ghost use Rattle.varint.specs.Decided.{Allowed};

use crate::refusal::Refusal;

// The bytes that are still to be read.
#[derive(Clone, Copy, Debug, PartialEq, Eq)]
pub struct Bytes<'a> {
    pub rest: &'a [u8],
}

impl Bytes<'_> {
    // Takes the number at the front. It is built as its bytes arrive, with no buffer: `sum` is the value of the groups so far and `scale` the weight of the
    // next one. Once a number is taken or drawn as `Overlong`, no byte behind the one that decided it can alter that: `call_decided` and `call_overlong` say
    // it of each answer that the contract allows, and it allows one (`allowed_one`). Inlined, so that the cursor stays in registers.
    #[inline(always)]
    #[tactic(auto, using(crate::proofs::TakeLaws::taken))]
    pub fn take_number(&mut self) -> Result<u32, Refusal>
        ensures got { IfOk result (λ x. read_number self.old.rest.now ≡ got x self.new.rest.now) }
        ensures refused { IfErr result (λ why. read_number self.old.rest.now ≡ refuse (number_of why)) }
        ensures kept { OnErr result (self.new.rest.now ≡ self.old.rest.now) }
        ensures small { IfOk result (λ x. x < 268435456) }
        ensures decided { Allowed self.old.rest.now result self.new.rest.now }
    {
        // Nearly every number has one byte: taken by itself, it needs no product.
        if let Some((&only, behind)) = self.rest.split_first() {
            if only < 128 {
                self.rest = behind;
                return Ok(only as u32);
            }
        }
        let mut rest = self.rest;
        let mut sum = 0;
        let mut scale: u32 = 1;
        for i in 0..4u32 {
            let Some((&byte, tail)) = rest.split_first() else {
                return Err(Refusal::Ends);
            };
            let group = byte as u32;
            if group < 128 {
                if group == 0 && i > 0 {
                    return Err(Refusal::Overlong);
                }
                self.rest = tail;
                return Ok(sum + scale * group);
            }
            sum += scale * (group - 128);
            scale *= 128;
            rest = tail;
        }
        Err(Refusal::Overlong)
    }

    // Takes the number at the front, which is to be below `end`; otherwise the refusal is `why`, and nothing is taken.
    #[inline(always)]
    #[tactic(auto, unfolding(crate::specs::Varint::number, crate::specs::Varint::after, crate::specs::Varint::judged))]
    pub fn take_below(&mut self, end: u32, why: Refusal) -> Result<u32, Refusal>
        ensures got { IfOk result (λ x. number (number_of why) (λ y. ltb y end) self.old.rest.now ≡ got x self.new.rest.now) }
        ensures refused { IfErr result (λ e. number (number_of why) (λ y. ltb y end) self.old.rest.now ≡ refuse (number_of e)) }
        ensures kept { OnErr result (self.new.rest.now ≡ self.old.rest.now) }
        ensures below { IfOk result (λ x. x < end) }
    {
        let mut ahead = *self;
        let x = ahead.take_number()?;
        if x >= end {
            return Err(why);
        }
        *self = ahead;
        Ok(x)
    }
}
