ghost use Rattle.std.specs.Prelude.{ltb};
ghost use Rattle.varint.specs.Varint.{number};
ghost use Rattle.varint.specs.Refusal.{number_of};
ghost use Rattle.varint.specs.declared.refusal.Refusal.TheVariants.{Mark};

use super::*;

// Numbers below ten, by a kind that has taken a number when it refuses it.
struct Digits;

impl Kind for Digits {
    type Value = u32;

    ghost reads = { λ kind bs. number (number_of Mark) (λ x. ltb x 10) bs };

    #[tactic(auto, unfolding(varint::specs::Varint::number, varint::specs::Varint::after, varint::specs::Varint::judged))]
    fn take(&self, bytes: &mut Bytes) -> Result<u32, Refusal> {
        let x = bytes.take_number()?;
        if x < 10 { Ok(x) } else { Err(Refusal::Mark) }
    }
}

#[test]
fn kind_that_takes_where_it_refuses(rt: HostRuntime) {
    let mut out = [0u32; 2];
    let mut bytes = Bytes { rest: &[4, 10, 5] };
    assert_eq!(rt; read_all(&Digits, &mut bytes, &mut out), Err(Refusal::Mark));
    assert_eq!(rt; bytes.rest, [4, 10, 5].as_slice());
    assert_eq!(rt; Digits.attempt(&mut bytes), Ok(4));
    assert_eq!(rt; Digits.attempt(&mut bytes), Err(Refusal::Mark));
    assert_eq!(rt; bytes.rest, [10, 5].as_slice());
    assert_eq!(rt; Digits.take(&mut bytes), Err(Refusal::Mark));
    assert_eq!(rt; bytes.rest, [5].as_slice());
    assert_eq!(rt; Digits.take(&mut bytes), Ok(5));
}
