ghost use Rattle.std.specs.Prelude.{◌≡◌, ◌&&◌, false, leb, IfOk, IfErr};
ghost use Rattle.varint.specs.declared.refusal.Refusal.TheVariants.{BadSlip};
ghost use Rattle.slip_reader.specs.Claim.{claim_number};

use varint::Refusal;

// What a slip says (docs/FORMATS.md, 'The slip'), of the walks that are clear of its reasons and keep to the limit: there is none, none meets its goal, none
// meets all of its goals; or that its goal was struck off.
#[derive(Clone, Copy, Debug, PartialEq, Eq)]
pub enum Claim {
    NoWay,
    Unmet,
    Apart,
    Struck,
}

// The first number of a slip with this claim.
impl From<Claim> for u32 {
    ghost from_gives = { λ claim n. n ≡ claim_number claim };

    fn from(claim: Claim) -> u32 {
        match claim {
            Claim::NoWay => 1,
            Claim::Unmet => 2,
            Claim::Apart => 3,
            Claim::Struck => 4,
        }
    }
}

// The claim of a slip with this first number, from 1 to 4; no other number is a claim's.
impl TryFrom<u32> for Claim {
    type Error = Refusal;

    fn try_from(first: u32) -> Result<Claim, Refusal>
        ensures got { IfOk result (λ claim. claim_number claim ≡ first) }
        ensures refused { IfErr result (λ why. (why ≡ BadSlip) × ((leb 1 first && leb first 4) ≡ false)) }
    {
        match first {
            1 => Ok(Claim::NoWay),
            2 => Ok(Claim::Unmet),
            3 => Ok(Claim::Apart),
            4 => Ok(Claim::Struck),
            _ => Err(Refusal::BadSlip),
        }
    }
}
