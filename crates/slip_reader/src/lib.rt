// How a slip is written (docs/FORMATS.md, 'The slip'): judged for check.

#![tactic(auto)]

ghost use Rattle.std.specs.Prelude.{◌≡◌, ◌≤◌, [], length, IfOk, IfErr, OnErr};
ghost use Rattle.varint.specs.Varint.{got, refuse};
ghost use Rattle.varint.specs.Refusal.{number_of};
ghost use Rattle.varint.specs.declared.refusal.Refusal.TheVariants.{BadSlip};
ghost use Rattle.sheet.specs.Slip.{read_list, read_slip};
ghost use Rattle.slip_reader.specs.Form.{numbers_in, slip_in, read_parts};

pub mod claim;
pub mod form;

pub use claim::Claim;
pub use form::{NumberList, SlipForm};
use numbers::section;
use numbers::section::Plain;
use varint::{Bytes, Refusal};

impl NumberList<'_> {
    // Reads the numbers over the front of `out`, and gives them back.
    pub fn read<'b>(&self, out: &'b mut [u32]) -> &'b [u32]
        requires { self.now.count ≤ length out.old }
        ensures { result.now ≡ numbers_in self.now }
    {
        let listed = &mut out[..self.count as usize];
        let _ = section::read_all(&Plain, &mut Bytes { rest: self.bytes }, listed);
        listed
    }
}

// Takes a list: a count, and as many numbers; or nothing where one of them is refused.
#[tactic(auto, unfolding(sheet::specs::Slip::read_list, varint::specs::Varint::after))]
fn take_list<'a>(bytes: &mut Bytes<'a>) -> Result<NumberList<'a>, Refusal>
    ensures got { IfOk result (λ list. read_list bytes.old.rest.now ≡ got (numbers_in list) bytes.new.rest.now) }
    ensures refused { IfErr result (λ why. read_list bytes.old.rest.now ≡ refuse (number_of why)) }
    ensures kept { OnErr result (bytes.new.rest.now ≡ bytes.old.rest.now) }
{
    let mut ahead = *bytes;
    let count = ahead.take_number()?;
    let listed = ahead.rest;
    section::skip_numbers(&mut ahead, count as usize)?;
    *bytes = ahead;
    Ok(NumberList {
        count,
        bytes: listed,
    })
}

// Reads the claim and the two lists, up to the first fault.
#[tactic(auto, unfolding(crate::specs::Form::read_parts, varint::specs::Varint::number, varint::specs::Varint::judged, varint::specs::Varint::after, sheet::specs::Slip::slip_goals, sheet::specs::Slip::slip_reasons, sheet::specs::Slip::slip_end))]
fn read_form(slip: &[u8]) -> Result<SlipForm, Refusal>
    ensures got { IfOk result (λ form. read_parts slip.now ≡ got (slip_in form) []) }
    ensures refused { IfErr result (λ why. read_parts slip.now ≡ refuse (number_of why)) }
{
    let mut bytes = Bytes { rest: slip };
    let claim = Claim::try_from(bytes.take_number()?)?;
    let goals = take_list(&mut bytes)?;
    let reasons = take_list(&mut bytes)?;
    if !bytes.rest.is_empty() {
        return Err(Refusal::BadSlip);
    }
    Ok(SlipForm {
        claim,
        goals,
        reasons,
    })
}

// Judges how a slip is written; whatever is wrong with it, the refusal is the one for a badly written slip.
#[tactic(auto, unfolding(sheet::specs::Slip::read_slip, sheet::specs::Slip::as17, crate::specs::Form::read_parts))]
pub fn judge_slip(slip: &[u8]) -> Result<SlipForm, Refusal>
    ensures got { IfOk result (λ form. read_slip slip.now ≡ got (slip_in form) []) }
    ensures refused { IfErr result (λ why. (why ≡ BadSlip) × (read_slip slip.now ≡ refuse 17)) }
{
    read_form(slip).map_err(|_| Refusal::BadSlip)
}
