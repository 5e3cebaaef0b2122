// Numbers of a sheet, each judged as it is read, and the sections of the marks and of the service minutes
// (docs/FORMATS.md, 'The sheet').

#![tactic(auto)]

ghost use Rattle.std.specs.Prelude.{◌≡◌, IfOk, IfErr, OnErr};
ghost use Rattle.varint.specs.Varint.{got, refuse};
ghost use Rattle.varint.specs.Refusal.{number_of};
ghost use Rattle.sheet.specs.Reader.{read_mark, read_service};

use numbers::section::Kind;
use sheet::SERVICE_END;
use varint::{Bytes, Refusal};
use walks::mark::Mark;

const MARKS_END: u32 = 3;

// The marks of places and legs.
#[derive(Clone, Copy, Debug, PartialEq, Eq)]
pub struct Marks;

impl Kind for Marks {
    type Value = Mark;

    ghost reads = { λ kind bs. read_mark bs };

    #[tactic(auto, using(crate::proofs::ReadLaws::mark_number))]
    fn take(&self, bytes: &mut Bytes) -> Result<Mark, Refusal>
        ensures got { IfOk result (λ x. read_mark bytes.old.rest.now ≡ got x bytes.new.rest.now) }
        ensures refused { IfErr result (λ why. read_mark bytes.old.rest.now ≡ refuse (number_of why)) }
        ensures kept { OnErr result (bytes.new.rest.now ≡ bytes.old.rest.now) }
    {
        let mark = bytes.take_below(MARKS_END, Refusal::Mark)?;
        Ok(Mark::from(mark as u8))
    }
}

// The service minutes of places. A kind of its own beside the marks: both are numbers below an end with one refusal, but a mark is stored as a `Mark`.
#[derive(Clone, Copy, Debug, PartialEq, Eq)]
pub struct Services;

impl Kind for Services {
    type Value = u32;

    ghost reads = { λ kind bs. read_service bs };

    #[tactic(auto, using(crate::proofs::ReadLaws::service_number))]
    fn take(&self, bytes: &mut Bytes) -> Result<u32, Refusal>
        ensures got { IfOk result (λ x. read_service bytes.old.rest.now ≡ got x bytes.new.rest.now) }
        ensures refused { IfErr result (λ why. read_service bytes.old.rest.now ≡ refuse (number_of why)) }
        ensures kept { OnErr result (bytes.new.rest.now ≡ bytes.old.rest.now) }
    {
        bytes.take_below(SERVICE_END, Refusal::Mark)
    }
}
