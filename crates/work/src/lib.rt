// The work lent to an operation, as numbers or as bytes, what a call leaves in it, and the number of its answer (docs/FORMATS.md, 'What is refused').

#![tactic(auto)]

ghost use Rattle.std.specs.Prelude.{◌≡◌, ◌+◌, ◌*◌, ◌≤◌, ◌<◌, ◌++◌, ℕ, List, length, replicate, drop, Err, IsOk, IfErr};
ghost use Rattle.std.specs.Fn.{FnOnceReturnsAtMut};
ghost use Rattle.sheet.specs.Lent.{zeroed};
ghost use Rattle.work.specs.Bytes.{zeroed_bytes};
ghost use Rattle.work.specs.Left.{is_zeroed, left};
ghost use Rattle.varint.specs.declared.refusal.Refusal.TheVariants.{ShortWork, ShortSlip};
ghost use Rattle.varint.specs.Refusal.{number_in, length_in};
ghost use Rattle.work.specs.Zeroed.{numbers_zeroed, bytes_zeroed};

use varint::Refusal;

// The numbers of work that an operation asks for.
pub const WORK_NUMBERS: usize = 16384;

// The same as bytes, four for each number.
pub const WORK_BYTES: usize = 65536;

// The bytes of a slip that an operation asks for.
pub const SLIP_BYTES: usize = 1200;

// The last refusal that leaves the work as found.
const LAST_UNTOUCHED: u32 = 13;

// What the work is made of: numbers, or bytes. `ASKED` is how many an operation asks for.
pub trait Cell: Copy {
    ghost ASKED: { ℕ };

    ghost ZERO: { Self };

    ghost zeroed: { List Self → List Self };

    ghost zeroes: { (work : List Self) → zeroed work ≡ replicate ASKED ZERO ++ drop ASKED work };

    const ASKED: usize;

    const ZERO: Self;
}

impl Cell for u32 {
    ghost ASKED = { 16384 };

    ghost ZERO = { 0 };

    ghost zeroed = { zeroed };

    ghost zeroes = { numbers_zeroed };

    const ASKED: usize = WORK_NUMBERS;

    const ZERO: u32 = 0;
}

impl Cell for u8 {
    ghost ASKED = { 65536 };

    ghost ZERO = { 0 };

    ghost zeroed = { zeroed_bytes };

    ghost zeroes = { bytes_zeroed };

    const ASKED: usize = WORK_BYTES;

    const ZERO: u8 = 0;
}

// The refusal number of what a call answers, 0 where it finished.
pub fn number<T>(answer: &Result<T, Refusal>) -> u32
    ensures { result ≡ number_in answer.now }
{
    match answer {
        Ok(_) => 0,
        Err(why) => u32::from(*why),
    }
}

// Whether a call with this refusal number, 0 where it finished, leaves the work zero.
#[tactic(auto, unfolding(crate::specs::Left::is_zeroed))]
fn is_zeroed(number: u32) -> bool
    ensures { result ≡ is_zeroed number }
{
    number == 0 || number > LAST_UNTOUCHED
}

// Leaves the work as a call with this refusal number does.
#[tactic(auto, unfolding(crate::specs::Left::left))]
pub fn leave<T: Cell>(work: &mut [T], number: u32)
    requires { T.ASKED ≤ length work.old }
    ensures { work.new ≡ left T.zeroed number work.old }
{
    if is_zeroed(number) {
        for i in 0..T::ASKED {
            work[i] = T::ZERO;
        }
    }
}

// Refuses work that is shorter than an operation asks for.
pub fn enough_work<T: Cell>(work: &[T]) -> Result<(), Refusal>
    ensures long { IsOk result → T.ASKED ≤ length work.now }
    ensures short { IfErr result (λ why. (length work.now < T.ASKED) × (why ≡ ShortWork)) }
{
    if work.len() < T::ASKED {
        return Err(Refusal::ShortWork);
    }
    Ok(())
}

// Refuses a slip that is shorter than an operation asks for.
pub fn enough_slip(slip: &[u8]) -> Result<(), Refusal>
    ensures long { IsOk result → 1200 ≤ length slip.now }
    ensures short { IfErr result (λ why. (length slip.now < 1200) × (why ≡ ShortSlip)) }
{
    if slip.len() < SLIP_BYTES {
        return Err(Refusal::ShortSlip);
    }
    Ok(())
}

// Makes a call where there is enough work for it, and leaves the work as the call's refusal number says.
#[tactic(auto, unfolding(crate::specs::Left::left, crate::specs::Left::is_zeroed))]
pub fn lent_work<T: Cell, R, F: FnOnce() -> Result<R, Refusal>>(
    work: &mut [T],
    call: F,
) -> Result<R, Refusal>
    requires { F.IsAlwaysCallable call }
    ensures short { length work.old < T.ASKED → result ≡ Err ShortWork }
    ensures called { T.ASKED ≤ length work.old → F.post call result }
    ensures work_left { work.new ≡ left T.zeroed (number_in result) work.old }
{
    enough_work(work)?;
    let answer = call();
    leave(work, number(&answer));
    answer
}

// Makes a call that writes a slip, where there are enough work and slip for it, and leaves the work as the call's refusal number says.
#[tactic(auto, unfolding(crate::specs::Left::left, crate::specs::Left::is_zeroed))]
pub fn lent<T: Cell, F: FnOnce(&mut [u8]) -> Result<usize, Refusal>>(
    work: &mut [T],
    slip: &mut [u8],
    call: F,
) -> Result<usize, Refusal>
    requires { (s : _) → 1200 ≤ length s.now → F.pre call s }
    ensures short_work { length work.old < T.ASKED → (result ≡ Err ShortWork) × (slip.new ≡ slip.old) }
    ensures short_slip { T.ASKED ≤ length work.old → length slip.old < 1200 → (result ≡ Err ShortSlip) × (slip.new ≡ slip.old) }
    ensures called { T.ASKED ≤ length work.old → 1200 ≤ length slip.old → FnOnceReturnsAtMut F.FnOnce call slip.old result slip.new }
    ensures work_left { work.new ≡ left T.zeroed (number_in result) work.old }
{
    enough_work(work)?;
    enough_slip(slip)?;
    let answer = call(slip);
    leave(work, number(&answer));
    answer
}

// What a refusal number counts in the one number of a call.
const REFUSAL: u32 = 65536;

// The one numbers of a call that is lent too little work, and of one that is lent too short a slip.
pub const SHORT_WORK: u32 = REFUSAL;

pub const SHORT_SLIP: u32 = 2 * REFUSAL;

// One number for a call: the refusal, and the length of what was written or 1 for yes.
pub fn one_number(number: u32, length: usize) -> u32
    requires { (number ≤ 27) × (length ≤ 65535) }
    ensures { result ≡ 65536 * number + length }
{
    REFUSAL * number + length as u32
}

// The one number of a call that gives a length.
pub fn one_number_of(answer: Result<usize, Refusal>) -> u32
    requires { (number_in answer ≤ 27) × (length_in answer ≤ 65535) }
    ensures { result ≡ 65536 * number_in answer + length_in answer }
{
    match answer {
        Ok(length) => one_number(0, length),
        Err(why) => one_number(u32::from(why), 0),
    }
}
