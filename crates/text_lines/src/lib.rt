// Lines of text, written over the front of a lent slice: a word and decimal numbers behind it, or a number alone.
#![tactic(auto)]

ghost use Rattle.std.specs.Prelude.{◌≤◌, length, decimal};
ghost use Rattle.lists.specs.Lists.{Put};
ghost use Rattle.text_lines.specs.Lines.{spaced, row, line, number_line, difference_line};

mod display;

// The most bytes that a program prints.
pub const TEXT_BYTES: usize = 8192;

// Writes the number in decimal and gives the count of bytes.
fn put_decimal(out: &mut [u8], number: u32) -> usize
    requires { length (decimal number) ≤ length out.old }
    ensures { Put (decimal number) out.old out.new result }
{
    let mut digits = itoa::Buffer::new();
    numbers::put_bytes(out, digits.format(number).as_bytes())
}

// Writes a space and the number.
fn put_spaced(out: &mut [u8], number: u32) -> usize
    requires { length (spaced number) ≤ length out.old }
    ensures { Put (spaced number) out.old out.new result }
{
    out[0] = b' ';
    1 + put_decimal(&mut out[1..], number)
}

// Writes the numbers, each behind a space.
fn put_row(out: &mut [u8], numbers: &[u32]) -> usize
    requires { length (row numbers.now) ≤ length out.old }
    ensures { Put (row numbers.now) out.old out.new result }
{
    let mut at: usize = 0;
    for number in numbers {
        at += put_spaced(&mut out[at..], *number);
    }
    at
}

// A word, and numbers each behind a space. `put` writes it and cannot fail; a `Display` may answer an error, and promises its text only where it answers none.
#[derive(Clone, Copy, Debug, PartialEq, Eq)]
pub struct Line<'a> {
    pub word: &'a [u8],
    pub numbers: &'a [u32],
}

impl Line<'_> {
    // Writes the line over the front of `out` and gives its length.
    pub fn put(&self, out: &mut [u8]) -> usize
        requires { length (line self.now.word.now self.now.numbers.now) ≤ length out.old }
        ensures { Put (line self.now.word.now self.now.numbers.now) out.old out.new result }
    {
        let at = numbers::put_bytes(out, self.word);
        let end = at + put_row(&mut out[at..], self.numbers);
        out[end] = b'\n';
        end + 1
    }
}

// A number alone on its line.
#[derive(Clone, Copy, Debug, PartialEq, Eq)]
pub struct NumberLine(pub u32);

impl NumberLine {
    // Writes the line over the front of `out` and gives its length.
    pub fn put(&self, out: &mut [u8]) -> usize
        requires { length (number_line self.now.0) ≤ length out.old }
        ensures { Put (number_line self.now.0) out.old out.new result }
    {
        let at = put_decimal(out, self.0);
        out[at] = b'\n';
        at + 1
    }
}

// `whole` − `part` alone on its line, behind a minus where it is negative.
#[derive(Clone, Copy, Debug, PartialEq, Eq)]
pub struct DifferenceLine {
    pub whole: u32,
    pub part: u32,
}

impl DifferenceLine {
    // Writes the line over the front of `out` and gives its length.
    pub fn put(&self, out: &mut [u8]) -> usize
        requires { length (difference_line self.now.whole self.now.part) ≤ length out.old }
        ensures { Put (difference_line self.now.whole self.now.part) out.old out.new result }
    {
        if self.part <= self.whole {
            return NumberLine(self.whole - self.part).put(out);
        }
        out[0] = b'-';
        1 + NumberLine(self.part - self.whole).put(&mut out[1..])
    }
}
