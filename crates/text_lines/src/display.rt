// The lines for a formatter, which takes text of any length but may fail: their text is promised where `fmt` answers no error. `put` promises it always.

use crate::{DifferenceLine, Line, NumberLine};
use std::fmt;

// Writes the line; a word that is no UTF-8 is an error.
impl fmt::Display for Line<'_> {
    ghost use Rattle.std.specs.Prelude.{Some};
    ghost use Rattle.text_lines.specs.Lines.{line};

    ghost output = { λ l. Some (line l.word.now l.numbers.now) };

    fn fmt<W: fmt::Write>(&self, f: &mut fmt::Formatter<W>) -> fmt::Result {
        let Ok(word) = str::from_utf8(self.word) else {
            return Err(fmt::Error);
        };
        f.write_str(word)?;
        for number in self.numbers {
            write!(f, " {number}")?;
        }
        f.write_str("\n")
    }
}

impl fmt::Display for NumberLine {
    ghost use Rattle.std.specs.Prelude.{Some};
    ghost use Rattle.text_lines.specs.Lines.{number_line};

    ghost output = { λ l. Some (number_line l.0) };

    fn fmt<W: fmt::Write>(&self, f: &mut fmt::Formatter<W>) -> fmt::Result {
        let number = self.0;
        write!(f, "{number}\n")
    }
}

impl fmt::Display for DifferenceLine {
    ghost use Rattle.std.specs.Prelude.{Some};
    ghost use Rattle.text_lines.specs.Lines.{difference_line};

    ghost output = { λ l. Some (difference_line l.whole l.part) };

    fn fmt<W: fmt::Write>(&self, f: &mut fmt::Formatter<W>) -> fmt::Result {
        let difference = i64::from(self.whole) - i64::from(self.part);
        write!(f, "{difference}\n")
    }
}

#[cfg(test)]
mod tests {
    use super::*;
    use std::test::Fail;

    #[test]
    fn lines_for_a_formatter(rt: HostRuntime) -> Result<(), Fail> {
        let heap = rt.alloc();
        let line = Line {
            word: b"struck",
            numbers: &[0, 12, 4294967295],
        };
        let number = NumberLine(600);
        let below = DifferenceLine { whole: 65, part: 5 };
        let above = DifferenceLine {
            whole: 0,
            part: 4294967295,
        };
        assert_eq!(rt;
            format!(in heap; "{line}")?.as_str(),
            "struck 0 12 4294967295\n"
        );
        assert_eq!(rt; format!(in heap; "{number}")?.as_str(), "600\n");
        assert_eq!(rt; format!(in heap; "{below}")?.as_str(), "60\n");
        assert_eq!(rt; format!(in heap; "{above}")?.as_str(), "-4294967295\n");
        Ok(())
    }

    #[test]
    fn word_that_is_no_text(rt: HostRuntime) {
        let line = Line {
            word: &[255],
            numbers: &[],
        };
        assert!(rt; format!(in rt.alloc(); "{line}").is_err());
    }
}
