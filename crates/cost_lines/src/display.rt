// The lines for a formatter, which takes text of any length but may fail: their text is promised where `fmt` answers no error. `put` promises it always.

ghost use Rattle.lengths.specs.Told.{as_least};

use crate::{Costs, LengthLine, SlackLine};
use std::fmt;
use text_lines::{DifferenceLine, NumberLine};

impl fmt::Display for LengthLine {
    ghost use Rattle.std.specs.Prelude.{Some};
    ghost use Rattle.cost_rules.specs.Cost.{length_line};

    ghost output = { λ l. Some (length_line (as_least l.0)) };

    fn fmt<W: fmt::Write>(&self, f: &mut fmt::Formatter<W>) -> fmt::Result {
        match self.0 {
            None => f.write_str("none\n"),
            Some(length) => {
                let line = NumberLine(length);
                write!(f, "{line}")
            }
        }
    }
}

impl fmt::Display for SlackLine {
    ghost use Rattle.std.specs.Prelude.{Some};
    ghost use Rattle.cost_rules.specs.Cost.{slack_line};

    ghost output = { λ l. Some (slack_line l.limit (as_least l.length)) };

    fn fmt<W: fmt::Write>(&self, f: &mut fmt::Formatter<W>) -> fmt::Result {
        match self.length {
            None => {
                let line = LengthLine(None);
                write!(f, "{line}")
            }
            Some(length) => {
                let line = DifferenceLine {
                    whole: self.limit,
                    part: length,
                };
                write!(f, "{line}")
            }
        }
    }
}

impl<const N: usize> fmt::Display for Costs<N> {
    ghost use Rattle.std.specs.Prelude.{Some};
    ghost use Rattle.cost_lines.specs.Told.{costs_text};

    ghost output = { λ c. Some (costs_text c) };

    fn fmt<W: fmt::Write>(&self, f: &mut fmt::Formatter<W>) -> fmt::Result {
        let slack = self.slack;
        write!(f, "{slack}")?;
        for length in self.opened.as_slice() {
            let line = LengthLine(*length);
            write!(f, "{line}")?;
        }
        Ok(())
    }
}

#[cfg(test)]
mod tests {
    use super::*;
    use arrayvec::ArrayVec;
    use std::test::Fail;

    #[test]
    fn lines_for_a_formatter(rt: HostRuntime) -> Result<(), Fail> {
        let heap = rt.alloc();
        let length = LengthLine(Some(70));
        let none = LengthLine(None);
        let slack = SlackLine {
            limit: 60,
            length: Some(70),
        };
        let mut costs: Costs<2> = Costs {
            slack: SlackLine {
                limit: 60,
                length: None,
            },
            opened: ArrayVec::new(),
        };
        costs.opened.try_push(Some(45)).ok();
        costs.opened.try_push(None).ok();
        assert_eq!(rt; format!(in heap; "{length}")?.as_str(), "70\n");
        assert_eq!(rt; format!(in heap; "{none}")?.as_str(), "none\n");
        assert_eq!(rt; format!(in heap; "{slack}")?.as_str(), "-10\n");
        assert_eq!(rt; format!(in heap; "{costs}")?.as_str(), "none\n45\nnone\n");
        Ok(())
    }
}
