// The lines for a formatter, which takes text of any length but may fail: their text is promised where `fmt` answers no error. `put` promises it always.

use crate::{Blames, Refused, Report, Stands};
use std::fmt;
use text_lines::Line;

impl fmt::Display for Refused {
    ghost use Rattle.std.specs.Prelude.{Some};
    ghost use Rattle.text_answer.specs.Text.{refused_text};

    ghost output = { λ r. Some (refused_text r.0) };

    #[tactic(auto, unfolding(crate::specs::Text::refused_text))]
    fn fmt<W: fmt::Write>(&self, f: &mut fmt::Formatter<W>) -> fmt::Result {
        let number = [self.0];
        let line = Line {
            word: b"refused",
            numbers: &number,
        };
        write!(f, "{line}")
    }
}

impl fmt::Display for Stands<'_> {
    ghost use Rattle.std.specs.Prelude.{Some};
    ghost use Rattle.text_answer.specs.Text.{stands_text};

    ghost output = { λ s. Some (stands_text s.struck.now) };

    #[tactic(auto, unfolding(crate::specs::Text::stands_text))]
    fn fmt<W: fmt::Write>(&self, f: &mut fmt::Formatter<W>) -> fmt::Result {
        let verdict = Line {
            word: b"verdict",
            numbers: &[0],
        };
        let struck = Line {
            word: b"struck",
            numbers: self.struck,
        };
        write!(f, "{verdict}{struck}")
    }
}

impl fmt::Display for Blames<'_> {
    ghost use Rattle.std.specs.Prelude.{Some};
    ghost use Rattle.slip_reader.specs.Form.{slip_from};
    ghost use Rattle.text_answer.specs.Text.{blame_text};

    ghost output = { λ b. Some (blame_text (slip_from b.verdict b.needs.now b.because.now)) };

    #[tactic(auto, unfolding(crate::specs::Text::blame_text))]
    fn fmt<W: fmt::Write>(&self, f: &mut fmt::Formatter<W>) -> fmt::Result {
        let first = [self.verdict];
        let verdict = Line {
            word: b"verdict",
            numbers: &first,
        };
        let needs = Line {
            word: b"needs",
            numbers: self.needs,
        };
        let because = Line {
            word: b"because",
            numbers: self.because,
        };
        write!(f, "{verdict}{needs}{because}")
    }
}

impl fmt::Display for Report {
    ghost use Rattle.std.specs.Prelude.{Some};
    ghost use Rattle.text_answer.specs.Report.{report_text};

    ghost output = { λ r. Some (report_text r) };

    fn fmt<W: fmt::Write>(&self, f: &mut fmt::Formatter<W>) -> fmt::Result {
        match self {
            Report::Stands { struck } => {
                let stands = Stands { struck };
                write!(f, "{stands}")
            }
            Report::Blames {
                verdict,
                needs,
                because,
            } => {
                let blames = Blames {
                    verdict: *verdict,
                    needs,
                    because,
                };
                write!(f, "{blames}")
            }
            Report::Refuses(why) => {
                let refused = Refused(u32::from(*why));
                write!(f, "{refused}")
            }
        }
    }
}

#[cfg(test)]
mod tests {
    use super::*;
    use arrayvec::ArrayVec;
    use std::test::Fail;
    use varint::Refusal;

    #[test]
    fn lines_for_a_formatter(rt: HostRuntime) -> Result<(), Fail> {
        let heap = rt.alloc();
        let refused = Refused(u32::from(Refusal::Rest));
        let stands = Stands { struck: &[3, 7] };
        let blames = Blames {
            verdict: 2,
            needs: &[5],
            because: &[1, 575],
        };
        let mut struck = ArrayVec::new();
        struck.try_push(9).ok();
        let report = Report::Stands { struck };
        let refuses = Report::Refuses(Refusal::Rest);
        assert_eq!(rt; format!(in heap; "{refused}")?.as_str(), "refused 12\n");
        assert_eq!(rt;
            format!(in heap; "{stands}")?.as_str(),
            "verdict 0\nstruck 3 7\n"
        );
        assert_eq!(rt;
            format!(in heap; "{blames}")?.as_str(),
            "verdict 2\nneeds 5\nbecause 1 575\n"
        );
        assert_eq!(rt;
            format!(in heap; "{report}")?.as_str(),
            "verdict 0\nstruck 9\n"
        );
        assert_eq!(rt; format!(in heap; "{refuses}")?.as_str(), "refused 12\n");
        Ok(())
    }
}
