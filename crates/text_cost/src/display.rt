// What is told for a formatter, which takes text of any length but may fail: the text is promised where `fmt` answers no error. `put` promises it always.

use crate::Told;
use std::fmt;
use text_answer::Refused;

impl fmt::Display for Told {
    ghost use Rattle.std.specs.Prelude.{Some};
    ghost use Rattle.text_cost.specs.Told.{told_text};

    ghost output = { λ t. Some (told_text t) };

    fn fmt<W: fmt::Write>(&self, f: &mut fmt::Formatter<W>) -> fmt::Result {
        match self {
            Told::Costs(costs) => write!(f, "{costs}"),
            Told::Refuses(why) => {
                let refused = Refused(u32::from(*why));
                write!(f, "{refused}")
            }
        }
    }
}

#[cfg(test)]
mod tests {
    use super::*;
    use cost_lines::{Costs, SlackLine};
    use std::test::Fail;
    use varint::Refusal;

    #[test]
    fn lines_for_a_formatter(rt: HostRuntime) -> Result<(), Fail> {
        let heap = rt.alloc();
        let costs = Told::Costs(Costs {
            slack: SlackLine {
                limit: 60,
                length: Some(45),
            },
            opened: Default::default(),
        });
        let refuses = Told::Refuses(Refusal::NotStruck);
        assert_eq!(rt; format!(in heap; "{costs}")?.as_str(), "15\n");
        assert_eq!(rt; format!(in heap; "{refuses}")?.as_str(), "refused 16\n");
        Ok(())
    }
}
