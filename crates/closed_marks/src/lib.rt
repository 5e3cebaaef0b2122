// Marks by which listed items are closed and all else is open.
#![tactic(auto)]

ghost use Rattle.std.specs.Prelude.{◌<◌};
ghost use Rattle.lists.specs.Lists.{member};
ghost use Rattle.reason_list.specs.Reasons.{but};
ghost use Rattle.closed_marks.specs.Closing.{Markable, Closing};

use walks::ITEMS;
use walks::mark::Mark;

// The listed items are closed.
pub fn closing(list: &[u32]) -> [Mark; ITEMS]
    requires { Markable list.now }
    ensures { Closing (λ j. member j list.now) result }
{
    let mut marks = [Mark::OPEN; ITEMS];
    for &item in list {
        marks[item as usize] = Mark::FORBIDDEN;
    }
    marks
}

// The listed items are closed except one.
pub fn closing_but(list: &[u32], opened: usize) -> [Mark; ITEMS]
    requires { Markable list.now × (opened < 576) }
    ensures { Closing (but (λ j. member j list.now) opened) result }
{
    let mut marks = closing(list);
    marks[opened] = Mark::OPEN;
    marks
}
