// The mark of an item: whether a walk may meet it, has to, or may not touch it.

ghost use Rattle.std.specs.Prelude.{◌≡◌, ◌≢◌, eqb};

use std::marker::Model;

// A mark by its number. No number is refused: one past the three means what open means.
#[derive(Clone, Copy, Debug, PartialEq, Eq)]
pub struct Mark {
    code: u8,
}

impl Model for Mark {
    ghost use Rattle.std.specs.Prelude.{ℕ};

    ghost Value = { ℕ };

    ghost view = { λ m. m.code };

    ghost inverse = { λ n. record { code = n } };
}

impl Mark {
    // A walk may meet the item or leave it out.
    pub const OPEN: Mark = Mark { code: 0 };

    // A walk has to meet the item.
    pub const MANDATORY: Mark = Mark { code: 1 };

    // No walk may touch the item.
    pub const FORBIDDEN: Mark = Mark { code: 2 };

    pub fn is_open(self) -> bool
        ensures { result ≡ eqb self 0 }
    {
        self == Mark::OPEN
    }

    pub fn is_mandatory(self) -> bool
        ensures { result ≡ eqb self 1 }
    {
        self == Mark::MANDATORY
    }

    pub fn is_forbidden(self) -> bool
        ensures { result ≡ eqb self 2 }
    {
        self == Mark::FORBIDDEN
    }
}

impl From<u8> for Mark {
    ghost from_gives = { λ number mark. mark ≡ number };

    fn from(number: u8) -> Mark {
        Mark { code: number }
    }
}

impl From<Mark> for u8 {
    ghost from_gives = { λ mark number. number ≡ mark };

    fn from(mark: Mark) -> u8 {
        mark.code
    }
}
