// The most that a length may be.

ghost use Rattle.std.specs.Prelude.{◌≡◌, ◌<◌};
ghost use Rattle.rows.specs.Held.{missing};

use std::marker::Model;

// A length that is less than what stands for a missing one.
#[derive(Clone, Copy, Debug, PartialEq, Eq)]
pub struct Cap {
    length: u32,
}

impl Model for Cap {
    ghost use Rattle.std.specs.Prelude.{ℕ, ◌<◌};
    ghost use Rattle.rows.specs.Held.{missing};

    ghost Value = { ℕ };

    ghost view = { λ c. c.length };

    ghost inverse = { λ n. record { length = n } };

    ghost invariant = { λ c. c.length < missing };
}

impl Cap {
    // The greatest.
    pub const GREATEST: Cap = Cap {
        length: crate::MISSING - 1,
    };

    pub fn new(length: u32) -> Cap
        requires { length < missing }
        ensures { result ≡ length }
    {
        Cap { length }
    }

    pub fn length(self) -> u32
        ensures { (result ≡ self) × (result < missing) }
    {
        self.length
    }
}
