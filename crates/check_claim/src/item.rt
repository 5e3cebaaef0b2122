// Numbers of items, of any size.

ghost use Rattle.std.specs.Prelude.{◌≡◌, ℕ, List, map};
ghost use Rattle.check_claim.specs.Numbers.{own_numbers};

// What names an item: a number of 32 bits, or an index. `numbers` has the number of each item of a list.
pub trait Item: Copy {
    ghost number: { Self → ℕ };

    ghost numbers: { List Self → List ℕ };

    fn index(self) -> usize
        ensures { result ≡ number self };

    ghost one_each: { (items : List Self) → numbers items ≡ map number items };
}

impl Item for u32 {
    ghost number = { λ item. item };

    ghost numbers = { λ items. items };

    ghost one_each = { own_numbers };

    fn index(self) -> usize {
        self as usize
    }
}

impl Item for usize {
    ghost number = { λ item. item };

    ghost numbers = { λ items. items };

    ghost one_each = { own_numbers };

    fn index(self) -> usize {
        self
    }
}
