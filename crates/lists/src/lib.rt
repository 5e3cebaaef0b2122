// Tests over lists, and the definitions and laws on lists that every crate shares.
#![tactic(auto)]

ghost use Rattle.std.specs.Prelude.{◌≡◌};
ghost use Rattle.std.specs.List.{list_all, list_any};
ghost use Rattle.std.specs.Ordering.{partial_lt};
ghost use Rattle.lists.specs.Lists.{each_next};

// Whether each entry is below the bound.
pub fn all_below<T: PartialOrd>(list: &[T], bound: &T) -> bool
    ensures { result ≡ list_all (λ x. partial_lt T.partial_cmp x bound.now) list.now }
{
    list.iter().all(|x| x < bound)
}

// Whether each entry is greater than the one before it.
pub fn ascending<T: PartialOrd>(list: &[T]) -> bool
    ensures { result ≡ each_next (partial_lt T.partial_cmp) list.now }
{
    list.is_sorted_by(|x, y| x < y)
}

// Whether the list has each of the entries.
pub fn all_listed<T: PartialEq>(entries: &[T], list: &[T]) -> bool
    ensures { result ≡ list_all (λ x. list_any (λ y. T.eq y x) list.now) entries.now }
{
    entries.iter().all(|x| list.contains(x))
}
