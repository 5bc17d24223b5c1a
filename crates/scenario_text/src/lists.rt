//! What is asked of all elements of a list.

ghost use Rattle.std.specs.Prelude.{◌≡◌, ◌==◌, length, is_none};
ghost use Rattle.std.specs.List.{list_any};

/// Whether a row is empty.
pub fn any_empty<T>(rows: &[Vec<T>]) -> bool
    ensures { result ≡ list_any (λ row. length row.items == 0) rows.now }
{
    rows.iter().any(|row| row.is_empty())
}

/// Whether one of them is none.
pub fn any_none<T>(items: &[Option<T>]) -> bool
    ensures { result ≡ list_any (λ o. is_none o) items.now }
{
    items.iter().any(|o| o.is_none())
}
