//! Values that have numbers.

ghost use Rattle.std.specs.Prelude.{◌≡◌, ℕ};
ghost use Rattle.media_types.specs.Tables.{with_number};

/// A value with a number of its own.
pub trait Numbered: Copy {
    ghost number: { Self → ℕ };

    /// The number.
    fn number(self) -> u8
        ensures { result ≡ number self };
}

/// The value of a table that has this number, if one has.
pub fn find_number<T: Numbered>(table: &[T], wanted: u8) -> Option<T>
    ensures { result ≡ with_number T.number table.now wanted }
{
    table.iter().copied().find(|x| x.number() == wanted)
}
