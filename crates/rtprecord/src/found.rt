//! Places that a search finds.

/// What a search has found.
#[derive(Clone, Copy)]
pub(crate) enum Found {
    None,
    Once(u64),
    Often,
}

impl Found {
    /// What it has found with one place more.
    pub(crate) fn and(self, place: u64) -> Found {
        match self {
            Found::None => Found::Once(place),
            Found::Once(_) | Found::Often => Found::Often,
        }
    }

    /// The place, if it is the only one.
    pub(crate) fn only(self) -> Option<u64> {
        match self {
            Found::Once(place) => Some(place),
            Found::None | Found::Often => None,
        }
    }
}
