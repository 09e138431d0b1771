//! What the lines of an input are.

ghost use Rattle.std.specs.Prelude.{◌≡◌, ℕ, List, [], ◌∷◌, ◌++◌, map};
ghost use Rattle.std.specs.List.{flat_map, AllByRecursion};
ghost use Rattle.rtp_media_program.specs.Input.{lines_of, kept, with_feed, HasNoFeed};

/// Lines that each end in a line feed are the lines of the input they make up; a nonempty last line
/// needs no line feed.
pub fn lines_are_what_was_ended()
    ensures ended { (lines : List (List ℕ)) → AllByRecursion HasNoFeed lines → lines_of (flat_map with_feed lines)
        ≡ map kept lines }
    ensures unended { (lines : List (List ℕ)) (byte : ℕ) (last : List ℕ) → AllByRecursion HasNoFeed lines
        → HasNoFeed (byte ∷ last)
        → lines_of (flat_map with_feed lines ++ byte ∷ last) ≡ map kept lines ++ kept (byte ∷ last) ∷ [] }
{}
