//! Names made of letters and numbers of any script.

ghost use Rattle.std.specs.Prelude.{◌≡◌};
ghost use Rattle.std.specs.List.{list_all};
ghost use Rattle.std.specs.Str.{chars};
ghost use Rattle.sdp_formats_grammar.specs.Refusals.{Gives};
ghost use Rattle.sdp_formats_reader.specs.Names.{is_name_char, name};

use sdp_formats_grammar::{Refusal, Text, copy, some};
use std::alloc::Global;
use ucd_category::{GeneralCategory, GeneralCategoryGroup};

fn is_name_char(c: char) -> bool
    ensures { result ≡ is_name_char c }
{
    let category = GeneralCategory::for_char(c);
    GeneralCategoryGroup::Letter.contains(category)
        || GeneralCategoryGroup::Number.contains(category)
}

fn has_name_chars(text: &str) -> bool
    ensures { result ≡ list_all is_name_char (chars text.now) }
{
    for c in text.chars() {
        if !is_name_char(c) {
            return false;
        }
    }
    true
}

/// One or more letters and numbers.
pub(crate) fn name(alloc: Global, text: &str) -> Result<Text, Refusal>
    ensures { Gives result (name.reads text.now) }
{
    let word = some(text)?;
    if has_name_chars(word) {
        copy(alloc, word)
    } else {
        Err(Refusal::Unfit)
    }
}
