//! The number of a session (RFC 8866 5.2).

ghost use Rattle.sdp_formats_grammar.specs.Refusals.{Gives};
ghost use Rattle.sdp_formats_reader.specs.Heads.{origin, session_number};

use sdp_formats_grammar::{Refusal, has_digits_alone, number_64, some, split};

fn session_number(text: &str) -> Result<u64, Refusal>
    ensures { Gives result (session_number text.now) }
{
    if !has_digits_alone(text) {
        return Err(Refusal::Unfit);
    }
    number_64(text)
}

/// What follows `o=`.
pub(crate) fn origin(value: &str) -> Result<u64, Refusal>
    ensures { Gives result (origin.reads value.now) }
{
    let (user, rest) = split(value, ' ')?;
    let _ = some(user)?;
    let (number, rest) = split(rest, ' ')?;
    let number = session_number(number)?;
    let _ = some(rest)?;
    Ok(number)
}
