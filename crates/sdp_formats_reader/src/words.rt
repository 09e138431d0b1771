//! Words for choices.

ghost use Rattle.std.specs.Prelude.{◌≢◌, IfErr};
ghost use Rattle.sdp_formats_grammar.specs.Refusals.{Gives};
ghost use Rattle.sdp_formats_reader.specs.Words.{setup_word};

use sdp_formats_grammar::Refusal;
use sdp_formats_values::Setup;

/// Which end opens a connection (RFC 4145 4).
///
/// # Errors
///
/// `Unfit` if it is none of the three words.
pub fn setup_of(word: &str) -> Result<Setup, Refusal>
    ensures gives { Gives result (setup_word word.now) }
    ensures never_memory { IfErr result (λ e. e ≢ Refusal.Memory) }
{
    match word {
        "actpass" => Ok(Setup::ActPass),
        "active" => Ok(Setup::Active),
        "passive" => Ok(Setup::Passive),
        _ => Err(Refusal::Unfit),
    }
}
