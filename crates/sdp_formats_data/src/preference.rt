//! Which of several fingerprints is preferred (RFC 8122 5).

ghost use Rattle.std.specs.Prelude.{◌≡◌};
ghost use Rattle.std.specs.Option.{option_copied};
ghost use Rattle.sdp_formats_data.specs.Preference.{chosen};

use sdp_formats_values::Fingerprint;

/// The better of two fingerprints, the first of equal ones.
fn better<'a>(best: &'a Fingerprint, print: &'a Fingerprint) -> &'a Fingerprint
    ensures { chosen (Some best.entry.now) (Some print.entry.now) ≡ Some result.now }
{
    if print.hash_preference() < best.hash_preference() {
        return print;
    }
    best
}

/// The best so far, with one more if there is one.
pub(crate) fn chosen<'a>(
    best: Option<&'a Fingerprint>,
    print: Option<&'a Fingerprint>,
) -> Option<&'a Fingerprint>
    ensures { option_copied result ≡ chosen (option_copied best.entry) (option_copied print.entry) }
{
    match (best, print) {
        (_, None) => best,
        (None, Some(_)) => print,
        (Some(best), Some(print)) => Some(better(best, print)),
    }
}
