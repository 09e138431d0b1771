//! The first row that a test accepts.

ghost use Rattle.std.specs.Fn.{CalledAt};
ghost use Rattle.std.specs.Option.{option_copied};
ghost use Rattle.sdp_formats_rounds.specs.Finding.{Finds};

use super::CodecConfig;
use sdp_formats_rows::PayloadParams;

fn find<F: FnMut(&PayloadParams) -> bool>(
    rows: &[PayloadParams],
    mut f: F,
) -> Option<&PayloadParams>
    requires { F.IsAlwaysCallable f }
    ensures { Finds (CalledAt F.FnMut) f rows.now (option_copied result) }
{
    for row in rows {
        if f(row) {
            return Some(row);
        }
    }
    None
}

impl CodecConfig {
    /// The first row, in order of preference, that a test accepts; None if it accepts none. The test is called on
    /// one row after the other.
    ///
    /// # Conditions
    ///
    /// The test may be called on each row, and after each call again.
    pub fn find<F: FnMut(&PayloadParams) -> bool>(&self, f: F) -> Option<&PayloadParams>
        requires { F.IsAlwaysCallable f }
        ensures { Finds (CalledAt F.FnMut) f self.now.rows (option_copied result) }
    {
        find(self.params.as_slice(), f)
    }
}
