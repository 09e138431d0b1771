//! Rounds with the sections of a text.

ghost use Rattle.rtp_media_sections.specs.ReadRounds.{ReadSectionsKeepRows};

use sdp_formats_laws::{read_lines_law, rounds_keep_plain_rows, sound_rows_law};
use sdp_formats_rounds::types_stay_apart;

/// Plain rows of distinct types and of their widths stay such in the rounds with the sections of a text.
pub fn read_sections_keep_rows()
    ensures { ReadSectionsKeepRows }
{
    read_lines_law();
    sound_rows_law();
    rounds_keep_plain_rows();
    types_stay_apart();
}
