//! The feedback that a row uses.

ghost use Rattle.std.specs.Prelude.{◌≡◌, ◌++◌, OnOk};
ghost use Rattle.std.specs.Array.Iter.{array_into_iter_items};
ghost use Rattle.sdp_formats_section_rows.specs.Attributes.{all_feedback, feedback_line, feedback_lines, is_used};
ghost use Rattle.sdp_formats_section_rows.specs.Attributes.{words_of};

use sdp_formats_data::MediaAttribute;
use sdp_formats_grammar::Text;
use sdp_formats_rows::PayloadParams;
use std::alloc::{AllocError, Global};
use std::array;

// A feedback, in the order of printing.
#[derive(Clone, Copy, Drop)]
enum Feedback {
    TransportCc,
    Remb,
    Fir,
    Nack,
    Pli,
}

fn all_feedback() -> array::IntoIter<Feedback, 5>
    ensures { array_into_iter_items result ≡ all_feedback }
{
    [
        Feedback::TransportCc,
        Feedback::Remb,
        Feedback::Fir,
        Feedback::Nack,
        Feedback::Pli,
    ]
    .into_iter()
}

fn words_of(feedback: Feedback) -> &'static str
    ensures { result.now ≡ words_of feedback }
{
    match feedback {
        Feedback::TransportCc => "transport-cc",
        Feedback::Remb => "goog-remb",
        Feedback::Fir => "ccm fir",
        Feedback::Nack => "nack",
        Feedback::Pli => "nack pli",
    }
}

fn is_used(row: &PayloadParams, feedback: Feedback) -> bool
    ensures { result ≡ is_used row.now feedback }
{
    match feedback {
        Feedback::TransportCc => row.fb_transport_cc(),
        Feedback::Remb => row.fb_remb(),
        Feedback::Fir => row.fb_fir(),
        Feedback::Nack => row.fb_nack(),
        Feedback::Pli => row.fb_pli(),
    }
}

#[tactic(auto, unfolding(crate::specs::Attributes::feedback_line))]
fn push_line(
    alloc: Global,
    attributes: &mut Vec<MediaAttribute>,
    row: &PayloadParams,
    feedback: Feedback,
) -> Result<(), AllocError>
    ensures { OnOk result (attributes.new.items ≡ attributes.old.items ++ feedback_line row.now feedback) }
{
    if !is_used(row, feedback) {
        return Ok(());
    }
    let value = Text::of(String::from_str(alloc, words_of(feedback))?);
    attributes.push(MediaAttribute::RtcpFb {
        pt: row.pt(),
        value,
    })?;
    Ok(())
}

/// Puts a line for each feedback that the row uses after the attributes.
pub(crate) fn push_feedback(
    alloc: Global,
    attributes: &mut Vec<MediaAttribute>,
    row: &PayloadParams,
) -> Result<(), AllocError>
    ensures { OnOk result (attributes.new.items ≡ attributes.old.items ++ feedback_lines row.now) }
{
    for feedback in all_feedback() {
        push_line(alloc, attributes, row, feedback)?;
    }
    Ok(())
}
