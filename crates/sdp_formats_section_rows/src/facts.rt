//! What a section says of its payload types.

ghost use Rattle.std.specs.Prelude.{◌≡◌, ◌||◌, IfOk};
ghost use Rattle.std.specs.Prelude.{fold, map};
ghost use Rattle.std.specs.Option.{option_copied};
ghost use Rattle.sdp_formats_section_rows.specs.Facts.{all_after, facts_after, facts_of, feedback_after, find_facts};
ghost use Rattle.sdp_formats_section_rows.specs.Facts.{is_about, no_facts, no_feedback};
ghost use Rattle.sdp_formats_section_rows.specs.Given.{is_declined};
ghost use Rattle.sdp_formats_section_rows.specs.SectionRows.{is_feedback};

use crate::given::{Events, events_after, is_declined, with_attribute};
use crate::links::linked_by;
use crate::type_lists::is_listed;
use media_types::Codec;
use rtp_wire::Pt;
use sdp_formats_data::{MediaAttribute, MediaLine};
use sdp_formats_rows::FormatParams;
use std::alloc::{AllocError, Global};

/// Which feedback a section gives for a payload type (RFC 4585 4.2, RFC 5104 7.1).
#[derive(Clone, Copy, Drop)]
pub(crate) struct FeedbackGiven {
    pub transport_cc: bool,
    pub nack: bool,
    pub pli: bool,
    pub fir: bool,
    pub remb: bool,
}

/// What a section says of a payload type, whatever codec it is mapped to.
#[derive(Clone, Copy, Drop)]
pub(crate) struct TypeFacts {
    pub pt: Pt,
    pub is_listed: bool,
    pub resend: Option<Pt>,
    pub red: Option<Pt>,
    pub format: FormatParams,
    pub is_declined: bool,
    pub events: Events,
    pub feedback: FeedbackGiven,
}

fn no_feedback() -> FeedbackGiven
    ensures { result ≡ no_feedback }
{
    FeedbackGiven {
        transport_cc: false,
        nack: false,
        pli: false,
        fir: false,
        remb: false,
    }
}

#[tactic(auto, unfolding(crate::specs::SectionRows::is_feedback))]
fn is_feedback(pt: Pt, text: &str, attribute: &MediaAttribute) -> bool
    ensures { result ≡ is_feedback pt text.now attribute.now }
{
    match attribute {
        MediaAttribute::RtcpFb { pt: given, value } => {
            given.get() == pt.get() && value.as_str() == text
        }
        _ => false,
    }
}

fn is_given(before: bool, pt: Pt, text: &str, attribute: &MediaAttribute) -> bool
    ensures { result ≡ (before || is_feedback pt text.now attribute.now) }
{
    before || is_feedback(pt, text, attribute)
}

#[tactic(auto, unfolding(crate::specs::Facts::feedback_after))]
fn feedback_after(pt: Pt, given: FeedbackGiven, attribute: &MediaAttribute) -> FeedbackGiven
    ensures { result ≡ feedback_after pt given attribute.now }
{
    FeedbackGiven {
        transport_cc: is_given(given.transport_cc, pt, "transport-cc", attribute),
        nack: is_given(given.nack, pt, "nack", attribute),
        pli: is_given(given.pli, pt, "nack pli", attribute),
        fir: is_given(given.fir, pt, "ccm fir", attribute),
        remb: is_given(given.remb, pt, "goog-remb", attribute),
    }
}

/// Whether it is a line of parameters or of feedback of this type.
#[tactic(auto, unfolding(crate::specs::Facts::is_about))]
fn is_about(pt: Pt, attribute: &MediaAttribute) -> bool
    ensures { result ≡ is_about pt attribute.now }
{
    match attribute {
        MediaAttribute::Fmtp { pt: of, .. } => of.get() == pt.get(),
        MediaAttribute::RtcpFb { pt: of, .. } => of.get() == pt.get(),
        _ => false,
    }
}

impl TypeFacts {
    fn new(section: &MediaLine, pt: Pt) -> TypeFacts
        ensures { result ≡ no_facts section.now.pts pt }
    {
        TypeFacts {
            pt,
            is_listed: is_listed(section.pts.as_slice(), pt),
            resend: None,
            red: None,
            format: FormatParams::default(),
            is_declined: false,
            events: Events::Default,
            feedback: no_feedback(),
        }
    }

    /// With what one more line says. A line of `a=fmtp` may name the type that it gives for another.
    fn add_line(&mut self, resend_types: &[Pt], red_types: &[Pt], attribute: &MediaAttribute)
        ensures { self.new ≡ facts_after resend_types.now red_types.now self.old attribute.now }
    {
        self.resend = linked_by(Codec::Rtx, resend_types, self.pt, self.resend, attribute);
        self.red = linked_by(Codec::Red, red_types, self.pt, self.red, attribute);
        if is_about(self.pt, attribute) {
            self.format = with_attribute(self.pt, self.format, attribute);
            self.is_declined = is_also_declined(self.is_declined, self.pt, attribute);
            self.events = events_after(self.pt, self.events, attribute);
            self.feedback = feedback_after(self.pt, self.feedback, attribute);
        }
    }
}

fn is_also_declined(before: bool, pt: Pt, attribute: &MediaAttribute) -> bool
    ensures { result ≡ (before || is_declined pt attribute.now) }
{
    before || is_declined(pt, attribute)
}

fn add_to_all(
    all: &mut [TypeFacts],
    resend_types: &[Pt],
    red_types: &[Pt],
    attribute: &MediaAttribute,
)
    ensures { all.new ≡ all_after resend_types.now red_types.now all.old attribute.now }
{
    for facts in all.iter_mut() {
        facts.add_line(resend_types, red_types, attribute);
    }
}

fn add_lines(
    all: &mut [TypeFacts],
    resend_types: &[Pt],
    red_types: &[Pt],
    attributes: &[MediaAttribute],
)
    ensures { all.new ≡ fold (all_after resend_types.now red_types.now) all.old attributes.now }
{
    for attribute in attributes {
        add_to_all(all, resend_types, red_types, attribute);
    }
}

fn no_facts(alloc: Global, section: &MediaLine, types: &[Pt]) -> Result<Vec<TypeFacts>, AllocError>
    ensures { IfOk result (λ all. all.items ≡ map (no_facts section.now.pts) types.now) }
{
    types
        .iter()
        .map(|pt| TypeFacts::new(section, *pt))
        .collect(alloc)
}

/// What a section says of each of these types, by its types of retransmissions and of redundant audio, in one walk over
/// its lines.
pub(crate) fn facts_of(
    alloc: Global,
    section: &MediaLine,
    resend_types: &[Pt],
    red_types: &[Pt],
    types: &[Pt],
) -> Result<Vec<TypeFacts>, AllocError>
    ensures { IfOk result (λ all. all.items
        ≡ map (facts_of section.now.pts section.now.attrs resend_types.now red_types.now) types.now) }
{
    let mut all = no_facts(alloc, section, types)?;
    add_lines(
        all.as_mut_slice(),
        resend_types,
        red_types,
        section.attrs.as_slice(),
    );
    Ok(all)
}

/// What is said of a type, by a list.
pub(crate) fn find_facts(all: &[TypeFacts], pt: Pt) -> Option<&TypeFacts>
    ensures { option_copied result ≡ find_facts all.now pt }
{
    for facts in all {
        if facts.pt.get() == pt.get() {
            return Some(facts);
        }
    }
    None
}
