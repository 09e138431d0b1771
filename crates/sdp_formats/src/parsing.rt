//! Session texts read as what they say.

ghost use Rattle.std.specs.Prelude.{◌≡◌};
ghost use Rattle.sdp_formats_reader.specs.ReaderErrors.{ReadsText};

use sdp_formats_data::{Sdp, SdpError};
use sdp_formats_reader::sdp_parser;
use std::alloc::Global;

/// What a text is read as.
pub trait Parse: Sized {
    /// What a text says. What is from the first line on that fits nowhere is passed over.
    ///
    /// # Errors
    ///
    /// `ParseError` if the text has no good header, or a section with a fault; `Memory` if memory runs out.
    fn parse(alloc: Global, input: &str) -> Result<Self, SdpError>;
}

impl Parse for Sdp {
    fn parse(alloc: Global, input: &str) -> Result<Sdp, SdpError>
        ensures { ReadsText input.now result }
    {
        let (sdp, _) = sdp_parser(alloc, input)?;
        Ok(sdp)
    }
}
