//! Copies of whole texts, sessions and sections.

ghost use Rattle.std.specs.Prelude.{◌≡◌, IfOk};

use crate::media::{MediaAttribute, MediaLine};
use crate::session::{Sdp, Session, SessionAttribute};
use sdp_formats_grammar::Listed;
use sdp_formats_values::Bandwidth;
use std::alloc::{AllocError, Global};

impl MediaLine {
    /// The same value again.
    ///
    /// # Errors
    ///
    /// `AllocError` if memory runs out.
    pub fn clone(&self, alloc: Global) -> Result<MediaLine, AllocError>
        ensures { IfOk result (λ copy. copy ≡ self.now) }
    {
        Ok(MediaLine {
            typ: self.typ.clone(alloc)?,
            disabled: self.disabled,
            proto: self.proto,
            pts: self.pts.copied(alloc)?,
            bw: Bandwidth::if_any(alloc, &self.bw)?,
            attrs: MediaAttribute::clone_all(alloc, self.attrs.as_slice())?,
        })
    }

    /// The same values again.
    ///
    /// # Errors
    ///
    /// `AllocError` if memory runs out.
    pub fn clone_all(alloc: Global, sections: &[MediaLine]) -> Result<Listed<MediaLine>, AllocError>
        ensures { IfOk result (λ copies. copies ≡ sections.now) }
    {
        let mut copies = Vec::new(alloc);
        for section in sections {
            copies.push(section.clone(alloc)?)?;
        }
        Ok(Listed::of(copies))
    }
}

impl Session {
    /// The same value again.
    ///
    /// # Errors
    ///
    /// `AllocError` if memory runs out.
    pub fn clone(&self, alloc: Global) -> Result<Session, AllocError>
        ensures { IfOk result (λ copy. copy ≡ self.now) }
    {
        Ok(Session {
            id: self.id,
            bw: Bandwidth::if_any(alloc, &self.bw)?,
            attrs: SessionAttribute::clone_all(alloc, self.attrs.as_slice())?,
        })
    }
}

impl Sdp {
    /// The same value again.
    ///
    /// # Errors
    ///
    /// `AllocError` if memory runs out.
    pub fn clone(&self, alloc: Global) -> Result<Sdp, AllocError>
        ensures { IfOk result (λ copy. copy ≡ self.now) }
    {
        Ok(Sdp {
            session: self.session.clone(alloc)?,
            media_lines: MediaLine::clone_all(alloc, self.media_lines.as_slice())?,
        })
    }
}
