//! Copies of what is remembered.

ghost use Rattle.std.specs.Prelude.{◌≡◌, IfOk};

use crate::identity::{Identity, Said, Track};
use crate::state::{BrowserState, Place, Remote};
use sdp_formats_data::MediaLine;
use sdp_formats_grammar::Listed;
use sdp_formats_values::{Candidate, Fingerprint, IceCreds};
use std::alloc::{AllocError, Global};

impl Place {
    pub(crate) fn clone(&self, alloc: Global) -> Result<Place, AllocError>
        ensures { IfOk result (λ copy. copy ≡ self.now) }
    {
        match self {
            Place::Kept(name) => Ok(Place::Kept(*name)),
            Place::Taken(section) => Ok(Place::Taken(section.clone(alloc)?)),
            Place::Free(section) => Ok(Place::Free(section.clone(alloc)?)),
        }
    }
}

pub(crate) fn clone_all(alloc: Global, places: &[Place]) -> Result<Listed<Place>, AllocError>
    ensures { IfOk result (λ copies. copies ≡ places.now) }
{
    let mut copies = Vec::new(alloc);
    for place in places {
        copies.push(place.clone(alloc)?)?;
    }
    Ok(Listed::of(copies))
}

impl Remote {
    fn clone(&self, alloc: Global) -> Result<Remote, AllocError>
        ensures { IfOk result (λ copy. copy ≡ self.now) }
    {
        Ok(Remote {
            creds: IceCreds::if_any(alloc, &self.creds)?,
            fingerprint: Fingerprint::if_any(alloc, &self.fingerprint)?,
            setup: self.setup,
            candidates: Candidate::clone_all(alloc, self.candidates.as_slice())?,
            is_trickling: self.is_trickling,
            is_lite: self.is_lite,
        })
    }
}

impl Track {
    fn clone(&self, alloc: Global) -> Result<Track, AllocError>
        ensures { IfOk result (λ copy. copy ≡ self.now) }
    {
        Ok(Track {
            mid: self.mid,
            msid: self.msid.clone(alloc)?,
        })
    }
}

fn clone_tracks(alloc: Global, tracks: &[Track]) -> Result<Listed<Track>, AllocError>
    ensures { IfOk result (λ copies. copies ≡ tracks.now) }
{
    let mut copies = Vec::new(alloc);
    for track in tracks {
        copies.push(track.clone(alloc)?)?;
    }
    Ok(Listed::of(copies))
}

impl Identity {
    fn if_any(alloc: Global, identity: &Option<Identity>) -> Result<Option<Identity>, AllocError>
        ensures { IfOk result (λ copy. copy ≡ identity.now) }
    {
        match identity {
            Some(identity) => Ok(Some(Identity {
                user: identity.user.clone(alloc)?,
                cname: identity.cname.clone(alloc)?,
                tracks: clone_tracks(alloc, identity.tracks.as_slice())?,
            })),
            None => Ok(None),
        }
    }
}

impl Said {
    fn if_any(alloc: Global, said: &Option<Said>) -> Result<Option<Said>, AllocError>
        ensures { IfOk result (λ copy. copy ≡ said.now) }
    {
        match said {
            Some(said) => Ok(Some(Said {
                version: said.version,
                text: said.text.clone(alloc)?,
            })),
            None => Ok(None),
        }
    }
}

impl BrowserState {
    /// A copy, to go back to where an end refuses what it is handed.
    ///
    /// # Errors
    ///
    /// `AllocError` if memory runs out.
    pub fn clone(&self, alloc: Global) -> Result<BrowserState, AllocError>
        ensures { IfOk result (λ copy. copy ≡ self.now) }
    {
        Ok(BrowserState {
            places: clone_all(alloc, self.places.as_slice())?,
            sections: MediaLine::clone_all(alloc, self.sections.as_slice())?,
            allows_mixed: self.allows_mixed,
            remote: self.remote.clone(alloc)?,
            setup: self.setup,
            is_answering: self.is_answering,
            identity: Identity::if_any(alloc, &self.identity)?,
            said: Said::if_any(alloc, &self.said)?,
        })
    }
}
