//! Copies of candidates, credentials and what is said of streams.

ghost use Rattle.std.specs.Prelude.{◌≡◌, IfOk};

use crate::candidate::{Candidate, IceCreds, RelatedAddress};
use crate::pairs::Pair;
use crate::streams::{Msid, RestrictionId, Simulcast, SimulcastGroups, SimulcastLayer, SsrcInfo};
use sdp_formats_grammar::{Listed, Text};
use std::alloc::{AllocError, Global};

impl RelatedAddress {
    /// The same value again.
    ///
    /// # Errors
    ///
    /// `AllocError` if memory runs out.
    pub fn clone(&self, alloc: Global) -> Result<RelatedAddress, AllocError>
        ensures { IfOk result (λ copy. copy ≡ self.now) }
    {
        Ok(RelatedAddress {
            addr: self.addr.clone(alloc)?,
            port: self.port,
        })
    }

    /// The same value again, if there is one.
    ///
    /// # Errors
    ///
    /// `AllocError` if memory runs out.
    pub fn if_any(
        alloc: Global,
        related: &Option<RelatedAddress>,
    ) -> Result<Option<RelatedAddress>, AllocError>
        ensures { IfOk result (λ copy. copy ≡ related.now) }
    {
        match related {
            Some(related) => Ok(Some(related.clone(alloc)?)),
            None => Ok(None),
        }
    }
}

impl Candidate {
    /// The same value again.
    ///
    /// # Errors
    ///
    /// `AllocError` if memory runs out.
    pub fn clone(&self, alloc: Global) -> Result<Candidate, AllocError>
        ensures { IfOk result (λ copy. copy ≡ self.now) }
    {
        Ok(Candidate {
            foundation: self.foundation.clone(alloc)?,
            component_id: self.component_id,
            proto: self.proto,
            prio: self.prio,
            addr: self.addr.clone(alloc)?,
            port: self.port,
            kind: self.kind,
            related: RelatedAddress::if_any(alloc, &self.related)?,
            tcptype: self.tcptype,
            ufrag: Text::if_any(alloc, &self.ufrag)?,
        })
    }

    /// The same values again.
    ///
    /// # Errors
    ///
    /// `AllocError` if memory runs out.
    pub fn clone_all(
        alloc: Global,
        candidates: &[Candidate],
    ) -> Result<Listed<Candidate>, AllocError>
        ensures { IfOk result (λ copies. copies ≡ candidates.now) }
    {
        let mut copies = Vec::new(alloc);
        for candidate in candidates {
            copies.push(candidate.clone(alloc)?)?;
        }
        Ok(Listed::of(copies))
    }
}

impl IceCreds {
    /// The same value again.
    ///
    /// # Errors
    ///
    /// `AllocError` if memory runs out.
    pub fn clone(&self, alloc: Global) -> Result<IceCreds, AllocError>
        ensures { IfOk result (λ copy. copy ≡ self.now) }
    {
        Ok(IceCreds {
            ufrag: self.ufrag.clone(alloc)?,
            pass: self.pass.clone(alloc)?,
        })
    }

    /// The same value again, if there is one.
    ///
    /// # Errors
    ///
    /// `AllocError` if memory runs out.
    pub fn if_any(alloc: Global, creds: &Option<IceCreds>) -> Result<Option<IceCreds>, AllocError>
        ensures { IfOk result (λ copy. copy ≡ creds.now) }
    {
        match creds {
            Some(creds) => Ok(Some(creds.clone(alloc)?)),
            None => Ok(None),
        }
    }
}

impl RestrictionId {
    /// The same value again.
    ///
    /// # Errors
    ///
    /// `AllocError` if memory runs out.
    pub fn clone(&self, alloc: Global) -> Result<RestrictionId, AllocError>
        ensures { IfOk result (λ copy. copy ≡ self.now) }
    {
        Ok(RestrictionId(self.0.clone(alloc)?, self.1))
    }
}

impl SimulcastLayer {
    /// The same value again.
    ///
    /// # Errors
    ///
    /// `AllocError` if memory runs out.
    pub fn clone(&self, alloc: Global) -> Result<SimulcastLayer, AllocError>
        ensures { IfOk result (λ copy. copy ≡ self.now) }
    {
        Ok(SimulcastLayer {
            restriction_id: self.restriction_id.clone(alloc)?,
            attributes: Pair::if_any(alloc, &self.attributes)?,
        })
    }

    /// The same values again.
    ///
    /// # Errors
    ///
    /// `AllocError` if memory runs out.
    pub fn clone_all(
        alloc: Global,
        layers: &[SimulcastLayer],
    ) -> Result<Listed<SimulcastLayer>, AllocError>
        ensures { IfOk result (λ copies. copies ≡ layers.now) }
    {
        let mut copies = Vec::new(alloc);
        for layer in layers {
            copies.push(layer.clone(alloc)?)?;
        }
        Ok(Listed::of(copies))
    }
}

impl SimulcastGroups {
    /// The same value again.
    ///
    /// # Errors
    ///
    /// `AllocError` if memory runs out.
    pub fn clone(&self, alloc: Global) -> Result<SimulcastGroups, AllocError>
        ensures { IfOk result (λ copy. copy ≡ self.now) }
    {
        Ok(SimulcastGroups(SimulcastLayer::clone_all(alloc, self.0.as_slice())?))
    }
}

impl Simulcast {
    /// The same value again.
    ///
    /// # Errors
    ///
    /// `AllocError` if memory runs out.
    pub fn clone(&self, alloc: Global) -> Result<Simulcast, AllocError>
        ensures { IfOk result (λ copy. copy ≡ self.now) }
    {
        Ok(Simulcast {
            send: self.send.clone(alloc)?,
            recv: self.recv.clone(alloc)?,
            is_munged: self.is_munged,
        })
    }
}

impl Msid {
    /// The same value again.
    ///
    /// # Errors
    ///
    /// `AllocError` if memory runs out.
    pub fn clone(&self, alloc: Global) -> Result<Msid, AllocError>
        ensures { IfOk result (λ copy. copy ≡ self.now) }
    {
        Ok(Msid {
            stream_id: self.stream_id.clone(alloc)?,
            track_id: self.track_id.clone(alloc)?,
        })
    }
}

impl SsrcInfo {
    /// The same value again.
    ///
    /// # Errors
    ///
    /// `AllocError` if memory runs out.
    pub fn clone(&self, alloc: Global) -> Result<SsrcInfo, AllocError>
        ensures { IfOk result (λ copy. copy ≡ self.now) }
    {
        Ok(SsrcInfo {
            ssrc: self.ssrc,
            repairs: self.repairs,
            cname: Text::if_any(alloc, &self.cname)?,
            stream_id: Text::if_any(alloc, &self.stream_id)?,
            track_id: Text::if_any(alloc, &self.track_id)?,
        })
    }
}
