//! Rounds of a config.

ghost use Rattle.std.specs.Prelude.{◌≡◌, ◌≢◌, OnOk, OnErr, IfErr, Ok, Err, map};
ghost use Rattle.rtp_wire.specs.Direction.{receives};
ghost use Rattle.sdp_formats_rounds.specs.declared.error.RoundError.TheVariants.{Memory};
ghost use Rattle.sdp_formats_rounds.specs.Laws.{rounds};
ghost use Rattle.sdp_formats_rounds.specs.Rounds.{round};
ghost use Rattle.sdp_formats_rounds.specs.RemoteSections.{section_of};

use super::CodecConfig;
use crate::error::RoundError;
use crate::rounds::round;
use rtp_wire::Direction;
use sdp_formats_rows::PayloadParams;

/// What a round takes of a section of the other end's text.
#[derive(Drop, Debug)]
pub struct RemoteSection {
    /// The rows that it lists.
    pub rows: Vec<PayloadParams>,
    /// The direction that it states.
    pub dir: Direction,
}

fn run_all(rows: &mut Vec<PayloadParams>, sections: &[RemoteSection]) -> Result<(), RoundError>
    ensures ok { OnOk result (rounds (map section_of sections.now) rows.old.items ≡ Ok rows.new.items) }
    ensures refused { IfErr result (λ e. e ≢ Memory → rounds (map section_of sections.now) rows.old.items ≡ Err e) }
{
    for section in sections {
        round(rows, section.rows.as_slice(), section.dir.is_receiving())?;
    }
    Ok(())
}

impl CodecConfig {
    /// A round: the rows meet those of a section of the other end, and those that match are locked (RFC 3264).
    ///
    /// Each row meets the row of the other end that matches it best, the last of the greatest score. A locked row keeps
    /// its types and takes what the match leaves of its settings. Another one takes over the other end's type and that
    /// of its retransmissions, and its RED type if it has one itself; if the other end doesn't receive, an own or a
    /// free type replaces one that is claimed. Rows that no row matches stay, and move away from the types of
    /// locked rows.
    ///
    /// # Errors
    ///
    /// The first refusal that is met, the locked rows first, then those that are matched, then those that are left:
    /// `TypeTaken` and `ResendTaken` if a type is above 127 or claimed already, `NoFreeType` if none is free;
    /// `Memory` if memory runs out. The config is then as before.
    pub fn round(&mut self, remote: &[PayloadParams], dir: Direction) -> Result<(), RoundError>
        ensures ok { OnOk result (round (receives dir) remote.now self.old.rows ≡ Ok self.new.rows) }
        ensures refused { IfErr result (λ e. e ≢ Memory → round (receives dir) remote.now self.old.rows ≡ Err e) }
        ensures unchanged { OnErr result (self.new ≡ self.old) }
        ensures distances { self.new.distances ≡ self.old.distances }
    {
        round(&mut self.params, remote, dir.is_receiving())
    }

    /// Rounds with several sections, one after the other, each on what the one before it left.
    ///
    /// # Errors
    ///
    /// The first refusal of a round; the config is then as before all of them.
    pub fn round_all(&mut self, sections: &[RemoteSection]) -> Result<(), RoundError>
        ensures ok { OnOk result (rounds (map section_of sections.now) self.old.rows ≡ Ok self.new.rows) }
        ensures refused { IfErr result (λ e. e ≢ Memory
            → rounds (map section_of sections.now) self.old.rows ≡ Err e) }
        ensures unchanged { OnErr result (self.new ≡ self.old) }
        ensures distances { self.new.distances ≡ self.old.distances }
    {
        let mut params = self.params.clone()?;
        run_all(&mut params, sections)?;
        self.params = params;
        Ok(())
    }
}
