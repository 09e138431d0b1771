//! Values of session texts: candidates, fingerprints, setups, format parameters.
#![tactic(auto)]

mod bandwidth;
mod candidate;
mod candidate_reader;
mod candidate_words;
mod copies;
mod fingerprint;
mod fingerprint_reader;
mod key;
mod line_hasher;
mod lists;
mod media_type;
mod numbers;
mod pairs;
mod param;
mod printed;
mod setup;
mod several;
mod streams;

pub use bandwidth::Bandwidth;
pub use candidate::{Candidate, CandidateKind, IceCreds, Protocol, RelatedAddress, TcpType};
pub use candidate_reader::candidate_of;
pub use fingerprint::Fingerprint;
pub use fingerprint_reader::FingerprintError;
pub use key::Key;
pub use lists::{Mids, Restrictions, RidRestrictions, Sources, Words, write_both, write_value};
pub use media_type::{MediaType, Proto};
pub use numbers::{bit_of, byte_of, don_diff_of, modes_of, profile_level_of, range_of, word_of};
pub use pairs::Pair;
pub use param::{FormatParam, has_name};
pub use printed::has_mode;
pub use setup::Setup;
pub use streams::{
    Msid, RestrictionId, RidDirection, Simulcast, SimulcastGroups, SimulcastLayer, SsrcInfo,
};
