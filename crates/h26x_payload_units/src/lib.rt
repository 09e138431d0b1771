//! Cutting byte streams into NAL units at their start codes (ITU-T H.264 annex B), and the rules
//! that the H.264, H.265 and H.266 payload formats share, with their laws: which NAL units are sent
//! and which are held back, aggregation packets, fragmentation, and reassembly (RFC 6184, RFC 7798,
//! RFC 9328). For H.265 and H.266 also the headers, by layout.
#![tactic(auto)]

mod aggregates;
mod h265_headers;
mod h266_headers;
mod iteration;
mod laws;
mod layout;
mod open_unit;
mod parameter_sets;
mod places;
mod unit_laws;

pub use aggregates::{
    AggregateFault, aggregate_fault, aggregated_units, first_aggregated, push_sized,
};
pub use h265_headers::{H265FragmentationUnitHeader, H265NALUHeader};
pub use h266_headers::{H266FragmentationUnitHeader, H266NALUHeader};
pub use iteration::{NalUnits, nal_units};
pub use laws::{aggregates_law, fragments_law, numbers_law};
pub use layout::{Layout, PacketKind, UnitKind, donl_size, has_end, has_f, has_start};
pub use open_unit::{ANNEXB_NALUSTART_CODE, OpenUnit, push_unit, push_unit_of};
pub use parameter_sets::{copy_of_set, set_of};
pub use unit_laws::{cut_law, nal_units_law};
