//! Recordings written and captures read: plain functions over bytes, each format by its definition.
#![tactic(auto)]

mod amr_wb;
mod ebml;
mod errors;
mod ivf;
mod ivf_frames;
mod laws;
mod mkv;
mod mkv_clusters;
mod mkv_tracks;
mod ogg;
mod opus;
mod opus_pages;
mod parameter_sets;
mod superframe;
mod units;
mod wav;

pub use amr_wb::{amr_wb_file, push_amr_wb_frames, push_amr_wb_front};
pub use errors::RecordingError;
pub use ivf::{IvfCodec, ivf_file};
pub use ivf_frames::IvfFrames;
pub use laws::{block_time_laws, lacing_laws, mkv_law, opus_laws, superframe_rows, time_laws};
pub use media_files_captures as captures;
pub use mkv::{MkvBlock, mkv_file};
pub use mkv_clusters::{MkvClusters, push_mkv_front};
pub use mkv_tracks::{MkvCodec, MkvMedia, MkvTrack};
pub use opus::{OpusStream, opus_duration, opus_file};
pub use opus_pages::{OpusPages, push_opus_front};
pub use parameter_sets::listed_units;
pub use superframe::push_superframe_index;
pub use units::{TimedUnit, annex_b, obu_stream};
pub use wav::{WavCodec, push_wav_front, push_wav_padding, wav_file};
