//! Headers, their extensions and padding.

pub(crate) mod reading;
pub(crate) mod writing;
