//! Memory of earlier datagrams, used again.

ghost use Rattle.std.specs.Prelude.{◌≡◌, [], IfOk};

use crate::datagram::Datagram;
use std::alloc::{AllocError, Global};

/// Memory that datagrams are made in: a list, and the bytes of one datagram.
#[derive(Drop)]
pub(crate) struct Spare {
    pub list: Vec<Datagram>,
    pub bytes: Vec<u8>,
}

impl Spare {
    /// The memory of a list of datagrams, and of the last of them.
    pub fn from_datagrams(alloc: Global, datagrams: Vec<Datagram>) -> Self {
        let mut list = datagrams;
        let bytes = match list.pop() {
            Some(datagram) => datagram.into_vec(),
            None => Vec::new(alloc),
        };
        Spare { list, bytes }
    }
}

/// The empty list in the memory of this one, with room for so many elements.
///
/// # Errors
/// Out of memory for them.
pub(crate) fn emptied<T: Drop>(memory: Vec<T>, room: usize) -> Result<Vec<T>, AllocError>
    ensures { IfOk result (λ list. list.items ≡ []) }
{
    let mut list = memory;
    list.clear();
    list.reserve_exact(room)?;
    Ok(list)
}
