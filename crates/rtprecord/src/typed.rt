//! Sources by the payload types of their packets.

use std::alloc::{AllocError, Global};
use std::collections::{BTreeMap, BTreeSet};

/// The numbers of sources, by the port and the type of their packets.
#[derive(Drop)]
pub(crate) struct TypedSources {
    alloc: Global,
    numbers: BTreeMap<u64, BTreeSet<u64>>,
}

/// The key of a port and a payload type.
fn key_of(port: Option<u16>, pt: u8) -> u64 {
    let port = match port {
        Some(port) => port as u64 + 1,
        None => 0,
    };
    port * 256 + pt as u64
}

impl TypedSources {
    /// No sources.
    pub(crate) fn new(alloc: Global) -> TypedSources {
        TypedSources {
            alloc,
            numbers: BTreeMap::new(alloc),
        }
    }

    /// The sources of a port whose packets have had a type.
    pub(crate) fn with(&self, port: Option<u16>, pt: u8) -> Option<&BTreeSet<u64>> {
        self.numbers.get(&key_of(port, pt))
    }

    /// Adds a source of a port whose packets have had a type.
    pub(crate) fn add(&mut self, port: Option<u16>, pt: u8, number: u64) -> Result<(), AllocError> {
        let key = key_of(port, pt);
        if let Some(numbers) = self.numbers.get_mut(&key) {
            numbers.insert(number)?;
            return Ok(());
        }
        let mut numbers = BTreeSet::new(self.alloc);
        numbers.insert(number)?;
        self.numbers.insert(key, numbers)?;
        Ok(())
    }

    /// Forgets that the packets of a source have had a type.
    pub(crate) fn remove(&mut self, port: Option<u16>, pt: u8, number: u64) {
        let key = key_of(port, pt);
        let Some(numbers) = self.numbers.get_mut(&key) else {
            return;
        };
        let _ = numbers.remove(&number);
        if numbers.is_empty() {
            let _ = self.numbers.remove(&key);
        }
    }
}
