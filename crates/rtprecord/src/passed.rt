//! What is passed over.

/// Fragments of IP packets that no datagram came of.
#[derive(Clone, Copy)]
pub(crate) struct PassedFragments {
    /// Those whose others never came, or came too late.
    pub(crate) alone: u64,
    pub(crate) repeated: u64,
    /// Those of packets of which two fragments overlap.
    pub(crate) overlapping: u64,
    /// Those that the capture cut, or that have no length a packet can have.
    pub(crate) unreadable: u64,
}

impl PassedFragments {
    /// How many they are.
    pub(crate) fn all(&self) -> u64 {
        self.alone
            .saturating_add(self.repeated)
            .saturating_add(self.overlapping)
            .saturating_add(self.unreadable)
    }
}

/// What was skipped.
#[derive(Clone, Copy)]
pub(crate) struct Passed {
    pub(crate) not_udp: u64,
    pub(crate) fragments: PassedFragments,
    pub(crate) cut: u64,
    pub(crate) malformed: u64,
    /// Datagrams of other ports than the arguments name.
    pub(crate) elsewhere: u64,
    pub(crate) stun: u64,
    pub(crate) dtls: u64,
    pub(crate) rtcp: u64,
    pub(crate) other: u64,
    /// Messages of TURN whose datagrams were taken.
    pub(crate) relayed: u64,
    /// RTP packets whose payload type no row has.
    pub(crate) unknown: u64,
    /// Repairs that wrap nothing, as those of padding.
    pub(crate) empty_repairs: u64,
    /// Repairs of no stream that is known.
    pub(crate) strange_repairs: u64,
    /// Packets of more streams than are recorded.
    pub(crate) too_many: u64,
}

/// Nothing was passed over.
pub(crate) const NOTHING: Passed = Passed {
    not_udp: 0,
    fragments: PassedFragments {
        alone: 0,
        repeated: 0,
        overlapping: 0,
        unreadable: 0,
    },
    cut: 0,
    malformed: 0,
    elsewhere: 0,
    stun: 0,
    dtls: 0,
    rtcp: 0,
    other: 0,
    relayed: 0,
    unknown: 0,
    empty_repairs: 0,
    strange_repairs: 0,
    too_many: 0,
};

/// One more.
pub(crate) fn count(number: &mut u64) {
    *number = number.saturating_add(1);
}

/// So many more.
pub(crate) fn add(number: &mut u64, more: usize) {
    *number = number.saturating_add(more as u64);
}
