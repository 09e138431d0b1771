//! Telephone event reports (RFC 4733 2.3).

ghost use Rattle.std.specs.Int.NonZero.{non_zero_u32_get};
ghost use Rattle.std.specs.Prelude.{◌≡◌, MatchOption, false, true};
ghost use Rattle.payload_core_base.specs.Telephone.{ReportsComeBack, events_of, first_event, is_reports};
ghost use Rattle.payload_core_base.specs.Telephone.{report_of};

use rtp_wire::ClockRate;
use std::num::NonZeroU32;

/// One report of a telephone event (RFC 4733 2.3).
#[derive(Clone, Copy, Debug, PartialEq, Eq, Drop)]
pub struct TelephoneEvent {
    /// The event: 0 to 15 are the keys 0 to 9, *, #, A to D.
    pub event: u8,
    /// Whether the event has ended.
    pub end: bool,
    /// The power level of the tone below 0 dBm0, in dB: 0 to 63.
    pub volume: u8,
    /// How long the event has lasted, in nanoseconds.
    pub duration: u64,
}

/// The report of the first four bytes.
fn first_event(buf: &[u8], clock_rate: NonZeroU32) -> Option<TelephoneEvent>
    ensures { result ≡ first_event (non_zero_u32_get clock_rate) buf.now }
{
    let [event, flags, high, low, ..] = buf else {
        return None;
    };
    let ticks = u64::from(*high) * 256 + u64::from(*low);
    Some(TelephoneEvent {
        event: *event,
        end: *flags >= 128,
        volume: *flags % 64,
        duration: ticks * 1_000_000_000 / u64::from(clock_rate.get()),
    })
}

impl TelephoneEvent {
    ghost use Rattle.payload_core_base.specs.TelephoneReports.{events_left};

    /// The report in the first four bytes, its duration converted from ticks of `clock_rate` to
    /// nanoseconds, rounded down; None if there are fewer bytes. The R bit is ignored.
    pub fn parse<C: ClockRate>(buf: &[u8], clock_rate: C) -> Option<Self>
        ensures { result ≡ first_event (C.hertz clock_rate) buf.now }
    {
        first_event(buf, clock_rate.hertz())
    }

    /// The reports of a payload in order; None unless it is a nonempty multiple of four bytes.
    pub fn parse_all<C: ClockRate>(buf: &[u8], clock_rate: C) -> Option<TelephoneEvents<'_>>
        ensures { MatchOption result (is_reports buf.now ≡ false)
            (λ events. (is_reports buf.now ≡ true) × (events_left events ≡ events_of (C.hertz clock_rate) buf.now)) }
    {
        if buf.is_empty() || buf.len() % 4 != 0 {
            return None;
        }
        Some(TelephoneEvents {
            rest: buf,
            clock_rate: clock_rate.hertz(),
        })
    }

    /// The report's four bytes, with the duration in ticks of `clock_rate`, rounded up; None for a volume
    /// over 63 or a duration over 65,535 ticks. The R bit is clear.
    pub fn to_bytes<C: ClockRate>(&self, clock_rate: C) -> Option<[u8; 4]>
        ensures { result ≡ report_of (C.hertz clock_rate) self.now }
    {
        if self.volume > 63 {
            return None;
        }
        let scaled = self
            .duration
            .checked_mul(u64::from(clock_rate.hertz().get()))?;
        if scaled > 65_535 * 1_000_000_000 {
            return None;
        }
        let ticks = (scaled + 999_999_999) / 1_000_000_000;
        let flags = if self.end {
            128 + self.volume
        } else {
            self.volume
        };
        Some([self.event, flags, (ticks / 256) as u8, (ticks % 256) as u8])
    }
}

/// The reports of a payload, in order.
#[derive(Clone, Copy, Debug, Drop)]
pub struct TelephoneEvents<'a> {
    rest: &'a [u8],
    clock_rate: NonZeroU32,
}

impl<'a> Iterator for TelephoneEvents<'a> {
    ghost use Rattle.std.specs.Iterator.{item_count, YieldsFirst};
    ghost use Rattle.payload_core_base.specs.TelephoneReports.{events_left};

    type Item = TelephoneEvent;

    ghost next_gives = { YieldsFirst events_left };

    ghost remaining = { item_count events_left };

    fn next(&mut self) -> Option<TelephoneEvent> {
        let event = first_event(self.rest, self.clock_rate)?;
        self.rest = &self.rest[4..];
        Some(event)
    }
}

/// A report's four bytes, read by `parse` and written by `to_bytes` at a clock rate below 1 GHz,
/// are unchanged except for the R bit, which is cleared.
pub fn telephone_event_law()
    ensures { ReportsComeBack }
{}
