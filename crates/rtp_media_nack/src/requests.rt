//! What to ask for now.

ghost use Rattle.std.specs.Prelude.{◌≡◌, ◌+◌, ◌<◌, ◌^◌, ◌↔◌, IfOk, IsTrue, OnErr, OnOk};
ghost use Rattle.std.specs.List.Sorted.{IsStrictlyIncreasing};
ghost use Rattle.rtp_media_nack.specs.Requests.{after_call, after_turn, due, first_missing, is_due, nothing_missing};
ghost use Rattle.rtp_media_nack.specs.Requests.{request_in};

use std::alloc::{AllocError, Global};
use std::collections::BTreeMap;
use std::marker::Model;

/// A number that is missing.
#[derive(Clone, Copy, Debug, PartialEq, Eq, Drop)]
pub struct Request {
    /// When it was missing first, in ticks of the caller's clock.
    pub since: u64,
    /// When it was asked for last; when it was missing first, if it wasn't asked for.
    pub last: u64,
    /// How often it was asked for.
    pub times: u32,
}

/// What a receiver asks for by generic NACKs (RFC 4585 6.2.1): each missing number at most so many times, not before it
/// may be late, and not again before a round trip has gone by. It remembers only the numbers that were missing at the
/// last call.
pub struct NackRequester {
    requests: BTreeMap<u64, Request>,
    most: u32,
    delay: u64,
}

/// Written by hand, so that crates that drop this type need no proof about its fields.
impl Drop for NackRequester {
    fn drop(self) {
        let NackRequester {
            requests: _requests,
            most: _,
            delay: _,
        } = self;
    }
}

impl Model for NackRequester {
    ghost use Rattle.rtp_media_nack.specs.Requests.{Requests};

    ghost Value = { Requests };

    ghost view = { λ q. record { entries = q.requests.entries; most = q.most; delay = q.delay } };
}

/// Whether each number is below the next.
pub fn is_rising(numbers: &[u64]) -> bool
    ensures { IsTrue result ↔ IsStrictlyIncreasing numbers.now }
{
    for i in 1..numbers.len() {
        if numbers[i] <= numbers[i - 1] {
            return false;
        }
    }
    true
}

impl Request {
    /// A number that is missing from now on.
    fn first(now: u64) -> Request
        ensures { result ≡ first_missing now }
    {
        Request {
            since: now,
            last: now,
            times: 0,
        }
    }

    /// Whether it is asked for now.
    fn is_due(&self, most: u32, delay: u64, now: u64, round_trip: u64) -> bool
        ensures { result ≡ is_due most delay now round_trip self.now }
    {
        if self.times >= most {
            return false;
        }
        if self.times == 0 {
            now.saturating_sub(self.since) >= delay
        } else {
            now.saturating_sub(self.last) >= round_trip
        }
    }

    /// What is known of it after the call.
    fn after_turn(self, most: u32, delay: u64, now: u64, round_trip: u64) -> Request
        ensures { result ≡ after_turn most delay now round_trip self }
    {
        if self.is_due(most, delay, now, round_trip) {
            Request {
                since: self.since,
                last: now,
                times: self.times + 1,
            }
        } else {
            self
        }
    }
}

impl NackRequester {
    /// Asks for each number at most `most` times, the first time `delay` ticks after it is missing.
    pub fn new(alloc: Global, most: u32, delay: u64) -> Self
        ensures { result ≡ nothing_missing most delay }
    {
        NackRequester {
            requests: BTreeMap::new(alloc),
            most,
            delay,
        }
    }

    /// What is known of a missing number.
    fn request(&self, now: u64, number: u64) -> Request
        ensures { result ≡ request_in self.now.entries now number }
    {
        match self.requests.get(&number) {
            Some(request) => *request,
            None => Request::first(now),
        }
    }

    /// The numbers to ask for now, of those that are missing now, as
    /// [`missing`](rtp_media_streams::ReceivingStream::missing) of a stream tells them. Times are ticks of the caller's
    /// clock, such as microseconds; `round_trip` is what a request and its answer take.
    ///
    /// # Conditions
    /// The numbers rise ([`is_rising`]).
    ///
    /// # Errors
    /// `AllocError`, and nothing has changed.
    pub fn ask(
        &mut self,
        alloc: Global,
        missing: &[u64],
        now: u64,
        round_trip: u64,
    ) -> Result<Vec<u64>, AllocError>
        requires rising { IsStrictlyIncreasing missing.now }
        ensures due { IfOk result (λ numbers. numbers.items ≡ due self.old now round_trip missing.now) }
        ensures after { OnOk result (self.new ≡ after_call self.old now round_trip missing.now) }
        ensures unchanged { OnErr result (self.new ≡ self.old) }
    {
        let mut numbers = Vec::new(alloc);
        let mut requests = BTreeMap::new(alloc);
        for number in missing {
            let request = self.request(now, *number);
            if request.is_due(self.most, self.delay, now, round_trip) {
                numbers.push(*number)?;
            }
            let next = request.after_turn(self.most, self.delay, now, round_trip);
            requests.insert(*number, next)?;
        }
        self.requests = requests;
        Ok(numbers)
    }
}
