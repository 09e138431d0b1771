//! Repeated work, and the time it takes.

ghost use Rattle.std.specs.Prelude.{ℕ, IfOk, OnErr, OnOk};
ghost use Rattle.benchmarks.specs.declared.tally.Tally.{Tally};
ghost use Rattle.benchmarks.specs.Rounds.{Repeats, RepeatsOrKeeps};
ghost use Rattle.benchmarks.specs.Tallies.{empty_tally};

use crate::tally::Tally;
use std::alloc::Global;
use std::io;
use std::time::Instant;

/// What is done over and over.
pub(crate) trait Round {
    /// What one round counts: the state before it, its number, the tally before it, and the state and tally after it.
    ghost counts: { Self → ℕ → Tally → Self → Tally → Type 0 };

    /// Does one round, and counts its result. If something fails, less is counted.
    fn round(&mut self, alloc: Global, number: u32, tally: &mut Tally)
        ensures { counts self.old number tally.old self.new tally.new };
}

/// Repeats it; returns the tally.
pub(crate) fn repeat<R: Round>(alloc: Global, round: &mut R, rounds: u32) -> Tally
    ensures { Repeats R.counts rounds round.old empty_tally round.new result }
{
    let mut tally = Tally::new();
    for number in 0..rounds {
        round.round(alloc, number, &mut tally);
    }
    tally
}

/// Does it so often, and prints the time that it took; returns what was counted.
pub(crate) fn measure<R: Round>(
    rt: &HostRuntime,
    what: &str,
    way: &str,
    round: &mut R,
    rounds: u32,
) -> io::Result<Tally>
    ensures counted { IfOk result (λ tally. Repeats R.counts rounds round.old empty_tally round.new tally) }
    ensures failed { OnErr result (RepeatsOrKeeps R.counts rounds round.old round.new) }
{
    let start = Instant::now(rt)?;
    let tally = repeat(rt.alloc(), round, rounds);
    put_times(rt, what, way, start.elapsed(rt)?.as_micros(), tally)?;
    Ok(tally)
}

/// Does it so often, and prints the time that it took and what was counted.
///
/// # Errors
/// Where the clock or the output fails: then all rounds were done, or none.
pub(crate) fn measure_packets<R: Round>(
    rt: &HostRuntime,
    what: &str,
    way: &str,
    round: &mut R,
    rounds: u32,
) -> io::Result<()>
    ensures counted { OnOk result ((tally : Tally) × Repeats R.counts rounds round.old empty_tally round.new tally) }
    ensures failed { OnErr result (RepeatsOrKeeps R.counts rounds round.old round.new) }
{
    let tally = measure(rt, what, way, round, rounds)?;
    let (packets, bytes) = (tally.packets, tally.bytes);
    println!(*rt; "{what} {way}: {packets} packets or units, {bytes} bytes")
}

/// Prints the time that it took, and how long each took of what was counted.
fn put_times(
    rt: &HostRuntime,
    what: &str,
    way: &str,
    micros: u128,
    tally: Tally,
) -> io::Result<()> {
    let micros = micros.max(1);
    let nanos = micros.saturating_mul(1_000) / (tally.packets as u128).max(1);
    let rate = tally.packets as u128 * 1_000_000 / micros;
    let bytes = tally.bytes as u128 / micros;
    eprintln!(*rt; "{what} {way}: {micros} us, {nanos} ns each, {rate} and {bytes} MB a second")
}
