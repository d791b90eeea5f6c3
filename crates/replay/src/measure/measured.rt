//! Processor time of pieces of work.

use anyhow::{Result, anyhow};
use std::time::{CpuClock, Duration};

/// How much is measured.
#[derive(Clone, Copy)]
pub struct Limits {
    /// The rounds over all paths.
    pub rounds: usize,
    /// The nanoseconds after which nothing more of a call is measured.
    pub nanos: u64,
}

impl Limits {
    /// Returns the limits that the two texts name. It is an error if one is no number.
    pub fn parse(rounds: &str, micros: &str) -> Result<Limits> {
        let (Ok(rounds), Ok(micros)) = (rounds.parse::<usize>(), micros.parse::<u64>()) else {
            return Err(anyhow!("ROUNDS and MICROSECONDS have to be numbers"));
        };
        Ok(Limits {
            rounds,
            nanos: micros.saturating_mul(1_000),
        })
    }
}

/// Some calls between two readings of the clock: their number, their matches and their time.
#[derive(Clone, Copy, Default)]
struct Piece {
    calls: usize,
    found: usize,
    nanos: u64,
}

/// The measured pieces of a call, in order.
#[derive(Drop)]
pub struct Measured<'a> {
    rt: &'a HostRuntime,
    pub limits: Limits,
    pieces: Vec<Piece>,
    nanos: u64,
}

impl<'a> Measured<'a> {
    /// Returns a measurement within these limits, without a piece so far.
    pub fn new(rt: &'a HostRuntime, limits: Limits) -> Measured<'a> {
        Measured {
            rt,
            limits,
            pieces: Vec::new(rt.alloc()),
            nanos: 0,
        }
    }

    /// Returns the processor time so far, to be handed to [`Measured::stop`].
    pub fn start(&self) -> Result<Duration> {
        Ok(self.rt.thread_cpu_time()?)
    }

    /// Adds the calls since then.
    pub fn stop(&mut self, start: Duration, calls: usize, found: usize) -> Result<()> {
        let taken = self.rt.thread_cpu_time()?.saturating_sub(start);
        let nanos = u64::try_from(taken.as_nanos()).unwrap_or(u64::MAX);
        self.nanos = self.nanos.saturating_add(nanos);
        self.pieces.push(Piece {
            calls,
            found,
            nanos,
        })?;
        Ok(())
    }

    /// Returns whether as much time was taken as should be.
    pub fn is_enough(&self) -> bool {
        self.nanos >= self.limits.nanos
    }

    /// Forgets the pieces so far, and not the time that they took, if the last took at most so many nanoseconds. Returns whether it
    /// did.
    pub fn forget_small(&mut self, nanos: u64) -> bool {
        let is_small = self.pieces.last().is_none_or(|piece| piece.nanos <= nanos);
        if is_small {
            self.pieces.clear();
        }
        is_small
    }

    /// Writes the columns of a call. First come the matches of the first piece, and the matches of the `pieces_of_round` pieces
    /// after it, or `-` if they are missing. Then come the calls and the nanoseconds of the first piece, of the later half of all
    /// pieces, and of the fastest piece with as many calls as the first.
    pub fn write(&self, call: &str, pieces_of_round: usize) -> Result<()> {
        let first = self.pieces.first().copied().unwrap_or_default();
        let half = self.pieces.len() / 2;
        let late = sum(self.pieces.get(half..).unwrap_or(&[]));
        let mut least = first;
        for piece in &self.pieces {
            if piece.calls == first.calls && piece.nanos < least.nanos {
                least = *piece;
            }
        }
        print!(self.rt; "{call}\t{}\t", first.found)?;
        match self.pieces.get(1..).unwrap_or(&[]).get(..pieces_of_round) {
            Some(pieces) => print!(self.rt; "{}", sum(pieces).found)?,
            None => print!(self.rt; "-")?,
        }
        println!(self.rt;
            "\t{}\t{}\t{}\t{}\t{}\t{}",
            first.calls, first.nanos, late.calls, late.nanos, least.calls, least.nanos
        )?;
        Ok(())
    }
}

fn sum(pieces: &[Piece]) -> Piece {
    let mut sum = Piece::default();
    for piece in pieces {
        sum.calls = sum.calls.saturating_add(piece.calls);
        sum.found = sum.found.saturating_add(piece.found);
        sum.nanos = sum.nanos.saturating_add(piece.nanos);
    }
    sum
}
