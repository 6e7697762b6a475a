// The process's streams as a source and as sinks. They tell nothing of what they hold.
use gno_port::{Failed, Sink, Source};
use std::io::{ErrorKind, Read, Write};

/// How often a call that was interrupted is made again.
const MOST_TURNS: u32 = 1_000_000;

/// A source over a reader.
#[derive(Drop)]
pub struct StdSource<R> {
    from: R,
    faults: u64,
    // How many bytes it gave, and how often it was read at its end.
    given: u64,
    ends: u64,
}

impl<R> StdSource<R> {
    pub fn new(from: R) -> StdSource<R> {
        StdSource {
            from,
            faults: 0,
            given: 0,
            ends: 0,
        }
    }
}

impl<R: Read> Source for StdSource<R> {
    ghost use Rattle.std.specs.Prelude.{None};

    ghost left = { λ s. None };

    ghost faults = { λ s. s.faults };

    ghost given = { λ s. s.given };

    ghost ends = { λ s. s.ends };

    fn read(&mut self, buf: &mut [u8]) -> Result<usize, Failed> {
        for _turn in 0..MOST_TURNS {
            match self.from.read(buf) {
                Ok(count) => {
                    self.given = self.given.saturating_add(count as u64);
                    if count == 0 && !buf.is_empty() {
                        self.ends = self.ends.saturating_add(1);
                    }
                    return Ok(count);
                }
                Err(error) if error.kind() == ErrorKind::Interrupted => {}
                Err(_) => break,
            }
        }
        self.faults = self.faults.saturating_add(1);
        Err(Failed)
    }
}

/// A sink over a writer.
#[derive(Drop)]
pub struct StdSink<W> {
    to: W,
    faults: u64,
    // How often it took none of a piece that had some.
    zero_writes: u64,
}

impl<W> StdSink<W> {
    pub fn new(to: W) -> StdSink<W> {
        StdSink {
            to,
            faults: 0,
            zero_writes: 0,
        }
    }
}

impl<W: Write> Sink for StdSink<W> {
    ghost use Rattle.std.specs.Prelude.{None};

    ghost holds = { λ s. None };

    ghost faults = { λ s. s.faults };

    ghost zero_writes = { λ s. s.zero_writes };

    fn write(&mut self, piece: &[u8]) -> Result<usize, Failed> {
        for _turn in 0..MOST_TURNS {
            match self.to.write(piece) {
                Ok(0) if !piece.is_empty() => {
                    self.zero_writes = self.zero_writes.saturating_add(1);
                    return Ok(0);
                }
                Ok(count) => return Ok(count),
                Err(error) if error.kind() == ErrorKind::Interrupted => {}
                Err(_) => break,
            }
        }
        self.faults = self.faults.saturating_add(1);
        Err(Failed)
    }
}
