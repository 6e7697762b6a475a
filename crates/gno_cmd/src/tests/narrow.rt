// A sink in memory that takes a part of a piece.
use gno_port::{Failed, MemorySink, Sink};

/// Where it is narrow, a write takes ten bytes at most.
#[derive(Drop)]
pub(super) struct NarrowSink {
    pub sink: MemorySink,
    pub is_narrow: bool,
}

impl Sink for NarrowSink {
    ghost use Rattle.std.specs.Prelude.{None};
    ghost use Rattle.gno_port.specs.MemorySink.{sink_faults, sink_zero_writes};

    ghost holds = { λ s. None };

    ghost faults = { λ s. sink_faults s.sink };

    ghost zero_writes = { λ s. sink_zero_writes s.sink };

    fn write(&mut self, piece: &[u8]) -> Result<usize, Failed> {
        if self.is_narrow && piece.len() > 10 {
            self.sink.write(&piece[..10])
        } else {
            self.sink.write(piece)
        }
    }
}
