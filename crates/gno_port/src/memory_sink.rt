// A sink in memory.
ghost use Rattle.std.specs.Prelude.{◌≡◌, ◌≤◌, length, OnErr, OnOk, IfOk, Some, IsTrue, ◌↔◌};
ghost use Rattle.std.specs.List.{Contains};
ghost use Rattle.gno_port.specs.Causes.{Rose, TookNone};
ghost use Rattle.gno_port.specs.Streams.{Writes};
ghost use Rattle.gno_port.specs.Failing.{next_number};
ghost use Rattle.gno_port.specs.MemorySink.{bytes_held, sink_faults, sink_writes, sink_fails, sink_zero_writes, sink_zeros, FailsNextWrite, TakesNone};

use crate::failing::is_to_fail;
use crate::{Called, FailAt, Failed, Sink};
use gno_base::{Bytes, List};

/// A sink that keeps its bytes in memory. A write takes the whole piece. It fails where there is no memory for it.
#[derive(Drop)]
pub struct MemorySink {
    holds: Bytes,

    fails: List<FailAt>,
    zeros: List<u64>,
    writes: u64,
    faults: u64,
    // How often it took none of a piece that had some.
    zero_writes: u64,
}

impl MemorySink {
    /// A sink that has yet to be written to. The calls that `fails` names will fail, and the writes
    /// whose numbers, from 1, stand in `zeros` will take nothing.
    pub fn new(holds: Bytes, fails: List<FailAt>, zeros: List<u64>) -> MemorySink
        ensures held { bytes_held result ≡ holds }
        ensures fails { sink_fails result ≡ fails }
        ensures zeros { sink_zeros result ≡ zeros }
        ensures counts { (sink_writes result ≡ 0) × (sink_faults result ≡ 0) × (sink_zero_writes result ≡ 0) }
    {
        MemorySink {
            holds,
            fails,
            zeros,
            writes: 0,
            faults: 0,
            zero_writes: 0,
        }
    }

    /// What it held at the end.
    pub fn end(self) -> Bytes
        ensures { result ≡ bytes_held self }
    {
        let MemorySink { holds, .. } = self;
        holds
    }
}

impl Sink for MemorySink {
    ghost use Rattle.std.specs.Prelude.{Some};
    ghost use Rattle.gno_port.specs.MemorySink.{bytes_held, sink_faults, sink_zero_writes};

    ghost holds = { λ sink. Some (bytes_held sink) };

    ghost faults = { sink_faults };

    ghost zero_writes = { sink_zero_writes };

    fn write(&mut self, piece: &[u8]) -> Result<usize, Failed>
        ensures bytes { Writes (Some (bytes_held self.old)) (Some (bytes_held self.new)) result piece.now }
        ensures cause { OnErr result (Rose (sink_faults self.old) (sink_faults self.new)) }
        ensures cause_zero { TookNone result piece.now → Rose (sink_zero_writes self.old) (sink_zero_writes self.new) }
        ensures later { sink_faults self.old ≤ sink_faults self.new }
        ensures later_zero { sink_zero_writes self.old ≤ sink_zero_writes self.new }

        // It fails where it is to, and takes the whole piece or nothing.
        ensures ok { OnOk result (FailsNextWrite self.old → ⊥) }
        ensures none { IfOk result (λ count. TakesNone self.old → count ≡ 0) }
        ensures whole { IfOk result (λ count. (TakesNone self.old → ⊥) → count ≡ length piece.now) }
        ensures lists { (sink_fails self.new ≡ sink_fails self.old) × (sink_zeros self.new ≡ sink_zeros self.old) }
        ensures writes { sink_writes self.new ≡ next_number (sink_writes self.old) }

        // It counts a write that takes none of a piece that has some, and no other.
        ensures counted { TookNone result piece.now → sink_zero_writes self.new ≡ next_number (sink_zero_writes self.old) }
        ensures uncounted { (TookNone result piece.now → ⊥) → sink_zero_writes self.new ≡ sink_zero_writes self.old }
    {
        self.writes = self.writes.saturating_add(1);
        if is_to_fail(self.fails.as_slice(), Called::Write, self.writes) {
            self.faults = self.faults.saturating_add(1);
            return Err(Failed);
        }
        if has_number(self.zeros.as_slice(), self.writes) {
            if !piece.is_empty() {
                self.zero_writes = self.zero_writes.saturating_add(1);
            }
            return Ok(0);
        }
        let Ok(()) = self.holds.extend_from_slice(piece) else {
            self.faults = self.faults.saturating_add(1);
            return Err(Failed);
        };
        Ok(piece.len())
    }
}

// Whether the number stands in the list.
fn has_number(numbers: &[u64], number: u64) -> bool
    ensures { IsTrue result ↔ Contains numbers.now number }
{
    for one in numbers {
        if *one == number {
            return true;
        }
    }
    false
}
