// A sink of bytes.
ghost use Rattle.std.specs.Prelude.{◌≡◌, ◌≤◌, ◌<◌, true, false, List, ℕ, length, take, Option, OnErr, OnOk, IfErr};
ghost use Rattle.gno_port.specs.Causes.{CutsShort, Rose, TookNone};
ghost use Rattle.gno_port.specs.Streams.{Writes, Gained};

use crate::Failed;

/// What is written to its end.
pub trait Sink {
    /// The bytes that it holds, where it tells them.
    ghost holds: { Self → Option (List ℕ) };

    /// How often it failed.
    ghost faults: { Self → ℕ };

    /// How often it took none of a piece that had some.
    ghost zero_writes: { Self → ℕ };

    /// Adds some first bytes of the piece, maybe none, and gives how many.
    /// After an error it holds what it held.
    fn write(&mut self, piece: &[u8]) -> Result<usize, Failed>
        ensures bytes { Writes (holds self.old) (holds self.new) result piece.now }
        ensures cause { OnErr result (Rose (faults self.old) (faults self.new)) }
        ensures cause_zero { TookNone result piece.now → Rose (zero_writes self.old) (zero_writes self.new) }
        ensures later { faults self.old ≤ faults self.new }
        ensures later_zero { zero_writes self.old ≤ zero_writes self.new };
}

/// How many bytes were written, and whether the end came since the sink took none of a piece that had some,
/// or else since it failed.
#[derive(Clone, Copy, Debug, PartialEq, Eq)]
pub struct WriteFault {
    pub written: usize,
    pub zero: bool,
}

/// Writes all the bytes. It takes no memory.
pub fn write_all<O: Sink>(out: &mut O, bytes: &[u8]) -> Result<(), WriteFault>
    ensures ok { OnOk result (Gained (O.holds out.old) (O.holds out.new) bytes.now) }
    ensures err { IfErr result (λ fault. (fault.written < length bytes.now) × Gained (O.holds out.old) (O.holds out.new) (take fault.written bytes.now)) }
    ensures cause { IfErr result (λ fault. fault.zero ≡ false → Rose (O.faults out.old) (O.faults out.new)) }
    ensures cause_zero { IfErr result (λ fault. fault.zero ≡ true → Rose (O.zero_writes out.old) (O.zero_writes out.new)) }
    ensures cut { OnErr result (CutsShort (O.faults out.old) (O.faults out.new) (O.zero_writes out.old) (O.zero_writes out.new)) }
    ensures later { O.faults out.old ≤ O.faults out.new }
    ensures later_zero { O.zero_writes out.old ≤ O.zero_writes out.new }
{
    let mut written = 0;
    while written < bytes.len() {
        match out.write(&bytes[written..]) {
            Ok(0) => return Err(WriteFault {
                written,
                zero: true,
            }),
            Ok(count) => written += count,
            Err(Failed) => {
                return Err(WriteFault {
                    written,
                    zero: false,
                });
            }
        }
    }
    Ok(())
}
