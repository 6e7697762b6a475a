// A source of bytes.
ghost use Rattle.std.specs.Prelude.{◌≡◌, ◌≤◌, ◌<◌, ◌+◌, ◌^◌, List, ℕ, length, Option, OnErr, OnOk, IfOk, IfSome, IsErrOf};
ghost use Rattle.gno_port.specs.Causes.{CameToEnd, Rose, RoseBy, counted};
ghost use Rattle.gno_port.specs.Streams.{Reads, Lost, LostSome, IsAtEnd};

use crate::Failed;
use gno_base::Bytes;
use std::alloc::Global;

/// What is read to its end.
pub trait Source {
    /// The bytes that are left, where the source tells them.
    ghost left: { Self → Option (List ℕ) };

    /// How often it failed.
    ghost faults: { Self → ℕ };

    /// How many bytes it gave.
    ghost given: { Self → ℕ };

    /// How often it was read at its end.
    ghost ends: { Self → ℕ };

    /// Moves some first bytes of what is left to the buffer's front, and gives how many.
    /// None only at the end, or into an empty buffer. After an error what is left is unchanged.
    fn read(&mut self, buf: &mut [u8]) -> Result<usize, Failed>
        ensures bytes { Reads (left self.old) (left self.new) result buf.new }
        ensures cause { OnErr result (Rose (faults self.old) (faults self.new)) }
        ensures later { faults self.old ≤ faults self.new }
        ensures gave { IfOk result (λ count. given self.new ≡ counted (given self.old) count) }
        ensures gave_none { OnErr result (given self.new ≡ given self.old) }
        ensures at_end { CameToEnd result buf.new → ends self.new ≡ counted (ends self.old) 1 }
        ensures not_at_end { (CameToEnd result buf.new → ⊥) → ends self.new ≡ ends self.old };
}

/// Why not all was read.
#[derive(Clone, Copy, Debug, PartialEq, Eq)]
pub enum ReadFault {
    /// The source failed, and its count of faults rose.
    Failed,
    /// More bytes were left than the limit.
    TooLong,
    /// There was no memory for the bytes.
    NoMemory,
}

/// Reads a source to its end, where that comes within `limit` bytes. Else it answers `TooLong`. It reads
/// no further than one block of 4,096 bytes past the limit. After an error some first bytes are lost.
pub fn read_all<I: Source>(alloc: Global, input: &mut I, limit: usize) -> Result<Bytes, ReadFault>
    requires { limit < 2 ^ 62 }
    ensures all { IfOk result (λ text. Lost (I.left input.old) (I.left input.new) text × IsAtEnd (I.left input.new)) }
    ensures within { IfOk result (λ text. length text ≤ limit) }
    ensures too_long { IsErrOf result ReadFault.TooLong → IfSome (I.left input.old) (λ text. limit < length text) }
    ensures failed { IsErrOf result ReadFault.Failed → Rose (I.faults input.old) (I.faults input.new) }
    ensures front { LostSome (I.left input.old) (I.left input.new) }
    ensures later { I.faults input.old ≤ I.faults input.new }
    ensures ended { OnOk result (Rose (I.ends input.old) (I.ends input.new)) }
    ensures not_ended { OnErr result (I.ends input.new ≡ I.ends input.old) }
    ensures count { IfOk result (λ text. I.given input.new ≡ counted (I.given input.old) (length text)) }
    ensures passed { IsErrOf result ReadFault.TooLong → RoseBy (limit + 1) (I.given input.old) (I.given input.new) }
    ensures bound { I.given input.new ≤ I.given input.old + (limit + 4096) }
{
    let mut text = Bytes::new(alloc);
    let mut buf = [0u8; 4096];
    // Each turn but the last reads a byte at least.
    for _turn in 0..limit + 1 {
        let Ok(count) = input.read(&mut buf) else {
            return Err(ReadFault::Failed);
        };
        if count == 0 {
            return Ok(text);
        }
        if count > limit - text.len() {
            return Err(ReadFault::TooLong);
        }
        let Ok(()) = text.extend_from_slice(&buf[..count]) else {
            return Err(ReadFault::NoMemory);
        };
    }
    Err(ReadFault::TooLong)
}
