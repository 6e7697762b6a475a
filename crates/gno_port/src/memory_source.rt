// A source in memory.
ghost use Rattle.std.specs.Prelude.{◌≡◌, ◌≤◌, length, take, drop, min, OnErr, OnOk, IfOk, Some};
ghost use Rattle.gno_port.specs.Causes.{CameToEnd, Rose, counted};
ghost use Rattle.gno_port.specs.Streams.{Reads};
ghost use Rattle.gno_port.specs.Failing.{next_number};
ghost use Rattle.gno_port.specs.MemorySource.{bytes_left, source_ends, source_faults, source_given, source_reads, source_fails, FailsNextRead};

use crate::failing::is_to_fail;
use crate::{Called, FailAt, Failed, Source};
use gno_base::{Bytes, List};

/// A source over bytes in memory. A read moves as many bytes as the buffer has room for.
#[derive(Drop)]
pub struct MemorySource {
    holds: Bytes,
    // How many of them were read.
    at: usize,

    fails: List<FailAt>,
    reads: u64,
    faults: u64,
    // How many bytes it gave, and how often it was read at its end.
    given: u64,
    ends: u64,
}

impl MemorySource {
    /// A source that has yet to be read. The calls that `fails` names will fail.
    pub fn new(holds: Bytes, fails: List<FailAt>) -> MemorySource
        ensures left { bytes_left result ≡ holds }
        ensures fails { source_fails result ≡ fails }
        ensures counts { (source_reads result ≡ 0) × (source_faults result ≡ 0) × (source_given result ≡ 0) × (source_ends result ≡ 0) }
    {
        MemorySource {
            holds,
            at: 0,
            fails,
            reads: 0,
            faults: 0,
            given: 0,
            ends: 0,
        }
    }

    /// How many bytes it gave.
    pub fn given(&self) -> u64
        ensures { result ≡ source_given self.now }
    {
        self.given
    }

    /// How often it was read at its end.
    pub fn ends(&self) -> u64
        ensures { result ≡ source_ends self.now }
    {
        self.ends
    }
}

impl Source for MemorySource {
    ghost use Rattle.std.specs.Prelude.{Some};
    ghost use Rattle.gno_port.specs.MemorySource.{bytes_left, source_ends, source_faults, source_given};

    ghost left = { λ source. Some (bytes_left source) };

    ghost faults = { source_faults };

    ghost given = { source_given };

    ghost ends = { source_ends };

    fn read(&mut self, buf: &mut [u8]) -> Result<usize, Failed>
        ensures bytes { Reads (Some (bytes_left self.old)) (Some (bytes_left self.new)) result buf.new }
        ensures cause { OnErr result (Rose (source_faults self.old) (source_faults self.new)) }
        ensures later { source_faults self.old ≤ source_faults self.new }
        ensures gave { IfOk result (λ count. source_given self.new ≡ counted (source_given self.old) count) }
        ensures gave_none { OnErr result (source_given self.new ≡ source_given self.old) }
        ensures at_end { CameToEnd result buf.new → source_ends self.new ≡ counted (source_ends self.old) 1 }
        ensures not_at_end { (CameToEnd result buf.new → ⊥) → source_ends self.new ≡ source_ends self.old }

        // It fails where it is to, and else moves as much as it can.
        ensures err { OnErr result (FailsNextRead self.old) }
        ensures ok { OnOk result (FailsNextRead self.old → ⊥) }
        ensures amount { IfOk result (λ count. count ≡ min (length (bytes_left self.old)) (length buf.old)) }
        ensures fails { source_fails self.new ≡ source_fails self.old }
        ensures reads { source_reads self.new ≡ next_number (source_reads self.old) }
    {
        self.reads = self.reads.saturating_add(1);
        if is_to_fail(self.fails.as_slice(), Called::Read, self.reads) {
            self.faults = self.faults.saturating_add(1);
            return Err(Failed);
        }
        let rest = rest_from(self.holds.as_slice(), self.at);
        let count = rest.len().min(buf.len());
        copy_front(buf, rest, count);
        self.at += count;
        self.given = self.given.saturating_add(count as u64);
        if count == 0 && !buf.is_empty() {
            self.ends = self.ends.saturating_add(1);
        }
        Ok(count)
    }
}

// What is left from a place on.
fn rest_from(bytes: &[u8], at: usize) -> &[u8]
    ensures { result.now ≡ drop at bytes.now }
{
    if at < bytes.len() { &bytes[at..] } else { &[] }
}

// Copies the first bytes.
fn copy_front(buf: &mut [u8], from: &[u8], count: usize)
    requires room { count ≤ length buf.old }
    requires have { count ≤ length from.now }
    ensures front { take count buf.new ≡ take count from.now }
{
    buf[..count].copy_from_slice(&from[..count]);
}
