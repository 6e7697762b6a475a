// The forms in memory at work.
ghost use Rattle.std.specs.Prelude.{◌≡◌, true};
ghost use Rattle.gno_port.specs.MemoryKeeper.{has_open};

use crate::{
    Called, Changes, FailAt, Failed, KeepFault, Keeper, KeptRow, KeptTable, MemoryKeeper,
    MemorySink, MemorySource, ReadFault, Source, WriteFault, read_all, write_all,
};
use gno_base::{Bytes, List};
use std::alloc::{AllocError, Global};
use std::test::Fail;

fn fails(alloc: Global, call: Called, number: u64) -> Result<List<FailAt>, AllocError> {
    let mut fails = List::<FailAt>::new(alloc);
    fails.push(FailAt { call, number })?;
    Ok(fails)
}

#[test]
fn a_source_is_read_within_its_limit(rt: HostRuntime) -> Result<(), Fail> {
    // The first read gives all three bytes, and the second finds the end. Number 0 names no call.
    let cases = [
        (0, 3, Ok(3)),
        (0, 2, Err(ReadFault::TooLong)),
        (0, 0, Err(ReadFault::TooLong)),
        (1, 3, Err(ReadFault::Failed)),
        (2, 3, Err(ReadFault::Failed)),
        (2, 2, Err(ReadFault::TooLong)),
        (3, 3, Ok(3)),
    ];
    let alloc = rt.alloc();
    for (number, limit, want) in cases {
        let holds = Bytes::from_slice(alloc, b"row")?;
        let mut source = MemorySource::new(holds, fails(alloc, Called::Read, number)?);
        let read = read_all(alloc, &mut source, limit);
        assert_eq!(rt;
            read.map(|text| text.len()),
            want,
            "read {number}, limit {limit}"
        );
        assert_eq!(rt; source.given(), if number == 1 { 0 } else { 3 });
        assert_eq!(rt; source.ends(), u64::from(want.is_ok()));
    }
    Ok(())
}

// A source without end: a read fills the buffer, and nothing is told.
#[derive(Drop)]
struct Endless {
    reads: u64,
    given: u64,
}

impl Source for Endless {
    ghost use Rattle.std.specs.Prelude.{None};

    ghost left = { λ s. None };

    ghost faults = { λ s. 0 };

    ghost given = { λ s. s.given };

    ghost ends = { λ s. 0 };

    fn read(&mut self, buf: &mut [u8]) -> Result<usize, Failed> {
        self.reads = self.reads.saturating_add(1);
        buf.fill(b'x');
        self.given = self.given.saturating_add(buf.len() as u64);
        Ok(buf.len())
    }
}

#[test]
fn a_source_without_end_is_left_soon(rt: HostRuntime) -> Result<(), Fail> {
    let mut source = Endless { reads: 0, given: 0 };
    let read = read_all(rt.alloc(), &mut source, 10_000);
    assert_eq!(rt; read.map(|text| text.len()), Err(ReadFault::TooLong));
    // The third block of 4,096 bytes is the first that passes the limit.
    assert_eq!(rt; (source.reads, source.given), (3, 12_288));
    Ok(())
}

#[test]
fn a_sink_holds_what_was_written(rt: HostRuntime) -> Result<(), Fail> {
    // Which write fails, which takes nothing, and how the second of two writes ends.
    let cases = [
        (0, 0, Ok(()), b"one two".as_slice()),
        (
            2,
            0,
            Err(WriteFault {
                written: 0,
                zero: false,
            }),
            b"one".as_slice(),
        ),
        (
            0,
            2,
            Err(WriteFault {
                written: 0,
                zero: true,
            }),
            b"one".as_slice(),
        ),
        (
            2,
            2,
            Err(WriteFault {
                written: 0,
                zero: false,
            }),
            b"one".as_slice(),
        ),
        (3, 3, Ok(()), b"one two".as_slice()),
    ];
    let alloc = rt.alloc();
    for (number, zero, want, held) in cases {
        let mut zeros = List::<u64>::new(alloc);
        zeros.push(zero)?;
        let mut sink = MemorySink::new(
            Bytes::new(alloc),
            fails(alloc, Called::Write, number)?,
            zeros,
        );
        assert_eq!(rt; write_all(&mut sink, b"one"), Ok(()));
        assert_eq!(rt;
            write_all(&mut sink, b" two"),
            want,
            "write {number}, zero {zero}"
        );
        assert_eq!(rt; sink.end().as_slice(), held);
    }
    Ok(())
}

// A keeper of the table "t" with the rows a: 1 and c: 3.
fn keeper(alloc: Global, call: Called, number: u64) -> Result<MemoryKeeper, AllocError> {
    let mut rows = List::<KeptRow>::new(alloc);
    for (key, value) in [(b"a", b"1"), (b"c", b"3")] {
        rows.push(KeptRow {
            key: Bytes::from_slice(alloc, key.as_slice())?,
            value: Bytes::from_slice(alloc, value.as_slice())?,
        })?;
    }
    let mut tables = List::<KeptTable>::new(alloc);
    tables.push(KeptTable {
        name: Bytes::from_slice(alloc, b"t")?,
        rows,
    })?;
    Ok(MemoryKeeper::new(tables, fails(alloc, call, number)?))
}

// The changes a: gone, b: 1 and then 2, c: 4.
fn changes(alloc: Global) -> Result<Changes, AllocError> {
    let mut changes = Changes::new(alloc);
    for (key, value) in [(b"c", b"4"), (b"b", b"1"), (b"b", b"2")] {
        let value = Bytes::from_slice(alloc, value.as_slice())?;
        changes.put(Bytes::from_slice(alloc, key.as_slice())?, Some(value))?;
    }
    changes.put(Bytes::from_slice(alloc, b"a")?, None)?;
    Ok(changes)
}

fn is_text(found: &Option<Bytes>, want: &[u8]) -> bool {
    match found {
        Some(text) => text.as_slice() == want,
        None => want.is_empty(),
    }
}

// Whether a key of the open table has this value, and the next key is this one. No text stands for none.
fn shows(alloc: Global, kept: &mut MemoryKeeper, key: &[u8], value: &[u8], next: &[u8]) -> bool
    requires { has_open kept.old ≡ true }
{
    let Ok(found) = kept.get(alloc, key) else {
        return false;
    };
    let Ok(above) = kept.after(alloc, key) else {
        return false;
    };
    is_text(&found, value) && is_text(&above, next)
}

#[test]
fn a_keeper_makes_a_batch_of_changes(rt: HostRuntime) -> Result<(), Fail> {
    // A table, whether the batch is made in it first, a key, its value and the next key.
    let cases = [
        (b"u", false, b"a", b"".as_slice(), b"".as_slice()),
        (b"t", false, b"a", b"1".as_slice(), b"c".as_slice()),
        (b"t", false, b"b", b"".as_slice(), b"c".as_slice()),
        (b"t", false, b"c", b"3".as_slice(), b"".as_slice()),
        (b"u", true, b"a", b"".as_slice(), b"b".as_slice()),
        (b"u", false, b"c", b"4".as_slice(), b"".as_slice()),
        (b"t", false, b"c", b"3".as_slice(), b"".as_slice()),
        (b"t", true, b"a", b"".as_slice(), b"b".as_slice()),
        (b"t", false, b"b", b"2".as_slice(), b"c".as_slice()),
        (b"t", false, b"c", b"4".as_slice(), b"".as_slice()),
    ];
    let alloc = rt.alloc();
    let mut kept = keeper(alloc, Called::Read, 0)?;
    let batch = changes(alloc)?.into_batch(alloc)?;
    for (name, is_made, key, value, next) in cases {
        let Ok(()) = kept.open(alloc, name.as_slice()) else {
            return Err(AllocError.into());
        };
        if is_made {
            assert!(rt; kept.apply(alloc, &batch).is_ok());
        }
        assert!(rt; shows(alloc, &mut kept, key.as_slice(), value, next));
    }
    assert_eq!(rt; (kept.gets(), kept.changes()), (10, 6));
    Ok(())
}

#[test]
fn a_keeper_fails_where_it_is_to(rt: HostRuntime) -> Result<(), Fail> {
    let alloc = rt.alloc();
    let batch = changes(alloc)?.into_batch(alloc)?;
    for call in [Called::Open, Called::Get, Called::After, Called::Apply] {
        let mut kept = keeper(alloc, call, 1)?;
        let failed = kept.open(alloc, b"t");
        assert_eq!(rt; failed.is_err(), call == Called::Open);
        assert!(rt; failed.is_ok() || kept.open(alloc, b"t").is_ok());
        assert_eq!(rt; kept.get(alloc, b"a").is_err(), call == Called::Get);
        assert_eq!(rt; kept.after(alloc, b"a").is_err(), call == Called::After);
        assert_eq!(rt; kept.apply(alloc, &batch).is_err(), call == Called::Apply);
        assert_eq!(rt; kept.changes(), if call == Called::Apply { 0 } else { 3 });
    }
    Ok(())
}
