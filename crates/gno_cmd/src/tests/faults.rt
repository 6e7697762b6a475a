// Sessions in which one call of a device fails, each call in turn: the status and its line, what was written, and the
// table that is left.
use super::{ADD, ADDED, CALL, fail_list, replay, replay_with};
use gno_base::{Bytes, List};
use gno_port::{Called, FailAt, Keeper, KeptRow, KeptTable, MemoryKeeper};
use std::alloc::Global;
use std::process::Abort;
use std::test::Fail;

/// What goes wrong in a session, by the number of the call. Number 0 names none.
#[derive(Clone, Copy, Debug, PartialEq, Eq)]
pub(super) struct Faults {
    /// The call of the input, the output or the keeper that fails.
    pub call: FailAt,
    /// The write of the output that takes nothing.
    pub zero_write: u64,
    /// Whether a write of the output takes ten bytes at most.
    pub is_narrow: bool,
    /// The same calls of the error output.
    pub err_call: FailAt,
    pub err_zero_write: u64,
}

const NO_CALL: FailAt = FailAt {
    call: Called::Write,
    number: 0,
};

pub(super) const NO_FAULTS: Faults = Faults {
    call: NO_CALL,
    zero_write: 0,
    is_narrow: false,
    err_call: NO_CALL,
    err_zero_write: 0,
};

fn fails(call: Called, number: u64) -> Faults {
    Faults {
        call: FailAt { call, number },
        ..NO_FAULTS
    }
}

fn takes_none(number: u64) -> Faults {
    Faults {
        zero_write: number,
        ..NO_FAULTS
    }
}

fn narrow(faults: Faults) -> Faults {
    Faults {
        is_narrow: true,
        ..faults
    }
}

fn err_fails(number: u64) -> Faults {
    Faults {
        err_call: FailAt {
            call: Called::Write,
            number,
        },
        ..NO_FAULTS
    }
}

fn err_takes_none(number: u64) -> Faults {
    Faults {
        err_zero_write: number,
        ..NO_FAULTS
    }
}

// A status and its line.
const DONE: (u8, &str) = (0, "");

const READ: (u8, &str) = (3, "gno: read fault\n");

const WRITE: (u8, &str) = (4, "gno: write fault\n");

const STORE: (u8, &str) = (5, "gno: store fault\n");

// The text up to the first call, and of all items.
const CALLED: &str = "item 1 add\nok\ncycles 2\nitem 2 call\nok (1 int)\ncycles 5\n";

const ALL: &str =
    "item 1 add\nok\ncycles 2\nitem 2 call\nok (1 int)\ncycles 5\nitem 3 call\nok (2 int)\ncycles 5\n";

// What the next call answers where the counter was not added, and where it stands at 0, 1 and 2.
const ABSENT: &str = "item 1 call\nrefused 104 package unknown\ncycles 0\n";

const AT_ZERO: &str = "item 1 call\nok (1 int)\ncycles 5\n";

const AT_ONE: &str = "item 1 call\nok (2 int)\ncycles 5\n";

const AT_TWO: &str = "item 1 call\nok (3 int)\ncycles 5\n";

// The table is loaded by one `get` and one `after` where it is empty, and with its three rows by four of each.
#[test]
fn each_call_fails_in_turn(rt: HostRuntime) -> Result<(), Fail> {
    let cases = [
        (fails(Called::Read, 1), READ, "", ABSENT),
        (fails(Called::Read, 2), READ, "", ABSENT),
        (fails(Called::Read, 3), DONE, ALL, AT_TWO),
        (fails(Called::Write, 1), WRITE, "", AT_ZERO),
        (fails(Called::Write, 2), WRITE, ADDED, AT_ONE),
        (fails(Called::Write, 3), WRITE, CALLED, AT_TWO),
        (fails(Called::Write, 4), DONE, ALL, AT_TWO),
        (takes_none(1), WRITE, "", AT_ZERO),
        (takes_none(2), WRITE, ADDED, AT_ONE),
        (takes_none(3), WRITE, CALLED, AT_TWO),
        (takes_none(4), DONE, ALL, AT_TWO),
        (fails(Called::Open, 1), STORE, "", ABSENT),
        (fails(Called::Open, 2), STORE, CALLED, AT_ONE),
        (fails(Called::Open, 3), DONE, ALL, AT_TWO),
        (fails(Called::Get, 1), STORE, "", ABSENT),
        (fails(Called::Get, 2), STORE, CALLED, AT_ONE),
        (fails(Called::Get, 3), STORE, CALLED, AT_ONE),
        (fails(Called::Get, 4), STORE, CALLED, AT_ONE),
        (fails(Called::Get, 5), STORE, CALLED, AT_ONE),
        (fails(Called::Get, 6), DONE, ALL, AT_TWO),
        (fails(Called::After, 1), STORE, "", ABSENT),
        (fails(Called::After, 2), STORE, CALLED, AT_ONE),
        (fails(Called::After, 3), STORE, CALLED, AT_ONE),
        (fails(Called::After, 4), STORE, CALLED, AT_ONE),
        (fails(Called::After, 5), STORE, CALLED, AT_ONE),
        (fails(Called::After, 6), DONE, ALL, AT_TWO),
        (fails(Called::Apply, 1), STORE, "", ABSENT),
        (fails(Called::Apply, 2), STORE, ADDED, AT_ZERO),
        (fails(Called::Apply, 3), STORE, CALLED, AT_ONE),
        (fails(Called::Apply, 4), DONE, ALL, AT_TWO),
    ];
    let alloc = rt.alloc();
    let script = format!(in alloc; "{ADD}{CALL}reload\n{CALL}")?;
    for (faults, status, out, state) in cases {
        leaves(&rt, alloc, script.as_str(), &faults, status, out, state)?;
    }
    Ok(())
}

// The first text takes three narrow writes, the second and the third four each.
#[test]
fn a_text_is_cut_within(rt: HostRuntime) -> Result<(), Fail> {
    let first = "item 1 add\nok\ncycles";
    let second = "item 1 add\nok\ncycles 2\nitem 2 call\nok (1 in";
    let nearly = "item 1 add\nok\ncycles 2\nitem 2 call\nok (1 int)\ncycles ";
    let cases = [
        (fails(Called::Write, 3), WRITE, first, AT_ZERO),
        (takes_none(3), WRITE, first, AT_ZERO),
        (fails(Called::Write, 6), WRITE, second, AT_ONE),
        (takes_none(6), WRITE, second, AT_ONE),
        (fails(Called::Write, 7), WRITE, nearly, AT_ONE),
        (fails(Called::Write, 8), WRITE, CALLED, AT_TWO),
        (fails(Called::Write, 12), DONE, ALL, AT_TWO),
    ];
    let alloc = rt.alloc();
    let script = format!(in alloc; "{ADD}{CALL}reload\n{CALL}")?;
    for (faults, status, out, state) in cases {
        let faults = narrow(faults);
        leaves(&rt, alloc, script.as_str(), &faults, status, out, state)?;
    }
    Ok(())
}

#[test]
fn a_line_is_cut_short_and_its_status_stays(rt: HostRuntime) -> Result<(), Fail> {
    // The line is written in three pieces.
    let cases = [
        (err_fails(1), ""),
        (err_fails(2), "gno: script line "),
        (err_fails(3), "gno: script line 2"),
        (err_fails(4), "gno: script line 2\n"),
        (err_takes_none(1), ""),
        (err_takes_none(2), "gno: script line "),
        (err_takes_none(3), "gno: script line 2"),
        (err_takes_none(4), "gno: script line 2\n"),
    ];
    let alloc = rt.alloc();
    let script = format!(in alloc; "reload\nrelaod\n{ADD}")?;
    for (faults, line) in cases {
        leaves(&rt, alloc, script.as_str(), &faults, (8, line), "", ABSENT)?;
    }
    Ok(())
}

// Runs a script, and compares what it leaves: the status and what the error output holds, the output, and what the next
// call answers.
fn leaves(
    rt: &impl Abort,
    alloc: Global,
    script: &str,
    faults: &Faults,
    status: (u8, &str),
    out: &str,
    state: &str,
) -> Result<(), Fail> {
    let fails = fail_list(alloc, faults.call)?;
    let keeper = MemoryKeeper::new(List::<KeptTable>::new(alloc), fails);
    let left = replay_with(alloc, script, faults, keeper)?;
    assert_eq!(rt; left.status.number(), status.0, "{faults:?}");
    assert_eq!(rt; left.err.as_slice(), status.1.as_bytes(), "{faults:?}");
    assert_eq!(rt; left.out.as_slice(), out.as_bytes(), "{faults:?}");
    let now = next_call(alloc, left.keeper)?;
    assert_eq!(rt; now.as_slice(), state.as_bytes(), "{faults:?}");
    Ok(())
}

// What the next call answers. A fault that the session did not come to meets this call, and then it is made again.
fn next_call(alloc: Global, keeper: MemoryKeeper) -> Result<Bytes, Fail> {
    let left = replay(alloc, CALL, keeper)?;
    if left.status.number() != STORE.0 {
        return Ok(left.out);
    }
    let again = replay(alloc, CALL, left.keeper)?;
    Ok(again.out)
}

#[test]
fn a_table_of_another_format_stays(rt: HostRuntime) -> Result<(), Fail> {
    let alloc = rt.alloc();
    let left = replay(alloc, ADD, other_keeper(alloc)?)?;
    assert_eq!(rt; left.status.number(), 6);
    assert_eq!(rt; left.err.as_slice(), b"gno: damaged 46\n".as_slice());
    assert!(rt; left.out.is_empty());
    assert_eq!(rt; left.keeper.changes(), 0);

    // its row is there
    let mut keeper = left.keeper;
    assert!(rt; keeper.open(alloc, b"demo").is_ok());
    let found = keeper.get(alloc, b"X");
    assert!(rt; matches!(&found, Ok(Some(value)) if value.as_slice() == b"row".as_slice()));
    Ok(())
}

// A keeper whose table has a row that no table of the first format has.
fn other_keeper(alloc: Global) -> Result<MemoryKeeper, Fail> {
    let mut rows = List::<KeptRow>::new(alloc);
    rows.push(KeptRow {
        key: Bytes::from_slice(alloc, b"X")?,
        value: Bytes::from_slice(alloc, b"row")?,
    })?;
    let mut tables = List::<KeptTable>::new(alloc);
    tables.push(KeptTable {
        name: Bytes::from_slice(alloc, b"demo")?,
        rows,
    })?;
    Ok(MemoryKeeper::new(tables, List::<FailAt>::new(alloc)))
}
