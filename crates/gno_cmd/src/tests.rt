mod faults;
mod narrow;

use crate::{Status, gno};
use faults::{Faults, NO_FAULTS};
use gno_base::{Bytes, List};
use gno_port::{FailAt, KeptTable, MemoryKeeper, MemorySink, MemorySource};
use narrow::NarrowSink;
use std::alloc::Global;
use std::test::Fail;

/// What a command left: its status, what it wrote, and the keeper.
#[derive(Drop)]
struct Left {
    status: Status,
    out: Bytes,
    err: Bytes,
    keeper: MemoryKeeper,
}

fn new_keeper(alloc: Global) -> MemoryKeeper {
    MemoryKeeper::new(List::<KeptTable>::new(alloc), List::<FailAt>::new(alloc))
}

fn run_words(
    alloc: Global,
    words: &[String],
    script: &str,
    faults: &Faults,
    keeper: MemoryKeeper,
) -> Result<Left, Fail> {
    let text = Bytes::from_slice(alloc, script.as_bytes())?;
    let mut input = MemorySource::new(text, fail_list(alloc, faults.call)?);
    let mut out = NarrowSink {
        sink: new_sink(alloc, faults.call, faults.zero_write)?,
        is_narrow: faults.is_narrow,
    };
    let mut err = new_sink(alloc, faults.err_call, faults.err_zero_write)?;
    let (status, keeper) = gno(alloc, words, &mut input, &mut out, &mut err, keeper);
    Ok(Left {
        status,
        out: out.sink.end(),
        err: err.end(),
        keeper,
    })
}

fn fail_list(alloc: Global, call: FailAt) -> Result<List<FailAt>, Fail> {
    let mut fails = List::<FailAt>::new(alloc);
    fails.push(call)?;
    Ok(fails)
}

fn new_sink(alloc: Global, call: FailAt, zero_write: u64) -> Result<MemorySink, Fail> {
    let mut zeros = List::<u64>::new(alloc);
    zeros.push(zero_write)?;
    Ok(MemorySink::new(Bytes::new(alloc), fail_list(alloc, call)?, zeros))
}

fn replay(alloc: Global, script: &str, keeper: MemoryKeeper) -> Result<Left, Fail> {
    replay_with(alloc, script, &NO_FAULTS, keeper)
}

fn replay_with(
    alloc: Global,
    script: &str,
    faults: &Faults,
    keeper: MemoryKeeper,
) -> Result<Left, Fail> {
    let words = vec![in alloc;
        String::from_str(alloc, "replay")?,
        String::from_str(alloc, "-store")?,
        String::from_str(alloc, "demo")?,
    ]?;
    run_words(alloc, &words, script, faults, keeper)
}

const ADD: &str =
    "add 1000 alice gno.land/r/demo/counter\nfile counter.gno\n|package counter\n|var n int\n|func Inc(cur realm) int { n++; return n }\nend\n";

const CALL: &str = "call 1000 alice gno.land/r/demo/counter Inc\nend\n";

const ADDED: &str = "item 1 add\nok\ncycles 2\n";

#[test]
fn counter_over_a_reload(rt: HostRuntime) -> Result<(), Fail> {
    let alloc = rt.alloc();
    let script = format!(in alloc; "{ADD}{CALL}reload\n{CALL}")?;
    let left = replay(alloc, script.as_str(), new_keeper(alloc))?;
    let Left {
        status,
        out,
        err,
        keeper,
    } = left;
    let said = format!(in alloc;
        "{ADDED}item 2 call\nok (1 int)\ncycles 5\nitem 3 call\nok (2 int)\ncycles 5\n"
    )?;
    assert_eq!(rt; out.as_slice(), said.as_bytes());
    assert!(rt; err.is_empty());
    assert_eq!(rt; status.number(), 0);

    // a second session continues with the same table
    let more = replay(alloc, CALL, keeper)?;
    assert_eq!(rt;
        more.out.as_slice(),
        b"item 1 call\nok (3 int)\ncycles 5\n".as_slice()
    );
    Ok(())
}

#[test]
fn rows_are_read_again_at_a_reload(rt: HostRuntime) -> Result<(), Fail> {
    let alloc = rt.alloc();
    let with = format!(in alloc; "{ADD}{CALL}reload\n{CALL}")?;
    let without = format!(in alloc; "{ADD}{CALL}{CALL}")?;
    let again = replay(alloc, with.as_str(), new_keeper(alloc))?;
    let once = replay(alloc, without.as_str(), new_keeper(alloc))?;
    assert!(rt; again.keeper.gets() > once.keeper.gets());
    assert_eq!(rt; again.keeper.changes(), once.keeper.changes());
    Ok(())
}

#[test]
fn empty_script(rt: HostRuntime) -> Result<(), Fail> {
    let alloc = rt.alloc();
    let left = replay(alloc, "", new_keeper(alloc))?;
    assert_eq!(rt; left.status.number(), 0);
    assert!(rt; left.out.is_empty());
    assert!(rt; left.err.is_empty());
    assert_eq!(rt; left.keeper.changes(), 0);
    Ok(())
}

#[test]
fn items_behind_the_counter(rt: HostRuntime) -> Result<(), Fail> {
    let alloc = rt.alloc();
    let cases = [
        // budgets
        (
            "call 4 alice gno.land/r/demo/counter Inc\nend\ncall 5 alice gno.land/r/demo/counter Inc\nend\n",
            "item 2 call\nspent\ncycles 4\nitem 3 call\nok (1 int)\ncycles 5\n",
        ),
        // refusals of items
        (ADD, "item 2 add\nrefused 102 path taken\ncycles 0\n"),
        (
            "call 1000 alice gno.land/r/demo/counter inc\nend\n",
            "item 2 call\nrefused 105 function unknown or not of this use\ncycles 0\n",
        ),
        (
            "call 1000 alice gno.land/r/demo/none Inc\nend\n",
            "item 2 call\nrefused 104 package unknown\ncycles 0\n",
        ),
        // faults of a source text
        (
            "add 1000 alice gno.land/r/demo/f\nfile f.gno\n|package f\n|var x = 1.5\nend\n",
            "item 2 add\nrefused 6 f.gno:2:9 floating-point or imaginary literal\ncycles 0\n",
        ),
        (
            "add 1000 alice gno.land/r/demo/f\nfile f.gno\n|package p\n|func f() { go g() }\nend\n",
            "item 2 add\nrefused 22 f.gno:2:12 form left out: goroutine\ncycles 0\n",
        ),
        (
            "add 1000 alice gno.land/p/demo/f\nfile f.gno\n|package p\n|var x = 1 + )\nend\n",
            "item 2 add\nrefused 20 f.gno:2:13 unexpected token\ncycles 0\n",
        ),
        // what is not built yet
        (
            "add 1000 alice gno.land/r/demo/z\nfile z.gno\n|package z\n|var s string\nend\n",
            "item 2 add\nrefused 199 not built yet\ncycles 0\n",
        ),
    ];
    for (script, said) in cases {
        let whole = format!(in alloc; "{ADD}{script}")?;
        let left = replay(alloc, whole.as_str(), new_keeper(alloc))?;
        let wanted = format!(in alloc; "{ADDED}{said}")?;
        assert_eq!(rt; left.out.as_slice(), wanted.as_bytes());
        assert_eq!(rt; left.status.number(), 1);
    }
    Ok(())
}

#[test]
fn arithmetic_and_printing(rt: HostRuntime) -> Result<(), Fail> {
    let alloc = rt.alloc();
    let script =
        "add 1000 alice gno.land/r/demo/calc\nfile calc.gno\n|package calc\n|var a int\n|var b int\n|func Up(cur realm) { a = b * 3; b = a + 1; println(b) }\nend\ncall 1000 alice gno.land/r/demo/calc Up\nend\n";
    let left = replay(alloc, script, new_keeper(alloc))?;
    let said = "item 1 add\nok\ncycles 4\nitem 2 call\nout 2\n1\n\nok\ncycles 14\n";
    assert_eq!(rt; left.out.as_slice(), said.as_bytes());
    assert_eq!(rt; left.status.number(), 0);
    Ok(())
}

#[test]
fn faulty_scripts_and_words(rt: HostRuntime) -> Result<(), Fail> {
    let alloc = rt.alloc();
    let cut = "call 1000 alice gno.land/r/demo/counter Inc\n";
    let left = replay(alloc, cut, new_keeper(alloc))?;
    assert_eq!(rt; left.status.number(), 8);
    assert!(rt; left.out.is_empty());
    assert_eq!(rt; left.err.as_slice(), b"gno: script line 2\n".as_slice());
    assert_eq!(rt; left.keeper.gets(), 0);

    let words = vec![in alloc; String::from_str(alloc, "replay")?]?;
    let left = run_words(alloc, &words, ADD, &NO_FAULTS, new_keeper(alloc))?;
    assert_eq!(rt; left.status.number(), 2);
    assert_eq!(rt; left.err.as_slice(), b"gno: usage at word 2\n".as_slice());
    Ok(())
}
