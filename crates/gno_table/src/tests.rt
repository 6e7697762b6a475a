// Tables of the first format, in a keeper in memory.
ghost use Rattle.std.specs.Prelude.{◌≡◌, true};

use crate::{LoadFault, add_package, load, store_values};
use gno_base::{Bytes, List, NamedText, Whole};
use gno_items::{Added, add};
use gno_port::{FailAt, Keeper, KeptRow, KeptTable, MemoryKeeper};
use std::alloc::{AllocError, Global};
use std::test::Fail;

const PATH: &[u8] = b"gno.land/r/demo/counter";

const TEXT: &[u8] = b"package counter\nvar n int\nfunc Inc(cur realm) int { n++; return n }\n";

// A keeper with one table, "t".
fn keeper(alloc: Global, rows: &[(&[u8], &[u8])]) -> Result<MemoryKeeper, AllocError> {
    let mut kept = List::<KeptRow>::new(alloc);
    for (key, value) in rows {
        kept.push(KeptRow {
            key: Bytes::from_slice(alloc, key)?,
            value: Bytes::from_slice(alloc, value)?,
        })?;
    }
    let mut tables = List::<KeptTable>::new(alloc);
    tables.push(KeptTable {
        name: Bytes::from_slice(alloc, b"t")?,
        rows: kept,
    })?;
    Ok(MemoryKeeper::new(tables, List::<FailAt>::new(alloc)))
}

// Adds the counter to an empty table.
fn add_counter<K: Keeper>(alloc: Global, kept: &mut K) -> Result<(), AllocError>
    requires { K.is_open kept.old ≡ true }
    ensures { K.is_open kept.new ≡ true }
{
    let Ok(mut packages) = load(alloc, kept) else {
        return Err(AllocError);
    };
    let file = NamedText {
        name: Bytes::from_slice(alloc, b"counter.gno")?,
        text: Bytes::from_slice(alloc, TEXT)?,
    };
    let Ok(added) = add(alloc, &packages, 100, PATH, &file) else {
        return Err(AllocError);
    };
    let Added { reply: _, held } = added;
    let Some(held) = held else {
        return Err(AllocError);
    };
    if packages.len() > 0 || add_package(alloc, kept, &mut packages, held).is_err() {
        return Err(AllocError);
    }
    Ok(())
}

fn store<K: Keeper>(alloc: Global, kept: &mut K, value: i64) -> Result<(), AllocError>
    requires { K.is_open kept.old ≡ true }
    ensures { K.is_open kept.new ≡ true }
{
    let mut values = List::<Whole>::new(alloc);
    values.push(Whole::int(value))?;
    let Ok(mut packages) = load(alloc, kept) else {
        return Err(AllocError);
    };
    let Some(held) = packages.find(PATH) else {
        return Err(AllocError);
    };
    if held.file.variables.len() != values.len() {
        return Err(AllocError);
    }
    match store_values(alloc, kept, &mut packages, PATH, values) {
        Ok(()) => Ok(()),
        Err(_) => Err(AllocError),
    }
}

// Whether a load gives the counter alone, with that value.
fn shows<K: Keeper>(alloc: Global, kept: &mut K, value: i128) -> bool
    requires { K.is_open kept.old ≡ true }
    ensures { K.is_open kept.new ≡ true }
{
    let Ok(packages) = load(alloc, kept) else {
        return false;
    };
    match packages.as_slice() {
        [held] => {
            held.path.as_slice() == PATH
                && held.source.name.as_slice() == b"counter.gno".as_slice()
                && held.source.text.as_slice() == TEXT
                && is_value(held.values.as_slice(), value)
        }
        _ => false,
    }
}

fn is_value(values: &[Whole], value: i128) -> bool {
    match values {
        [one] => one.value() == value,
        _ => false,
    }
}

#[test]
fn a_package_and_its_values_are_loaded_again(rt: HostRuntime) -> Result<(), Fail> {
    let alloc = rt.alloc();
    let mut kept = keeper(alloc, &[])?;
    let Ok(()) = kept.open(alloc, b"t") else {
        return Err(AllocError.into());
    };
    add_counter(alloc, &mut kept)?;
    assert!(rt; shows(alloc, &mut kept, 0));
    store(alloc, &mut kept, 5)?;
    assert!(rt; shows(alloc, &mut kept, 5));
    store(alloc, &mut kept, -1)?;
    assert!(rt; shows(alloc, &mut kept, -1));
    Ok(())
}

// Rows of a table with the counter, whose value is -2.
const FORMAT: (&[u8], &[u8]) = (b"F", b"\0");

const SOURCE: &[u8] = b"Sgno.land/r/demo/counter";

const FIRST: &[u8] =
    b"\0\0\0\0\0\0\0\0counter.gno\0package counter\nvar n int\nfunc Inc(cur realm) int { n++; return n }\n";

const SECOND: &[u8] =
    b"\0\0\0\0\0\0\0\x01counter.gno\0package counter\nvar n int\nfunc Inc(cur realm) int { n++; return n }\n";

const VARIABLE: &[u8] = b"Vgno.land/r/demo/counter\0n";

const MINUS_TWO: &[u8] = b"\xff\xff\xff\xff\xff\xff\xff\xfe";

#[test]
fn a_table_is_of_the_first_format_or_damaged(rt: HostRuntime) -> Result<(), Fail> {
    // A change of the table of the counter, and whether it is of the first format after that.
    let cases = [
        (
            [FORMAT, (SOURCE, FIRST), (VARIABLE, MINUS_TWO), FORMAT],
            true,
        ),
        (
            [FORMAT, (SOURCE, FIRST), (VARIABLE, MINUS_TWO), (b"Z", b"")],
            false,
        ),
        (
            [FORMAT, (SOURCE, FIRST), (VARIABLE, &MINUS_TWO[1..]), FORMAT],
            false,
        ),
        (
            [FORMAT, (SOURCE, SECOND), (VARIABLE, MINUS_TWO), FORMAT],
            false,
        ),
        (
            [
                (SOURCE, FIRST),
                (SOURCE, FIRST),
                (VARIABLE, MINUS_TWO),
                (SOURCE, FIRST),
            ],
            false,
        ),
    ];
    let alloc = rt.alloc();
    for (rows, is_first) in cases {
        let mut kept = keeper(alloc, rows.as_slice())?;
        let Ok(()) = kept.open(alloc, b"t") else {
            return Err(AllocError.into());
        };
        let damaged = matches!(load(alloc, &mut kept), Err(LoadFault::Damaged));
        assert_eq!(rt; damaged, !is_first);
        assert_eq!(rt; shows(alloc, &mut kept, -2), is_first);
    }
    Ok(())
}
