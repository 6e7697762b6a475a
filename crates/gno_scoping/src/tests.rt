// Names of one scope, with ample memory.
use crate::Scoped;
use gno_base::Bytes;
use gno_judging::Faults;
use gno_scan::Pos;
use gno_tree::Name;
use std::alloc::{AllocError, Global};
use std::test::Fail;

// The column of the first name that repeats one, or 0. Names are single letters, each at its column.
fn repeated(alloc: Global, letters: &[u8]) -> Result<u32, AllocError> {
    let mut faults = Faults::new();
    let mut scope = Scoped::new(alloc);
    let mut column = 0u32;
    for letter in letters {
        if column < 1000 {
            column += 1;
        }
        let text = Bytes::from_slice(alloc, &[*letter])?;
        let pos = Pos {
            file: 0,
            line: 1,
            column,
        };
        let name = Name { text, pos };
        let _fresh = scope.distinct(alloc, &mut faults, &[name])?;
    }
    match faults.least() {
        Some(fault) => Ok(fault.pos.column),
        None => Ok(0),
    }
}

#[test]
fn names_stand_once(rt: HostRuntime) -> Result<(), Fail> {
    let alloc = rt.alloc();
    assert!(rt; repeated(alloc, b"abc")? == 0);
    assert!(rt; repeated(alloc, b"abab")? == 3);
    // the blank identifier declares nothing
    assert!(rt; repeated(alloc, b"_a_")? == 0);
    Ok(())
}
