use crate::{Faults, a_fault_is_told_where_one_was_noted, the_told_fault_is_the_least};
use gno_scan::Pos;
use gno_typing::Fault;
use std::test::Fail;

// A place in the first file, or in another one.
fn place(file: u64, line: u32, column: u32) -> Pos {
    Pos { file, line, column }
}

#[test]
fn the_first_fault_at_the_least_place_is_told(rt: HostRuntime) -> Result<(), Fail> {
    // what is noted, one after another, and the fault that is told then
    let cases: [(u8, Pos, u8); 7] = [
        (47, place(1, 2, 9), 47),
        (40, place(1, 2, 9), 47),
        (41, place(1, 2, 10), 47),
        (46, place(1, 2, 8), 46),
        (43, place(2, 1, 1), 46),
        (55, place(1, 1, 30), 55),
        (60, place(0, 7, 7), 60),
    ];
    let mut faults = Faults::new();
    assert!(rt; faults.least().is_none());
    for (code, pos, told) in cases {
        faults.note(code, pos);
        assert!(rt; matches!(faults.least(), Some(Fault { code, .. }) if code == told));
    }
    // faults that were noted apart, at the same place and at a lesser one
    for (code, pos, told) in [(61, place(0, 7, 7), 60), (62, place(0, 7, 6), 62)] {
        let mut others = Faults::new();
        others.note(code, pos);
        faults.note_all(others);
        assert!(rt; matches!(faults.least(), Some(Fault { code, .. }) if code == told));
    }
    a_fault_is_told_where_one_was_noted();
    the_told_fault_is_the_least();
    Ok(())
}
