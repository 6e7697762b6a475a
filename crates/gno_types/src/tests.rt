// Tables of cases on types, worked out by hand from the Go specification.
mod cases;
mod trial;

use cases::{ASSIGNMENTS, HOLDINGS, METHOD_SETS, SELECTIONS};
use std::test::Fail;
use trial::new_bench;

#[test]
fn method_sets_hold_what_embedded_fields_promote(rt: HostRuntime) -> Result<(), Fail> {
    let mut bench = new_bench(rt.alloc())?.ok_or("no table")?;
    assert_eq!(rt; bench.wrong_set(METHOD_SETS.as_slice())?, None);
    Ok(())
}

#[test]
fn what_is_assignable(rt: HostRuntime) -> Result<(), Fail> {
    let mut bench = new_bench(rt.alloc())?.ok_or("no table")?;
    assert_eq!(rt; bench.wrong_assignment(ASSIGNMENTS.as_slice())?, None);
    Ok(())
}

#[test]
fn what_names_select(rt: HostRuntime) -> Result<(), Fail> {
    let mut bench = new_bench(rt.alloc())?.ok_or("no table")?;
    assert_eq!(rt; bench.wrong_selection(SELECTIONS.as_slice())?, None);
    Ok(())
}

#[test]
fn what_values_hold(rt: HostRuntime) -> Result<(), Fail> {
    let mut bench = new_bench(rt.alloc())?.ok_or("no table")?;
    assert_eq!(rt; bench.wrong_holding(HOLDINGS.as_slice())?, None);
    Ok(())
}
