// Layouts in use, with ample memory. What is expected was worked out by hand.
ghost use Rattle.std.specs.Prelude.{◌≡◌, ◌+◌, ◌<◌, ◌≤◌, ℕ, IfOk, None, OnOk, Some, length, slice_get};
ghost use Rattle.gno_layouts.specs.Settling.{AreRows};
ghost use Rattle.gno_layouts.specs.declared.row.Row.{Row};
ghost use Rattle.gno_layouts.specs.declared.row.Row.TheVariants.{Defined};

use crate::{Layouts, Row};
use gno_base::List;
use std::alloc::{AllocError, Global};
use std::test::Fail;

fn add(layouts: &mut Layouts, number: usize, row: Row) -> Result<(), AllocError>
    requires counted { length layouts.old ≡ number }
    requires rows { AreRows number row }
    ensures counted { OnOk result (length layouts.new ≡ number + 1) }
    ensures kept { OnOk result ((n : ℕ) (old : Row) → slice_get layouts.old n ≡ Some old → slice_get layouts.new n ≡ Some old) }
    ensures added { OnOk result (slice_get layouts.new number ≡ Some row) }
{
    layouts.push(row)?;
    Ok(())
}

// A struct of two fields.
fn add_pair(
    alloc: Global,
    layouts: &mut Layouts,
    number: usize,
    a: usize,
    b: usize,
) -> Result<(), AllocError>
    requires counted { length layouts.old ≡ number }
    requires a { a < number }
    requires b { b < number }
    ensures counted { OnOk result (length layouts.new ≡ number + 1) }
    ensures kept { OnOk result ((n : ℕ) (old : Row) → slice_get layouts.old n ≡ Some old → slice_get layouts.new n ≡ Some old) }
{
    let fields = List::from_slice(alloc, &[a, b])?;
    add(layouts, number, Row::Struct(fields))?;
    Ok(())
}

fn is(layouts: &Layouts, number: usize, slots: u64, comparable: bool) -> bool {
    match layouts.layout(number) {
        Some(layout) => layout.slots == slots && layout.comparable == comparable,
        None => false,
    }
}

#[test]
fn each_form_has_its_layout(rt: HostRuntime) -> Result<(), Fail> {
    let mut layouts = Layouts::new(rt.alloc());
    add(&mut layouts, 0, Row::Single { comparable: true })?;
    add(&mut layouts, 1, Row::Single { comparable: false })?;
    add(&mut layouts, 2, Row::Array { length: 3, of: 0 })?;
    add(&mut layouts, 3, Row::Array { length: 2, of: 2 })?;
    add(&mut layouts, 4, Row::Array { length: 0, of: 1 })?;
    add_pair(rt.alloc(), &mut layouts, 5, 0, 3)?;
    add_pair(rt.alloc(), &mut layouts, 6, 0, 1)?;
    assert!(rt; is(&layouts, 0, 1, true));
    assert!(rt; is(&layouts, 1, 1, false));
    assert!(rt; is(&layouts, 2, 4, true));
    assert!(rt; is(&layouts, 3, 9, true));
    assert!(rt; is(&layouts, 4, 1, false));
    assert!(rt; is(&layouts, 5, 11, true));
    assert!(rt; is(&layouts, 6, 3, false));
    Ok(())
}

// Each row holds the one before it twice.
fn double(alloc: Global, layouts: &mut Layouts, size: usize) -> Result<(), AllocError>
    requires { length layouts.old ≡ 1 }
{
    for number in 1..size {
        add_pair(alloc, layouts, number, number - 1, number - 1)?;
    }
    Ok(())
}

#[test]
fn slots_do_not_wrap(rt: HostRuntime) -> Result<(), Fail> {
    let mut layouts = Layouts::new(rt.alloc());
    add(&mut layouts, 0, Row::Single { comparable: true })?;
    double(rt.alloc(), &mut layouts, 71)?;
    assert!(rt; is(&layouts, 9, 1023, true));
    assert!(rt; is(&layouts, 62, 9_223_372_036_854_775_807, true));
    assert!(rt; is(&layouts, 63, 18_446_744_073_709_551_615, true));
    assert!(rt; is(&layouts, 64, 18_446_744_073_709_551_615, true));
    assert!(rt; is(&layouts, 70, 18_446_744_073_709_551_615, true));
    Ok(())
}

// Row 1 is undefined, row 2 an array of five of it, row 3 a struct of row 1 and row 2, and row 4 does not compare.
fn undefined(alloc: Global) -> Result<Layouts, AllocError>
    ensures undefined { IfOk result (λ it. slice_get it 1 ≡ Some (Defined None)) }
    ensures counted { IfOk result (λ it. length it ≡ 5) }
{
    let mut layouts = Layouts::new(alloc);
    add(&mut layouts, 0, Row::Single { comparable: true })?;
    add(&mut layouts, 1, Row::Defined(None))?;
    add(&mut layouts, 2, Row::Array { length: 5, of: 1 })?;
    add_pair(alloc, &mut layouts, 3, 1, 2)?;
    add(&mut layouts, 4, Row::Single { comparable: false })?;
    Ok(layouts)
}

fn define(layouts: &mut Layouts, of: usize) -> Result<(), AllocError>
    requires undefined { slice_get layouts.old 1 ≡ Some (Defined None) }
    requires counted { length layouts.old ≡ 5 }
    requires of { of < 5 }
    ensures defined { OnOk result (slice_get layouts.new 1 ≡ Some (Defined (Some of))) }
    ensures counted { OnOk result (length layouts.new ≡ 5) }
{
    layouts.define(1, of)?;
    Ok(())
}

fn take_back(layouts: &mut Layouts, of: usize)
    requires defined { slice_get layouts.old 1 ≡ Some (Defined (Some of)) }
    requires counted { length layouts.old ≡ 5 }
    ensures undefined { slice_get layouts.new 1 ≡ Some (Defined None) }
    ensures counted { length layouts.new ≡ 5 }
{
    let none: [Option<u64>; 5] = [None, None, None, None, None];
    layouts.keep(&none);
}

#[test]
fn a_definition_settles_what_holds_it(rt: HostRuntime) -> Result<(), Fail> {
    let mut layouts = undefined(rt.alloc())?;
    assert!(rt; layouts.layout(1).is_none());
    assert!(rt; layouts.layout(3).is_none());
    define(&mut layouts, 0)?;
    assert!(rt; is(&layouts, 1, 1, true));
    assert!(rt; is(&layouts, 2, 6, true));
    assert!(rt; is(&layouts, 3, 8, true));
    take_back(&mut layouts, 0);
    assert!(rt; layouts.layout(2).is_none());
    assert!(rt; layouts.layout(3).is_none());
    define(&mut layouts, 2)?;
    assert!(rt; layouts.layout(1).is_none());
    take_back(&mut layouts, 2);
    define(&mut layouts, 4)?;
    assert!(rt; is(&layouts, 3, 8, false));
    Ok(())
}
