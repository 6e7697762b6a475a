ghost use Rattle.std.specs.Prelude.{◌≡◌, length, IfOk};
ghost use Rattle.gno_first.specs.Lawful.{AreFuncsIn};

use crate::{FirstEnd, run_first};
use gno_base::{Bytes, Cycles, List, Whole};
use gno_first::{FirstExpr, FirstFile, FirstFunc, FirstStmt};
use std::alloc::{AllocError, Global};
use std::test::Fail;

// `var n int` and `func Inc(cur realm) int { n++; return n }`
fn counter(alloc: Global) -> Result<FirstFile, AllocError>
    ensures lawful { IfOk result (λ file. AreFuncsIn (length file.variables) file.functions) }
    ensures variable { IfOk result (λ file. length file.variables ≡ 1) }
    ensures function { IfOk result (λ file. length file.functions ≡ 1) }
{
    let body = [
        FirstStmt::Increment(0),
        FirstStmt::Return(FirstExpr::Name(0)),
    ];
    let mut variables = List::<Bytes>::new(alloc);
    variables.push(Bytes::from_slice(alloc, b"n")?)?;
    let mut functions = List::<FirstFunc>::new(alloc);
    functions.push(FirstFunc {
        name: Bytes::from_slice(alloc, b"Inc")?,
        has_int: true,
        body: List::from_slice(alloc, &body)?,
    })?;
    Ok(FirstFile {
        name: Bytes::from_slice(alloc, b"counter")?,
        variables,
        functions,
    })
}

// The end of a call of `Inc` where the variable is `value`, and the variable after it.
fn called(alloc: Global, value: i64, budget: u64) -> Result<(FirstEnd, Option<i128>), Fail> {
    let file = counter(alloc)?;
    let mut values = List::from_slice(alloc, &[Whole::int(value)])?;
    let end = run_first(alloc, &file, 0, &mut values, Cycles { left: budget })?;
    let after = values.get(0).map(|value| value.value());
    Ok((end, after))
}

#[test]
fn a_call_counts_its_cycles(rt: HostRuntime) -> Result<(), Fail> {
    let greatest = 9223372036854775807;
    let least = -9223372036854775808;
    let cases = [
        (0, 1000, Some(1), 995, 1),
        (0, 5, Some(1), 0, 1),
        (0, 4, None, 0, 1),
        (0, 2, None, 0, 0),
        (0, 0, None, 0, 0),
        (greatest, 5, Some(least), 0, least),
    ];
    for (value, budget, result, left, after) in cases {
        let (end, variable) = called(rt.alloc(), value, budget)?;
        assert!(rt; end.spent == result.is_none(), "{budget}");
        assert!(rt;
            end.result.map(|number| number.value()) == result,
            "{budget}"
        );
        assert!(rt; end.left == left, "{budget}");
        assert!(rt; end.printed.is_empty(), "{budget}");
        assert!(rt; variable == Some(after), "{budget}");
    }
    Ok(())
}
