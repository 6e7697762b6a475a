// What is seen of values.
use crate::{as_operand, calls_in, calls_with, constant_in, either, pos_in};
use gno_constants::Constant;
use gno_scan::Pos;
use gno_terms::TypeRef;
use gno_typing::ValueOf;
use std::test::Fail;

const AT: Pos = Pos {
    file: 0,
    line: 3,
    column: 5,
};

#[test]
fn constants_hold_no_calls(rt: HostRuntime) -> Result<(), Fail> {
    let value = Constant::Whole(7);
    let x = ValueOf::Constant {
        pos: AT,
        of: TypeRef(0),
        value,
    };
    assert!(rt; pos_in(&x).column == 5);
    assert!(rt; !calls_in(&x) && !either(false, calls_in(&x)));
    assert!(rt; calls_with(true, &x) && either(true, false));
    let again = constant_in(&x)?;
    assert!(rt; again == Some(Constant::Whole(7)));
    let operand = as_operand(Some(x));
    assert!(rt; operand.is_some());
    drop(operand);
    Ok(())
}
