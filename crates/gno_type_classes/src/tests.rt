// Tables of cases on types, worked out by hand from the Go specification.
mod bench;
mod cases;
mod lawful;

use crate::{
    compares, converts, default_kind, fits, follows, function, has, is_boxed, is_known,
    is_representable, keys, may_be, takes, underlying,
};
use bench::{Bench, new_bench};
use cases::{
    BOXED, CLASSES, COMPARED, CONSTANTS, CONVERSIONS, DEFAULTS, ELEMENTS, HAD, HOLDERS, POINTED,
    TAKEN, UNDER,
};
use std::process::Abort;
use std::test::Fail;

fn are_of_classes(rt: &impl Abort, bench: &Bench) {
    for (name, classes) in CLASSES {
        assert!(rt; bench.is_of(name, classes), "{name}");
    }
}

fn have_defaults(rt: &impl Abort, bench: &Bench) {
    for (name, wanted) in DEFAULTS {
        assert!(rt;
            default_kind(&bench.types, bench.number(name)) == wanted,
            "{name}"
        );
    }
}

fn have_underlying(rt: &impl Abort, bench: &Bench) {
    for (name, wanted) in UNDER {
        let t = bench.number(name);
        assert!(rt;
            underlying(&bench.types, t) == bench.found(wanted),
            "{name}"
        );
        assert!(rt; is_known(&bench.types, t) == wanted.is_some(), "{name}");
    }
}

#[test]
fn classes_go_by_underlying_types(rt: HostRuntime) -> Result<(), Fail> {
    let bench = new_bench(rt.alloc())?;
    are_of_classes(&rt, &bench);
    have_defaults(&rt, &bench);
    have_underlying(&rt, &bench);
    Ok(())
}

fn have_constants(rt: &impl Abort, bench: &Bench) {
    for (text, name, fitting, representable, possible) in CONSTANTS {
        let t = bench.number(name);
        let constant = bench.constant(text);
        assert!(rt;
            fits(&bench.types, &constant, t) == fitting,
            "{text} and {name}"
        );
        assert!(rt;
            is_representable(&bench.types, &constant, t) == representable,
            "{text} and {name}"
        );
        assert!(rt;
            may_be(&bench.types, &constant, t) == possible,
            "{text} and {name}"
        );
    }
}

fn are_taken(rt: &impl Abort, bench: &Bench) {
    for (to, from, wanted) in TAKEN {
        let (to_number, from_number) = (bench.number(to), bench.number(from));
        assert!(rt;
            takes(&bench.types, to_number, from_number) == wanted,
            "{from} to {to}"
        );
    }
}

fn are_had(rt: &impl Abort, bench: &Bench) {
    for (name, interface, wanted) in HAD {
        let (t, other) = (bench.number(name), bench.number(interface));
        assert!(rt;
            has(&bench.types, t, other) == wanted,
            "{name} and {interface}"
        );
    }
}

fn are_boxed(rt: &impl Abort, bench: &Bench) {
    for (from, to, wanted) in BOXED {
        let (from_number, to_number) = (bench.number(from), bench.number(to));
        assert!(rt;
            is_boxed(&bench.types, from_number, to_number) == wanted,
            "{from} to {to}"
        );
    }
}

fn are_compared(rt: &impl Abort, bench: &Bench) {
    for (name, wanted) in COMPARED {
        assert!(rt;
            compares(&bench.types, bench.number(name)) == wanted,
            "{name}"
        );
    }
}

#[test]
fn constants_and_values_have_types(rt: HostRuntime) -> Result<(), Fail> {
    let bench = new_bench(rt.alloc())?;
    have_constants(&rt, &bench);
    are_taken(&rt, &bench);
    are_had(&rt, &bench);
    are_boxed(&rt, &bench);
    are_compared(&rt, &bench);
    Ok(())
}

#[test]
fn values_convert(rt: HostRuntime) -> Result<(), Fail> {
    let bench = new_bench(rt.alloc())?;
    for (from, to, wanted) in CONVERSIONS {
        let (from_number, to_number) = (bench.number(from), bench.number(to));
        assert!(rt;
            converts(&bench.types, from_number, to_number) == wanted,
            "{from} to {to}"
        );
    }
    Ok(())
}

fn have_elements(rt: &impl Abort, bench: &Bench) {
    for (name, wanted) in ELEMENTS {
        assert!(rt; bench.has_elements(name, wanted), "{name}");
    }
}

fn have_holders(rt: &impl Abort, bench: &Bench) {
    for (name, wanted) in HOLDERS {
        assert!(rt; bench.has_holder(name, wanted), "{name}");
    }
}

fn are_followed(rt: &impl Abort, bench: &Bench) {
    for (name, wanted) in POINTED {
        assert!(rt;
            follows(&bench.types, bench.number(name)) == bench.found(wanted),
            "{name}"
        );
    }
}

#[test]
fn types_have_parts(rt: HostRuntime) -> Result<(), Fail> {
    let bench = new_bench(rt.alloc())?;
    have_elements(&rt, &bench);
    have_holders(&rt, &bench);
    are_followed(&rt, &bench);
    let text = bench.number("string");
    assert!(rt; keys(&bench.types, bench.number("Index")) == Some((text, text)));
    assert!(rt; keys(&bench.types, bench.number("Row")).is_none());
    let handler = function(&bench.types, bench.number("Handler")).ok_or("no function")?;
    assert!(rt; handler.params == [bench.number("[]int")].as_slice());
    assert!(rt; handler.variadic);
    assert!(rt; handler.results.is_empty());
    assert!(rt; function(&bench.types, bench.number("Row")).is_none());
    Ok(())
}
