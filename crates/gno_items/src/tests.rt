ghost use Rattle.std.specs.Prelude.{◌≡◌, IfOk};
ghost use Rattle.gno_items.specs.Well.{CanKeep, IsWell, has_no_zero};

use crate::{Added, Called, End, ItemReply, Packages, add, call, item_text};
use gno_base::{Bytes, NamedText};
use gno_script::Item;
use std::alloc::Global;
use std::test::Fail;

const COUNTER: &[u8] =
    b"package counter\nvar n int\nfunc Inc(cur realm) int { n++; return n }\nfunc inc(cur realm) { n++ }\n";

fn has_no_zero(name: &[u8]) -> bool
    ensures { result ≡ has_no_zero name.now }
{
    name.iter().all(|b| 0 < *b)
}

// What the addition of a package with that one file answers.
fn added(
    alloc: Global,
    packages: &Packages,
    budget: u64,
    path: &[u8],
    name: &[u8],
    text: &[u8],
) -> Result<Added, Fail>
    ensures { IfOk result (λ end. CanKeep packages.now end) }
{
    if !has_no_zero(name) {
        return Err(Fail::new("a name with a zero byte"));
    }
    let file = NamedText {
        name: Bytes::from_slice(alloc, name)?,
        text: Bytes::from_slice(alloc, text)?,
    };
    Ok(add(alloc, packages, budget, path, &file)?)
}

// The counter alone, at `gno.land/r/demo/counter`.
fn with_counter(alloc: Global) -> Result<Packages, Fail>
    ensures { IfOk result (λ packages. IsWell packages) }
{
    let mut packages = Packages::new(alloc);
    let path = b"gno.land/r/demo/counter";
    let end = added(alloc, &packages, 1000, path, b"counter.gno", COUNTER)?;
    let Added { reply: _, held } = end;
    let Some(held) = held else {
        return Err(Fail::new("the counter was not added"));
    };
    packages.push(held)?;
    Ok(packages)
}

fn code_of(reply: &ItemReply) -> Option<u8> {
    match &reply.end {
        End::Refused(refusal) => Some(refusal.code),
        End::Ok(_) | End::Spent => None,
    }
}

#[test]
fn items_have_their_texts(rt: HostRuntime) -> Result<(), Fail> {
    let mut packages = with_counter(rt.alloc())?;
    let path = b"gno.land/r/demo/counter";
    let item = Item::Call {
        budget: 1000,
        caller: Bytes::from_slice(rt.alloc(), b"alice")?,
        path: Bytes::from_slice(rt.alloc(), path)?,
        function: Bytes::from_slice(rt.alloc(), b"Inc")?,
    };
    let spent = call(rt.alloc(), &packages, 4, path, b"Inc")?;
    assert!(rt; spent.values.is_none());
    let text = item_text(rt.alloc(), 1, &item, &spent.reply)?;
    assert!(rt; text.as_slice() == b"item 1 call\nspent\ncycles 4\n".as_slice());
    let called = call(rt.alloc(), &packages, 1000, path, b"Inc")?;
    let Called { reply, values } = called;
    let text = item_text(rt.alloc(), 2, &item, &reply)?;
    assert!(rt; text.as_slice() == b"item 2 call\nok (1 int)\ncycles 5\n".as_slice());
    let Some(values) = values else {
        return Err(Fail::new("no values"));
    };
    packages.set_values(path, values);
    let held = packages.find(path);
    assert!(rt; held.is_some_and(|held| held.values.get(0).is_some_and(|n| n.value() == 1)));
    assert!(rt; packages.len() == 1 && packages.as_slice().len() == 1);
    assert!(rt; packages.find(b"gno.land/r/demo").is_none());
    Ok(())
}

#[test]
fn an_addition_charges_for_each_variable(rt: HostRuntime) -> Result<(), Fail> {
    let packages = Packages::new(rt.alloc());
    let item = Item::Add {
        budget: 2,
        caller: Bytes::from_slice(rt.alloc(), b"alice")?,
        path: Bytes::from_slice(rt.alloc(), b"gno.land/r/x")?,
        file: NamedText {
            name: Bytes::new(rt.alloc()),
            text: Bytes::new(rt.alloc()),
        },
    };
    let cases: [(u64, &[u8]); 3] = [
        (2, b"item 1 add\nok\ncycles 2\n"),
        (1, b"item 1 add\nspent\ncycles 1\n"),
        (0, b"item 1 add\nspent\ncycles 0\n"),
    ];
    for (budget, wanted) in cases {
        let end = added(
            rt.alloc(),
            &packages,
            budget,
            b"gno.land/r/x",
            b"x.gno",
            COUNTER,
        )?;
        let text = item_text(rt.alloc(), 1, &item, &end.reply)?;
        assert!(rt; text.as_slice() == wanted, "{budget}");
        assert!(rt; end.held.is_some() == (budget == 2), "{budget}");
    }
    Ok(())
}

#[test]
fn additions_are_refused(rt: HostRuntime) -> Result<(), Fail> {
    let packages = with_counter(rt.alloc())?;
    let other = b"package z\nvar s string\n";
    let cases: [(&[u8], &[u8], &[u8], u8); 9] = [
        (b"gno.land/x/y", b"a.gno", COUNTER, 101),
        (b"gno.land/e/alice/run", b"a.gno", COUNTER, 101),
        (b"chain", b"a.gno", COUNTER, 101),
        (b"gno.land/r/demo/counter", b"a_test.gno", other, 102),
        (b"gno.land/p/demo/a", b"a.gno", b"package f\n\xff\n", 1),
        (b"gno.land/p/demo/a", b"a.gno", COUNTER, 199),
        (b"gno.land/r/z", b"a_test.gno", COUNTER, 199),
        (b"gno.land/r/z", b"a_filetest.gno", COUNTER, 199),
        (b"gno.land/r/z", b"z.gno", other, 199),
    ];
    for (path, name, text, code) in cases {
        let end = added(rt.alloc(), &packages, 1000, path, name, text)?;
        assert!(rt; code_of(&end.reply) == Some(code), "{code}");
        assert!(rt; end.held.is_none() && end.reply.used == 0, "{code}");
    }
    Ok(())
}

#[test]
fn calls_are_refused(rt: HostRuntime) -> Result<(), Fail> {
    let packages = with_counter(rt.alloc())?;
    let cases: [(&[u8], &[u8], u8); 4] = [
        (b"gno.land/r/demo", b"Inc", 104),
        (b"gno.land/r/demo/counter", b"Dec", 105),
        (b"gno.land/r/demo/counter", b"inc", 105),
        (b"gno.land/r/demo/counter", b"n", 105),
    ];
    for (path, function, code) in cases {
        let end = call(rt.alloc(), &packages, 1000, path, function)?;
        assert!(rt; code_of(&end.reply) == Some(code), "{code}");
        assert!(rt; end.values.is_none() && end.reply.used == 0, "{code}");
    }
    Ok(())
}
