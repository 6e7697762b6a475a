use crate::{Boxed, Bytes, Cycles, Kind, List, Path, PathFault, PathKind, Shared, Whole};
use std::alloc::{AllocError, Global};
use std::cmp::Ordering;
use std::test::Fail;

// The kind of the path, or none where the text is no path.
fn kind_of(alloc: Global, text: &[u8]) -> Result<Option<PathKind>, AllocError> {
    match Path::read(alloc, text) {
        Ok(path) => Ok(Some(path.kind)),
        Err(PathFault::BadPath) => Ok(None),
        Err(PathFault::NoMemory) => Err(AllocError),
    }
}

#[test]
fn paths_have_their_kinds(rt: HostRuntime) -> Result<(), Fail> {
    let cases: [(&[u8], Option<PathKind>); 20] = [
        (b"gno.land/r/demo", Some(PathKind::Realm)),
        (b"gno.land/r/demo/counter/v2", Some(PathKind::Realm)),
        (b"gno.land/p/demo/avl_2", Some(PathKind::Pure)),
        (b"gno.land/e/1alice/run", Some(PathKind::Run)),
        (b"chain", Some(PathKind::Bundled)),
        (b"crypto/sha256", Some(PathKind::Bundled)),
        (b"", None),
        (b"strings", None),
        (b"chain/", None),
        (b"gno.land/r", None),
        (b"gno.land/r/", None),
        (b"gno.land/r/Demo", None),
        (b"gno.land/r/demo/", None),
        (b"gno.land/r/demo//counter", None),
        (b"gno.land/r/2demo", None),
        (b"gno.land/r/_demo", None),
        (b"gno.land/x/demo", None),
        (b"gno.land/e//run", None),
        (b"gno.land/e/run", None),
        (b"gno.land/e/al_ice/run", None),
    ];
    for (text, wanted) in cases {
        assert!(rt; kind_of(rt.alloc(), text)? == wanted);
    }
    Ok(())
}

#[test]
fn a_path_has_at_most_128_bytes(rt: HostRuntime) -> Result<(), Fail> {
    let mut text = Bytes::from_slice(rt.alloc(), b"gno.land/p/")?;
    for _ in 0..117 {
        text.push(b'a')?;
    }
    assert!(rt; kind_of(rt.alloc(), text.as_slice())? == Some(PathKind::Pure));
    text.push(b'a')?;
    assert!(rt; kind_of(rt.alloc(), text.as_slice())?.is_none());
    Ok(())
}

#[test]
fn a_number_lies_in_the_range_of_its_kind(rt: HostRuntime) {
    let cases = [
        (Kind::Int8, -129, false),
        (Kind::Int8, -128, true),
        (Kind::Int8, 127, true),
        (Kind::Int8, 128, false),
        (Kind::Uint64, -1, false),
        (Kind::Uint64, 0, true),
        (Kind::Uint64, 18446744073709551615, true),
        (Kind::Uint64, 18446744073709551616, false),
        (Kind::Bool, 0, false),
        (Kind::Text, 0, false),
    ];
    for (kind, value, wanted) in cases {
        assert_eq!(rt; Whole::new(kind, value).is_some(), wanted, "{value}");
    }
}

// The sum, the difference and the product.
fn results(kind: Kind, a: i128, b: i128) -> Option<(i128, i128, i128)> {
    let a = Whole::new(kind, a)?;
    let b = Whole::new(kind, b)?;
    Some((a.add(b).value(), a.sub(b).value(), a.mul(b).value()))
}

#[test]
fn numbers_wrap_around(rt: HostRuntime) {
    let least = -9223372036854775808;
    let greatest = 18446744073709551615;
    let cases = [
        (Kind::Int8, 100, 27, (127, 73, -116)),
        (Kind::Int8, 100, 28, (-128, 72, -16)),
        (Kind::Int8, -128, 1, (-127, 127, -128)),
        (Kind::Uint16, 3, 5, (8, 65534, 15)),
        (Kind::Uint16, 65535, 1, (0, 65534, 65535)),
        (
            Kind::Int64,
            least,
            -1,
            (9223372036854775807, -9223372036854775807, least),
        ),
        (
            Kind::Uint64,
            greatest,
            greatest,
            (18446744073709551614, 0, 1),
        ),
        (
            Kind::Uint64,
            greatest,
            2,
            (1, 18446744073709551613, 18446744073709551614),
        ),
    ];
    for (kind, a, b, wanted) in cases {
        assert!(rt; results(kind, a, b) == Some(wanted), "{a} and {b}");
    }
}

#[test]
fn an_int_has_64_bits(rt: HostRuntime) {
    let number = Whole::int(-2);
    assert!(rt; number.kind() == Kind::Int);
    assert!(rt; number.word() == 18446744073709551614);
    assert!(rt; Whole::int(5).word() == 5);
}

#[test]
fn a_charge_fits_or_takes_nothing(rt: HostRuntime) {
    for (n, fits, left) in [(3, true, 1), (4, true, 0), (5, false, 4)] {
        let mut cycles = Cycles { left: 4 };
        assert_eq!(rt; cycles.charge(n).is_ok(), fits, "{n}");
        assert_eq!(rt; cycles.left, left, "{n}");
    }
}

#[test]
fn handles_give_their_values(rt: HostRuntime) -> Result<(), Fail> {
    let boxed = Boxed::<u8>::new(rt.alloc(), 7)?;
    assert!(rt; *boxed.get() == 7);
    assert!(rt; boxed.into_inner() == 7);
    let shared = Shared::<u8>::new(rt.alloc(), 8)?;
    let other = shared.share()?;
    drop(shared);
    assert!(rt; *other.get() == 8);
    Ok(())
}

#[test]
fn a_list_has_its_items_in_order(rt: HostRuntime) -> Result<(), Fail> {
    let mut list = Bytes::new(rt.alloc());
    assert!(rt; list.is_empty());
    list.push(1)?;
    list.extend_from_slice(&[2, 3])?;
    list.append(Bytes::from_slice(rt.alloc(), &[4, 5])?)?;
    assert!(rt; list.len() == 5);
    list.set(1, 9);
    assert!(rt; list.get(4).copied() == Some(5));
    assert!(rt; list.get(5).is_none());
    assert!(rt; list.as_slice() == [1, 9, 3, 4, 5].as_slice());
    assert!(rt; List::from_vec(list.into_vec()).len() == 5);
    Ok(())
}

#[test]
fn lists_compare_as_their_items_do(rt: HostRuntime) -> Result<(), Fail> {
    let mut list = Bytes::from_slice(rt.alloc(), &[1, 2])?;
    let same = list.clone()?;
    assert!(rt; list == same);
    assert!(rt; list.cmp(&same) == Ordering::Equal);
    assert!(rt; list.pop() == Some(2));
    assert!(rt; list != same);
    assert!(rt; list < same);
    assert!(rt; Bytes::new(rt.alloc()).pop().is_none());
    Ok(())
}
