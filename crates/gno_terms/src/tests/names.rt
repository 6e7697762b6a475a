// Names that are exported, worked out by hand.
use crate::is_exported;

#[test]
fn capital_letters_export(rt: HostRuntime) {
    let cases: [(&[u8], bool); 12] = [
        (b"A".as_slice(), true),
        (b"a".as_slice(), false),
        (b"Name9".as_slice(), true),
        (b"name".as_slice(), false),
        (b"_".as_slice(), false),
        (b"_A".as_slice(), false),
        (b"\xc3\x89".as_slice(), true),
        (b"\xc3\xa9".as_slice(), false),
        (b"\xc7\x85".as_slice(), false),
        (b"".as_slice(), false),
        (b"\xff".as_slice(), false),
        (b"A\xff".as_slice(), false),
    ];
    for (name, exported) in cases {
        assert!(rt; is_exported(name) == exported);
    }
}
