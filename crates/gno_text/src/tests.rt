// Texts and their quotations, worked out by hand.
use crate::quoted;
use std::alloc::AllocError;

#[test]
fn texts_are_quoted(rt: HostRuntime) -> Result<(), AllocError> {
    let cases: [(&[u8], &[u8]); 16] = [
        (b"".as_slice(), b"\"\"".as_slice()),
        (b"boom".as_slice(), b"\"boom\"".as_slice()),
        (b"a\"b\\c".as_slice(), b"\"a\\\"b\\\\c\"".as_slice()),
        (b"\n\t\r".as_slice(), b"\"\\n\\t\\r\"".as_slice()),
        (b"\x00 \x1f".as_slice(), b"\"\\x00 \\x1f\"".as_slice()),
        (b"~\x7f".as_slice(), b"\"~\\x7f\"".as_slice()),
        (b"\xc3\xa9".as_slice(), b"\"\xc3\xa9\"".as_slice()),
        (
            b"\xf0\x9f\x98\x80".as_slice(),
            b"\"\xf0\x9f\x98\x80\"".as_slice(),
        ),
        (b"\xff".as_slice(), b"\"\\xff\"".as_slice()),
        (b"\xc0\x80".as_slice(), b"\"\\xc0\\x80\"".as_slice()),
        (
            b"\xed\xa0\x80".as_slice(),
            b"\"\\xed\\xa0\\x80\"".as_slice(),
        ),
        (
            b"\xf4\x90\x80\x80".as_slice(),
            b"\"\\xf4\\x90\\x80\\x80\"".as_slice(),
        ),
        (b"a\xe2\x82".as_slice(), b"\"a\\xe2\\x82\"".as_slice()),
        (
            b"\xe2\x82\xc3\xa9".as_slice(),
            b"\"\\xe2\\x82\xc3\xa9\"".as_slice(),
        ),
        (
            b"\xe2\x82\"\n".as_slice(),
            b"\"\\xe2\\x82\\\"\\n\"".as_slice(),
        ),
        (
            b"\xed\x9f\xbf\xee\x80\x80".as_slice(),
            b"\"\xed\x9f\xbf\xee\x80\x80\"".as_slice(),
        ),
    ];
    for (text, line) in cases {
        let made = quoted(rt.alloc(), text)?;
        assert!(rt; made.as_slice() == line);
    }
    Ok(())
}
