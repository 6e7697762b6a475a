use super::beginning;
use crate::TokenKind;
use crate::piece::Beginning::{self, Begun, Open, Stray};
use crate::piece::Piece::{Blank, GeneralComment, LineComment, LineEnd, OtherNumber, Token};
use std::test::Fail;

/// Texts, and what each begins with. The bytes beyond ASCII are é, the digit U+0663, alone and behind a letter, and U+FEFF.
const CASES: [(&[u8], Beginning); 50] = [
    (b" a", Begun(Blank, 1)),
    (b"\t\t", Begun(Blank, 1)),
    (b"\r\n", Begun(Blank, 1)),
    (b"\n\n", Begun(LineEnd, 1)),
    (b"'\\'' '", Begun(Token(TokenKind::Rune), 4)),
    (b"'ab'", Begun(Token(TokenKind::Rune), 4)),
    (b"'a\n'", Open),
    (b"\"a\\\"b\" c", Begun(Token(TokenKind::String), 6)),
    (b"\"open", Open),
    (b"\"a\nb\"", Open),
    (b"`a\n\\`b`", Begun(Token(TokenKind::String), 5)),
    (b"`open\n", Open),
    (b"//= a\nb", Begun(LineComment, 5)),
    (b"//", Begun(LineComment, 2)),
    (b"/*=*/*/", Begun(GeneralComment, 5)),
    (b"/*/", Open),
    (b"/* open", Open),
    (b"/*", Open),
    (b"/=/", Begun(Token(TokenKind::SlashAssign), 2)),
    (b"/ /", Begun(Token(TokenKind::Slash), 1)),
    (b"/", Begun(Token(TokenKind::Slash), 1)),
    (b".5", Begun(OtherNumber, 2)),
    (b"....", Begun(Token(TokenKind::Ellipsis), 3)),
    (b"..5", Begun(Token(TokenKind::Period), 1)),
    (b".", Begun(Token(TokenKind::Period), 1)),
    (b"0x", Begun(Token(TokenKind::Integer), 1)),
    (b"0x_1Fg", Begun(Token(TokenKind::Integer), 5)),
    (b"1_", Begun(Token(TokenKind::Integer), 1)),
    (b"1_0_", Begun(Token(TokenKind::Integer), 3)),
    (b"08", Begun(Token(TokenKind::Integer), 2)),
    (b"1..2", Begun(OtherNumber, 2)),
    (b"1e5", Begun(OtherNumber, 3)),
    (b"3i", Begun(OtherNumber, 2)),
    (b"<<==", Begun(Token(TokenKind::ShiftLeftAssign), 3)),
    (b"&^&", Begun(Token(TokenKind::AndNot), 2)),
    (b"->", Begun(Token(TokenKind::Minus), 1)),
    (b"~", Begun(Token(TokenKind::Tilde), 1)),
    (b"break", Begun(Token(TokenKind::Break), 5)),
    (b"breaks", Begun(Token(TokenKind::Name), 6)),
    (b"fallthrough(", Begun(Token(TokenKind::Fallthrough), 11)),
    (b"_1.x", Begun(Token(TokenKind::Name), 2)),
    (b"\xc3\xa91 ", Begun(Token(TokenKind::Name), 3)),
    (b"x\xd9\xa3=", Begun(Token(TokenKind::Name), 3)),
    (b"\xd9\xa3", Stray),
    (b"\xef\xbb\xbfa", Stray),
    (b"\0", Stray),
    (b"\x80a", Stray),
    (b"\xc3", Stray),
    (b"#", Stray),
    (b"\\n", Stray),
];

// What a text begins with, unless it is empty.
fn beginning_of(text: &[u8]) -> Option<Beginning> {
    if text.is_empty() {
        None
    } else {
        Some(beginning(text))
    }
}

#[test]
fn texts_have_their_beginnings(rt: HostRuntime) -> Result<(), Fail> {
    for (at, (text, wanted)) in CASES.into_iter().enumerate() {
        assert!(rt; beginning_of(text) == Some(wanted), "case {at}");
    }
    Ok(())
}
