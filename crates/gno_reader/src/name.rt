// Names and literals.
ghost use Rattle.std.specs.Prelude.{◌≡◌, IfOk, [], ◌∷◌};
ghost use Rattle.gno_reader.specs.Answers.{Gives};
ghost use Rattle.gno_reader.specs.Scope.{reads};
ghost use Rattle.gno_rules.specs.Parts as spec;
ghost use Rattle.gno_rules.specs.Parts.{past, a};
ghost use Rattle.gno_rules.specs.Signatures.{further_names};
ghost use Rattle.gno_scan.specs.declared.kind.TokenKind.TheVariants as k;

use crate::{Cursor, Failure, Reader};
use gno_base::{Bytes, List};
use gno_scan::{Token, TokenKind};
use gno_tree::{Literal, LiteralKind, Name};
use std::alloc::{AllocError, Global};

/// The bytes of a token.
fn spelling<R: Reader>(reader: &R, token: Token) -> Result<Bytes, AllocError>
    ensures { IfOk result (λ bytes. bytes ≡ spec.spelling (R.scope reader.now).text token) }
{
    let behind = reader.text().get(token.start..).unwrap_or(&[]);
    let length = token.end.saturating_sub(token.start);
    let bytes = behind.get(..length).unwrap_or(behind);
    Bytes::from_slice(reader.alloc(), bytes)
}

/// The literal that a token spells.
pub fn literal_of<R: Reader>(reader: &R, token: Token) -> Result<Literal, AllocError>
    ensures { IfOk result (λ literal. literal ≡ spec.literal_of (R.scope reader.now).text token) }
{
    Ok(Literal {
        kind: literal_kind(token.kind),
        spelling: spelling(reader, token)?,
        pos: token.pos,
    })
}

fn literal_kind(kind: TokenKind) -> LiteralKind
    ensures { result ≡ spec.literal_kind kind }
{
    match kind {
        TokenKind::Integer => LiteralKind::Integer,
        TokenKind::Rune => LiteralKind::Rune,
        _ => LiteralKind::String,
    }
}

/// A name.
#[tactic(auto, unfolding(crate::proofs::Shown::reading, gno_rules::specs::Parts::name))]
pub fn name<R: Reader>(reader: &R, tokens: &mut Cursor<'_>) -> Result<Name, Failure>
    ensures { Gives (reads (R.scope reader.now) spec.name tokens.old) result tokens.new }
{
    let token = tokens.expect(TokenKind::Name)?;
    Ok(Name {
        text: spelling(reader, token)?,
        pos: token.pos,
    })
}

/// `.name`
#[tactic(auto, unfolding(crate::proofs::Shown::reading, gno_rules::specs::Parts::dotted))]
pub fn dotted<R: Reader>(reader: &R, tokens: &mut Cursor<'_>) -> Result<Name, Failure>
    ensures { Gives (reads (R.scope reader.now) spec.dotted tokens.old) result tokens.new }
{
    tokens.expect(TokenKind::Period)?;
    name(reader, tokens)
}

/// `, name`
#[tactic(auto, unfolding(crate::proofs::Shown::reading))]
pub fn further_name<R: Reader>(reader: &R, tokens: &mut Cursor<'_>) -> Result<Name, Failure>
    ensures { Gives (reads (R.scope reader.now) (λ text. past (a k.Comma) (spec.name text)) tokens.old) result tokens.new }
{
    tokens.expect(TokenKind::Comma)?;
    name(reader, tokens)
}

/// One name or more, with commas between them.
#[tactic(auto, unfolding(crate::proofs::Shown::reading, gno_rules::specs::Parts::names))]
pub fn names<R: Reader>(reader: &R, tokens: &mut Cursor<'_>) -> Result<List<Name>, Failure>
    ensures { Gives (reads (R.scope reader.now) spec.names tokens.old) result tokens.new }
{
    let mut names = List::new(reader.alloc());
    names.push(name(reader, tokens)?)?;
    while tokens.sees(TokenKind::Comma) {
        names.push(further_name(reader, tokens)?)?;
    }
    Ok(names)
}

/// A list of one name.
pub fn one_name(alloc: Global, name: Name) -> Result<List<Name>, AllocError>
    ensures { IfOk result (λ names. names ≡ name ∷ []) }
{
    let mut names = List::new(alloc);
    names.push(name)?;
    Ok(names)
}

/// `, name` any number of times
#[tactic(auto, unfolding(crate::proofs::Shown::reading, gno_rules::specs::Signatures::further_names))]
pub fn further_names<R: Reader>(reader: &R, tokens: &mut Cursor<'_>) -> Result<List<Name>, Failure>
    ensures { Gives (reads (R.scope reader.now) further_names tokens.old) result tokens.new }
{
    let mut names = List::new(reader.alloc());
    while tokens.sees(TokenKind::Comma) {
        names.push(further_name(reader, tokens)?)?;
    }
    Ok(names)
}
