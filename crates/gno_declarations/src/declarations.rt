// Declarations: one, or any number in parentheses.
ghost use Rattle.std.specs.Prelude.{◌≡◌, ◌∷◌, [], IfOk};
ghost use Rattle.gno_grammar.specs.Readers.{begins};
ghost use Rattle.gno_reader.specs.Answers.{Gives};
ghost use Rattle.gno_reader.specs.Scope.{reads};
ghost use Rattle.gno_rules.specs.Declarations as spec;
ghost use Rattle.gno_rules.specs.Kinds.{code, numbers};
ghost use Rattle.gno_rules.specs.Parts.{closed_list as closed_by};
ghost use Rattle.gno_scan.specs.declared.kind.TokenKind.TheVariants as k;

use crate::specs_of::{const_spec, type_spec, var_spec};
use gno_base::List;
use gno_reader::list::closed_list;
use gno_reader::{Cursor, Failure, ListReader, Reader};
use gno_scan::TokenKind;
use gno_tree::{ConstSpec, Declaration, TypeSpec, VarSpec};
use std::alloc::{AllocError, Global};

/// A list of one.
pub fn one<T: Drop>(alloc: Global, item: T) -> Result<List<T>, AllocError>
    ensures { IfOk result (λ items. items ≡ item ∷ []) }
{
    let mut items = List::new(alloc);
    items.push(item)?;
    Ok(items)
}

// ---- constants

/// `specs )`, with semicolons between them.
fn const_group<R: ListReader>(
    reader: &R,
    tokens: &mut Cursor<'_>,
) -> Result<List<ConstSpec>, Failure>
    requires { R.nests reader.now }
    ensures { Gives (reads (R.scope reader.now) (λ text. closed_by k.Semicolon k.RightParen (spec.const text)) tokens.old) result tokens.new }
{
    let begin = [TokenKind::Name];
    let item = |tokens: &mut Cursor<'_>| const_spec(reader, tokens);
    closed_list(
        reader.alloc(),
        tokens,
        TokenKind::Semicolon,
        TokenKind::RightParen,
        &begin,
        &item,
    )
}

/// One, or any number in parentheses.
#[tactic(auto, unfolding(gno_reader::proofs::Shown::reading))]
fn const_specs<R: ListReader>(
    reader: &R,
    tokens: &mut Cursor<'_>,
) -> Result<List<ConstSpec>, Failure>
    requires { R.nests reader.now }
    ensures { Gives (reads (R.scope reader.now) (λ text. spec.one_or_group text (spec.const text)) tokens.old) result tokens.new }
{
    if tokens.sees(TokenKind::LeftParen) {
        tokens.expect(TokenKind::LeftParen)?;
        return const_group(reader, tokens);
    }
    let spec = const_spec(reader, tokens)?;
    Ok(one(reader.alloc(), spec)?)
}

#[tactic(auto, unfolding(gno_reader::proofs::Shown::reading, gno_rules::specs::Declarations::const_declaration))]
fn const_declaration<R: ListReader>(
    reader: &R,
    tokens: &mut Cursor<'_>,
) -> Result<Declaration, Failure>
    requires { R.nests reader.now }
    ensures { Gives (reads (R.scope reader.now) spec.const_declaration tokens.old) result tokens.new }
{
    let token = tokens.expect(TokenKind::Const)?;
    let specs = const_specs(reader, tokens)?;
    Ok(Declaration::Const {
        pos: token.pos,
        specs,
    })
}

// ---- types

/// `specs )`, with semicolons between them.
fn type_group<R: Reader>(reader: &R, tokens: &mut Cursor<'_>) -> Result<List<TypeSpec>, Failure>
    requires { R.nests reader.now }
    ensures { Gives (reads (R.scope reader.now) (λ text. closed_by k.Semicolon k.RightParen (spec.type text)) tokens.old) result tokens.new }
{
    let begin = [TokenKind::Name];
    let item = |tokens: &mut Cursor<'_>| type_spec(reader, tokens);
    closed_list(
        reader.alloc(),
        tokens,
        TokenKind::Semicolon,
        TokenKind::RightParen,
        &begin,
        &item,
    )
}

/// One, or any number in parentheses.
#[tactic(auto, unfolding(gno_reader::proofs::Shown::reading))]
fn type_specs<R: Reader>(reader: &R, tokens: &mut Cursor<'_>) -> Result<List<TypeSpec>, Failure>
    requires { R.nests reader.now }
    ensures { Gives (reads (R.scope reader.now) (λ text. spec.one_or_group text (spec.type text)) tokens.old) result tokens.new }
{
    if tokens.sees(TokenKind::LeftParen) {
        tokens.expect(TokenKind::LeftParen)?;
        return type_group(reader, tokens);
    }
    let spec = type_spec(reader, tokens)?;
    Ok(one(reader.alloc(), spec)?)
}

#[tactic(auto, unfolding(gno_reader::proofs::Shown::reading, gno_rules::specs::Declarations::type_declaration))]
fn type_declaration<R: Reader>(reader: &R, tokens: &mut Cursor<'_>) -> Result<Declaration, Failure>
    requires { R.nests reader.now }
    ensures { Gives (reads (R.scope reader.now) spec.type_declaration tokens.old) result tokens.new }
{
    let token = tokens.expect(TokenKind::Type)?;
    let specs = type_specs(reader, tokens)?;
    Ok(Declaration::Type {
        pos: token.pos,
        specs,
    })
}

// ---- variables

/// `specs )`, with semicolons between them.
fn var_group<R: ListReader>(reader: &R, tokens: &mut Cursor<'_>) -> Result<List<VarSpec>, Failure>
    requires { R.nests reader.now }
    ensures { Gives (reads (R.scope reader.now) (λ text. closed_by k.Semicolon k.RightParen (spec.var text)) tokens.old) result tokens.new }
{
    let begin = [TokenKind::Name];
    let item = |tokens: &mut Cursor<'_>| var_spec(reader, tokens);
    closed_list(
        reader.alloc(),
        tokens,
        TokenKind::Semicolon,
        TokenKind::RightParen,
        &begin,
        &item,
    )
}

/// One, or any number in parentheses.
#[tactic(auto, unfolding(gno_reader::proofs::Shown::reading))]
fn var_specs<R: ListReader>(reader: &R, tokens: &mut Cursor<'_>) -> Result<List<VarSpec>, Failure>
    requires { R.nests reader.now }
    ensures { Gives (reads (R.scope reader.now) (λ text. spec.one_or_group text (spec.var text)) tokens.old) result tokens.new }
{
    if tokens.sees(TokenKind::LeftParen) {
        tokens.expect(TokenKind::LeftParen)?;
        return var_group(reader, tokens);
    }
    let spec = var_spec(reader, tokens)?;
    Ok(one(reader.alloc(), spec)?)
}

#[tactic(auto, unfolding(gno_reader::proofs::Shown::reading, gno_rules::specs::Declarations::var_declaration))]
fn var_declaration<R: ListReader>(
    reader: &R,
    tokens: &mut Cursor<'_>,
) -> Result<Declaration, Failure>
    requires { R.nests reader.now }
    ensures { Gives (reads (R.scope reader.now) spec.var_declaration tokens.old) result tokens.new }
{
    let token = tokens.expect(TokenKind::Var)?;
    let specs = var_specs(reader, tokens)?;
    Ok(Declaration::Var {
        pos: token.pos,
        specs,
    })
}

// ---- all of them

/// Whether a declaration comes next.
#[tactic(auto, unfolding(gno_reader::proofs::Shown::reading))]
pub fn begins_declaration(tokens: &Cursor<'_>) -> bool
    ensures { result ≡ begins code (numbers (k.Const ∷ k.Type ∷ k.Var ∷ [])) tokens.now }
{
    tokens.sees_any(&[TokenKind::Const, TokenKind::Type, TokenKind::Var])
}

/// `const specs`, `type specs`, `var specs`
#[tactic(auto, unfolding(gno_reader::proofs::Shown::reading, gno_rules::specs::Declarations::declaration, gno_rules::specs::Declarations::const_declaration, gno_rules::specs::Declarations::type_declaration))]
pub fn declaration<R: ListReader>(
    reader: &R,
    tokens: &mut Cursor<'_>,
) -> Result<Declaration, Failure>
    requires { R.nests reader.now }
    ensures { Gives (reads (R.scope reader.now) spec.declaration tokens.old) result tokens.new }
{
    if tokens.sees(TokenKind::Const) {
        return const_declaration(reader, tokens);
    }
    if tokens.sees(TokenKind::Type) {
        return type_declaration(reader, tokens);
    }
    var_declaration(reader, tokens)
}
