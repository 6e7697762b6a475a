// Constants, types and variables, each with what is given for it.
ghost use Rattle.std.specs.Prelude.{◌≡◌, [], true, false, Some, None};
ghost use Rattle.gno_grammar.specs.Phrases.{nothing, either, both, construct};
ghost use Rattle.gno_reader.specs.Answers.{Gives};
ghost use Rattle.gno_reader.specs.Scope.{reads};
ghost use Rattle.gno_rules.specs.Declarations as spec;
ghost use Rattle.gno_rules.specs.Parts.{a, past, to};
ghost use Rattle.gno_rules.specs.declared.rule.Rule.TheVariants as r;
ghost use Rattle.gno_scan.specs.declared.kind.TokenKind.TheVariants as k;

use gno_base::List;
use gno_reader::name::{name, names};
use gno_reader::{Cursor, Failure, ListReader, Reader, begins_type, construct};
use gno_rules::{Place, TypeRead};
use gno_scan::TokenKind;
use gno_tree::{ConstSpec, Expr, TypeExpr, TypeSpec, VarSpec};

/// `= values`
#[tactic(auto, unfolding(gno_reader::proofs::Shown::reading, gno_rules::specs::Declarations::initial))]
fn initial<R: ListReader>(reader: &R, tokens: &mut Cursor<'_>) -> Result<List<Expr>, Failure>
    requires { R.nests reader.now }
    ensures { Gives (reads (R.scope reader.now) spec.initial tokens.old) result tokens.new }
{
    tokens.expect(TokenKind::Assign)?;
    reader.values(tokens, Place::Plain)
}

// ---- constants

/// `type = values`
#[tactic(auto, unfolding(gno_reader::proofs::Shown::reading))]
fn typed_initial<R: ListReader>(
    reader: &R,
    tokens: &mut Cursor<'_>,
) -> Result<(Option<TypeExpr>, List<Expr>), Failure>
    requires { R.nests reader.now }
    ensures { Gives (reads (R.scope reader.now) (λ text. both (λ of vs. (Some of.of, vs)) (construct r.Type) (spec.initial text)) tokens.old) result tokens.new }
{
    let TypeRead { of, .. } = construct::type_read(reader, tokens)?;
    let values = initial(reader, tokens)?;
    Ok((Some(of), values))
}

/// `= values`, `type = values` or nothing
#[tactic(auto, unfolding(gno_reader::proofs::Shown::reading, gno_rules::specs::Declarations::initial))]
fn const_value<R: ListReader>(
    reader: &R,
    tokens: &mut Cursor<'_>,
) -> Result<(Option<TypeExpr>, List<Expr>), Failure>
    requires { R.nests reader.now }
    ensures { Gives (reads (R.scope reader.now) (λ text. either (to (λ vs. (None, vs)) (spec.initial text)) (either (both (λ of vs. (Some of.of, vs)) (construct r.Type) (spec.initial text)) (nothing (None, [])))) tokens.old) result tokens.new }
{
    if tokens.sees(TokenKind::Assign) {
        let values = initial(reader, tokens)?;
        return Ok((None, values));
    }
    if begins_type(tokens) {
        return typed_initial(reader, tokens);
    }
    Ok((None, List::new(reader.alloc())))
}

/// `names type = values`
#[tactic(auto, unfolding(gno_reader::proofs::Shown::reading, crate::proofs::Shown::specs))]
pub fn const_spec<R: ListReader>(reader: &R, tokens: &mut Cursor<'_>) -> Result<ConstSpec, Failure>
    requires { R.nests reader.now }
    ensures { Gives (reads (R.scope reader.now) spec.const tokens.old) result tokens.new }
{
    let names = names(reader, tokens)?;
    let (of, values) = const_value(reader, tokens)?;
    Ok(ConstSpec { names, of, values })
}

// ---- variables

/// `= values` or nothing
#[tactic(auto, unfolding(gno_reader::proofs::Shown::reading, gno_rules::specs::Declarations::initial))]
fn optional_initial<R: ListReader>(
    reader: &R,
    tokens: &mut Cursor<'_>,
) -> Result<List<Expr>, Failure>
    requires { R.nests reader.now }
    ensures { Gives (reads (R.scope reader.now) (λ text. either (spec.initial text) (nothing [])) tokens.old) result tokens.new }
{
    if tokens.sees(TokenKind::Assign) {
        return initial(reader, tokens);
    }
    Ok(List::new(reader.alloc()))
}

/// `= values`, `type = values` or `type`
#[tactic(auto, unfolding(gno_reader::proofs::Shown::reading, gno_rules::specs::Declarations::initial))]
fn var_value<R: ListReader>(
    reader: &R,
    tokens: &mut Cursor<'_>,
) -> Result<(Option<TypeExpr>, List<Expr>), Failure>
    requires { R.nests reader.now }
    ensures { Gives (reads (R.scope reader.now) (λ text. either (to (λ vs. (None, vs)) (spec.initial text)) (both (λ of vs. (Some of.of, vs)) (construct r.Type) (either (spec.initial text) (nothing [])))) tokens.old) result tokens.new }
{
    if tokens.sees(TokenKind::Assign) {
        let values = initial(reader, tokens)?;
        return Ok((None, values));
    }
    let TypeRead { of, .. } = construct::type_read(reader, tokens)?;
    let values = optional_initial(reader, tokens)?;
    Ok((Some(of), values))
}

/// `names type = values`
#[tactic(auto, unfolding(gno_reader::proofs::Shown::reading, crate::proofs::Shown::specs))]
pub fn var_spec<R: ListReader>(reader: &R, tokens: &mut Cursor<'_>) -> Result<VarSpec, Failure>
    requires { R.nests reader.now }
    ensures { Gives (reads (R.scope reader.now) spec.var tokens.old) result tokens.new }
{
    let names = names(reader, tokens)?;
    let (of, values) = var_value(reader, tokens)?;
    Ok(VarSpec { names, of, values })
}

// ---- types

/// `= type` or `type`; the flag says whether `=` stands before it.
#[tactic(auto, unfolding(gno_reader::proofs::Shown::reading))]
fn declared<R: Reader>(reader: &R, tokens: &mut Cursor<'_>) -> Result<(bool, TypeExpr), Failure>
    requires { R.nests reader.now }
    ensures { Gives (reads (R.scope reader.now) (λ text. either (to (λ of. (true, of.of)) (past (a k.Assign) (construct r.Type))) (to (λ of. (false, of.of)) (construct r.DeclaredType))) tokens.old) result tokens.new }
{
    if tokens.sees(TokenKind::Assign) {
        tokens.expect(TokenKind::Assign)?;
        let TypeRead { of, .. } = construct::type_read(reader, tokens)?;
        return Ok((true, of));
    }
    let TypeRead { of, .. } = construct::declared_type(reader, tokens)?;
    Ok((false, of))
}

/// `name type`, `name = type`
#[tactic(auto, unfolding(gno_reader::proofs::Shown::reading, crate::proofs::Shown::specs))]
pub fn type_spec<R: Reader>(reader: &R, tokens: &mut Cursor<'_>) -> Result<TypeSpec, Failure>
    requires { R.nests reader.now }
    ensures { Gives (reads (R.scope reader.now) spec.type tokens.old) result tokens.new }
{
    let name = name(reader, tokens)?;
    let (alias, of) = declared(reader, tokens)?;
    Ok(TypeSpec { name, alias, of })
}
