// The headers of `switch`.
ghost use Rattle.std.specs.Prelude.{◌≡◌, not, None, Some};
ghost use Rattle.gno_grammar.specs.Phrases.{either, nothing, optional};
ghost use Rattle.gno_grammar.specs.Readers.{map};
ghost use Rattle.gno_reader.specs.Answers.{Gives};
ghost use Rattle.gno_reader.specs.Scope.{reads};
ghost use Rattle.gno_rules.specs.Expressions as expressions;
ghost use Rattle.gno_rules.specs.Parts.{a, past};
ghost use Rattle.gno_rules.specs.Shapes as shapes;
ghost use Rattle.gno_rules.specs.Statements as spec;
ghost use Rattle.gno_rules.specs.declared.expression.Found.TheVariants as f;
ghost use Rattle.gno_rules.specs.declared.expression.Place.TheVariants as place;
ghost use Rattle.gno_scan.specs.declared.kind.TokenKind.TheVariants as k;
ghost use Rattle.gno_tree.specs.declared.statement.Simple.TheVariants as simple;
ghost use Rattle.gno_tree.specs.declared.statement.Subject.TheVariants as subject;

use crate::begins::begins_switch_header;
use crate::header_value::{subject_of, tag_of};
use gno_operands::{operand_alone, suffix};
use gno_reader::{Cursor, ExprReader, Failure, Reader, SimpleReader, begins_expr};
use gno_rules::{Found, Kind, Operand, Place, SimpleRead, SwitchHeader, Tag};
use gno_scan::TokenKind;
use gno_tree::{Expr, Guard, Name, Simple, Subject};

// Whether `.(type)` has still to come.
fn wants_guard(operand: &Operand) -> bool
    ensures { result ≡ not (shapes.is_guard (shapes.shape_of_operand operand.now)) }
{
    !operand.shape().is_guard()
}

// The operand with one more suffix.
#[tactic(auto, unfolding(gno_reader::proofs::Shown::reading))]
fn next_suffix<R: Reader>(
    reader: &R,
    tokens: &mut Cursor<'_>,
    operand: Operand,
) -> Result<Operand, Failure>
    requires { R.nests reader.now }
    ensures { Gives (map (shapes.with_suffix operand) (reads (R.scope reader.now) (λ text. expressions.suffix text place.Guard (shapes.shape_of_operand operand))) tokens.old) result tokens.new }
{
    let shape = operand.shape();
    let next = suffix(reader, tokens, Place::Guard, shape)?;
    Ok(operand.with_suffix(reader.alloc(), next)?)
}

// An operand that ends with `.(type)`.
#[tactic(auto, unfolding(gno_reader::proofs::Shown::reading, gno_rules::specs::Statements::guard_alone))]
fn guard_alone<R: Reader>(reader: &R, tokens: &mut Cursor<'_>) -> Result<Operand, Failure>
    requires { R.nests reader.now }
    ensures { Gives (reads (R.scope reader.now) spec.guard_alone tokens.old) result tokens.new }
{
    let mut operand = operand_alone(reader, tokens, Place::Guard)?;
    while wants_guard(&operand) {
        operand = next_suffix(reader, tokens, operand)?;
    }
    Ok(operand)
}

// `:= operand.(type)`
#[tactic(auto, unfolding(gno_reader::proofs::Shown::reading))]
fn defined_guard<R: Reader>(reader: &R, tokens: &mut Cursor<'_>) -> Result<Operand, Failure>
    requires { R.nests reader.now }
    ensures { Gives (reads (R.scope reader.now) (λ text. past (a k.Define) (spec.guard_alone text)) tokens.old) result tokens.new }
{
    tokens.expect(TokenKind::Define)?;
    guard_alone(reader, tokens)
}

// `:= operand.(type)` behind a name, or nothing.
#[tactic(auto, unfolding(gno_reader::proofs::Shown::reading, gno_rules::specs::Statements::behind_tag))]
fn behind_name<R: Reader>(reader: &R, tokens: &mut Cursor<'_>, name: Name) -> Result<Tag, Failure>
    requires { R.nests reader.now }
    ensures { Gives (reads (R.scope reader.now) (λ text. spec.behind_tag text (f.Name name)) tokens.old) result tokens.new }
{
    if tokens.sees(TokenKind::Define) {
        let operand = defined_guard(reader, tokens)?;
        let found = operand.into_found(reader.alloc())?;
        return Ok(tag_of(found, Some(name)));
    }
    Ok(Tag::Expr(Expr::Name(name)))
}

// What stands behind an expression that a `switch` may choose by.
#[tactic(auto, unfolding(gno_reader::proofs::Shown::reading, gno_rules::specs::Statements::behind_tag))]
fn behind_tag<R: Reader>(reader: &R, tokens: &mut Cursor<'_>, found: Found) -> Result<Tag, Failure>
    requires { R.nests reader.now }
    ensures { Gives (reads (R.scope reader.now) (λ text. spec.behind_tag text found) tokens.old) result tokens.new }
{
    match found {
        Found::Name(name) => behind_name(reader, tokens, name),
        Found::Expr { expr, .. } => Ok(Tag::Expr(expr)),
        Found::Guard { of, pos } => Ok(Tag::Guard(Guard {
            name: None,
            of,
            pos,
        })),
    }
}

// An expression, or a guard.
#[tactic(auto, unfolding(gno_reader::proofs::Shown::reading, gno_rules::specs::Statements::tag))]
fn tag<R: ExprReader>(reader: &R, tokens: &mut Cursor<'_>) -> Result<Tag, Failure>
    requires { R.nests reader.now }
    ensures { Gives (reads (R.scope reader.now) spec.tag tokens.old) result tokens.new }
{
    let found = reader.expr(tokens, Place::Guard)?;
    behind_tag(reader, tokens, found)
}

// `;`, and an expression or a guard if one stands there.
#[tactic(auto, unfolding(gno_reader::proofs::Shown::reading), using(crate::proofs::Firsts::tag_begins))]
fn behind_semicolon<R: ExprReader>(
    reader: &R,
    tokens: &mut Cursor<'_>,
) -> Result<Option<Tag>, Failure>
    requires { R.nests reader.now }
    ensures { Gives (reads (R.scope reader.now) (λ text. past (a k.Semicolon) (optional (spec.tag text))) tokens.old) result tokens.new }
{
    tokens.expect(TokenKind::Semicolon)?;
    if begins_expr(tokens) {
        return Ok(Some(tag(reader, tokens)?));
    }
    Ok(None)
}

// `;` and what stands behind it, behind a statement or nothing.
#[tactic(auto, unfolding(gno_reader::proofs::Shown::reading, gno_rules::specs::Statements::tag_behind))]
fn tag_behind<R: ExprReader>(
    reader: &R,
    tokens: &mut Cursor<'_>,
    before: Option<Simple>,
) -> Result<SwitchHeader, Failure>
    requires { R.nests reader.now }
    ensures { Gives (reads (R.scope reader.now) (λ text. spec.tag_behind text before) tokens.old) result tokens.new }
{
    let tag = behind_semicolon(reader, tokens)?;
    Ok(SwitchHeader {
        before,
        subject: subject_of(tag),
    })
}

// `;` and what stands behind it, behind an expression, or nothing: then the expression is what the `switch` chooses by.
#[tactic(auto, unfolding(gno_reader::proofs::Shown::reading, gno_rules::specs::Statements::tag_behind))]
fn behind_expr<R: ExprReader>(
    reader: &R,
    tokens: &mut Cursor<'_>,
    expr: Expr,
) -> Result<SwitchHeader, Failure>
    requires { R.nests reader.now }
    ensures { Gives (reads (R.scope reader.now)
        (λ text. either (spec.tag_behind text (Some (simple.Expr expr))) (nothing (spec.switch_header None (subject.Expr expr)))) tokens.old) result tokens.new }
{
    if tokens.sees(TokenKind::Semicolon) {
        return tag_behind(reader, tokens, Some(Simple::Expr(expr)));
    }
    Ok(SwitchHeader {
        before: None,
        subject: Subject::Expr(expr),
    })
}

// What stands behind what may be a simple statement.
#[tactic(auto, unfolding(gno_reader::proofs::Shown::reading, gno_rules::specs::Statements::behind_switch))]
fn behind_switch<R: ExprReader>(
    reader: &R,
    tokens: &mut Cursor<'_>,
    read: SimpleRead,
) -> Result<SwitchHeader, Failure>
    requires { R.nests reader.now }
    ensures { Gives (reads (R.scope reader.now) (λ text. spec.behind_switch text read) tokens.old) result tokens.new }
{
    match read {
        SimpleRead::Name(name) => behind_expr(reader, tokens, Expr::Name(name)),
        SimpleRead::Expr(expr) => behind_expr(reader, tokens, expr),
        SimpleRead::Simple(simple) => tag_behind(reader, tokens, Some(simple)),
        SimpleRead::Guard(guard) => Ok(SwitchHeader {
            before: None,
            subject: Subject::Guard(guard),
        }),
        SimpleRead::Range { .. } => tag_behind(reader, tokens, None),
    }
}

// `subject`, `before; subject`, `; subject`, where the subject may be left out behind the `;`.
#[tactic(auto, unfolding(gno_reader::proofs::Shown::reading, gno_rules::specs::Statements::switch_head, gno_rules::specs::Statements::tag_behind))]
fn switch_head<R: SimpleReader>(
    reader: &R,
    tokens: &mut Cursor<'_>,
) -> Result<SwitchHeader, Failure>
    requires { R.nests reader.now }
    ensures { Gives (reads (R.scope reader.now) spec.switch_head tokens.old) result tokens.new }
{
    if tokens.sees(TokenKind::Semicolon) {
        return tag_behind(reader, tokens, None);
    }
    let read = reader.simple_statements(tokens, Kind::Switch)?;
    behind_switch(reader, tokens, read)
}

/// The header of a `switch`, which may be left out.
#[tactic(auto, unfolding(gno_reader::proofs::Shown::reading), using(crate::proofs::Firsts::switch_head_begins))]
pub fn switch_header<R: SimpleReader>(
    reader: &R,
    tokens: &mut Cursor<'_>,
) -> Result<SwitchHeader, Failure>
    requires { R.nests reader.now }
    ensures { Gives (reads (R.scope reader.now) (λ text. either (spec.switch_head text) (nothing (spec.no_head text))) tokens.old) result tokens.new }
{
    if begins_switch_header(tokens) {
        return switch_head(reader, tokens);
    }
    Ok(SwitchHeader {
        before: None,
        subject: Subject::Nothing,
    })
}
