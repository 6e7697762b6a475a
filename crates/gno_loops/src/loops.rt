// `for`.
ghost use Rattle.std.specs.Prelude.{◌≡◌, None, Some};
ghost use Rattle.gno_grammar.specs.Phrases.{either, nothing};
ghost use Rattle.gno_reader.specs.Answers.{Gives};
ghost use Rattle.gno_reader.specs.Scope.{reads};
ghost use Rattle.gno_rules.specs.Parts.{a, past, to};
ghost use Rattle.gno_rules.specs.Statements as spec;
ghost use Rattle.gno_rules.specs.declared.statement.Kind.TheVariants as kind;
ghost use Rattle.gno_scan.specs.declared.kind.TokenKind.TheVariants as k;
ghost use Rattle.gno_tree.specs.declared.statement.ForHeader.TheVariants as header;
ghost use Rattle.gno_tree.specs.declared.statement.Simple.TheVariants as simple;

use crate::begins::begins_for_header;
use crate::header_value::simple_of;
use gno_base::Boxed;
use gno_reader::phrase::{condition, range_of};
use gno_reader::{Cursor, ExprReader, Failure, SimpleReader, begins_expr, construct};
use gno_rules::{Kind, SimpleRead};
use gno_scan::TokenKind;
use gno_tree::{Expr, For, ForHeader, RangeLeft, Simple, Statement};

// `;`, and a condition if one stands there.
#[tactic(auto, unfolding(gno_reader::proofs::Shown::reading), using(crate::proofs::Firsts::condition_begins))]
fn turn_condition<R: ExprReader>(
    reader: &R,
    tokens: &mut Cursor<'_>,
) -> Result<Option<Expr>, Failure>
    requires { R.nests reader.now }
    ensures { Gives (reads (R.scope reader.now) (λ text. past (a k.Semicolon) (either (to Some (spec.condition text)) (nothing None))) tokens.old) result tokens.new }
{
    tokens.expect(TokenKind::Semicolon)?;
    if begins_expr(tokens) {
        return Ok(Some(condition(reader, tokens)?));
    }
    Ok(None)
}

// `;`, and a simple statement if one stands there.
#[tactic(auto, unfolding(gno_reader::proofs::Shown::reading), using(crate::proofs::Firsts::simple_begins))]
fn turn_end<R: SimpleReader>(reader: &R, tokens: &mut Cursor<'_>) -> Result<Option<Simple>, Failure>
    requires { R.nests reader.now }
    ensures { Gives (reads (R.scope reader.now)
        (λ text. past (a k.Semicolon) (either (to (λ s. Some (spec.simple_of text s)) (spec.simple_statements text kind.Header)) (nothing None))) tokens.old) result tokens.new }
{
    tokens.expect(TokenKind::Semicolon)?;
    if begins_expr(tokens) {
        let read = reader.simple_statements(tokens, Kind::Header)?;
        return Ok(Some(simple_of(read)));
    }
    Ok(None)
}

// `; condition; after`, behind a statement or nothing.
#[tactic(auto, unfolding(gno_reader::proofs::Shown::reading, gno_rules::specs::Statements::for_clauses))]
fn for_clauses<R: SimpleReader>(
    reader: &R,
    tokens: &mut Cursor<'_>,
    before: Option<Simple>,
) -> Result<ForHeader, Failure>
    requires { R.nests reader.now }
    ensures { Gives (reads (R.scope reader.now) (λ text. spec.for_clauses text before) tokens.old) result tokens.new }
{
    let condition = turn_condition(reader, tokens)?;
    let after = turn_end(reader, tokens)?;
    Ok(ForHeader::Clauses {
        before,
        condition,
        after,
    })
}

// `; condition; after` behind an expression, or nothing: then the expression is the condition.
#[tactic(auto, unfolding(gno_reader::proofs::Shown::reading, gno_rules::specs::Statements::for_clauses))]
fn behind_expr<R: SimpleReader>(
    reader: &R,
    tokens: &mut Cursor<'_>,
    expr: Expr,
) -> Result<ForHeader, Failure>
    requires { R.nests reader.now }
    ensures { Gives (reads (R.scope reader.now) (λ text. either (spec.for_clauses text (Some (simple.Expr expr))) (nothing (header.While expr))) tokens.old) result tokens.new }
{
    if tokens.sees(TokenKind::Semicolon) {
        return for_clauses(reader, tokens, Some(Simple::Expr(expr)));
    }
    Ok(ForHeader::While(expr))
}

// What stands behind what may be a simple statement.
#[tactic(auto, unfolding(gno_reader::proofs::Shown::reading, gno_rules::specs::Statements::behind_for))]
fn behind_for<R: SimpleReader>(
    reader: &R,
    tokens: &mut Cursor<'_>,
    read: SimpleRead,
) -> Result<ForHeader, Failure>
    requires { R.nests reader.now }
    ensures { Gives (reads (R.scope reader.now) (λ text. spec.behind_for text read) tokens.old) result tokens.new }
{
    match read {
        SimpleRead::Name(name) => behind_expr(reader, tokens, Expr::Name(name)),
        SimpleRead::Expr(expr) => behind_expr(reader, tokens, expr),
        SimpleRead::Simple(simple) => for_clauses(reader, tokens, Some(simple)),
        SimpleRead::Guard(_) => for_clauses(reader, tokens, None),
        SimpleRead::Range { left, of } => Ok(ForHeader::Range { left, of }),
    }
}

// `range of`, `; condition; after`, and what may begin with a simple statement.
#[tactic(auto, unfolding(gno_reader::proofs::Shown::reading, gno_rules::specs::Statements::for_header, gno_rules::specs::Statements::range_of, gno_rules::specs::Statements::for_clauses))]
fn some_header<R: SimpleReader>(reader: &R, tokens: &mut Cursor<'_>) -> Result<ForHeader, Failure>
    requires { R.nests reader.now }
    ensures { Gives (reads (R.scope reader.now) spec.for_header tokens.old) result tokens.new }
{
    if tokens.sees(TokenKind::Range) {
        return Ok(ForHeader::Range {
            left: RangeLeft::Nothing,
            of: range_of(reader, tokens)?,
        });
    }
    if tokens.sees(TokenKind::Semicolon) {
        return for_clauses(reader, tokens, None);
    }
    let read = reader.simple_statements(tokens, Kind::For)?;
    behind_for(reader, tokens, read)
}

// The header of a `for`, which may be left out.
#[tactic(auto, unfolding(gno_reader::proofs::Shown::reading), using(crate::proofs::Firsts::for_header_begins))]
fn for_header<R: SimpleReader>(reader: &R, tokens: &mut Cursor<'_>) -> Result<ForHeader, Failure>
    requires { R.nests reader.now }
    ensures { Gives (reads (R.scope reader.now) (λ text. either (spec.for_header text) (nothing header.Forever)) tokens.old) result tokens.new }
{
    if begins_for_header(tokens) {
        return some_header(reader, tokens);
    }
    Ok(ForHeader::Forever)
}

/// `for header block`
#[tactic(auto, unfolding(gno_reader::proofs::Shown::reading, gno_rules::specs::Statements::for_statement))]
pub fn for_statement<R: SimpleReader>(
    reader: &R,
    tokens: &mut Cursor<'_>,
) -> Result<Statement, Failure>
    requires { R.nests reader.now }
    ensures { Gives (reads (R.scope reader.now) spec.for_statement tokens.old) result tokens.new }
{
    let token = tokens.expect(TokenKind::For)?;
    let header = for_header(reader, tokens)?;
    let header = Boxed::new(reader.alloc(), header)?;
    let body = construct::block(reader, tokens)?;
    Ok(Statement::For(For {
        pos: token.pos,
        header: header.into_inner(),
        body,
    }))
}
