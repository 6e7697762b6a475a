// What stands behind the expressions that a simple statement begins with.
ghost use Rattle.std.specs.Prelude.{◌≡◌, []};
ghost use Rattle.gno_grammar.specs.Phrases.{both};
ghost use Rattle.gno_grammar.specs.Readers.{map, begins, first};
ghost use Rattle.gno_reader.specs.Answers.{Gives};
ghost use Rattle.gno_reader.specs.Scope.{reads};
ghost use Rattle.gno_rules.specs.Expressions as expressions;
ghost use Rattle.gno_rules.specs.Kinds.{code};
ghost use Rattle.gno_rules.specs.Parts.{a, any};
ghost use Rattle.gno_rules.specs.Statements as spec;
ghost use Rattle.gno_rules.specs.Table.{grammar};
ghost use Rattle.gno_rules.specs.declared.statement.Kind.TheVariants as kind;
ghost use Rattle.gno_rules.specs.declared.statement.Tail.TheVariants as tail;
ghost use Rattle.gno_scan.specs.declared.kind.TokenKind.TheVariants as k;
ghost use Rattle.gno_simple.specs.Lefts.{left};
ghost use Rattle.gno_tree.specs.declared.operator.AssignOperator.TheVariants as assign;

use crate::left::Left;
use crate::operator::{assign_operator, place_of, step_operator};
use crate::simple_value::defined;
use gno_base::List;
use gno_reader::phrase::range_of;
use gno_reader::{Cursor, Failure, ListReader, Reader};
use gno_rules::{Kind, Place, Tail};
use gno_scan::{Pos, TokenKind};
use gno_tree::{AssignOperator, Expr};

// `= right`
fn assigned_to(pos: Pos, right: List<Expr>) -> Tail
    ensures { result ≡ tail.Assign pos assign.Assign right }
{
    Tail::Assign {
        pos,
        operator: AssignOperator::Assign,
        right,
    }
}

// What stands behind `=`: values, and in the header of a `for` perhaps `range expression`.
#[tactic(auto, unfolding(gno_reader::proofs::Shown::reading, gno_rules::specs::Statements::assigned, gno_rules::specs::Statements::range_of))]
fn assigned<R: ListReader>(
    reader: &R,
    tokens: &mut Cursor<'_>,
    place: Kind,
    pos: Pos,
) -> Result<Tail, Failure>
    requires { R.nests reader.now }
    ensures { Gives (map (λ f. f pos) (reads (R.scope reader.now) (λ text. spec.assigned text place)) tokens.old) result tokens.new }
{
    match place {
        Kind::Body => Ok(assigned_to(pos, reader.values(tokens, Place::Plain)?)),
        Kind::Header | Kind::Switch => Ok(assigned_to(pos, reader.values(tokens, Place::Header)?)),
        Kind::For => {
            if tokens.sees(TokenKind::Range) {
                return Ok(Tail::RangeAssign {
                    of: range_of(reader, tokens)?,
                });
            }
            Ok(assigned_to(pos, reader.values(tokens, Place::Header)?))
        }
    }
}

// Whether an operator comes next that assigns.
#[tactic(auto, unfolding(gno_reader::proofs::Shown::reading, gno_rules::specs::Statements::assign_tail))]
fn begins_assign(tokens: &Cursor<'_>) -> bool
    ensures { result ≡ begins code (first (grammar []) (spec.assign_tail [] kind.Body)) tokens.now }
{
    tokens.sees_any(&[
        TokenKind::Assign,
        TokenKind::PlusAssign,
        TokenKind::MinusAssign,
        TokenKind::StarAssign,
        TokenKind::SlashAssign,
        TokenKind::PercentAssign,
        TokenKind::AndAssign,
        TokenKind::OrAssign,
        TokenKind::CaretAssign,
        TokenKind::ShiftLeftAssign,
        TokenKind::ShiftRightAssign,
        TokenKind::AndNotAssign,
    ])
}

// `operator= values`
#[tactic(auto, unfolding(gno_reader::proofs::Shown::reading))]
fn operated<R: ListReader>(
    reader: &R,
    tokens: &mut Cursor<'_>,
    place: Place,
) -> Result<Tail, Failure>
    requires { R.nests reader.now }
    ensures { Gives (reads (R.scope reader.now)
        (λ text. both (λ t right. tail.Assign t.pos (spec.assign_operator t.kind) right) (any spec.ASSIGN_OPERATORS) (expressions.values text place)) tokens.old) result tokens.new }
{
    let token = tokens.expect_any(&[
        TokenKind::PlusAssign,
        TokenKind::MinusAssign,
        TokenKind::StarAssign,
        TokenKind::SlashAssign,
        TokenKind::PercentAssign,
        TokenKind::AndAssign,
        TokenKind::OrAssign,
        TokenKind::CaretAssign,
        TokenKind::ShiftLeftAssign,
        TokenKind::ShiftRightAssign,
        TokenKind::AndNotAssign,
    ])?;
    let right = reader.values(tokens, place)?;
    Ok(Tail::Assign {
        pos: token.pos,
        operator: assign_operator(token.kind),
        right,
    })
}

// An operator that assigns, and what stands behind it.
#[tactic(auto, unfolding(gno_reader::proofs::Shown::reading, gno_rules::specs::Statements::assign_tail))]
fn assign_tail<R: ListReader>(
    reader: &R,
    tokens: &mut Cursor<'_>,
    place: Kind,
) -> Result<Tail, Failure>
    requires { R.nests reader.now }
    ensures { Gives (reads (R.scope reader.now) (λ text. spec.assign_tail text place) tokens.old) result tokens.new }
{
    if tokens.sees(TokenKind::Assign) {
        let token = tokens.expect(TokenKind::Assign)?;
        return assigned(reader, tokens, place, token.pos);
    }
    operated(reader, tokens, place_of(place))
}

// `:= values`
#[tactic(auto, unfolding(gno_reader::proofs::Shown::reading))]
fn define<R: ListReader>(reader: &R, tokens: &mut Cursor<'_>, place: Place) -> Result<Tail, Failure>
    requires { R.nests reader.now }
    ensures { Gives (reads (R.scope reader.now) (λ text. both (λ t values. tail.Define t.pos values) (a k.Define) (expressions.values text place)) tokens.old) result tokens.new }
{
    let token = tokens.expect(TokenKind::Define)?;
    let values = reader.values(tokens, place)?;
    Ok(Tail::Define {
        pos: token.pos,
        values,
    })
}

// `:= values`, `:= range expression`
#[tactic(auto, unfolding(gno_reader::proofs::Shown::reading, gno_rules::specs::Statements::define_tail, gno_rules::specs::Statements::range_of))]
fn define_or_range<R: ListReader>(reader: &R, tokens: &mut Cursor<'_>) -> Result<Tail, Failure>
    requires { R.nests reader.now }
    ensures { Gives (reads (R.scope reader.now) (λ text. spec.define_tail text kind.For) tokens.old) result tokens.new }
{
    let token = tokens.expect(TokenKind::Define)?;
    if tokens.sees(TokenKind::Range) {
        return Ok(Tail::RangeDefine {
            of: range_of(reader, tokens)?,
        });
    }
    let values = reader.values(tokens, Place::Header)?;
    Ok(Tail::Define {
        pos: token.pos,
        values,
    })
}

// `:=`, and what stands behind it behind several names.
#[tactic(auto, unfolding(gno_reader::proofs::Shown::reading, gno_rules::specs::Statements::define_tail))]
fn define_tail<R: ListReader>(
    reader: &R,
    tokens: &mut Cursor<'_>,
    place: Kind,
) -> Result<Tail, Failure>
    requires { R.nests reader.now }
    ensures { Gives (reads (R.scope reader.now) (λ text. spec.define_tail text place) tokens.old) result tokens.new }
{
    match place {
        Kind::For => define_or_range(reader, tokens),
        Kind::Body => define(reader, tokens, Place::Plain),
        Kind::Header | Kind::Switch => define(reader, tokens, Place::Header),
    }
}

// `:= values`, `:= operand.(type)`
#[tactic(auto, unfolding(gno_reader::proofs::Shown::reading, gno_rules::specs::Statements::define_one))]
fn define_or_guard<R: ListReader>(reader: &R, tokens: &mut Cursor<'_>) -> Result<Tail, Failure>
    requires { R.nests reader.now }
    ensures { Gives (reads (R.scope reader.now) (λ text. spec.define_one text kind.Switch) tokens.old) result tokens.new }
{
    let token = tokens.expect(TokenKind::Define)?;
    let values = reader.exprs(tokens, Place::Guard)?;
    Ok(defined(reader.alloc(), values, token.pos)?)
}

// `:=`, and what stands behind it behind one name.
#[tactic(auto, unfolding(gno_reader::proofs::Shown::reading, gno_rules::specs::Statements::define_one))]
fn define_one<R: ListReader>(
    reader: &R,
    tokens: &mut Cursor<'_>,
    place: Kind,
) -> Result<Tail, Failure>
    requires { R.nests reader.now }
    ensures { Gives (reads (R.scope reader.now) (λ text. spec.define_one text place) tokens.old) result tokens.new }
{
    match place {
        Kind::Switch => define_or_guard(reader, tokens),
        Kind::For | Kind::Body | Kind::Header => define_tail(reader, tokens, place),
    }
}

// Whether `++` or `--` comes next.
#[tactic(auto, unfolding(gno_reader::proofs::Shown::reading, gno_rules::specs::Statements::step_tail))]
fn begins_step(tokens: &Cursor<'_>) -> bool
    ensures { result ≡ begins code (first (grammar []) (spec.step_tail [])) tokens.now }
{
    tokens.sees_any(&[TokenKind::Increment, TokenKind::Decrement])
}

// `++`, `--`
#[tactic(auto, unfolding(gno_reader::proofs::Shown::reading, gno_rules::specs::Statements::step_tail))]
fn step_tail<R: Reader>(reader: &R, tokens: &mut Cursor<'_>) -> Result<Tail, Failure>
    ensures { Gives (reads (R.scope reader.now) spec.step_tail tokens.old) result tokens.new }
{
    let token = tokens.expect_any(&[TokenKind::Increment, TokenKind::Decrement])?;
    Ok(Tail::Step {
        pos: token.pos,
        operator: step_operator(token.kind),
    })
}

// What stands behind one name.
#[tactic(auto, unfolding(gno_reader::proofs::Shown::reading, gno_rules::specs::Statements::simple_tail, gno_rules::specs::Statements::step_tail, gno_rules::specs::Statements::assign_tail), using(crate::proofs::Firsts::first_define_one))]
fn behind_name<R: ListReader>(
    reader: &R,
    tokens: &mut Cursor<'_>,
    place: Kind,
) -> Result<Tail, Failure>
    requires { R.nests reader.now }
    ensures { Gives (reads (R.scope reader.now) (λ text. spec.simple_tail text place spec.one_name) tokens.old) result tokens.new }
{
    if begins_step(tokens) {
        return step_tail(reader, tokens);
    }
    if begins_assign(tokens) {
        return assign_tail(reader, tokens, place);
    }
    if tokens.sees(TokenKind::Define) {
        return define_one(reader, tokens, place);
    }
    Ok(Tail::Nothing)
}

// What stands behind an expression that is no name.
#[tactic(auto, unfolding(gno_reader::proofs::Shown::reading, gno_rules::specs::Statements::simple_tail, gno_rules::specs::Statements::step_tail, gno_rules::specs::Statements::assign_tail))]
fn behind_expr<R: ListReader>(
    reader: &R,
    tokens: &mut Cursor<'_>,
    place: Kind,
) -> Result<Tail, Failure>
    requires { R.nests reader.now }
    ensures { Gives (reads (R.scope reader.now) (λ text. spec.simple_tail text place spec.one_expr) tokens.old) result tokens.new }
{
    if begins_step(tokens) {
        return step_tail(reader, tokens);
    }
    if begins_assign(tokens) {
        return assign_tail(reader, tokens, place);
    }
    Ok(Tail::Nothing)
}

// What stands behind several names.
#[tactic(auto, unfolding(gno_reader::proofs::Shown::reading, gno_rules::specs::Statements::simple_tail, gno_rules::specs::Statements::assign_tail))]
fn behind_names<R: ListReader>(
    reader: &R,
    tokens: &mut Cursor<'_>,
    place: Kind,
) -> Result<Tail, Failure>
    requires { R.nests reader.now }
    ensures { Gives (reads (R.scope reader.now) (λ text. spec.simple_tail text place spec.many_names) tokens.old) result tokens.new }
{
    if begins_assign(tokens) {
        return assign_tail(reader, tokens, place);
    }
    define_tail(reader, tokens, place)
}

/// What stands behind the expressions that a simple statement begins with.
#[tactic(auto, unfolding(gno_reader::proofs::Shown::reading, gno_rules::specs::Statements::simple_tail))]
pub fn simple_tail<R: ListReader>(
    reader: &R,
    tokens: &mut Cursor<'_>,
    place: Kind,
    behind: Left,
) -> Result<Tail, Failure>
    requires { R.nests reader.now }
    ensures { Gives (reads (R.scope reader.now) (λ text. spec.simple_tail text place (left behind)) tokens.old) result tokens.new }
{
    match behind {
        Left::OneName => behind_name(reader, tokens, place),
        Left::OneExpr => behind_expr(reader, tokens, place),
        Left::OneGuard => Ok(Tail::Nothing),
        Left::ManyNames => behind_names(reader, tokens, place),
        Left::ManyExprs => assign_tail(reader, tokens, place),
    }
}
