// `if`.
ghost use Rattle.std.specs.Prelude.{◌≡◌, ◌&&◌, not, [], ◌∷◌, None, Some};
ghost use Rattle.gno_grammar.specs.Phrases.{either, nothing};
ghost use Rattle.gno_grammar.specs.Readers.{map, begins, first};
ghost use Rattle.gno_reader.specs.Answers.{Gives};
ghost use Rattle.gno_reader.specs.Scope.{reads};
ghost use Rattle.gno_rules.specs.Kinds.{code};
ghost use Rattle.gno_rules.specs.Parts.{a, past, to};
ghost use Rattle.gno_rules.specs.Statements as spec;
ghost use Rattle.gno_rules.specs.Table.{grammar};
ghost use Rattle.gno_scan.specs.declared.kind.TokenKind.TheVariants as k;
ghost use Rattle.gno_tree.specs.declared.statement.Simple.TheVariants as simple;

use crate::arms::with_arm;
use gno_base::List;
use gno_reader::phrase::condition;
use gno_reader::{Cursor, ExprReader, Failure, SimpleReader, construct};
use gno_rules::{Header, Kind, Place, SimpleRead};
use gno_scan::TokenKind;
use gno_tree::{Arm, Block, Expr, If, Simple, Statement};

// `; condition`
#[tactic(auto, unfolding(gno_reader::proofs::Shown::reading))]
fn behind_semicolon<R: ExprReader>(reader: &R, tokens: &mut Cursor<'_>) -> Result<Expr, Failure>
    requires { R.nests reader.now }
    ensures { Gives (reads (R.scope reader.now) (λ text. past (a k.Semicolon) (spec.condition text)) tokens.old) result tokens.new }
{
    tokens.expect(TokenKind::Semicolon)?;
    condition(reader, tokens)
}

// `; condition`, behind nothing.
#[tactic(auto, unfolding(gno_reader::proofs::Shown::reading))]
fn behind_nothing<R: ExprReader>(reader: &R, tokens: &mut Cursor<'_>) -> Result<Header, Failure>
    requires { R.nests reader.now }
    ensures { Gives (reads (R.scope reader.now) (λ text. to (spec.header_of None) (past (a k.Semicolon) (spec.condition text))) tokens.old) result tokens.new }
{
    let condition = behind_semicolon(reader, tokens)?;
    Ok(Header {
        before: None,
        condition,
    })
}

// `; condition`, behind a statement.
#[tactic(auto, unfolding(gno_reader::proofs::Shown::reading))]
fn behind_statement<R: ExprReader>(
    reader: &R,
    tokens: &mut Cursor<'_>,
    before: Simple,
) -> Result<Header, Failure>
    requires { R.nests reader.now }
    ensures { Gives (reads (R.scope reader.now) (λ text. to (spec.header_of (Some before)) (past (a k.Semicolon) (spec.condition text))) tokens.old) result tokens.new }
{
    let condition = behind_semicolon(reader, tokens)?;
    Ok(Header {
        before: Some(before),
        condition,
    })
}

// `; condition` behind an expression, or nothing: then the expression is the condition.
#[tactic(auto, unfolding(gno_reader::proofs::Shown::reading))]
fn behind_expr<R: ExprReader>(
    reader: &R,
    tokens: &mut Cursor<'_>,
    expr: Expr,
) -> Result<Header, Failure>
    requires { R.nests reader.now }
    ensures { Gives (reads (R.scope reader.now)
        (λ text. either (to (spec.header_of (Some (simple.Expr expr))) (past (a k.Semicolon) (spec.condition text))) (nothing (spec.header_of None expr))) tokens.old) result tokens.new }
{
    if tokens.sees(TokenKind::Semicolon) {
        return behind_statement(reader, tokens, Simple::Expr(expr));
    }
    Ok(Header {
        before: None,
        condition: expr,
    })
}

// What stands behind what may be a simple statement.
#[tactic(auto, unfolding(gno_reader::proofs::Shown::reading, gno_rules::specs::Statements::behind_simple))]
fn behind_simple<R: ExprReader>(
    reader: &R,
    tokens: &mut Cursor<'_>,
    read: SimpleRead,
) -> Result<Header, Failure>
    requires { R.nests reader.now }
    ensures { Gives (reads (R.scope reader.now) (λ text. spec.behind_simple text read) tokens.old) result tokens.new }
{
    match read {
        SimpleRead::Name(name) => behind_expr(reader, tokens, Expr::Name(name)),
        SimpleRead::Expr(expr) => behind_expr(reader, tokens, expr),
        SimpleRead::Simple(simple) => behind_statement(reader, tokens, simple),
        SimpleRead::Guard(_) => behind_nothing(reader, tokens),
        SimpleRead::Range { .. } => behind_nothing(reader, tokens),
    }
}

// `condition`, `before; condition`, `; condition`
#[tactic(auto, unfolding(gno_reader::proofs::Shown::reading, gno_rules::specs::Statements::if_header))]
fn if_header<R: SimpleReader>(reader: &R, tokens: &mut Cursor<'_>) -> Result<Header, Failure>
    requires { R.nests reader.now }
    ensures { Gives (reads (R.scope reader.now) spec.if_header tokens.old) result tokens.new }
{
    if tokens.sees(TokenKind::Semicolon) {
        return behind_nothing(reader, tokens);
    }
    let read = reader.simple_statements(tokens, Kind::Header)?;
    behind_simple(reader, tokens, read)
}

// `if header block`
#[tactic(auto, unfolding(gno_reader::proofs::Shown::reading, gno_rules::specs::Statements::if_arm))]
fn if_arm<R: SimpleReader>(reader: &R, tokens: &mut Cursor<'_>) -> Result<Arm, Failure>
    requires { R.nests reader.now }
    ensures { Gives (reads (R.scope reader.now) spec.if_arm tokens.old) result tokens.new }
{
    let token = tokens.expect(TokenKind::If)?;
    let Header { before, condition } = if_header(reader, tokens)?;
    let body = construct::block(reader, tokens)?;
    Ok(Arm {
        pos: token.pos,
        before,
        condition,
        body,
    })
}

// `else if ..`, `else block`
#[tactic(auto, unfolding(gno_reader::proofs::Shown::reading, gno_rules::specs::Statements::alternative, gno_rules::specs::Statements::if_arm))]
fn alternative<R: SimpleReader>(
    reader: &R,
    tokens: &mut Cursor<'_>,
) -> Result<(Option<Arm>, Option<Block>), Failure>
    requires { R.nests reader.now }
    ensures { Gives (reads (R.scope reader.now) spec.alternative tokens.old) result tokens.new }
{
    tokens.expect(TokenKind::Else)?;
    if tokens.sees(TokenKind::If) {
        let arm = if_arm(reader, tokens)?;
        return Ok((Some(arm), None));
    }
    let block = construct::block(reader, tokens)?;
    Ok((None, Some(block)))
}

// The arms with one more, or with the last block.
#[tactic(auto, unfolding(gno_reader::proofs::Shown::reading))]
fn next_arm<R: SimpleReader>(
    reader: &R,
    tokens: &mut Cursor<'_>,
    arms: (List<Arm>, Option<Block>),
) -> Result<(List<Arm>, Option<Block>), Failure>
    requires { R.nests reader.now }
    ensures { Gives (map (spec.with_arm arms) (reads (R.scope reader.now) spec.alternative) tokens.old) result tokens.new }
{
    let next = alternative(reader, tokens)?;
    Ok(with_arm(arms, next)?)
}

// Whether another arm comes, or the last block.
#[tactic(auto, unfolding(gno_reader::proofs::Shown::reading, gno_rules::specs::Statements::alternative))]
fn goes_on(arms: &(List<Arm>, Option<Block>), tokens: &Cursor<'_>) -> bool
    ensures { result ≡ (not (spec.is_some arms.now.1) && begins code (first (grammar []) (spec.alternative [])) tokens.now) }
{
    arms.1.is_none() && tokens.sees(TokenKind::Else)
}

// `if header block`, alone.
#[tactic(auto, unfolding(gno_reader::proofs::Shown::reading))]
fn first_arm<R: SimpleReader>(
    reader: &R,
    tokens: &mut Cursor<'_>,
) -> Result<(List<Arm>, Option<Block>), Failure>
    requires { R.nests reader.now }
    ensures { Gives (reads (R.scope reader.now) (λ text. to (λ arm. (arm ∷ [], None)) (spec.if_arm text)) tokens.old) result tokens.new }
{
    let arm = if_arm(reader, tokens)?;
    let mut arms = List::new(reader.alloc());
    arms.push(arm)?;
    Ok((arms, None))
}

// `if header block else if .. else block`
#[tactic(auto, unfolding(gno_reader::proofs::Shown::reading, gno_rules::specs::Statements::if_arms, gno_rules::specs::Statements::alternative))]
fn if_arms<R: SimpleReader>(
    reader: &R,
    tokens: &mut Cursor<'_>,
) -> Result<(List<Arm>, Option<Block>), Failure>
    requires { R.nests reader.now }
    ensures { Gives (reads (R.scope reader.now) spec.if_arms tokens.old) result tokens.new }
{
    let mut arms = first_arm(reader, tokens)?;
    while goes_on(&arms, tokens) {
        arms = next_arm(reader, tokens, arms)?;
    }
    Ok(arms)
}

/// `if header block else if .. else block`
#[tactic(auto, unfolding(gno_reader::proofs::Shown::reading, gno_rules::specs::Statements::if_statement))]
pub fn if_statement<R: SimpleReader>(
    reader: &R,
    tokens: &mut Cursor<'_>,
) -> Result<Statement, Failure>
    requires { R.nests reader.now }
    ensures { Gives (reads (R.scope reader.now) spec.if_statement tokens.old) result tokens.new }
{
    let (arms, otherwise) = if_arms(reader, tokens)?;
    Ok(Statement::If(If { arms, otherwise }))
}
