// Statements that begin with a keyword, or with `{`.
ghost use Rattle.std.specs.Prelude.{◌≡◌, []};
ghost use Rattle.gno_grammar.specs.Phrases.{either, nothing, optional};
ghost use Rattle.gno_reader.specs.Answers.{Gives};
ghost use Rattle.gno_reader.specs.Scope.{reads};
ghost use Rattle.gno_rules.specs.Expressions as expressions;
ghost use Rattle.gno_rules.specs.Parts as parts;
ghost use Rattle.gno_rules.specs.Statements as spec;
ghost use Rattle.gno_rules.specs.declared.expression.Place.TheVariants.{Plain};

use gno_base::List;
use gno_declarations::{begins_declaration, declaration};
use gno_ifs::if_statement;
use gno_loops::for_statement;
use gno_reader::phrase::plain_expr;
use gno_reader::{
    Cursor, ExprReader, Failure, ListReader, Reader, SimpleReader, begins_expr, construct, name,
};
use gno_rules::Place;
use gno_scan::TokenKind;
use gno_switches::switch_statement;
use gno_tree::{Expr, Name, Statement};

// Values, or nothing.
#[tactic(auto, unfolding(gno_reader::proofs::Shown::reading), using(crate::proofs::Firsts::values_begins))]
fn returned<R: ListReader>(reader: &R, tokens: &mut Cursor<'_>) -> Result<List<Expr>, Failure>
    requires { R.nests reader.now }
    ensures { Gives (reads (R.scope reader.now) (λ text. either (expressions.values text Plain) (nothing [])) tokens.old) result tokens.new }
{
    if begins_expr(tokens) {
        return reader.values(tokens, Place::Plain);
    }
    Ok(List::new(reader.alloc()))
}

// `return values`
#[tactic(auto, unfolding(gno_reader::proofs::Shown::reading, gno_rules::specs::Statements::return_statement))]
fn return_statement<R: ListReader>(
    reader: &R,
    tokens: &mut Cursor<'_>,
) -> Result<Statement, Failure>
    requires { R.nests reader.now }
    ensures { Gives (reads (R.scope reader.now) spec.return_statement tokens.old) result tokens.new }
{
    let token = tokens.expect(TokenKind::Return)?;
    let values = returned(reader, tokens)?;
    Ok(Statement::Return {
        pos: token.pos,
        values,
    })
}

// A name, or nothing.
#[tactic(auto, unfolding(gno_reader::proofs::Shown::reading, gno_rules::specs::Parts::name))]
fn label<R: Reader>(reader: &R, tokens: &mut Cursor<'_>) -> Result<Option<Name>, Failure>
    ensures { Gives (reads (R.scope reader.now) (λ text. optional (parts.name text)) tokens.old) result tokens.new }
{
    if tokens.sees(TokenKind::Name) {
        return Ok(Some(name::name(reader, tokens)?));
    }
    Ok(None)
}

// `break label`
#[tactic(auto, unfolding(gno_reader::proofs::Shown::reading, gno_rules::specs::Statements::break_statement))]
fn break_statement<R: Reader>(reader: &R, tokens: &mut Cursor<'_>) -> Result<Statement, Failure>
    ensures { Gives (reads (R.scope reader.now) spec.break_statement tokens.old) result tokens.new }
{
    let token = tokens.expect(TokenKind::Break)?;
    let label = label(reader, tokens)?;
    Ok(Statement::Break {
        pos: token.pos,
        label,
    })
}

// `continue label`
#[tactic(auto, unfolding(gno_reader::proofs::Shown::reading, gno_rules::specs::Statements::continue_statement))]
fn continue_statement<R: Reader>(reader: &R, tokens: &mut Cursor<'_>) -> Result<Statement, Failure>
    ensures { Gives (reads (R.scope reader.now) spec.continue_statement tokens.old) result tokens.new }
{
    let token = tokens.expect(TokenKind::Continue)?;
    let label = label(reader, tokens)?;
    Ok(Statement::Continue {
        pos: token.pos,
        label,
    })
}

// `fallthrough`
#[tactic(auto, unfolding(gno_reader::proofs::Shown::reading, gno_rules::specs::Statements::fallthrough_statement))]
fn fallthrough_statement<R: Reader>(
    reader: &R,
    tokens: &mut Cursor<'_>,
) -> Result<Statement, Failure>
    ensures { Gives (reads (R.scope reader.now) spec.fallthrough_statement tokens.old) result tokens.new }
{
    let token = tokens.expect(TokenKind::Fallthrough)?;
    Ok(Statement::Fallthrough { pos: token.pos })
}

// `defer call`
#[tactic(auto, unfolding(gno_reader::proofs::Shown::reading, gno_rules::specs::Statements::defer_statement))]
fn defer_statement<R: ExprReader>(reader: &R, tokens: &mut Cursor<'_>) -> Result<Statement, Failure>
    requires { R.nests reader.now }
    ensures { Gives (reads (R.scope reader.now) spec.defer_statement tokens.old) result tokens.new }
{
    let token = tokens.expect(TokenKind::Defer)?;
    let call = plain_expr(reader, tokens)?;
    Ok(Statement::Defer {
        pos: token.pos,
        call,
    })
}

// `return`, `break`, `continue`, `fallthrough`, `defer`
#[tactic(auto, unfolding(gno_reader::proofs::Shown::reading, gno_rules::specs::Statements::return_statement, gno_rules::specs::Statements::break_statement, gno_rules::specs::Statements::continue_statement, gno_rules::specs::Statements::fallthrough_statement))]
fn jump_or_defer<R: ListReader>(reader: &R, tokens: &mut Cursor<'_>) -> Result<Statement, Failure>
    requires { R.nests reader.now }
    ensures { Gives (reads (R.scope reader.now)
        (λ text. either (spec.return_statement text) (either (spec.break_statement text) (either (spec.continue_statement text) (either (spec.fallthrough_statement text) (spec.defer_statement text))))) tokens.old) result tokens.new }
{
    if tokens.sees(TokenKind::Return) {
        return return_statement(reader, tokens);
    }
    if tokens.sees(TokenKind::Break) {
        return break_statement(reader, tokens);
    }
    if tokens.sees(TokenKind::Continue) {
        return continue_statement(reader, tokens);
    }
    if tokens.sees(TokenKind::Fallthrough) {
        return fallthrough_statement(reader, tokens);
    }
    defer_statement(reader, tokens)
}

/// A statement that begins with a keyword, or with `{`.
#[tactic(auto, unfolding(gno_reader::proofs::Shown::reading, gno_rules::specs::Declarations::declaration, gno_rules::specs::Declarations::const_declaration, gno_rules::specs::Declarations::type_declaration, gno_rules::specs::Declarations::var_declaration, gno_rules::specs::Statements::keyword_statement, gno_rules::specs::Statements::if_statement, gno_rules::specs::Statements::if_arms, gno_rules::specs::Statements::if_arm, gno_rules::specs::Statements::switch_statement, gno_rules::specs::Statements::for_statement))]
pub fn keyword_statement<R: SimpleReader>(
    reader: &R,
    tokens: &mut Cursor<'_>,
) -> Result<Statement, Failure>
    requires { R.nests reader.now }
    ensures { Gives (reads (R.scope reader.now) spec.keyword_statement tokens.old) result tokens.new }
{
    if begins_declaration(tokens) {
        let declaration = declaration(reader, tokens)?;
        return Ok(Statement::Declaration(declaration));
    }
    if tokens.sees(TokenKind::LeftBrace) {
        let block = construct::block(reader, tokens)?;
        return Ok(Statement::Block(block));
    }
    if tokens.sees(TokenKind::If) {
        return if_statement(reader, tokens);
    }
    if tokens.sees(TokenKind::Switch) {
        return switch_statement(reader, tokens);
    }
    if tokens.sees(TokenKind::For) {
        return for_statement(reader, tokens);
    }
    jump_or_defer(reader, tokens)
}
