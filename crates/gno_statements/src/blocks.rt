// Lists of statements, and blocks.
ghost use Rattle.std.specs.Prelude.{◌≡◌};
ghost use Rattle.gno_grammar.specs.Phrases.{optional};
ghost use Rattle.gno_grammar.specs.Readers.{map};
ghost use Rattle.gno_reader.specs.Answers.{Gives};
ghost use Rattle.gno_reader.specs.Scope.{reads};
ghost use Rattle.gno_rules.specs.Parts.{to};
ghost use Rattle.gno_rules.specs.Statements as spec;

use crate::begins::begins_statement;
use crate::labeled::statement;
use crate::list_value::{all_statements, done_with};
use gno_base::List;
use gno_reader::{Cursor, Failure, SimpleReader};
use gno_rules::Statements;
use gno_scan::TokenKind;
use gno_tree::{Block, Statement};

// A statement, or nothing.
#[tactic(auto, unfolding(gno_reader::proofs::Shown::reading), using(crate::proofs::Firsts::statement_begins))]
fn perhaps_statement<R: SimpleReader>(
    reader: &R,
    tokens: &mut Cursor<'_>,
) -> Result<Option<Statement>, Failure>
    requires { R.nests reader.now }
    ensures { Gives (reads (R.scope reader.now) (λ text. optional (spec.statement text)) tokens.old) result tokens.new }
{
    if begins_statement(tokens) {
        return Ok(Some(statement(reader, tokens)?));
    }
    Ok(None)
}

// The statements with one more, or with a `;` alone.
#[tactic(auto, unfolding(gno_reader::proofs::Shown::reading, gno_rules::specs::Statements::next_statement))]
fn next_statement<R: SimpleReader>(
    reader: &R,
    tokens: &mut Cursor<'_>,
    list: Statements,
) -> Result<Statements, Failure>
    requires { R.nests reader.now }
    ensures { Gives (map (spec.with_statement list) (reads (R.scope reader.now) spec.next_statement) tokens.old) result tokens.new }
{
    let semicolon = tokens.expect(TokenKind::Semicolon)?;
    let done = done_with(list, semicolon)?;
    let last = perhaps_statement(reader, tokens)?;
    Ok(Statements { done, last })
}

// What stands before the first `;`.
#[tactic(auto, unfolding(gno_reader::proofs::Shown::reading))]
fn first_statement<R: SimpleReader>(
    reader: &R,
    tokens: &mut Cursor<'_>,
) -> Result<Statements, Failure>
    requires { R.nests reader.now }
    ensures { Gives (reads (R.scope reader.now) (λ text. to spec.first_statement (optional (spec.statement text))) tokens.old) result tokens.new }
{
    let last = perhaps_statement(reader, tokens)?;
    Ok(Statements {
        done: List::new(reader.alloc()),
        last,
    })
}

/// Any number of statements, with a `;` behind each but perhaps the last.
#[tactic(auto, unfolding(gno_reader::proofs::Shown::reading, gno_rules::specs::Statements::statements))]
pub fn statements<R: SimpleReader>(
    reader: &R,
    tokens: &mut Cursor<'_>,
) -> Result<Statements, Failure>
    requires { R.nests reader.now }
    ensures { Gives (reads (R.scope reader.now) spec.statements tokens.old) result tokens.new }
{
    let mut list = first_statement(reader, tokens)?;
    while tokens.sees(TokenKind::Semicolon) {
        list = next_statement(reader, tokens, list)?;
    }
    Ok(list)
}

/// `{ statements }`
#[tactic(auto, unfolding(gno_reader::proofs::Shown::reading, gno_rules::specs::Statements::block))]
pub fn block<R: SimpleReader>(reader: &R, tokens: &mut Cursor<'_>) -> Result<Block, Failure>
    requires { R.nests reader.now }
    ensures { Gives (reads (R.scope reader.now) spec.block tokens.old) result tokens.new }
{
    let token = tokens.expect(TokenKind::LeftBrace)?;
    let list = statements(reader, tokens)?;
    let statements = all_statements(list)?;
    tokens.expect(TokenKind::RightBrace)?;
    Ok(Block {
        pos: token.pos,
        statements,
    })
}
