// `switch`.
ghost use Rattle.std.specs.Prelude.{◌≡◌};
ghost use Rattle.gno_reader.specs.Answers.{Gives};
ghost use Rattle.gno_reader.specs.Scope.{reads};
ghost use Rattle.gno_rules.specs.Statements as spec;

use crate::switch_header::switch_header;
use gno_reader::{Cursor, Failure, SimpleReader, construct};
use gno_rules::SwitchHeader;
use gno_scan::TokenKind;
use gno_tree::{Statement, Switch};

/// `switch header { cases }`
#[tactic(auto, unfolding(gno_reader::proofs::Shown::reading, gno_rules::specs::Statements::switch_statement))]
pub fn switch_statement<R: SimpleReader>(
    reader: &R,
    tokens: &mut Cursor<'_>,
) -> Result<Statement, Failure>
    requires { R.nests reader.now }
    ensures { Gives (reads (R.scope reader.now) spec.switch_statement tokens.old) result tokens.new }
{
    let token = tokens.expect(TokenKind::Switch)?;
    let SwitchHeader { before, subject } = switch_header(reader, tokens)?;
    let cases = construct::switch_body(reader, tokens)?;
    Ok(Statement::Switch(Switch {
        pos: token.pos,
        before,
        subject,
        cases,
    }))
}
