// The cases that a `switch` chooses from.
ghost use Rattle.std.specs.Prelude.{◌≡◌, ◌&&◌, not, []};
ghost use Rattle.gno_grammar.specs.Readers.{map, begins, first};
ghost use Rattle.gno_reader.specs.Answers.{Gives};
ghost use Rattle.gno_reader.specs.Scope.{reads};
ghost use Rattle.gno_rules.specs.Kinds.{code};
ghost use Rattle.gno_rules.specs.Parts.{a, up_to};
ghost use Rattle.gno_rules.specs.Statements as spec;
ghost use Rattle.gno_rules.specs.Table.{grammar};
ghost use Rattle.gno_scan.specs.declared.kind.TokenKind.TheVariants as k;

use crate::blocks::statements;
use crate::list_value::{all_statements, no_cases, with_case};
use gno_base::List;
use gno_reader::{Cursor, Failure, ListReader, SimpleReader};
use gno_rules::{Cases, Place};
use gno_scan::{Pos, TokenKind};
use gno_tree::{Case, Labels};

// `case values`, `default`
#[tactic(auto, unfolding(gno_reader::proofs::Shown::reading, gno_rules::specs::Statements::case_labels))]
fn case_labels<R: ListReader>(reader: &R, tokens: &mut Cursor<'_>) -> Result<(Pos, Labels), Failure>
    requires { R.nests reader.now }
    ensures { Gives (reads (R.scope reader.now) spec.case_labels tokens.old) result tokens.new }
{
    if tokens.sees(TokenKind::Case) {
        let token = tokens.expect(TokenKind::Case)?;
        let values = reader.values(tokens, Place::Plain)?;
        return Ok((token.pos, Labels::Exprs(values)));
    }
    let token = tokens.expect(TokenKind::Default)?;
    Ok((token.pos, Labels::Default))
}

// `case values:`, `default:`
#[tactic(auto, unfolding(gno_reader::proofs::Shown::reading))]
fn case_head<R: ListReader>(reader: &R, tokens: &mut Cursor<'_>) -> Result<(Pos, Labels), Failure>
    requires { R.nests reader.now }
    ensures { Gives (reads (R.scope reader.now) (λ text. up_to (spec.case_labels text) (a k.Colon)) tokens.old) result tokens.new }
{
    let head = case_labels(reader, tokens)?;
    tokens.expect(TokenKind::Colon)?;
    Ok(head)
}

// `case values: statements`, `default: statements`, and whether a statement stands last that no `;` ends.
#[tactic(auto, unfolding(gno_reader::proofs::Shown::reading, gno_rules::specs::Statements::one_case))]
fn one_case<R: SimpleReader>(reader: &R, tokens: &mut Cursor<'_>) -> Result<(Case, bool), Failure>
    requires { R.nests reader.now }
    ensures { Gives (reads (R.scope reader.now) spec.one_case tokens.old) result tokens.new }
{
    let (pos, labels) = case_head(reader, tokens)?;
    let list = statements(reader, tokens)?;
    let is_open = list.last.is_some();
    let statements = all_statements(list)?;
    Ok((
        Case {
            pos,
            labels,
            statements,
        },
        is_open,
    ))
}

// The cases with one more.
#[tactic(auto, unfolding(gno_reader::proofs::Shown::reading))]
fn next_case<R: SimpleReader>(
    reader: &R,
    tokens: &mut Cursor<'_>,
    cases: Cases,
) -> Result<Cases, Failure>
    requires { R.nests reader.now }
    ensures { Gives (map (spec.with_case cases) (reads (R.scope reader.now) spec.one_case) tokens.old) result tokens.new }
{
    let (case, is_open) = one_case(reader, tokens)?;
    Ok(with_case(cases, case, is_open)?)
}

// Whether another case comes.
#[tactic(auto, unfolding(gno_reader::proofs::Shown::reading, gno_rules::specs::Statements::one_case, gno_rules::specs::Statements::case_labels))]
fn goes_on(cases: &Cases, tokens: &Cursor<'_>) -> bool
    ensures { result ≡ (not cases.now.is_open && begins code (first (grammar []) (spec.one_case [])) tokens.now) }
{
    !cases.is_open && tokens.sees_any(&[TokenKind::Case, TokenKind::Default])
}

// Any number of cases.
#[tactic(auto, unfolding(gno_reader::proofs::Shown::reading, gno_rules::specs::Statements::cases))]
fn cases<R: SimpleReader>(reader: &R, tokens: &mut Cursor<'_>) -> Result<Cases, Failure>
    requires { R.nests reader.now }
    ensures { Gives (reads (R.scope reader.now) spec.cases tokens.old) result tokens.new }
{
    let mut cases = no_cases(reader.alloc());
    while goes_on(&cases, tokens) {
        cases = next_case(reader, tokens, cases)?;
    }
    Ok(cases)
}

/// `{ cases }`
#[tactic(auto, unfolding(gno_reader::proofs::Shown::reading, gno_rules::specs::Statements::switch_body))]
pub fn switch_body<R: SimpleReader>(
    reader: &R,
    tokens: &mut Cursor<'_>,
) -> Result<List<Case>, Failure>
    requires { R.nests reader.now }
    ensures { Gives (reads (R.scope reader.now) spec.switch_body tokens.old) result tokens.new }
{
    tokens.expect(TokenKind::LeftBrace)?;
    let cases = cases(reader, tokens)?;
    tokens.expect(TokenKind::RightBrace)?;
    Ok(cases.cases)
}
