// Statements behind their labels.
ghost use Rattle.std.specs.Prelude.{◌≡◌, ◌&&◌, []};
ghost use Rattle.gno_grammar.specs.Phrases.{optional};
ghost use Rattle.gno_grammar.specs.Readers.{map, begins, first};
ghost use Rattle.gno_reader.specs.Answers.{Gives};
ghost use Rattle.gno_reader.specs.Scope.{reads};
ghost use Rattle.gno_rules.specs.Kinds.{code};
ghost use Rattle.gno_rules.specs.Parts.{a, past, to};
ghost use Rattle.gno_rules.specs.Statements as spec;
ghost use Rattle.gno_rules.specs.Table.{grammar};
ghost use Rattle.gno_scan.specs.declared.kind.TokenKind.TheVariants as k;

use crate::begins::{begins_keyword_statement, begins_statement};
use crate::keyword::keyword_statement;
use crate::list_value::{labeled_statement, labels_with, may_be_label, simple_statement};
use gno_base::List;
use gno_reader::{Cursor, Failure, SimpleReader};
use gno_rules::{Kind, Labeled, Read};
use gno_scan::TokenKind;
use gno_tree::Statement;

// A statement without a label.
#[tactic(auto, unfolding(gno_reader::proofs::Shown::reading, gno_rules::specs::Statements::unlabeled), using(crate::proofs::Firsts::keyword_statement_begins))]
fn unlabeled<R: SimpleReader>(reader: &R, tokens: &mut Cursor<'_>) -> Result<Read, Failure>
    requires { R.nests reader.now }
    ensures { Gives (reads (R.scope reader.now) spec.unlabeled tokens.old) result tokens.new }
{
    if begins_keyword_statement(tokens) {
        return Ok(Read::Statement(keyword_statement(reader, tokens)?));
    }
    let read = reader.simple_statements(tokens, Kind::Body)?;
    Ok(simple_statement(read))
}

// `:`, and a statement if one stands there.
#[tactic(auto, unfolding(gno_reader::proofs::Shown::reading), using(crate::proofs::Firsts::unlabeled_begins))]
fn behind_colon<R: SimpleReader>(
    reader: &R,
    tokens: &mut Cursor<'_>,
) -> Result<Option<Read>, Failure>
    requires { R.nests reader.now }
    ensures { Gives (reads (R.scope reader.now) (λ text. past (a k.Colon) (optional (spec.unlabeled text))) tokens.old) result tokens.new }
{
    tokens.expect(TokenKind::Colon)?;
    if begins_statement(tokens) {
        return Ok(Some(unlabeled(reader, tokens)?));
    }
    Ok(None)
}

// The labels with one more, and what stands behind it.
#[tactic(auto, unfolding(gno_reader::proofs::Shown::reading))]
fn next_label<R: SimpleReader>(
    reader: &R,
    tokens: &mut Cursor<'_>,
    labeled: Labeled,
) -> Result<Labeled, Failure>
    requires { R.nests reader.now }
    ensures { Gives (map (spec.with_label labeled) (reads (R.scope reader.now) (λ text. past (a k.Colon) (optional (spec.unlabeled text)))) tokens.old) result tokens.new }
{
    let labels = labels_with(labeled)?;
    let last = behind_colon(reader, tokens)?;
    Ok(Labeled { labels, last })
}

// Whether what stands last is a label.
#[tactic(auto, unfolding(gno_reader::proofs::Shown::reading))]
fn goes_on(labeled: &Labeled, tokens: &Cursor<'_>) -> bool
    ensures { result ≡ (spec.may_be_label labeled.now.last && begins code (first (grammar []) (past (a k.Colon) (optional (spec.unlabeled [])))) tokens.now) }
{
    may_be_label(&labeled.last) && tokens.sees(TokenKind::Colon)
}

// A statement, before a label is seen.
#[tactic(auto, unfolding(gno_reader::proofs::Shown::reading))]
fn no_labels<R: SimpleReader>(reader: &R, tokens: &mut Cursor<'_>) -> Result<Labeled, Failure>
    requires { R.nests reader.now }
    ensures { Gives (reads (R.scope reader.now) (λ text. to spec.no_labels (spec.unlabeled text)) tokens.old) result tokens.new }
{
    let read = unlabeled(reader, tokens)?;
    Ok(Labeled {
        labels: List::new(reader.alloc()),
        last: Some(read),
    })
}

// Any number of labels, and the statement behind them.
#[tactic(auto, unfolding(gno_reader::proofs::Shown::reading, gno_rules::specs::Statements::labeled))]
fn labeled<R: SimpleReader>(reader: &R, tokens: &mut Cursor<'_>) -> Result<Labeled, Failure>
    requires { R.nests reader.now }
    ensures { Gives (reads (R.scope reader.now) spec.labeled tokens.old) result tokens.new }
{
    let mut labeled = no_labels(reader, tokens)?;
    while goes_on(&labeled, tokens) {
        labeled = next_label(reader, tokens, labeled)?;
    }
    Ok(labeled)
}

/// A statement.
#[tactic(auto, unfolding(gno_reader::proofs::Shown::reading, gno_rules::specs::Statements::statement))]
pub fn statement<R: SimpleReader>(reader: &R, tokens: &mut Cursor<'_>) -> Result<Statement, Failure>
    requires { R.nests reader.now }
    ensures { Gives (reads (R.scope reader.now) spec.statement tokens.old) result tokens.new }
{
    let labeled = labeled(reader, tokens)?;
    Ok(labeled_statement(reader.alloc(), labeled)?)
}
