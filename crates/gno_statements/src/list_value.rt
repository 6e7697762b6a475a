// Statements of what was read, and lists of statements, labels and cases with one more.
ghost use Rattle.std.specs.Prelude.{◌≡◌, IfOk, ◌++◌, ◌∷◌, []};
ghost use Rattle.gno_rules.specs.Statements as spec;

use gno_base::{Boxed, List};
use gno_rules::{Cases, Labeled, Read, SimpleRead, Statements};
use gno_scan::Token;
use gno_tree::{Case, Expr, Guard, Name, Simple, Statement};
use std::alloc::{AllocError, Global};

/// Whether a `:` would make it a label.
pub fn may_be_label(last: &Option<Read>) -> bool
    ensures { result ≡ spec.may_be_label last.now }
{
    matches!(last, Some(Read::Name(_)))
}

fn statement_of(read: Read) -> Statement
    ensures { result ≡ spec.statement_of read }
{
    match read {
        Read::Name(name) => Statement::Simple(Simple::Expr(Expr::Name(name))),
        Read::Statement(statement) => statement,
    }
}

/// The labels, where a `:` stands behind the last name.
pub fn labels_with(labeled: Labeled) -> Result<List<Name>, AllocError>
    ensures { IfOk result (λ labels. labels ≡ spec.labels_with labeled.labels labeled.last) }
{
    let Labeled { mut labels, last } = labeled;
    match last {
        Some(Read::Name(name)) => {
            labels.push(name)?;
            Ok(labels)
        }
        Some(Read::Statement(_statement)) => Ok(labels),
        None => Ok(labels),
    }
}

/// The statement behind its labels.
pub fn labeled_statement(alloc: Global, labeled: Labeled) -> Result<Statement, AllocError>
    ensures { IfOk result (λ statement. statement ≡ spec.labeled_statement labeled.labels labeled.last) }
{
    let Labeled { labels, last } = labeled;
    match last {
        None => Ok(Statement::Labeled {
            labels,
            statement: None,
        }),
        Some(read) => {
            let statement = statement_of(read);
            if labels.is_empty() {
                return Ok(statement);
            }
            Ok(Statement::Labeled {
                labels,
                statement: Some(Boxed::new(alloc, statement)?),
            })
        }
    }
}

// What a `;` ends: a statement, or one that is empty.
fn ended(last: Option<Statement>, semicolon: Token) -> Statement
    ensures { result ≡ spec.ended last semicolon }
{
    match last {
        None => Statement::Empty { pos: semicolon.pos },
        Some(statement) => statement,
    }
}

/// The statements behind which a `;` stands, where one stands behind the last one.
pub fn done_with(statements: Statements, semicolon: Token) -> Result<List<Statement>, AllocError>
    ensures { IfOk result (λ done. done ≡ statements.done ++ spec.ended statements.last semicolon ∷ []) }
{
    let Statements { mut done, last } = statements;
    done.push(ended(last, semicolon))?;
    Ok(done)
}

/// All statements.
pub fn all_statements(statements: Statements) -> Result<List<Statement>, AllocError>
    ensures { IfOk result (λ all. all ≡ spec.all_statements statements) }
{
    let Statements { mut done, last } = statements;
    match last {
        None => Ok(done),
        Some(statement) => {
            done.push(statement)?;
            Ok(done)
        }
    }
}

/// No cases.
pub fn no_cases(alloc: Global) -> Cases
    ensures { result ≡ spec.no_cases }
{
    Cases {
        cases: List::new(alloc),
        is_open: false,
    }
}

/// The cases with one more.
pub fn with_case(cases: Cases, case: Case, is_open: bool) -> Result<Cases, AllocError>
    ensures { IfOk result (λ all. all ≡ spec.with_case cases (case, is_open)) }
{
    let Cases { cases: mut all, .. } = cases;
    all.push(case)?;
    Ok(Cases {
        cases: all,
        is_open,
    })
}

/// A simple statement as a statement. A name alone may be a label.
pub fn simple_statement(read: SimpleRead) -> Read
    ensures { result ≡ spec.simple_statement read }
{
    match read {
        SimpleRead::Name(name) => Read::Name(name),
        SimpleRead::Expr(expr) => Read::Statement(Statement::Simple(Simple::Expr(expr))),
        SimpleRead::Simple(simple) => Read::Statement(Statement::Simple(simple)),
        SimpleRead::Guard(Guard { of, .. }) => {
            Read::Statement(Statement::Simple(Simple::Expr(of)))
        }
        SimpleRead::Range { of, .. } => Read::Statement(Statement::Simple(Simple::Expr(of))),
    }
}
