// A statement of a header, of what was read.
ghost use Rattle.std.specs.Prelude.{◌≡◌, []};
ghost use Rattle.gno_rules.specs.Statements as spec;

use gno_rules::SimpleRead;
use gno_tree::{Expr, Guard, Simple};

/// A simple statement of a header.
pub fn simple_of(read: SimpleRead) -> Simple
    ensures { result ≡ spec.simple_of [] read }
{
    match read {
        SimpleRead::Name(name) => Simple::Expr(Expr::Name(name)),
        SimpleRead::Expr(expr) => Simple::Expr(expr),
        SimpleRead::Simple(simple) => simple,
        SimpleRead::Guard(Guard { of, .. }) => Simple::Expr(of),
        SimpleRead::Range { of, .. } => Simple::Expr(of),
    }
}
