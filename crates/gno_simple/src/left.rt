// What the expressions are that a simple statement begins with.
ghost use Rattle.std.specs.Prelude.{◌≡◌};
ghost use Rattle.gno_rules.specs.Statements as spec;
ghost use Rattle.gno_simple.specs.Lefts.{left};

use gno_rules::{Exprs, Found};

/// What the expressions are, for what may stand behind them.
#[derive(Clone, Copy, Debug, PartialEq, Eq)]
pub enum Left {
    OneName,
    OneExpr,
    OneGuard,
    ManyNames,
    ManyExprs,
}

/// What these expressions are.
pub fn left_of(exprs: &Exprs) -> Left
    ensures { left result ≡ spec.left_of exprs.now }
{
    let rest = exprs.rest.as_slice();
    match exprs.first {
        Found::Guard { .. } => Left::OneGuard,
        Found::Name(_) => match rest {
            [] => Left::OneName,
            [_, ..] => many(are_names(rest)),
        },
        Found::Expr { .. } => match rest {
            [] => Left::OneExpr,
            [_, ..] => Left::ManyExprs,
        },
    }
}

fn many(are_names: bool) -> Left
    ensures { left result ≡ spec.many are_names }
{
    if are_names {
        Left::ManyNames
    } else {
        Left::ManyExprs
    }
}

// Whether each of these is a name alone.
fn are_names(list: &[Found]) -> bool
    ensures { result ≡ spec.are_names list.now }
{
    for found in list {
        match found {
            Found::Name(_) => {}
            Found::Expr { .. } | Found::Guard { .. } => return false,
        }
    }
    true
}
