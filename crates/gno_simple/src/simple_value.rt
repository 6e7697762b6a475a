// Simple statements of what was read.
ghost use Rattle.std.specs.Prelude.{◌≡◌, IfOk, [], ◌∷◌, ◌++◌};
ghost use Rattle.gno_rules.specs.Statements as spec;
ghost use Rattle.gno_rules.specs.declared.statement.Tail.TheVariants as tail;

use gno_base::List;
use gno_rules::{Exprs, Found, SimpleRead, Tail};
use gno_scan::Pos;
use gno_tree::{AssignOperator, Expr, Guard, Name, RangeLeft, Simple};
use std::alloc::{AllocError, Global};

// The names with one more, if it is one.
fn with_name(names: List<Name>, found: Found) -> Result<List<Name>, AllocError>
    ensures { IfOk result (λ all. all ≡ names ++ spec.names_of (found ∷ [])) }
{
    let mut names = names;
    match found {
        Found::Name(name) => {
            names.push(name)?;
            Ok(names)
        }
        Found::Expr { .. } | Found::Guard { .. } => Ok(names),
    }
}

/// The expressions that are names.
fn all_names(alloc: Global, exprs: Exprs) -> Result<List<Name>, AllocError>
    ensures { IfOk result (λ names. names ≡ spec.all_names exprs) }
{
    let Exprs { first, rest } = exprs;
    let mut names = with_name(List::new(alloc), first)?;
    for found in rest.into_vec() {
        names = with_name(names, found)?;
    }
    Ok(names)
}

// One expression.
fn alone(found: Found) -> SimpleRead
    ensures { result ≡ spec.alone found }
{
    match found {
        Found::Name(name) => SimpleRead::Name(name),
        Found::Expr { expr, .. } => SimpleRead::Expr(expr),
        Found::Guard { of, pos } => SimpleRead::Guard(Guard {
            name: None,
            of,
            pos,
        }),
    }
}

// The name that a guard is bound to.
fn guard_name(found: Found) -> Option<Name>
    ensures { result ≡ spec.guard_name found }
{
    match found {
        Found::Name(name) => Some(name),
        Found::Expr { .. } | Found::Guard { .. } => None,
    }
}

// `left operator right`
fn assignment(
    alloc: Global,
    left: Exprs,
    pos: Pos,
    operator: AssignOperator,
    right: List<Expr>,
) -> Result<SimpleRead, AllocError>
    ensures { IfOk result (λ read. read ≡ spec.simple_read left (tail.Assign pos operator right)) }
{
    let left = left.into_list(alloc)?;
    Ok(SimpleRead::Simple(Simple::Assign {
        left,
        pos,
        operator,
        right,
    }))
}

// `left := values`
fn definition(
    alloc: Global,
    left: Exprs,
    pos: Pos,
    values: List<Expr>,
) -> Result<SimpleRead, AllocError>
    ensures { IfOk result (λ read. read ≡ spec.simple_read left (tail.Define pos values)) }
{
    let names = all_names(alloc, left)?;
    Ok(SimpleRead::Simple(Simple::Define { names, pos, values }))
}

/// The expressions with what stands behind them.
pub fn simple_read(alloc: Global, left: Exprs, tail: Tail) -> Result<SimpleRead, AllocError>
    ensures { IfOk result (λ read. read ≡ spec.simple_read left tail) }
{
    match tail {
        Tail::Nothing => Ok(alone(left.first)),
        Tail::Step { pos, operator } => Ok(SimpleRead::Simple(Simple::Step {
            operand: left.first.into_expr(),
            pos,
            operator,
        })),
        Tail::Assign {
            pos,
            operator,
            right,
        } => assignment(alloc, left, pos, operator, right),
        Tail::Define { pos, values } => definition(alloc, left, pos, values),
        Tail::Guard { of, pos } => Ok(SimpleRead::Guard(Guard {
            name: guard_name(left.first),
            of,
            pos,
        })),
        Tail::RangeAssign { of } => Ok(SimpleRead::Range {
            left: RangeLeft::Assign(left.into_list(alloc)?),
            of,
        }),
        Tail::RangeDefine { of } => Ok(SimpleRead::Range {
            left: RangeLeft::Define(all_names(alloc, left)?),
            of,
        }),
    }
}

/// What stands behind `name`: `:= values`, or `:= operand.(type)`.
pub fn defined(alloc: Global, values: Exprs, pos: Pos) -> Result<Tail, AllocError>
    ensures { IfOk result (λ tail. tail ≡ spec.defined values pos) }
{
    let Exprs { first, rest } = values;
    match first {
        Found::Guard { of, pos } => Ok(Tail::Guard { of, pos }),
        Found::Name(_) | Found::Expr { .. } => Ok(Tail::Define {
            pos,
            values: Exprs { first, rest }.into_list(alloc)?,
        }),
    }
}
