// Parts of a tree: what an expression, a type or an operator is in the first form.
ghost use Rattle.std.specs.Prelude.{◌≡◌, IfOk, IsErrOf};
ghost use Rattle.std.specs.Option.{option_copied};
ghost use Rattle.gno_first.specs.Form as form;
ghost use Rattle.gno_first.specs.Options.{only};

use crate::fault::FirstFault;
use crate::tree::FirstOp;
use gno_base::Bytes;
use gno_tree::{BinaryOperator, Expr, Name, Step, TypeExpr};
use std::alloc::Global;

/// A copy of the bytes.
pub fn copied(alloc: Global, bytes: &[u8]) -> Result<Bytes, FirstFault>
    ensures copy { IfOk result (λ copy. copy ≡ bytes.now) }
    ensures memory { IsErrOf result FirstFault.NotFirst → ⊥ }
{
    let Ok(copy) = Bytes::from_slice(alloc, bytes) else {
        return Err(FirstFault::NoMemory);
    };
    Ok(copy)
}

/// What stands alone.
pub fn only<T>(items: &[T]) -> Option<&T>
    ensures { option_copied result ≡ only items.now }
{
    match items {
        [item] => Some(item),
        _ => None,
    }
}

/// The plain name that an expression is.
#[tactic(auto, unfolding(crate::specs::Form::name_of))]
pub fn name_of(expression: &Expr) -> Option<&[u8]>
    ensures { option_copied result ≡ form.name_of expression.now }
{
    match expression {
        Expr::Name(name) => Some(name.text.as_slice()),
        _ => None,
    }
}

/// Whether the expression is the plain name `println`.
pub fn is_println(expression: &Expr) -> bool
    ensures { result ≡ form.is_println expression.now }
{
    match name_of(expression) {
        Some(name) => "println".as_bytes() == name,
        None => false,
    }
}

/// Whether the names are the one word.
pub fn is_word(word: &str, names: &[Name]) -> bool
    ensures { result ≡ form.is_word word.now names.now }
{
    match names {
        [name] => word.as_bytes() == name.text.as_slice(),
        _ => false,
    }
}

/// Whether the type is the word, as a name.
#[tactic(auto, unfolding(crate::specs::Form::is_type))]
pub fn is_type(word: &str, of: &TypeExpr) -> bool
    ensures { result ≡ form.is_type word.now of.now }
{
    match of {
        TypeExpr::Name(name) => {
            name.qualifier.is_none() && word.as_bytes() == name.name.text.as_slice()
        }
        _ => false,
    }
}

/// The one argument of a call.
#[tactic(auto, unfolding(crate::specs::Form::argument_of))]
pub fn argument_of(step: &Step) -> Option<&Expr>
    ensures { option_copied result ≡ form.argument_of step.now }
{
    match step {
        Step::Call {
            arguments,
            spread: false,
            ..
        } => only(arguments.as_slice()),
        _ => None,
    }
}

// "+" | "-" | "*"
pub fn operator_of(operator: BinaryOperator) -> Option<FirstOp>
    ensures { result ≡ form.operator_of operator }
{
    match operator {
        BinaryOperator::Add => Some(FirstOp::Add),
        BinaryOperator::Sub => Some(FirstOp::Sub),
        BinaryOperator::Mul => Some(FirstOp::Mul),
        _ => None,
    }
}
