// The constructs that nest in what is read, each as what it gives.
ghost use Rattle.gno_reader.specs.Answers.{Gives};
ghost use Rattle.gno_reader.specs.Scope.{nested};
ghost use Rattle.gno_rules.specs.declared.rule.Rule.TheVariants as r;

use crate::{Construct, Cursor, Failure, Reader};
use gno_base::List;
use gno_rules::{Elements, Found, OperandType, Rule, TypeRead};
use gno_tree::{Block, Case, Step};

/// A type.
pub fn type_read<R: Reader>(reader: &R, tokens: &mut Cursor<'_>) -> Result<TypeRead, Failure>
    requires { R.nests reader.now }
    ensures { Gives (nested (R.scope reader.now) r.Type tokens.old) result tokens.new }
{
    match reader.construct(tokens, Rule::Type)? {
        Construct::Type(read) => Ok(read),
        _ => unreachable!(),
    }
}

/// A type that does not begin with a name.
pub fn other_type<R: Reader>(reader: &R, tokens: &mut Cursor<'_>) -> Result<TypeRead, Failure>
    requires { R.nests reader.now }
    ensures { Gives (nested (R.scope reader.now) r.OtherType tokens.old) result tokens.new }
{
    match reader.construct(tokens, Rule::OtherType)? {
        Construct::Type(read) => Ok(read),
        _ => unreachable!(),
    }
}

/// A type that does not begin with a parenthesis.
pub fn result_type<R: Reader>(reader: &R, tokens: &mut Cursor<'_>) -> Result<TypeRead, Failure>
    requires { R.nests reader.now }
    ensures { Gives (nested (R.scope reader.now) r.ResultType tokens.old) result tokens.new }
{
    match reader.construct(tokens, Rule::ResultType)? {
        Construct::Type(read) => Ok(read),
        _ => unreachable!(),
    }
}

/// The type of a declaration.
pub fn declared_type<R: Reader>(reader: &R, tokens: &mut Cursor<'_>) -> Result<TypeRead, Failure>
    requires { R.nests reader.now }
    ensures { Gives (nested (R.scope reader.now) r.DeclaredType tokens.old) result tokens.new }
{
    match reader.construct(tokens, Rule::DeclaredType)? {
        Construct::Type(read) => Ok(read),
        _ => unreachable!(),
    }
}

/// A type that is an operand.
pub fn operand_type<R: Reader>(reader: &R, tokens: &mut Cursor<'_>) -> Result<OperandType, Failure>
    requires { R.nests reader.now }
    ensures { Gives (nested (R.scope reader.now) r.OperandType tokens.old) result tokens.new }
{
    match reader.construct(tokens, Rule::OperandType)? {
        Construct::OperandType(of) => Ok(of),
        _ => unreachable!(),
    }
}

/// A function, or the type of one.
pub fn function<R: Reader>(reader: &R, tokens: &mut Cursor<'_>) -> Result<Found, Failure>
    requires { R.nests reader.now }
    ensures { Gives (nested (R.scope reader.now) r.Function tokens.old) result tokens.new }
{
    match reader.construct(tokens, Rule::Function)? {
        Construct::Expr(found) => Ok(found),
        _ => unreachable!(),
    }
}

/// A function in a header.
pub fn header_function<R: Reader>(reader: &R, tokens: &mut Cursor<'_>) -> Result<Found, Failure>
    requires { R.nests reader.now }
    ensures { Gives (nested (R.scope reader.now) r.HeaderFunction tokens.old) result tokens.new }
{
    match reader.construct(tokens, Rule::HeaderFunction)? {
        Construct::Expr(found) => Ok(found),
        _ => unreachable!(),
    }
}

/// An expression in parentheses.
pub fn paren<R: Reader>(reader: &R, tokens: &mut Cursor<'_>) -> Result<Found, Failure>
    requires { R.nests reader.now }
    ensures { Gives (nested (R.scope reader.now) r.Paren tokens.old) result tokens.new }
{
    match reader.construct(tokens, Rule::Paren)? {
        Construct::Expr(found) => Ok(found),
        _ => unreachable!(),
    }
}

/// An index or a slice.
pub fn index<R: Reader>(reader: &R, tokens: &mut Cursor<'_>) -> Result<Step, Failure>
    requires { R.nests reader.now }
    ensures { Gives (nested (R.scope reader.now) r.Index tokens.old) result tokens.new }
{
    match reader.construct(tokens, Rule::Index)? {
        Construct::Step(step) => Ok(step),
        _ => unreachable!(),
    }
}

/// The arguments of a call.
pub fn arguments<R: Reader>(reader: &R, tokens: &mut Cursor<'_>) -> Result<Step, Failure>
    requires { R.nests reader.now }
    ensures { Gives (nested (R.scope reader.now) r.Arguments tokens.old) result tokens.new }
{
    match reader.construct(tokens, Rule::Arguments)? {
        Construct::Step(step) => Ok(step),
        _ => unreachable!(),
    }
}

/// The elements of a composite literal.
pub fn elements<R: Reader>(reader: &R, tokens: &mut Cursor<'_>) -> Result<Elements, Failure>
    requires { R.nests reader.now }
    ensures { Gives (nested (R.scope reader.now) r.Elements tokens.old) result tokens.new }
{
    match reader.construct(tokens, Rule::Elements)? {
        Construct::Elements(elements) => Ok(elements),
        _ => unreachable!(),
    }
}

/// The operand of an operator before it.
pub fn unary<R: Reader>(reader: &R, tokens: &mut Cursor<'_>) -> Result<Found, Failure>
    requires { R.nests reader.now }
    ensures { Gives (nested (R.scope reader.now) r.Unary tokens.old) result tokens.new }
{
    match reader.construct(tokens, Rule::Unary)? {
        Construct::Expr(found) => Ok(found),
        _ => unreachable!(),
    }
}

/// The same in a header.
pub fn header_unary<R: Reader>(reader: &R, tokens: &mut Cursor<'_>) -> Result<Found, Failure>
    requires { R.nests reader.now }
    ensures { Gives (nested (R.scope reader.now) r.HeaderUnary tokens.old) result tokens.new }
{
    match reader.construct(tokens, Rule::HeaderUnary)? {
        Construct::Expr(found) => Ok(found),
        _ => unreachable!(),
    }
}

/// A block.
pub fn block<R: Reader>(reader: &R, tokens: &mut Cursor<'_>) -> Result<Block, Failure>
    requires { R.nests reader.now }
    ensures { Gives (nested (R.scope reader.now) r.Block tokens.old) result tokens.new }
{
    match reader.construct(tokens, Rule::Block)? {
        Construct::Block(block) => Ok(block),
        _ => unreachable!(),
    }
}

/// The body of a `switch`.
pub fn switch_body<R: Reader>(reader: &R, tokens: &mut Cursor<'_>) -> Result<List<Case>, Failure>
    requires { R.nests reader.now }
    ensures { Gives (nested (R.scope reader.now) r.SwitchBody tokens.old) result tokens.new }
{
    match reader.construct(tokens, Rule::SwitchBody)? {
        Construct::Cases(cases) => Ok(cases),
        _ => unreachable!(),
    }
}
