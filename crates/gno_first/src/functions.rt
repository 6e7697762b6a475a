// The functions of a file.
ghost use Rattle.std.specs.Prelude.{◌≡◌, true, option_map};
ghost use Rattle.std.specs.Option.{option_copied};
ghost use Rattle.gno_first.specs.Declaring.{with_names, alone, name_in};
ghost use Rattle.gno_first.specs.Form as form;
ghost use Rattle.gno_first.specs.Gives.{Gives};
ghost use Rattle.gno_first.specs.Options.{each};

use crate::body::BodyReader;
use crate::fault::FirstFault;
use crate::parts::{copied, is_type, is_word};
use crate::scope::Scope;
use crate::tree::FirstFunc;
use gno_base::List;
use gno_tree::{Function, Parameter, TopLevel};
use std::alloc::Global;

// "cur" "realm"
#[tactic(auto, unfolding(crate::specs::Form::is_current_realm))]
fn is_current_realm(parameters: &[Parameter]) -> bool
    ensures { result ≡ form.is_current_realm parameters.now }
{
    match parameters {
        [parameter] => {
            !parameter.variadic
                && is_word("cur", parameter.names.as_slice())
                && is_type("realm", &parameter.of)
        }
        _ => false,
    }
}

fn is_int_result(parameter: &Parameter) -> bool
    ensures { result ≡ form.is_int_result parameter.now }
{
    !parameter.variadic && parameter.names.is_empty() && is_type("int", &parameter.of)
}

// "(" "cur" "realm" ")", and no receiver
fn is_crossing(function: &Function) -> bool
    ensures { result ≡ form.is_crossing function.now }
{
    function.receiver.is_none() && is_current_realm(function.signature.parameters.as_slice())
}

// [ "int" ]
#[tactic(auto, unfolding(crate::specs::Form::has_int))]
fn has_int(results: &[Parameter]) -> Option<bool>
    ensures { result ≡ form.has_int results.now }
{
    match results {
        [] => Some(false),
        [one] => { if is_int_result(one) { Some(true) } else { None } }
        _ => None,
    }
}

// name "(" "cur" "realm" ")" [ "int" ] "{" { Stmt ";" } "}"
#[tactic(auto, unfolding(crate::specs::Form::function_of))]
fn function(reader: BodyReader<'_, '_>, function: &Function) -> Result<FirstFunc, FirstFault>
    ensures { Gives (form.function_of reader.entry.variables.now function.now) result }
{
    if !is_crossing(function) {
        return Err(FirstFault::NotFirst);
    }
    let Some(has_int) = has_int(function.signature.results.as_slice()) else {
        return Err(FirstFault::NotFirst);
    };
    let Some(block) = &function.body else {
        return Err(FirstFault::NotFirst);
    };
    let body = reader.body(has_int, block)?;
    let name = copied(reader.alloc, function.name.text.as_slice())?;
    Ok(FirstFunc {
        name,
        has_int,
        body,
    })
}

fn function_in(reader: BodyReader<'_, '_>, declared: &TopLevel) -> Result<FirstFunc, FirstFault>
    ensures { Gives (form.function_in reader.entry.variables.now declared.now) result }
{
    match declared {
        TopLevel::Function(it) => function(reader, it),
        TopLevel::Declaration(_) => Err(FirstFault::NotFirst),
    }
}

/// The functions that are declared, whose bodies may name the variables.
pub fn functions(
    alloc: Global,
    variables: &Scope<'_>,
    declared: &[TopLevel],
) -> Result<List<FirstFunc>, FirstFault>
    ensures { Gives (each (form.function_in variables.now) declared.now) result }
{
    let reader = BodyReader { alloc, variables };
    let mut functions = List::new(alloc);
    for item in declared {
        let function = function_in(reader, item)?;
        let Ok(()) = functions.push(function) else {
            return Err(FirstFault::NoMemory);
        };
    }
    Ok(functions)
}

fn name_in(declared: &TopLevel) -> Option<&[u8]>
    ensures { option_copied result ≡ name_in declared.now }
{
    match declared {
        TopLevel::Function(function) => Some(function.name.text.as_slice()),
        TopLevel::Declaration(_) => None,
    }
}

// The names with that of the function behind them.
#[tactic(auto, using(crate::proofs::Declaring::with_none_found))]
fn with_function<'a>(names: Scope<'a>, declared: &'a TopLevel) -> Result<Scope<'a>, FirstFault>
    requires { form.are_names names ≡ true }
    ensures { Gives (with_names names.entry (option_map alone (name_in declared.entry.now))) result }
{
    match name_in(declared) {
        Some(name) => names.declare(name),
        None => Err(FirstFault::NotFirst),
    }
}

/// The names with those of the functions behind them.
pub fn with_functions<'a>(
    names: Scope<'a>,
    declared: &'a [TopLevel],
) -> Result<Scope<'a>, FirstFault>
    requires { form.are_names names ≡ true }
    ensures { Gives (with_names names.entry (each name_in declared.entry.now)) result }
{
    let mut names = names;
    for item in declared {
        names = with_function(names, item)?;
    }
    Ok(names)
}
