// The variables of a file.
ghost use Rattle.std.specs.Prelude.{◌≡◌, [], Some, true, option_map};
ghost use Rattle.std.specs.Option.{option_copied};
ghost use Rattle.gno_first.specs.Declaring.{with_names, alone};
ghost use Rattle.gno_first.specs.Form as form;
ghost use Rattle.gno_first.specs.Gives.{Gives};
ghost use Rattle.gno_first.specs.Options.{each, all_from};

use crate::fault::FirstFault;
use crate::parts::{is_type, only};
use crate::scope::Scope;
use gno_tree::{Declaration, TopLevel, TypeExpr, VarSpec};
use std::alloc::Global;

// "int"
fn is_int(of: &Option<TypeExpr>) -> bool
    ensures { result ≡ form.is_int of.now }
{
    match of {
        Some(of) => is_type("int", of),
        None => false,
    }
}

// name "int"
#[tactic(auto, unfolding(crate::specs::Form::name_of_variable))]
fn name_of_variable(spec: &VarSpec) -> Option<&[u8]>
    ensures { option_copied result ≡ form.name_of_variable spec.now }
{
    if !is_int(&spec.of) || !spec.values.is_empty() {
        return None;
    }
    match only(spec.names.as_slice()) {
        Some(name) => Some(name.text.as_slice()),
        None => None,
    }
}

// The names with that of the variable behind them.
#[tactic(auto, using(crate::proofs::Declaring::with_none_found))]
fn with_variable<'a>(names: Scope<'a>, spec: &'a VarSpec) -> Result<Scope<'a>, FirstFault>
    requires { form.are_names names ≡ true }
    ensures { Gives (with_names names.entry (option_map alone (form.name_of_variable spec.entry.now))) result }
{
    match name_of_variable(spec) {
        Some(name) => names.declare(name),
        None => Err(FirstFault::NotFirst),
    }
}

fn with_specs<'a>(names: Scope<'a>, specs: &'a [VarSpec]) -> Result<Scope<'a>, FirstFault>
    requires { form.are_names names ≡ true }
    ensures { Gives (with_names names.entry (each form.name_of_variable specs.entry.now)) result }
{
    let mut names = names;
    for spec in specs {
        names = with_variable(names, spec)?;
    }
    Ok(names)
}

// "var" name "int" | "var" "(" { name "int" ";" } ")"
#[tactic(auto, using(crate::proofs::Declaring::with_none_found), unfolding(crate::specs::Form::names_of))]
fn with_declaration<'a>(
    names: Scope<'a>,
    declaration: &'a Declaration,
) -> Result<Scope<'a>, FirstFault>
    requires { form.are_names names ≡ true }
    ensures { Gives (with_names names.entry (form.names_of declaration.entry.now)) result }
{
    match declaration {
        Declaration::Var { specs, .. } => with_specs(names, specs.as_slice()),
        _ => Err(FirstFault::NotFirst),
    }
}

#[tactic(auto, using(crate::proofs::Declaring::with_none_found))]
fn with_declared<'a>(names: Scope<'a>, declared: &'a TopLevel) -> Result<Scope<'a>, FirstFault>
    requires { form.are_names names ≡ true }
    ensures { Gives (with_names names.entry (form.names_in declared.entry.now)) result }
{
    match declared {
        TopLevel::Declaration(declaration) => with_declaration(names, declaration),
        TopLevel::Function(_) => Err(FirstFault::NotFirst),
    }
}

/// The variables that are declared.
pub fn variables<'a>(alloc: Global, declared: &'a [TopLevel]) -> Result<Scope<'a>, FirstFault>
    ensures { Gives (with_names [] (all_from form.names_in declared.entry.now)) result }
{
    let mut names = Scope::new(alloc);
    for item in declared {
        names = with_declared(names, item)?;
    }
    Ok(names)
}
