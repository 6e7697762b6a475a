// The first form of a file.
ghost use Rattle.std.specs.Prelude.{◌≡◌, Some, None, true, IfOk, IsErrOf};
ghost use Rattle.gno_first.specs.Form as form;
ghost use Rattle.gno_first.specs.Form.{first_of};
ghost use Rattle.gno_first.specs.Gives.{Gives};
ghost use Rattle.gno_first.specs.Lawful.{IsLawful};

use crate::fault::FirstFault;
use crate::functions::{functions, with_functions};
use crate::names::is_name;
use crate::parts::copied;
use crate::scope::Scope;
use crate::tree::FirstFile;
use crate::variables::variables;
use gno_tree::{FileTree, TopLevel};
use std::alloc::Global;

// "package" name ";", and no import
fn begins_well(tree: &FileTree) -> bool
    ensures { result ≡ form.begins_well tree.now }
{
    is_name(tree.package_name.text.as_slice()) && tree.imports.is_empty()
}

fn is_declaration(declared: &TopLevel) -> bool
    ensures { result ≡ form.is_declaration declared.now }
{
    match declared {
        TopLevel::Declaration(_) => true,
        TopLevel::Function(_) => false,
    }
}

// What is declared before the first function, and from there on.
#[tactic(auto, using(crate::proofs::Fronts::steps))]
fn parted(declared: &[TopLevel]) -> (&[TopLevel], &[TopLevel])
    ensures front { result.0.now ≡ form.in_front declared.entry.now }
    ensures behind { result.1.now ≡ form.behind declared.entry.now }
{
    let mut end = 0;
    while end < declared.len() && is_declaration(&declared[end]) {
        end += 1;
    }
    declared.split_at(end)
}

// The file with these variables and the functions that are declared.
fn file_with<'a>(
    alloc: Global,
    name: &[u8],
    variables: Scope<'a>,
    declared: &'a [TopLevel],
) -> Result<FirstFile, FirstFault>
    requires { form.are_names variables ≡ true }
    ensures { Gives (form.file_with name.now variables.entry declared.entry.now) result }
{
    let functions = functions(alloc, &variables, declared)?;
    let Ok(names) = variables.to_names(alloc) else {
        return Err(FirstFault::NoMemory);
    };
    with_functions(variables, declared)?;
    Ok(FirstFile {
        name: copied(alloc, name)?,
        variables: names,
        functions,
    })
}

fn read(alloc: Global, tree: &FileTree) -> Result<FirstFile, FirstFault>
    ensures { Gives (first_of tree.now) result }
{
    if !begins_well(tree) {
        return Err(FirstFault::NotFirst);
    }
    let (front, behind) = parted(tree.declarations.as_slice());
    let variables = variables(alloc, front)?;
    file_with(alloc, tree.package_name.text.as_slice(), variables, behind)
}

/// The file that a tree is, in the first form. `NotFirst` comes exactly where the tree is not in the first form.
pub fn first_form(alloc: Global, file: &FileTree) -> Result<FirstFile, FirstFault>
    ensures file { IfOk result (λ it. first_of file.now ≡ Some it) }
    ensures not_first { IsErrOf result FirstFault.NotFirst → first_of file.now ≡ None }
    ensures lawful { IfOk result (λ it. IsLawful it) }
{
    let it = read(alloc, file)?;
    Ok(it)
}
