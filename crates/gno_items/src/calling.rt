// The call of a function of a realm.
ghost use Rattle.std.specs.Prelude.{◌≡◌, ◌<◌, length, IfOk, IfSome, Some, codes};
ghost use Rattle.std.specs.Fmt.{signed_decimal};
ghost use Rattle.gno_first.specs.Lawful.{AreFuncsIn};
ghost use Rattle.gno_machine.specs.Ints.{AreInts};
ghost use Rattle.gno_machine.specs.Meaning.{run_meaning};
ghost use Rattle.gno_items.specs.Calling.{called, called_in, function_of, is_exported, ran, refused_call, results_of};
ghost use Rattle.gno_items.specs.Well.{CanHave, CanStore, IsWell, IsWellPackage};

use crate::reply::refused_reply;
use crate::{End, ItemReply, NoMemory, Package, Packages, ResultText};
use gno_base::{Bytes, Cycles, List, Whole};
use gno_first::{FirstFile, FirstFunc};
use gno_machine::{FirstEnd, run_first};
use std::alloc::{AllocError, Global};

/// What a call answers, and the values of the package's variables after it where it ended in results.
#[derive(Drop)]
pub struct Called {
    pub reply: ItemReply,
    pub values: Option<List<Whole>>,
}

/// Calls a function of the realm of a path. The packages stay as they are: the caller stores the new values.
pub fn call(
    alloc: Global,
    packages: &Packages,
    budget: u64,
    path: &[u8],
    function: &[u8],
) -> Result<Called, NoMemory>
    requires { IsWell packages.now }
    ensures called { IfOk result (λ end. end ≡ called packages.now budget path.now function.now) }
    ensures can_store { IfOk result (λ end. CanStore packages.now path.now end) }
{
    match packages.find(path) {
        Some(held) => call_in(alloc, held, budget, function),
        None => Ok(refused(alloc, 104)),
    }
}

fn refused(alloc: Global, code: u8) -> Called
    ensures { result ≡ refused_call code }
{
    Called {
        reply: refused_reply(alloc, code),
        values: None,
    }
}

fn call_in(alloc: Global, held: &Package, budget: u64, function: &[u8]) -> Result<Called, NoMemory>
    requires { IsWellPackage held.now }
    ensures called { IfOk result (λ end. end ≡ called_in budget function.now (Some held.now)) }
    ensures can_have { IfOk result (λ end. IfSome end.values (λ values. CanHave held.now values)) }
{
    match function_of(held.file.functions.as_slice(), function) {
        Some(at) if is_exported(function) => { run_in(alloc, &held.file, at, &held.values, budget) }
        _ => Ok(refused(alloc, 105)),
    }
}

// The number of the first function of a name.
fn function_of(functions: &[FirstFunc], name: &[u8]) -> Option<usize>
    ensures found { result ≡ function_of functions.now name.now }
    ensures within { IfSome result (λ at. at < length functions.now) }
{
    functions
        .iter()
        .position(|function| function.name.as_slice() == name)
}

fn is_exported(name: &[u8]) -> bool
    ensures { result ≡ is_exported name.now }
{
    match name {
        [first, ..] => 65 <= *first && *first <= 90,
        [] => false,
    }
}

fn run_in(
    alloc: Global,
    file: &FirstFile,
    at: usize,
    values: &List<Whole>,
    budget: u64,
) -> Result<Called, NoMemory>
    requires lawful { AreFuncsIn (length file.now.variables) file.now.functions }
    requires within { at < length file.now.functions }
    requires count { length values.now ≡ length file.now.variables }
    requires ints { AreInts values.now }
    ensures called { IfOk result (λ end. end ≡ ran budget (run_meaning file.now at values.now budget)) }
    ensures count { IfOk result (λ end. IfSome end.values (λ after. length after ≡ length values.now)) }
    ensures ints { IfOk result (λ end. IfSome end.values (λ after. AreInts after)) }
{
    let Ok(mut after) = List::from_slice(alloc, values.as_slice()) else {
        return Err(NoMemory);
    };
    let Ok(end) = run_first(alloc, file, at, &mut after, Cycles { left: budget }) else {
        return Err(NoMemory);
    };
    called_of(alloc, budget, end, after)
}

// What the end of a run answers.
fn called_of(
    alloc: Global,
    budget: u64,
    end: FirstEnd,
    values: List<Whole>,
) -> Result<Called, NoMemory>
    ensures { IfOk result (λ called. called ≡ ran budget (record { end = end; values = values })) }
{
    let FirstEnd {
        printed,
        result: outcome,
        spent,
        left,
    } = end;
    let used = budget.saturating_sub(left);
    if spent {
        return Ok(Called {
            reply: ItemReply {
                end: End::Spent,
                printed,
                used,
            },
            values: None,
        });
    }
    let Ok(results) = results_of(alloc, outcome) else {
        return Err(NoMemory);
    };
    Ok(Called {
        reply: ItemReply {
            end: End::Ok(results),
            printed,
            used,
        },
        values: Some(values),
    })
}

fn results_of(alloc: Global, outcome: Option<Whole>) -> Result<List<ResultText>, AllocError>
    ensures { IfOk result (λ results. results ≡ results_of outcome) }
{
    let mut results = List::<ResultText>::new(alloc);
    if let Some(number) = outcome {
        results.push(int_text(alloc, number)?)?;
    }
    Ok(results)
}

fn int_text(alloc: Global, number: Whole) -> Result<ResultText, AllocError>
    ensures { IfOk result (λ text. text ≡ record { value = signed_decimal number.value; of = codes "int" }) }
{
    let value = number.value().to_string(alloc)?;
    Ok(ResultText {
        value: Bytes::from_slice(alloc, value.as_bytes())?,
        of: Bytes::from_slice(alloc, b"int")?,
    })
}
