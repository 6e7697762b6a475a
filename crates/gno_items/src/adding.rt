// The addition of a package.
ghost use Rattle.std.specs.Prelude.{◌≡◌, None, length, IfOk, IfSome, OnOk, OnErr, Some, true, false, replicate};
ghost use Rattle.gno_base.specs.Paths.{kind_of};
ghost use Rattle.gno_first.specs.Lawful.{IsLawful};
ghost use Rattle.gno_reading.specs.Readings.{IsLawfulReading, IsReading};
ghost use Rattle.gno_reading.specs.declared.reading.Reading.TheVariants.{First};
ghost use Rattle.gno_machine.specs.Ints.{AreInts};
ghost use Rattle.gno_machine.specs.Meaning.{int_of};
ghost use Rattle.gno_items.specs.Adding.{IsAdded, added_reading, added_tree, charge_variables, fresh, is_realm, is_built, is_realm_or_pure, is_test_name, path_refusal, refused_add};
ghost use Rattle.gno_base.specs.declared.path.PathKind.TheVariants.{Realm};
ghost use Rattle.gno_items.specs.Memory.{package_of};
ghost use Rattle.gno_items.specs.Well.{CanKeep, IsWellPackage, has_no_zero};

use crate::reply::{ended_reply, fault_reply, refused_reply, spent_reply};
use crate::{ItemReply, NoMemory, Package, Packages};
use gno_base::{Bytes, Cycles, List, NamedText, Path, PathFault, PathKind, Spent, Whole};
use gno_first::FirstFile;
use gno_reading::{Reading, read_text};
use std::alloc::{AllocError, Global};

/// What an addition answers, and the package that is to be held where it ended in results.
#[derive(Drop)]
pub struct Added {
    pub reply: ItemReply,
    pub held: Option<Package>,
}

/// Adds the package of a path, whose source is one file. The packages stay as they are: the caller pushes the new one.
pub fn add(
    alloc: Global,
    packages: &Packages,
    budget: u64,
    path: &[u8],
    file: &NamedText,
) -> Result<Added, NoMemory>
    requires { has_no_zero file.now.name ≡ true }
    ensures added { IfOk result (IsAdded packages.now budget path.now file.now) }
    ensures can_keep { IfOk result (λ end. CanKeep packages.now end) }
{
    if let Some(code) = path_refusal(alloc, packages, path)? {
        return refused(alloc, code);
    }
    match read_text(alloc, file.text.as_slice()) {
        Ok(reading) => add_reading(alloc, budget, path, file, reading),
        Err(_) => Err(NoMemory),
    }
}

// Why no package can be added at a path.
fn path_refusal(alloc: Global, packages: &Packages, path: &[u8]) -> Result<Option<u8>, NoMemory>
    ensures refusal { IfOk result (λ code. code ≡ path_refusal packages.now path.now) }
    ensures free { IfOk result (λ code. code ≡ None → package_of packages.now path.now ≡ None) }
{
    if !is_realm_or_pure(kind_at(alloc, path)?) {
        return Ok(Some(101));
    }
    if packages.find(path).is_some() {
        return Ok(Some(102));
    }
    Ok(None)
}

// The addition of a file, by what its text is read as.
fn add_reading(
    alloc: Global,
    budget: u64,
    path: &[u8],
    file: &NamedText,
    reading: Reading,
) -> Result<Added, NoMemory>
    requires named { has_no_zero file.now.name ≡ true }
    requires reads { IsReading file.now.text reading }
    requires lawful { IsLawfulReading reading }
    ensures added { IfOk result (λ end. end ≡ added_reading budget path.now file.now reading) }
    ensures well { IfOk result (λ end. IfSome end.held (λ p. IsWellPackage p)) }
    ensures path { IfOk result (λ end. IfSome end.held (λ p. p.path ≡ path.now)) }
{
    match reading {
        Reading::Faulty { code, pos, form } => {
            let Ok(reply) = fault_reply(alloc, code, file.name.as_slice(), pos, form) else {
                return Err(NoMemory);
            };
            Ok(Added { reply, held: None })
        }
        Reading::NotFirst => refused(alloc, 199),
        Reading::First(tree) => {
            if !is_built(alloc, path, file)? {
                return refused(alloc, 199);
            }
            add_file(alloc, budget, path, file, tree)
        }
    }
}

// Whether such a package is built yet.
fn is_built(alloc: Global, path: &[u8], file: &NamedText) -> Result<bool, NoMemory>
    ensures { IfOk result (λ is. is ≡ is_built path.now file.now) }
{
    Ok(is_realm(kind_at(alloc, path)?) && !is_test_name(file.name.as_slice()))
}

fn kind_at(alloc: Global, path: &[u8]) -> Result<Option<PathKind>, NoMemory>
    ensures { IfOk result (λ kind. kind ≡ kind_of path.now) }
{
    match Path::read(alloc, path) {
        Ok(path) => Ok(Some(path.kind)),
        Err(PathFault::BadPath) => Ok(None),
        Err(PathFault::NoMemory) => Err(NoMemory),
    }
}

fn is_realm(kind: Option<PathKind>) -> bool
    ensures { result ≡ is_realm kind }
{
    matches!(kind, Some(PathKind::Realm))
}

fn is_realm_or_pure(kind: Option<PathKind>) -> bool
    ensures { result ≡ is_realm_or_pure kind }
{
    matches!(kind, Some(PathKind::Realm) | Some(PathKind::Pure))
}

// A file of tests, by the end of its name.
fn is_test_name(name: &[u8]) -> bool
    ensures { result ≡ is_test_name name.now }
{
    name.ends_with(b"_test.gno") || name.ends_with(b"_filetest.gno")
}

fn refused(alloc: Global, code: u8) -> Result<Added, NoMemory>
    ensures { IfOk result (λ end. end ≡ refused_add code) }
{
    Ok(Added {
        reply: refused_reply(alloc, code),
        held: None,
    })
}

// The addition of a file that is in the first form.
fn add_file(
    alloc: Global,
    budget: u64,
    path: &[u8],
    file: &NamedText,
    tree: FirstFile,
) -> Result<Added, NoMemory>
    requires realm { kind_of path.now ≡ Some Realm }
    requires named { has_no_zero file.now.name ≡ true }
    requires reads { IsReading file.now.text (First tree) }
    requires lawful { IsLawful tree }
    ensures added { IfOk result (λ end. end ≡ added_tree budget path.now file.now tree) }
    ensures well { IfOk result (λ end. IfSome end.held (λ p. IsWellPackage p)) }
    ensures path { IfOk result (λ end. IfSome end.held (λ p. p.path ≡ path.now)) }
{
    let mut cycles = Cycles { left: budget };
    let charged = charge_variables(tree.variables.len(), &mut cycles);
    let used = budget.saturating_sub(cycles.left);
    match charged {
        Ok(()) => match new_package(alloc, path, file, tree) {
            Ok(held) => Ok(Added {
                reply: ended_reply(alloc, used),
                held: Some(held),
            }),
            Err(_) => Err(NoMemory),
        },
        Err(Spent) => Ok(Added {
            reply: spent_reply(alloc, used),
            held: None,
        }),
    }
}

// The charges for the declarations of so many variables.
fn charge_variables(count: usize, cycles: &mut Cycles) -> Result<(), Spent>
    ensures ok { OnOk result (charge_variables count cycles.old.left ≡ record { spent = false; left = cycles.new.left }) }
    ensures err { OnErr result (charge_variables count cycles.old.left ≡ record { spent = true; left = cycles.new.left }) }
{
    for _variable in 0..count {
        cycles.charge(1)?;
        cycles.charge(1)?;
    }
    Ok(())
}

// A package whose variables are 0.
fn new_package(
    alloc: Global,
    path: &[u8],
    file: &NamedText,
    tree: FirstFile,
) -> Result<Package, AllocError>
    requires realm { kind_of path.now ≡ Some Realm }
    requires named { has_no_zero file.now.name ≡ true }
    requires reads { IsReading file.now.text (First tree) }
    requires lawful { IsLawful tree }
    ensures fresh { IfOk result (λ made. made ≡ fresh path.now file.now tree) }
    ensures well { IfOk result (λ made. IsWellPackage made) }
{
    let values = zeros(alloc, tree.variables.len())?;
    Ok(Package {
        path: Bytes::from_slice(alloc, path)?,
        source: NamedText {
            name: Bytes::from_slice(alloc, file.name.as_slice())?,
            text: Bytes::from_slice(alloc, file.text.as_slice())?,
        },
        file: tree,
        values,
    })
}

#[tactic(auto, using(crate::proofs::Zeros::zeros))]
fn zeros(alloc: Global, count: usize) -> Result<List<Whole>, AllocError>
    ensures zeros { IfOk result (λ values. values ≡ replicate count (int_of 0)) }
    ensures ints { IfOk result (λ values. AreInts values) }
    ensures count { IfOk result (λ values. length values ≡ count) }
{
    let mut values = List::<Whole>::new(alloc);
    for _index in 0..count {
        values.push(Whole::int(0))?;
    }
    Ok(values)
}
