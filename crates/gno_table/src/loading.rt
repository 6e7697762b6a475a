// Loading the packages that a table stores.
ghost use Rattle.std.specs.Prelude.{◌≡◌, ◌≢◌, [], ◌<◌, ◌≤◌, ◌^◌, ◌↔◌, ℕ, true, length, List, Option, IfOk, IfSome, IsErrOf, IsTrue, Some, None};
ghost use Rattle.std.specs.Option.{option_copied};
ghost use Rattle.gno_base.specs.Number.{Number};
ghost use Rattle.gno_base.specs.Paths.{kind_of};
ghost use Rattle.gno_base.specs.declared.path.PathKind.TheVariants.{Realm};
ghost use Rattle.gno_first.specs.Lawful.{IsLawful};
ghost use Rattle.gno_first.specs.declared.tree.FirstFile.{FirstFile as FirstFileOf};
ghost use Rattle.gno_reading.specs.Readings.{IsReading};
ghost use Rattle.gno_reading.specs.declared.reading.Reading.TheVariants.{First};
ghost use Rattle.gno_machine.specs.Ints.{AreInts};
ghost use Rattle.gno_port.specs.Causes.{Rose};
ghost use Rattle.gno_port.specs.Tables.{Table, IsRising, latest};
ghost use Rattle.gno_items.specs.Well.{has_no_zero, IsWell, IsWellPackage};
ghost use Rattle.gno_table.specs.Rows.{LeaveSame, all_rows};
ghost use Rattle.gno_table.specs.FirstFormat.{IsFirst, IsNotFirst, Reads, Stands};
ghost use Rattle.gno_table.specs.Loading.{AreRowsOf, IsAmong, StandAmong};
ghost use Rattle.gno_table.specs.Sources.{whole_word, word_at, word_in};
ghost use Rattle.gno_items.specs.declared.memory.Package.{Package};

use crate::reading::read_rows;
use crate::rows::{put_format, put_package, variable_key};
use crate::sources::{Source, sources_of, word_at};
use gno_base::{Bytes, List, Path, PathFault, PathKind, Whole};
use gno_first::FirstFile;
use gno_items::{Package, Packages};
use gno_port::{Batch, Change, Changes, KeepFault, Keeper};
use gno_reading::{Reading, read_text};
use std::alloc::{AllocError, Global};

// A table of so many packages is not loaded: the answer is want of memory.
const MOST_PACKAGES: u64 = 1 << 62;

/// Why the packages of a table were not loaded.
#[derive(Clone, Copy, Debug, PartialEq, Eq)]
pub enum LoadFault {
    Failed,
    /// The table is not of the first format.
    Damaged,
    NoMemory,
}

/// There is no memory.
#[derive(Clone, Copy, Debug, PartialEq, Eq)]
struct NoMemory;

/// Reads all rows of the open table, and gives the packages that they store. `Damaged` comes only where a table that
/// the keeper tells is not of the first format. The tables stay as they are.
pub fn load<K: Keeper>(alloc: Global, keeper: &mut K) -> Result<Packages, LoadFault>
    requires { K.is_open keeper.old ≡ true }
    ensures stands { IfOk result (λ packages. Stands (K.tables keeper.old (K.open_name keeper.old)) packages) }
    ensures damaged { IsErrOf result LoadFault.Damaged → IsNotFirst (K.tables keeper.old (K.open_name keeper.old)) }
    ensures tables { K.tables keeper.new ≡ K.tables keeper.old }
    ensures open { (K.is_open keeper.new ≡ true) × (K.open_name keeper.new ≡ K.open_name keeper.old) }
    ensures cause { IsErrOf result LoadFault.Failed → Rose (K.faults keeper.old) (K.faults keeper.new) }
    ensures later { K.faults keeper.old ≤ K.faults keeper.new }
{
    let rows = match read_rows(alloc, keeper) {
        Ok(rows) => rows,
        Err(KeepFault::Failed) => return Err(LoadFault::Failed),
        Err(KeepFault::NoMemory) => return Err(LoadFault::NoMemory),
    };
    match packages_of(alloc, rows.as_slice()) {
        Ok(Some(packages)) => Ok(packages),
        Ok(None) => Err(LoadFault::Damaged),
        Err(NoMemory) => Err(LoadFault::NoMemory),
    }
}

/// A table of the first format has one memory.
pub fn one_memory()
    ensures { (table : Table) (memory other : List Package) → IsFirst table memory → IsFirst table other → memory ≡ other }
{}

// The packages whose rows these are.
fn packages_of(alloc: Global, rows: &[Change]) -> Result<Option<Packages>, NoMemory>
    ensures stands { IfOk result (λ found. IfSome found (λ packages. (told : Option Table) → Reads told rows.now → Stands told packages)) }
    ensures finds { IfOk result (λ found. found ≡ None → (memory : List Package) → AreRowsOf rows.now memory → ⊥) }
    ensures empty { IfOk result (λ found. found ≡ None → rows.now ≢ []) }
{
    if rows.is_empty() {
        return Ok(Some(Packages::new(alloc)));
    }
    let Some(packages) = guess(alloc, rows)? else {
        return Ok(None);
    };
    let Ok(batch) = all_rows(alloc, packages.as_slice()) else {
        return Err(NoMemory);
    };
    if are_same(batch.changes.as_slice(), rows) {
        Ok(Some(packages))
    } else {
        Ok(None)
    }
}

// All rows of the packages, in the order of their keys.
fn all_rows(alloc: Global, packages: &[Package]) -> Result<Batch, AllocError>
    requires { IsWell packages.now }
    ensures rows { IfOk result (λ batch. LeaveSame batch.changes (all_rows packages.now)) }
    ensures rising { IfOk result (λ batch. IsRising batch.changes) }
{
    let mut changes = Changes::new(alloc);
    put_format(alloc, &mut changes)?;
    for (order, held) in packages.iter().enumerate() {
        put_package(alloc, &mut changes, order as u64, held)?;
    }
    changes.into_batch(alloc)
}

fn are_same(left: &[Change], right: &[Change]) -> bool
    ensures { IsTrue result ↔ (left.now ≡ right.now) }
{
    if left.len() != right.len() {
        return false;
    }
    for (at, change) in left.iter().enumerate() {
        if !is_same(change, &right[at]) {
            return false;
        }
    }
    true
}

fn is_same(left: &Change, right: &Change) -> bool
    ensures { IsTrue result ↔ (left.now ≡ right.now) }
{
    if left.key.as_slice() != right.key.as_slice() {
        return false;
    }
    match (&left.value, &right.value) {
        (Some(a), Some(b)) => a.as_slice() == b.as_slice(),
        (None, None) => true,
        _ => false,
    }
}

// The packages of the sources whose orders count up from 0. Rows of the first format have these packages and no others.
#[tactic(auto, using(crate::proofs::AddedRows::well_append))]
fn guess(alloc: Global, rows: &[Change]) -> Result<Option<Packages>, NoMemory>
    ensures well { IfOk result (λ found. IfSome found (λ packages. IsWell packages)) }
    ensures few { IfOk result (λ found. IfSome found (λ packages. length packages < 2 ^ 63)) }
    ensures finds { IfOk result (λ found. (memory : List Package) → AreRowsOf rows.now memory → found ≡ Some memory) }
{
    let Ok(mut sources) = sources_of(alloc, rows) else {
        return Err(NoMemory);
    };
    let mut packages = Packages::new(alloc);
    for order in 0..MOST_PACKAGES {
        let Some(source) = sources.remove(&order) else {
            return Ok(Some(packages));
        };
        let Some(held) = package_of(alloc, rows, source)? else {
            return Ok(None);
        };
        if packages.find(held.path.as_slice()).is_some() {
            return Ok(None);
        }
        let Ok(()) = packages.push(held) else {
            return Err(NoMemory);
        };
    }
    Err(NoMemory)
}

// The package of a source, with the values that its variables' rows say.
fn package_of(alloc: Global, rows: &[Change], source: Source) -> Result<Option<Package>, NoMemory>
    ensures well { IfOk result (λ found. IfSome found (λ held. IsWellPackage held)) }
    ensures finds { IfOk result (λ found. (p : Package) → IsAmong rows.now p → source.path ≡ p.path → source.file ≡ p.source → found ≡ Some p) }
{
    let Source {
        order: _,
        path,
        file,
    } = source;
    if !is_realm(alloc, path.as_slice())? || !has_no_zero(file.name.as_slice()) {
        return Ok(None);
    }
    let Some(tree) = file_of(alloc, file.text.as_slice())? else {
        return Ok(None);
    };
    let Ok(found) = values_of(alloc, rows, path.as_slice(), tree.variables.as_slice()) else {
        return Err(NoMemory);
    };
    let Some(values) = found else {
        return Ok(None);
    };
    Ok(Some(Package {
        path,
        source: file,
        file: tree,
        values,
    }))
}

// The file that a text is in the first form.
#[tactic(auto, using(gno_reading::proofs::OneReading::one_reading))]
fn file_of(alloc: Global, text: &[u8]) -> Result<Option<FirstFile>, NoMemory>
    ensures read { IfOk result (λ found. IfSome found (λ file. IsReading text.now (First file))) }
    ensures lawful { IfOk result (λ found. IfSome found (λ file. IsLawful file)) }
    ensures finds { IfOk result (λ found. (file : FirstFileOf) → IsReading text.now (First file) → found ≡ Some file) }
{
    match read_text(alloc, text) {
        Ok(Reading::First(file)) => Ok(Some(file)),
        Ok(Reading::NotFirst | Reading::Faulty { .. }) => Ok(None),
        Err(_) => Err(NoMemory),
    }
}

fn is_realm(alloc: Global, path: &[u8]) -> Result<bool, NoMemory>
    ensures { IfOk result (λ realm. IsTrue realm ↔ (kind_of path.now ≡ Some Realm)) }
{
    match Path::read(alloc, path) {
        Ok(
            Path {
                kind: PathKind::Realm,
                ..
            },
        ) => Ok(true),
        Ok(_) | Err(PathFault::BadPath) => Ok(false),
        Err(PathFault::NoMemory) => Err(NoMemory),
    }
}

fn has_no_zero(name: &[u8]) -> bool
    ensures { result ≡ has_no_zero name.now }
{
    name.iter().all(|b| *b > 0)
}

// The values of a package's variables, where each has a row of 8 bytes.
#[tactic(auto, using(crate::proofs::Zeros::ints_push))]
fn values_of(
    alloc: Global,
    rows: &[Change],
    path: &[u8],
    names: &[Bytes],
) -> Result<Option<List<Whole>>, AllocError>
    ensures count { IfOk result (λ found. IfSome found (λ values. length values ≡ length names.now)) }
    ensures ints { IfOk result (λ found. IfSome found (λ values. AreInts values)) }
    ensures finds { IfOk result (λ found. IsRising rows.now → (values : List Number) → StandAmong rows.now path.now names.now values → found ≡ Some values) }
{
    let mut values = List::<Whole>::new(alloc);
    for name in names {
        let key = variable_key(alloc, path, name.as_slice())?;
        let Some(word) = word_of(rows, key.as_slice()) else {
            return Ok(None);
        };
        values.push(Whole::int(word.cast_signed()))?;
    }
    Ok(Some(values))
}

// The number in the row of a key, where the row has 8 bytes.
fn word_of(rows: &[Change], key: &[u8]) -> Option<u64>
    ensures { IsRising rows.now → result ≡ word_in (latest rows.now key.now None) }
{
    let value = value_at(rows, key)?;
    whole_word(value.as_slice())
}

// The value in the row of a key.
fn value_at<'a>(rows: &'a [Change], key: &[u8]) -> Option<&'a Bytes>
    ensures { IsRising rows.now → option_copied result ≡ latest rows.now key.now None }
{
    let at = rows
        .binary_search_by(|row| row.key.as_slice().cmp(key))
        .ok()?;
    rows[at].value.as_ref()
}

fn whole_word(bytes: &[u8]) -> Option<u64>
    ensures { result ≡ whole_word (word_at bytes.now) }
{
    match word_at(bytes) {
        Some((word, [])) => Some(word),
        _ => None,
    }
}
