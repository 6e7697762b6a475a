// What an item that ended in results writes to the table.
ghost use Rattle.std.specs.Prelude.{◌≡◌, ◌≢◌, ◌<◌, ◌≤◌, ◌++◌, ◌∷◌, [], true, None, ℕ, List, length, IfOk, IfSome, IsSome, OnOk, OnErr, IsErrOf};
ghost use Rattle.gno_machine.specs.Ints.{AreInts};
ghost use Rattle.gno_port.specs.Causes.{Rose};
ghost use Rattle.gno_port.specs.Tables.{IsRising};
ghost use Rattle.gno_items.specs.Memory.{package_of, with_values};
ghost use Rattle.gno_items.specs.Well.{CanHave, IsWell, IsWellPackage};
ghost use Rattle.gno_table.specs.Rows.{LeaveSame, added_rows_at, added_rows, changed_rows};
ghost use Rattle.gno_table.specs.FirstFormat.{Stands};

use crate::rows::{put_differing, put_format, put_package};
use gno_base::{List, Whole};
use gno_items::{Package, Packages};
use gno_port::{Batch, Changes, KeepFault, Keeper};
use std::alloc::{AllocError, Global};

const MOST_PACKAGES: usize = 1 << 62;

/// Stores a new package in the open table, and holds it behind the others. After an error the table is as before.
#[tactic(auto, using(crate::proofs::AddedRows::still_told))]
pub fn add_package<K: Keeper>(
    alloc: Global,
    keeper: &mut K,
    packages: &mut Packages,
    held: Package,
) -> Result<(), KeepFault>
    requires open { K.is_open keeper.old ≡ true }
    requires stands { Stands (K.tables keeper.old (K.open_name keeper.old)) packages.old }
    requires well { IsWellPackage held }
    requires new { package_of packages.old held.path ≡ None }
    ensures packages { OnOk result (packages.new ≡ packages.old ++ held ∷ []) }
    ensures stands { OnOk result (Stands (K.tables keeper.new (K.open_name keeper.new)) packages.new) }
    ensures unchanged { OnErr result (K.tables keeper.new ≡ K.tables keeper.old) }
    ensures others { (other : List ℕ) → other ≢ K.open_name keeper.old → K.tables keeper.new other ≡ K.tables keeper.old other }
    ensures told { IsSome (K.tables keeper.old (K.open_name keeper.old)) → IsSome (K.tables keeper.new (K.open_name keeper.old)) }
    ensures open { (K.is_open keeper.new ≡ true) × (K.open_name keeper.new ≡ K.open_name keeper.old) }
    ensures gets { K.gets keeper.new ≡ K.gets keeper.old }
    ensures cause { IsErrOf result KeepFault.Failed → Rose (K.faults keeper.old) (K.faults keeper.new) }
    ensures later { K.faults keeper.old ≤ K.faults keeper.new }
{
    let order = packages.len();
    if order >= MOST_PACKAGES {
        return Err(KeepFault::NoMemory);
    }
    let Ok(batch) = added_batch(alloc, order as u64, &held) else {
        return Err(KeepFault::NoMemory);
    };
    let Ok(()) = packages.push(held) else {
        return Err(KeepFault::NoMemory);
    };
    keeper.apply(alloc, &batch)?;
    Ok(())
}

fn added_batch(alloc: Global, order: u64, held: &Package) -> Result<Batch, AllocError>
    requires count { length held.now.values ≡ length held.now.file.variables }
    requires ints { AreInts held.now.values }
    ensures rows { IfOk result (λ batch. LeaveSame batch.changes (added_rows_at order held.now)) }
    ensures rising { IfOk result (λ batch. IsRising batch.changes) }
{
    let mut changes = Changes::new(alloc);
    if order == 0 {
        put_format(alloc, &mut changes)?;
    }
    put_package(alloc, &mut changes, order, held)?;
    changes.into_batch(alloc)
}

/// Stores other values of the variables of a package in the open table, and gives them to the package. After an error
/// the table and the packages are as before.
#[tactic(auto, using(crate::proofs::AddedRows::still_told))]
pub fn store_values<K: Keeper>(
    alloc: Global,
    keeper: &mut K,
    packages: &mut Packages,
    path: &[u8],
    values: List<Whole>,
) -> Result<(), KeepFault>
    requires open { K.is_open keeper.old ≡ true }
    requires stands { Stands (K.tables keeper.old (K.open_name keeper.old)) packages.old }
    requires held { IsSome (package_of packages.old path.now) }
    requires can { IfSome (package_of packages.old path.now) (λ p. CanHave p values) }
    ensures packages { OnOk result (packages.new ≡ with_values packages.old path.now values) }
    ensures stands { OnOk result (Stands (K.tables keeper.new (K.open_name keeper.new)) packages.new) }
    ensures unchanged { OnErr result (K.tables keeper.new ≡ K.tables keeper.old) }
    ensures unchanged_packages { OnErr result (packages.new ≡ packages.old) }
    ensures others { (other : List ℕ) → other ≢ K.open_name keeper.old → K.tables keeper.new other ≡ K.tables keeper.old other }
    ensures told { IsSome (K.tables keeper.old (K.open_name keeper.old)) → IsSome (K.tables keeper.new (K.open_name keeper.old)) }
    ensures open { (K.is_open keeper.new ≡ true) × (K.open_name keeper.new ≡ K.open_name keeper.old) }
    ensures gets { K.gets keeper.new ≡ K.gets keeper.old }
    ensures cause { IsErrOf result KeepFault.Failed → Rose (K.faults keeper.old) (K.faults keeper.new) }
    ensures later { K.faults keeper.old ≤ K.faults keeper.new }
{
    let Ok(batch) = changed_batch(alloc, packages, path, values.as_slice()) else {
        return Err(KeepFault::NoMemory);
    };
    keeper.apply(alloc, &batch)?;
    packages.set_values(path, values);
    Ok(())
}

fn changed_batch(
    alloc: Global,
    packages: &Packages,
    path: &[u8],
    values: &[Whole],
) -> Result<Batch, AllocError>
    requires well { IsWell packages.now }
    requires can { IfSome (package_of packages.now path.now) (λ p. CanHave p values.now) }
    ensures rows { IfOk result (λ batch. LeaveSame batch.changes (changed_rows (package_of packages.now path.now) path.now values.now)) }
    ensures rising { IfOk result (λ batch. IsRising batch.changes) }
{
    let mut changes = Changes::new(alloc);
    if let Some(held) = packages.find(path) {
        put_differing(
            alloc,
            &mut changes,
            path,
            held.file.variables.as_slice(),
            held.values.as_slice(),
            values,
        )?;
    }
    changes.into_batch(alloc)
}
