// Performing one item: its reply and text, its commit, and then the writing of the text.
ghost use Rattle.std.specs.Prelude.{◌≡◌, ◌≢◌, ◌<◌, ◌≤◌, ◌+◌, ◌^◌, true, None, ℕ, List, IfOk, IfErr, IfSome, IsSome, OnOk, OnErr, IsErrOf};
ghost use Rattle.gno_port.specs.Causes.{CutsShort, Rose};
ghost use Rattle.gno_port.specs.Streams.{Gained};
ghost use Rattle.gno_items.specs.Memory.{package_of, with_new_values, with_package};
ghost use Rattle.gno_items.specs.Session.{is_ok, shown};
ghost use Rattle.gno_items.specs.Well.{CanHave, CanKeep, CanStore, IsWellPackage};
ghost use Rattle.gno_table.specs.FirstFormat.{Stands};
ghost use Rattle.gno_cmd.specs.Performing.{Breaks, BreaksOff, GainedPart, IsBeforeCommit, IsNamed, Performs, Shows};

use gno_base::{List, Whole};
use gno_items::{Added, Called, End, NoMemory, Package, Packages, add, call, item_text};
use gno_port::{KeepFault, Keeper, Sink, write_all};
use gno_script::Item;
use gno_table::{LoadFault, add_package, load, store_values};
use std::alloc::Global;

/// Why an item was not performed whole.
#[derive(Clone, Copy, Debug, PartialEq, Eq)]
pub(crate) enum ItemFault {
    /// After the commit, not all of the text could be written.
    Write,
    Store,
    Damaged,
    NoMemory,
}

/// An item that was performed: whether it ended in results, and how many items were numbered so far.
#[derive(Clone, Copy, Debug, PartialEq, Eq)]
pub(crate) struct Ran {
    pub good: bool,
    pub done: u64,
}

/// Performs an item on the open table and the packages, and writes its text.
pub(crate) fn perform<K: Keeper, O: Sink>(
    alloc: Global,
    keeper: &mut K,
    out: &mut O,
    packages: &mut Packages,
    name: &[u8],
    done: u64,
    item: &Item,
) -> Result<Ran, ItemFault>
    requires open { K.is_open keeper.old ≡ true }
    requires name { K.open_name keeper.old ≡ name.now }
    requires stands { Stands (K.tables keeper.old name.now) packages.old }
    requires count { done + 1 < 2 ^ 64 }
    requires named { IsNamed item.now }

    ensures performs { IfOk result (Performs packages.old packages.new done item.now (O.holds out.old) (O.holds out.new) (K.tables keeper.old name.now)) }
    ensures stands { OnOk result (Stands (K.tables keeper.new name.now) packages.new) }
    ensures open { OnOk result ((K.is_open keeper.new ≡ true) × (K.open_name keeper.new ≡ name.now)) }

    ensures told { IsSome (K.tables keeper.old name.now) → IsSome (K.tables keeper.new name.now) }
    ensures others { (other : List ℕ) → other ≢ name.now → K.tables keeper.new other ≡ K.tables keeper.old other }

    ensures broken { IsErrOf result ItemFault.Write → Breaks packages.old done item.now (O.holds out.old) (O.holds out.new) (K.tables keeper.new name.now) }
    ensures undamaged { IsErrOf result ItemFault.Damaged → IsSome (K.tables keeper.old name.now) → ⊥ }
    ensures unwritten { IfErr result (λ fault. IsBeforeCommit fault → O.holds out.new ≡ O.holds out.old) }
    ensures unstored { IfErr result (λ fault. IsBeforeCommit fault → K.tables keeper.new ≡ K.tables keeper.old) }
    ensures store { IsErrOf result ItemFault.Store → Rose (K.faults keeper.old) (K.faults keeper.new) }
    ensures write { IsErrOf result ItemFault.Write → CutsShort (O.faults out.old) (O.faults out.new) (O.zero_writes out.old) (O.zero_writes out.new) }
    ensures later { K.faults keeper.old ≤ K.faults keeper.new }
    ensures later_out { O.faults out.old ≤ O.faults out.new }
    ensures later_zero { O.zero_writes out.old ≤ O.zero_writes out.new }
{
    match item {
        Item::Add {
            budget,
            caller: _,
            path,
            file,
        } => match add(alloc, packages, *budget, path.as_slice(), file) {
            Ok(added) => finish_add(alloc, keeper, out, packages, done, item, added),
            Err(NoMemory) => Err(ItemFault::NoMemory),
        },
        Item::Call {
            budget,
            caller: _,
            path,
            function,
        } => match call(
            alloc,
            packages,
            *budget,
            path.as_slice(),
            function.as_slice(),
        ) {
            Ok(called) => finish_call(
                alloc,
                keeper,
                out,
                packages,
                done,
                item,
                path.as_slice(),
                called,
            ),
            Err(NoMemory) => Err(ItemFault::NoMemory),
        },
        Item::Reload => match reload(alloc, keeper, packages, name) {
            Ok(()) => Ok(Ran { good: true, done }),
            Err(fault) => Err(fault),
        },
    }
}

// The text of an addition is made, then its package is stored, and then the text is written.
fn finish_add<K: Keeper, O: Sink>(
    alloc: Global,
    keeper: &mut K,
    out: &mut O,
    packages: &mut Packages,
    done: u64,
    item: &Item,
    added: Added,
) -> Result<Ran, ItemFault>
    requires open { K.is_open keeper.old ≡ true }
    requires stands { Stands (K.tables keeper.old (K.open_name keeper.old)) packages.old }
    requires count { done + 1 < 2 ^ 64 }
    requires can { CanKeep packages.old added }

    ensures shows { IfOk result (λ ran. Shows (O.holds out.old) (O.holds out.new) ran (shown done item.now added.reply (with_package packages.old added.held))) }
    ensures packages { OnOk result (packages.new ≡ with_package packages.old added.held) }
    ensures stands { OnOk result (Stands (K.tables keeper.new (K.open_name keeper.old)) packages.new) }
    ensures open { OnOk result ((K.is_open keeper.new ≡ true) × (K.open_name keeper.new ≡ K.open_name keeper.old)) }

    ensures told { IsSome (K.tables keeper.old (K.open_name keeper.old)) → IsSome (K.tables keeper.new (K.open_name keeper.old)) }
    ensures others { (other : List ℕ) → other ≢ K.open_name keeper.old → K.tables keeper.new other ≡ K.tables keeper.old other }

    ensures broken { IsErrOf result ItemFault.Write → BreaksOff (O.holds out.old) (O.holds out.new) (K.tables keeper.new (K.open_name keeper.old)) (shown done item.now added.reply (with_package packages.old added.held)) }
    ensures undamaged { IfErr result (λ fault. fault ≢ ItemFault.Damaged) }
    ensures unwritten { IfErr result (λ fault. IsBeforeCommit fault → O.holds out.new ≡ O.holds out.old) }
    ensures unstored { IfErr result (λ fault. IsBeforeCommit fault → K.tables keeper.new ≡ K.tables keeper.old) }
    ensures store { IsErrOf result ItemFault.Store → Rose (K.faults keeper.old) (K.faults keeper.new) }
    ensures write { IsErrOf result ItemFault.Write → CutsShort (O.faults out.old) (O.faults out.new) (O.zero_writes out.old) (O.zero_writes out.new) }
    ensures later { K.faults keeper.old ≤ K.faults keeper.new }
    ensures later_out { O.faults out.old ≤ O.faults out.new }
    ensures later_zero { O.zero_writes out.old ≤ O.zero_writes out.new }
{
    let Added { reply, held } = added;
    let Ok(text) = item_text(alloc, done + 1, item, &reply) else {
        return Err(ItemFault::NoMemory);
    };
    let good = is_ok(&reply.end);
    commit_added(alloc, keeper, packages, held)?;
    write_text(out, text.as_slice())?;
    Ok(Ran {
        good,
        done: done + 1,
    })
}

fn commit_added<K: Keeper>(
    alloc: Global,
    keeper: &mut K,
    packages: &mut Packages,
    held: Option<Package>,
) -> Result<(), ItemFault>
    requires open { K.is_open keeper.old ≡ true }
    requires stands { Stands (K.tables keeper.old (K.open_name keeper.old)) packages.old }
    requires can { IfSome held (λ p. IsWellPackage p × (package_of packages.old p.path ≡ None)) }
    ensures packages { OnOk result (packages.new ≡ with_package packages.old held) }
    ensures stands { OnOk result (Stands (K.tables keeper.new (K.open_name keeper.old)) packages.new) }
    ensures open { (K.is_open keeper.new ≡ true) × (K.open_name keeper.new ≡ K.open_name keeper.old) }
    ensures told { IsSome (K.tables keeper.old (K.open_name keeper.old)) → IsSome (K.tables keeper.new (K.open_name keeper.old)) }
    ensures others { (other : List ℕ) → other ≢ K.open_name keeper.old → K.tables keeper.new other ≡ K.tables keeper.old other }
    ensures unstored { OnErr result (K.tables keeper.new ≡ K.tables keeper.old) }
    ensures before { IfErr result (λ fault. IsBeforeCommit fault) }
    ensures undamaged { IfErr result (λ fault. fault ≢ ItemFault.Damaged) }
    ensures store { IsErrOf result ItemFault.Store → Rose (K.faults keeper.old) (K.faults keeper.new) }
    ensures later { K.faults keeper.old ≤ K.faults keeper.new }
{
    let Some(held) = held else {
        return Ok(());
    };
    match add_package(alloc, keeper, packages, held) {
        Ok(()) => Ok(()),
        Err(fault) => Err(fault_of(fault)),
    }
}

// The text of a call is made, then the values are stored, and then the text is written.
fn finish_call<K: Keeper, O: Sink>(
    alloc: Global,
    keeper: &mut K,
    out: &mut O,
    packages: &mut Packages,
    done: u64,
    item: &Item,
    path: &[u8],
    called: Called,
) -> Result<Ran, ItemFault>
    requires open { K.is_open keeper.old ≡ true }
    requires stands { Stands (K.tables keeper.old (K.open_name keeper.old)) packages.old }
    requires count { done + 1 < 2 ^ 64 }
    requires can { CanStore packages.old path.now called }

    ensures shows { IfOk result (λ ran. Shows (O.holds out.old) (O.holds out.new) ran (shown done item.now called.reply (with_new_values packages.old path.now called.values))) }
    ensures packages { OnOk result (packages.new ≡ with_new_values packages.old path.now called.values) }
    ensures stands { OnOk result (Stands (K.tables keeper.new (K.open_name keeper.old)) packages.new) }
    ensures open { OnOk result ((K.is_open keeper.new ≡ true) × (K.open_name keeper.new ≡ K.open_name keeper.old)) }

    ensures told { IsSome (K.tables keeper.old (K.open_name keeper.old)) → IsSome (K.tables keeper.new (K.open_name keeper.old)) }
    ensures others { (other : List ℕ) → other ≢ K.open_name keeper.old → K.tables keeper.new other ≡ K.tables keeper.old other }

    ensures broken { IsErrOf result ItemFault.Write → BreaksOff (O.holds out.old) (O.holds out.new) (K.tables keeper.new (K.open_name keeper.old)) (shown done item.now called.reply (with_new_values packages.old path.now called.values)) }
    ensures undamaged { IfErr result (λ fault. fault ≢ ItemFault.Damaged) }
    ensures unwritten { IfErr result (λ fault. IsBeforeCommit fault → O.holds out.new ≡ O.holds out.old) }
    ensures unstored { IfErr result (λ fault. IsBeforeCommit fault → K.tables keeper.new ≡ K.tables keeper.old) }
    ensures store { IsErrOf result ItemFault.Store → Rose (K.faults keeper.old) (K.faults keeper.new) }
    ensures write { IsErrOf result ItemFault.Write → CutsShort (O.faults out.old) (O.faults out.new) (O.zero_writes out.old) (O.zero_writes out.new) }
    ensures later { K.faults keeper.old ≤ K.faults keeper.new }
    ensures later_out { O.faults out.old ≤ O.faults out.new }
    ensures later_zero { O.zero_writes out.old ≤ O.zero_writes out.new }
{
    let Called { reply, values } = called;
    let Ok(text) = item_text(alloc, done + 1, item, &reply) else {
        return Err(ItemFault::NoMemory);
    };
    let good = is_ok(&reply.end);
    commit_called(alloc, keeper, packages, path, values)?;
    write_text(out, text.as_slice())?;
    Ok(Ran {
        good,
        done: done + 1,
    })
}

fn commit_called<K: Keeper>(
    alloc: Global,
    keeper: &mut K,
    packages: &mut Packages,
    path: &[u8],
    values: Option<List<Whole>>,
) -> Result<(), ItemFault>
    requires open { K.is_open keeper.old ≡ true }
    requires stands { Stands (K.tables keeper.old (K.open_name keeper.old)) packages.old }
    requires can { IfSome values (λ vs. IfSome (package_of packages.old path.now) (λ p. CanHave p vs) × IsSome (package_of packages.old path.now)) }
    ensures packages { OnOk result (packages.new ≡ with_new_values packages.old path.now values) }
    ensures stands { OnOk result (Stands (K.tables keeper.new (K.open_name keeper.old)) packages.new) }
    ensures open { (K.is_open keeper.new ≡ true) × (K.open_name keeper.new ≡ K.open_name keeper.old) }
    ensures told { IsSome (K.tables keeper.old (K.open_name keeper.old)) → IsSome (K.tables keeper.new (K.open_name keeper.old)) }
    ensures others { (other : List ℕ) → other ≢ K.open_name keeper.old → K.tables keeper.new other ≡ K.tables keeper.old other }
    ensures unstored { OnErr result (K.tables keeper.new ≡ K.tables keeper.old) }
    ensures before { IfErr result (λ fault. IsBeforeCommit fault) }
    ensures undamaged { IfErr result (λ fault. fault ≢ ItemFault.Damaged) }
    ensures store { IsErrOf result ItemFault.Store → Rose (K.faults keeper.old) (K.faults keeper.new) }
    ensures later { K.faults keeper.old ≤ K.faults keeper.new }
{
    let Some(values) = values else {
        return Ok(());
    };
    match store_values(alloc, keeper, packages, path, values) {
        Ok(()) => Ok(()),
        Err(fault) => Err(fault_of(fault)),
    }
}

fn fault_of(fault: KeepFault) -> ItemFault
    ensures before { IsBeforeCommit result }
    ensures undamaged { result ≢ ItemFault.Damaged }
    ensures failed { fault ≡ KeepFault.Failed → result ≡ ItemFault.Store }
    ensures store { result ≡ ItemFault.Store → fault ≡ KeepFault.Failed }
{
    match fault {
        KeepFault::Failed => ItemFault::Store,
        KeepFault::NoMemory => ItemFault::NoMemory,
    }
}

fn is_ok(end: &End) -> bool
    ensures { result ≡ is_ok end.now }
{
    matches!(end, End::Ok(_))
}

fn write_text<O: Sink>(out: &mut O, text: &[u8]) -> Result<(), ItemFault>
    ensures written { OnOk result (Gained (O.holds out.old) (O.holds out.new) text.now) }
    ensures part { OnErr result (GainedPart (O.holds out.old) (O.holds out.new) text.now) }
    ensures fault { IfErr result (λ fault. fault ≡ ItemFault.Write) }
    ensures cut { OnErr result (CutsShort (O.faults out.old) (O.faults out.new) (O.zero_writes out.old) (O.zero_writes out.new)) }
    ensures later { O.faults out.old ≤ O.faults out.new }
    ensures later_zero { O.zero_writes out.old ≤ O.zero_writes out.new }
{
    match write_all(out, text) {
        Ok(()) => Ok(()),
        Err(_) => Err(ItemFault::Write),
    }
}

// Closes the table, opens it again and reads all its rows.
fn reload<K: Keeper>(
    alloc: Global,
    keeper: &mut K,
    packages: &mut Packages,
    name: &[u8],
) -> Result<(), ItemFault>
    requires stands { Stands (K.tables keeper.old name.now) packages.old }
    ensures packages { OnOk result (IsSome (K.tables keeper.old name.now) → packages.new ≡ packages.old) }
    ensures stands { OnOk result (Stands (K.tables keeper.new name.now) packages.new) }
    ensures open { OnOk result ((K.is_open keeper.new ≡ true) × (K.open_name keeper.new ≡ name.now)) }
    ensures tables { K.tables keeper.new ≡ K.tables keeper.old }
    ensures before { IfErr result (λ fault. IsBeforeCommit fault) }
    ensures undamaged { IsErrOf result ItemFault.Damaged → IsSome (K.tables keeper.old name.now) → ⊥ }
    ensures store { IsErrOf result ItemFault.Store → Rose (K.faults keeper.old) (K.faults keeper.new) }
    ensures later { K.faults keeper.old ≤ K.faults keeper.new }
{
    keeper.close();
    match keeper.open(alloc, name) {
        Ok(()) => {}
        Err(fault) => return Err(fault_of(fault)),
    }
    match load(alloc, keeper) {
        Ok(loaded) => {
            *packages = loaded;
            Ok(())
        }
        Err(LoadFault::Failed) => Err(ItemFault::Store),
        Err(LoadFault::Damaged) => Err(ItemFault::Damaged),
        Err(LoadFault::NoMemory) => Err(ItemFault::NoMemory),
    }
}
