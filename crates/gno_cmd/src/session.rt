// Running the items of a script, one after another.
ghost use Rattle.std.specs.Prelude.{◌≡◌, ◌≢◌, ◌<◌, ◌≤◌, ◌^◌, ◌&&◌, true, ℕ, List, IfOk, IfErr, IsSome, OnOk, IsErrOf, length};
ghost use Rattle.gno_port.specs.Causes.{CutsShort, Rose};
ghost use Rattle.gno_table.specs.FirstFormat.{Stands};
ghost use Rattle.gno_cmd.specs.Headline.{StopsBefore, StopsWithin};
ghost use Rattle.gno_cmd.specs.Performing.{AreNamed, IsBeforeCommit, IsPerformed};

use crate::performing::{ItemFault, perform};
use gno_items::Packages;
use gno_port::{Keeper, Sink};
use gno_script::Item;
use std::alloc::Global;

/// Runs the items on the open table and the packages that it stores, and says whether all ended in results.
pub(crate) fn run_items<K: Keeper, O: Sink>(
    alloc: Global,
    keeper: &mut K,
    out: &mut O,
    packages: &mut Packages,
    name: &[u8],
    items: &[Item],
) -> Result<bool, ItemFault>
    requires open { K.is_open keeper.old ≡ true }
    requires name { K.open_name keeper.old ≡ name.now }
    requires stands { Stands (K.tables keeper.old name.now) packages.old }
    requires count { length items.now < 2 ^ 63 }
    requires named { AreNamed items.now }

    ensures over { IfOk result (λ good. IsSome (K.tables keeper.old name.now) → IsPerformed packages.old items.now (O.holds out.old) (O.holds out.new) (K.tables keeper.new name.now) good) }
    ensures before { IfErr result (λ fault. IsBeforeCommit fault → IsSome (K.tables keeper.old name.now) → StopsBefore packages.old items.now (O.holds out.old) (O.holds out.new) (K.tables keeper.old name.now) (K.tables keeper.new name.now)) }
    ensures within { IsErrOf result ItemFault.Write → IsSome (K.tables keeper.old name.now) → StopsWithin packages.old items.now (O.holds out.old) (O.holds out.new) (K.tables keeper.new name.now) }
    ensures undamaged { IsErrOf result ItemFault.Damaged → IsSome (K.tables keeper.old name.now) → ⊥ }
    ensures told { IsSome (K.tables keeper.old name.now) → IsSome (K.tables keeper.new name.now) }
    ensures others { (other : List ℕ) → other ≢ name.now → K.tables keeper.new other ≡ K.tables keeper.old other }
    ensures store { IsErrOf result ItemFault.Store → Rose (K.faults keeper.old) (K.faults keeper.new) }
    ensures write { IsErrOf result ItemFault.Write → CutsShort (O.faults out.old) (O.faults out.new) (O.zero_writes out.old) (O.zero_writes out.new) }
    ensures later { K.faults keeper.old ≤ K.faults keeper.new }
    ensures later_out { O.faults out.old ≤ O.faults out.new }
    ensures later_zero { O.zero_writes out.old ≤ O.zero_writes out.new }
{
    let mut good = true;
    let mut done = 0;
    for item in items {
        let ran = perform(alloc, keeper, out, packages, name, done, item)?;
        good = both(good, ran.good);
        done = ran.done;
    }
    Ok(good)
}

fn both(a: bool, b: bool) -> bool
    ensures { result ≡ a && b }
{
    a && b
}
