// Reading all rows of a table.
ghost use Rattle.std.specs.Prelude.{◌≡◌, ◌≤◌, ◌++◌, ◌∷◌, [], true, IfOk, IsErrOf, OnOk};
ghost use Rattle.gno_port.specs.Causes.{Rose};
ghost use Rattle.gno_table.specs.FirstFormat.{Reads};
ghost use Rattle.gno_table.specs.Reading.{AreInOrder, IsRowAdded};

use gno_base::{Bytes, List};
use gno_port::{Change, KeepFault, Keeper};
use std::alloc::Global;

/// All rows of the open table, in the order of their keys. The table stays as it is.
pub(crate) fn read_rows<K: Keeper>(alloc: Global, keeper: &mut K) -> Result<List<Change>, KeepFault>
    requires { K.is_open keeper.old ≡ true }
    ensures rows { IfOk result (λ rows. Reads (K.tables keeper.old (K.open_name keeper.old)) rows) }
    ensures order { IfOk result (λ rows. AreInOrder (K.tables keeper.old (K.open_name keeper.old)) rows) }
    ensures tables { K.tables keeper.new ≡ K.tables keeper.old }
    ensures open { (K.is_open keeper.new ≡ true) × (K.open_name keeper.new ≡ K.open_name keeper.old) }
    ensures cause { IsErrOf result KeepFault.Failed → Rose (K.faults keeper.old) (K.faults keeper.new) }
    ensures later { K.faults keeper.old ≤ K.faults keeper.new }
{
    let mut rows = List::<Change>::new(alloc);
    let mut key = Bytes::new(alloc);
    push_row(alloc, keeper, &mut rows, b"")?;
    for _turn in 0..usize::MAX {
        let Some(next) = keeper.after(alloc, key.as_slice())? else {
            return Ok(rows);
        };
        push_row(alloc, keeper, &mut rows, next.as_slice())?;
        key = next;
    }
    Err(KeepFault::NoMemory)
}

// Adds the row of a key, where the table has one.
fn push_row<K: Keeper>(
    alloc: Global,
    keeper: &mut K,
    rows: &mut List<Change>,
    key: &[u8],
) -> Result<(), KeepFault>
    requires { K.is_open keeper.old ≡ true }
    ensures rows { OnOk result (IsRowAdded (K.tables keeper.old (K.open_name keeper.old)) rows.old key.now rows.new) }
    ensures tables { K.tables keeper.new ≡ K.tables keeper.old }
    ensures open { (K.is_open keeper.new ≡ true) × (K.open_name keeper.new ≡ K.open_name keeper.old) }
    ensures cause { IsErrOf result KeepFault.Failed → Rose (K.faults keeper.old) (K.faults keeper.new) }
    ensures later { K.faults keeper.old ≤ K.faults keeper.new }
{
    let Some(value) = keeper.get(alloc, key)? else {
        return Ok(());
    };
    let Ok(key) = Bytes::from_slice(alloc, key) else {
        return Err(KeepFault::NoMemory);
    };
    let Ok(()) = rows.push(Change {
        key,
        value: Some(value),
    }) else {
        return Err(KeepFault::NoMemory);
    };
    Ok(())
}
