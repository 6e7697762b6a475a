// The rows of a table in memory.
ghost use Rattle.std.specs.Prelude.{◌≡◌, OnOk, OnErr, IfOk, IsSome, Some, None, is_none};
ghost use Rattle.std.specs.FinMap.{get};
ghost use Rattle.gno_port.specs.Keeping.{IsNextKey};
ghost use Rattle.gno_port.specs.Tables.{IsRising, applied, put};
ghost use Rattle.gno_port.specs.Rows.{rows_table, fresh_keys, removals, blanks, HasRoom};

use crate::Change;
use gno_base::{Bytes, List};
use std::alloc::{AllocError, Global};
use std::collections::BTreeMap;
use std::ops::Bound;

pub(crate) type Rows = BTreeMap<Vec<u8>, Bytes>;

// The value of a key.
#[tactic(auto, using(crate::proofs::RowLemmas::get_rows))]
pub(crate) fn value_of(alloc: Global, rows: &Rows, key: &[u8]) -> Result<Option<Bytes>, AllocError>
    ensures { IfOk result (λ found. found ≡ get (rows_table rows.now) key.now) }
{
    match rows.get(key) {
        Some(value) => Ok(Some(Bytes::from_slice(alloc, value.as_slice())?)),
        None => Ok(None),
    }
}

// The least key above another one.
pub(crate) fn key_after(alloc: Global, rows: &Rows, key: &[u8]) -> Result<Option<Bytes>, AllocError>
    ensures { IfOk result (λ next. IsNextKey (rows_table rows.now) key.now next) }
{
    let start = Vec::from_slice(alloc, key)?;
    let mut above = rows.range((Bound::Excluded(&start), Bound::Unbounded));
    match above.next() {
        Some((next, _)) => Ok(Some(Bytes::from_slice(alloc, next.as_slice())?)),
        None => Ok(None),
    }
}

// Makes all the changes, or none.
pub(crate) fn apply_to(alloc: Global, rows: &mut Rows, changes: &[Change]) -> Result<(), AllocError>
    requires { IsRising changes.now }
    ensures ok { OnOk result (rows_table rows.new ≡ applied changes.now (rows_table rows.old)) }
    ensures err { OnErr result (rows_table rows.new ≡ rows_table rows.old) }
{
    let copies = copies_of(alloc, changes)?;
    make_room(alloc, rows, changes)?;
    put_all(rows, copies);
    Ok(())
}

fn copies_of(alloc: Global, changes: &[Change]) -> Result<List<Change>, AllocError>
    ensures { IfOk result (λ copies. copies ≡ changes.now) }
{
    let mut copies = List::<Change>::new(alloc);
    for change in changes {
        copies.push(Change {
            key: Bytes::from_slice(alloc, change.key.as_slice())?,
            value: copy_of(alloc, &change.value)?,
        })?;
    }
    Ok(copies)
}

fn copy_of(alloc: Global, value: &Option<Bytes>) -> Result<Option<Bytes>, AllocError>
    ensures { IfOk result (λ copy. copy ≡ value.now) }
{
    match value {
        Some(bytes) => Ok(Some(Bytes::from_slice(alloc, bytes.as_slice())?)),
        None => Ok(None),
    }
}

// Brings in each key that the changes give a value. After that they take no memory.
#[tactic(auto, using(crate::proofs::FreshKeys::fresh_applied, crate::proofs::FreshKeys::fresh_removed, crate::proofs::FreshKeys::fresh_room))]
fn make_room(alloc: Global, rows: &mut Rows, changes: &[Change]) -> Result<(), AllocError>
    requires { IsRising changes.now }
    ensures same { OnOk result (applied changes.now (rows_table rows.new) ≡ applied changes.now (rows_table rows.old)) }
    ensures room { OnOk result (HasRoom changes.now (rows_table rows.new)) }
    ensures err { OnErr result (rows_table rows.new ≡ rows_table rows.old) }
{
    let keys = new_keys(alloc, rows, changes)?;
    match add_empty(alloc, rows, keys.as_slice()) {
        Ok(()) => Ok(()),
        Err(AllocError) => {
            take_out(rows, keys.as_slice());
            Err(AllocError)
        }
    }
}

// The keys that the changes give a value and that the rows lack.
fn new_keys(alloc: Global, rows: &Rows, changes: &[Change]) -> Result<List<Bytes>, AllocError>
    ensures { IfOk result (λ keys. keys ≡ fresh_keys (rows_table rows.now) changes.now) }
{
    let mut keys = List::<Bytes>::new(alloc);
    for change in changes {
        if change.value.is_some() && is_absent(rows, change.key.as_slice()) {
            keys.push(Bytes::from_slice(alloc, change.key.as_slice())?)?;
        }
    }
    Ok(keys)
}

#[tactic(auto, using(crate::proofs::RowLemmas::get_rows))]
fn is_absent(rows: &Rows, key: &[u8]) -> bool
    ensures { result ≡ is_none (get (rows_table rows.now) key.now) }
{
    rows.get(key).is_none()
}

// Gives each key an empty value. After an error some of them may have one.
fn add_empty(alloc: Global, rows: &mut Rows, keys: &[Bytes]) -> Result<(), AllocError>
    ensures ok { OnOk result (rows_table rows.new ≡ applied (blanks keys.now) (rows_table rows.old)) }
    ensures others { applied (removals keys.now) (rows_table rows.new) ≡ applied (removals keys.now) (rows_table rows.old) }
{
    for key in keys {
        insert_row(
            rows,
            Vec::from_slice(alloc, key.as_slice())?,
            Bytes::new(alloc),
        )?;
    }
    Ok(())
}

fn take_out(rows: &mut Rows, keys: &[Bytes])
    ensures { rows_table rows.new ≡ applied (removals keys.now) (rows_table rows.old) }
{
    for key in keys {
        remove_row(rows, key.as_slice());
    }
}

// Makes all the changes, where each finds its key. It takes no memory.
fn put_all(rows: &mut Rows, changes: List<Change>)
    requires { HasRoom changes (rows_table rows.old) }
    ensures { rows_table rows.new ≡ applied changes (rows_table rows.old) }
{
    for change in changes.into_vec() {
        put_one(rows, change);
    }
}

fn put_one(rows: &mut Rows, change: Change)
    requires { IsSome change.value → IsSome (get (rows_table rows.old) change.key) }
    ensures { rows_table rows.new ≡ put (rows_table rows.old) change.key change.value }
{
    let Change { key, value } = change;
    match value {
        // The key is there, so this wants no memory.
        Some(value) => {
            let _ = insert_row(rows, key.into_vec(), value);
        }
        None => remove_row(rows, key.as_slice()),
    }
}

// Puts a row in the place of the key's. Only a new key can want memory.
#[tactic(auto, using(crate::proofs::RowLemmas::rows_updated, crate::proofs::RowLemmas::rows_same, crate::proofs::RowLemmas::get_rows))]
pub(crate) fn insert_row(rows: &mut Rows, key: Vec<u8>, value: Bytes) -> Result<(), AllocError>
    ensures ok { OnOk result (rows_table rows.new ≡ put (rows_table rows.old) key.items (Some value)) }
    ensures err { OnErr result (rows_table rows.new ≡ rows_table rows.old) }
    ensures absent { OnErr result (get (rows_table rows.old) key.items ≡ None) }
{
    match rows.insert(key, value) {
        Ok(_) => Ok(()),
        Err(_) => Err(AllocError),
    }
}

#[tactic(auto, using(crate::proofs::RowLemmas::rows_updated))]
fn remove_row(rows: &mut Rows, key: &[u8])
    ensures { rows_table rows.new ≡ put (rows_table rows.old) key.now None }
{
    rows.remove(key);
}
