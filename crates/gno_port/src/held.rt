// The tables that a keeper in memory holds.
ghost use Rattle.std.specs.Prelude.{◌≡◌, ℕ, List as list, IfOk, OnOk, OnErr, IsTrue, ◌↔◌, Some, None, IsSome};
ghost use Rattle.std.specs.FinMap.{empty, get};
ghost use Rattle.gno_port.specs.Keeping.{IsNextKey};
ghost use Rattle.gno_port.specs.Rows.{rows_table};
ghost use Rattle.gno_port.specs.Tables.{Table, IsRising, applied};
ghost use Rattle.gno_port.specs.HeldTables.{row_changes, given_table, shelved, found_or, desk_or, table_of, desk_name};

use crate::Change;
use crate::rows::{Rows, apply_to, insert_row, key_after, value_of};
use gno_base::{Bytes, List};
use std::alloc::{AllocError, Global};
use std::collections::BTreeMap;

/// A table that a keeper in memory begins with.
#[derive(Drop)]
pub struct KeptTable {
    pub name: Bytes,
    pub rows: List<KeptRow>,
}

/// One of its rows.
#[derive(Drop)]
pub struct KeptRow {
    pub key: Bytes,
    pub value: Bytes,
}

// A table that was opened.
#[derive(Drop)]
pub(crate) struct HeldTable {
    pub(crate) name: Vec<u8>,
    pub(crate) rows: Rows,
}

// The tables as they were given, those of them that were opened since, and the one that was opened last.
#[derive(Drop)]
pub(crate) struct HeldTables {
    given: List<KeptTable>,
    shelf: BTreeMap<Vec<u8>, Rows>,
    pub(crate) desk: Option<HeldTable>,
}

impl HeldTables {
    pub(crate) fn new(given: List<KeptTable>) -> HeldTables
        ensures tables { (name : list ℕ) → table_of result name ≡ given_table given name }
        ensures desk { result.desk ≡ None }
    {
        let given = given.into_vec();
        let shelf = BTreeMap::new(*given.allocator());
        HeldTables {
            given: List::from_vec(given),
            shelf,
            desk: None,
        }
    }

    // Brings the table of a name to the desk. After an error the one that was there still is.
    pub(crate) fn bring(&mut self, alloc: Global, name: &[u8]) -> Result<(), AllocError>
        ensures tables { (other : list ℕ) → table_of self.new other ≡ table_of self.old other }
        ensures ok { OnOk result (desk_name self.new.desk ≡ Some name.now) }
        ensures err { OnErr result (desk_name self.new.desk ≡ desk_name self.old.desk) }
    {
        if is_named(&self.desk, name) {
            return Ok(());
        }
        let fresh = self.given_unless_shelved(alloc, name)?;
        let name = Vec::from_slice(alloc, name)?;
        put_back(&mut self.desk, &mut self.shelf)?;
        let rows = self.shelf.remove(name.as_slice()).unwrap_or(fresh);
        self.desk = Some(HeldTable { name, rows });
        Ok(())
    }

    // The value of a key of the table on the desk.
    pub(crate) fn get(&self, alloc: Global, key: &[u8]) -> Result<Option<Bytes>, AllocError>
        ensures { IfOk result (λ found. (name : list ℕ) → desk_name self.now.desk ≡ Some name → found ≡ get (table_of self.now name) key.now) }
    {
        match &self.desk {
            Some(held) => value_of(alloc, &held.rows, key),
            None => Ok(None),
        }
    }

    // The least key of the table on the desk that is greater than the given one.
    pub(crate) fn after(&self, alloc: Global, key: &[u8]) -> Result<Option<Bytes>, AllocError>
        ensures { IfOk result (λ next. (name : list ℕ) → desk_name self.now.desk ≡ Some name → IsNextKey (table_of self.now name) key.now next) }
    {
        match &self.desk {
            Some(held) => key_after(alloc, &held.rows, key),
            None => Ok(None),
        }
    }

    // Makes all the changes in the table on the desk, or none.
    pub(crate) fn apply(&mut self, alloc: Global, changes: &[Change]) -> Result<(), AllocError>
        requires { IsRising changes.now }
        ensures ok { OnOk result ((name : list ℕ) → desk_name self.old.desk ≡ Some name → table_of self.new name ≡ applied changes.now (table_of self.old name)) }
        ensures others { OnOk result ((name : list ℕ) → (desk_name self.old.desk ≡ Some name → ⊥) → table_of self.new name ≡ table_of self.old name) }
        ensures err { OnErr result ((name : list ℕ) → table_of self.new name ≡ table_of self.old name) }
        ensures desk { desk_name self.new.desk ≡ desk_name self.old.desk }
    {
        match &mut self.desk {
            Some(held) => apply_to(alloc, &mut held.rows, changes),
            None => Ok(()),
        }
    }

    // The rows that were given under a name. They stay unread where the table stands on the shelf.
    fn given_unless_shelved(&self, alloc: Global, name: &[u8]) -> Result<Rows, AllocError>
        ensures { IfOk result (λ rows. shelved self.now.shelf name.now ≡ None → rows_table rows ≡ given_table self.now.given name.now) }
    {
        if self.shelf.contains_key(name) {
            return Ok(BTreeMap::new(alloc));
        }
        given_rows(alloc, self.given.as_slice(), name)
    }
}

fn is_named(desk: &Option<HeldTable>, name: &[u8]) -> bool
    ensures { IsTrue result ↔ (desk_name desk.now ≡ Some name.now) }
{
    match desk {
        Some(held) => held.name.as_slice() == name,
        None => false,
    }
}

fn given_rows(alloc: Global, given: &[KeptTable], name: &[u8]) -> Result<Rows, AllocError>
    ensures { IfOk result (λ rows. rows_table rows ≡ given_table given.now name.now) }
{
    for table in given {
        if name == table.name.as_slice() {
            return rows_of(alloc, table.rows.as_slice());
        }
    }
    Ok(BTreeMap::new(alloc))
}

fn rows_of(alloc: Global, rows: &[KeptRow]) -> Result<Rows, AllocError>
    ensures { IfOk result (λ made. rows_table made ≡ applied (row_changes rows.now) empty) }
{
    let mut made = BTreeMap::new(alloc);
    for row in rows {
        let key = Vec::from_slice(alloc, row.key.as_slice())?;
        insert_row(
            &mut made,
            key,
            Bytes::from_slice(alloc, row.value.as_slice())?,
        )?;
    }
    Ok(made)
}

// Puts the table on the desk back on the shelf. After an error it still lies on the desk.
fn put_back(
    desk: &mut Option<HeldTable>,
    shelf: &mut BTreeMap<Vec<u8>, Rows>,
) -> Result<(), AllocError>
    ensures ok { OnOk result (desk.new ≡ None) }
    ensures err { OnErr result (desk_name desk.new ≡ desk_name desk.old) }
    ensures same { (name : list ℕ) (given : Table) → desk_or desk.new name (found_or (shelved shelf.new name) given) ≡ desk_or desk.old name (found_or (shelved shelf.old name) given) }
    ensures others { (name : list ℕ) → (desk_name desk.old ≡ Some name → ⊥) → shelved shelf.new name ≡ shelved shelf.old name }
{
    let Some(held) = desk.take() else {
        return Ok(());
    };
    let HeldTable { name, rows } = held;
    match shelf.insert(name, rows) {
        Ok(_) => Ok(()),
        Err(refused) => {
            let (name, rows) = refused.value;
            *desk = Some(HeldTable { name, rows });
            Err(AllocError)
        }
    }
}
