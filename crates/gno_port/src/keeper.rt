// A keeper of tables of rows.
ghost use Rattle.std.specs.Prelude.{◌≡◌, ◌≤◌, ◌+◌, ◌-◌, ◌^◌, min, Bool, true, false, List, ℕ, length, Option, IfOk, OnOk, OnErr, IsErrOf};
ghost use Rattle.gno_port.specs.Causes.{Rose};
ghost use Rattle.gno_port.specs.Tables.{Table, IsRising};
ghost use Rattle.gno_port.specs.Keeping.{Gets, NextKey, Puts};

use gno_base::{Bytes, List};
use std::alloc::Global;

/// Why a keeper didn't do what it was asked.
#[derive(Clone, Copy, Debug, PartialEq, Eq)]
pub enum KeepFault {
    /// The device failed, and its count of faults rose.
    Failed,
    /// There was no memory for the answer or the change.
    NoMemory,
}

/// Changes that are made together.
#[derive(Drop)]
pub struct Batch {
    pub changes: List<Change>,
}

/// A key's new value, or that it goes.
#[derive(Drop)]
pub struct Change {
    pub key: Bytes,
    pub value: Option<Bytes>,
}

/// What keeps tables of rows, one of them open at a time.
pub trait Keeper {
    /// The tables by their names, each where the keeper tells it. A table that was never written is empty.
    ghost tables: { Self → List ℕ → Option Table };

    /// Whether a table is open.
    ghost is_open: { Self → Bool };

    /// The open table's name.
    ghost open_name: { Self → List ℕ };

    /// How often it failed.
    ghost faults: { Self → ℕ };

    /// How often a row was asked for.
    ghost gets: { Self → ℕ };

    /// How many changes were made.
    ghost changes: { Self → ℕ };

    /// Opens a table. A new name gives an empty one.
    fn open(&mut self, alloc: Global, name: &[u8]) -> Result<(), KeepFault>
        ensures ok { OnOk result ((is_open self.new ≡ true) × (open_name self.new ≡ name.now)) }
        ensures err { OnErr result ((is_open self.new ≡ is_open self.old) × (open_name self.new ≡ open_name self.old)) }
        ensures tables { tables self.new ≡ tables self.old }
        ensures counts { (gets self.new ≡ gets self.old) × (changes self.new ≡ changes self.old) }
        ensures cause { IsErrOf result KeepFault.Failed → Rose (faults self.old) (faults self.new) }
        ensures later { faults self.old ≤ faults self.new };

    /// The value of a key of the open table, if it has one.
    fn get(&mut self, alloc: Global, key: &[u8]) -> Result<Option<Bytes>, KeepFault>
        requires { is_open self.old ≡ true }
        ensures value { IfOk result (λ found. Gets (tables self.old (open_name self.old)) key.now found) }
        ensures tables { tables self.new ≡ tables self.old }
        ensures open { (is_open self.new ≡ true) × (open_name self.new ≡ open_name self.old) }
        ensures counts { (gets self.new ≡ min (gets self.old + 1) (2 ^ 64 - 1)) × (changes self.new ≡ changes self.old) }
        ensures cause { IsErrOf result KeepFault.Failed → Rose (faults self.old) (faults self.new) }
        ensures later { faults self.old ≤ faults self.new };

    /// The least key of the open table that is greater than the given one, if there is one.
    fn after(&mut self, alloc: Global, key: &[u8]) -> Result<Option<Bytes>, KeepFault>
        requires { is_open self.old ≡ true }
        ensures key { IfOk result (λ next. NextKey (tables self.old (open_name self.old)) key.now next) }
        ensures tables { tables self.new ≡ tables self.old }
        ensures open { (is_open self.new ≡ true) × (open_name self.new ≡ open_name self.old) }
        ensures counts { (gets self.new ≡ gets self.old) × (changes self.new ≡ changes self.old) }
        ensures cause { IsErrOf result KeepFault.Failed → Rose (faults self.old) (faults self.new) }
        ensures later { faults self.old ≤ faults self.new };

    /// Makes all the changes in the open table, or after an error none. Their keys rise.
    fn apply(&mut self, alloc: Global, batch: &Batch) -> Result<(), KeepFault>
        requires open { is_open self.old ≡ true }
        requires rising { IsRising batch.now.changes }
        ensures ok { OnOk result (Puts (tables self.old) (tables self.new) (open_name self.old) batch.now.changes) }
        ensures count { OnOk result (changes self.new ≡ min (changes self.old + length batch.now.changes) (2 ^ 64 - 1)) }
        ensures err { OnErr result ((tables self.new ≡ tables self.old) × (changes self.new ≡ changes self.old)) }
        ensures open { (is_open self.new ≡ true) × (open_name self.new ≡ open_name self.old) }
        ensures gets { gets self.new ≡ gets self.old }
        ensures cause { IsErrOf result KeepFault.Failed → Rose (faults self.old) (faults self.new) }
        ensures later { faults self.old ≤ faults self.new };

    /// Closes the open table.
    fn close(&mut self)
        ensures closed { is_open self.new ≡ false }
        ensures tables { tables self.new ≡ tables self.old }
        ensures counts { (gets self.new ≡ gets self.old) × (changes self.new ≡ changes self.old) }
        ensures later { faults self.old ≤ faults self.new };
}
