// A keeper in memory.
ghost use Rattle.std.specs.Prelude.{◌≡◌, ◌≤◌, ◌+◌, ◌-◌, ◌^◌, ◌↔◌, min, true, false, ℕ, List as list, length, IfOk, OnOk, OnErr, IsErrOf};
ghost use Rattle.gno_port.specs.Causes.{Rose};
ghost use Rattle.gno_port.specs.Failing.{next_number};
ghost use Rattle.gno_port.specs.HeldTables.{given_table};
ghost use Rattle.gno_port.specs.Keeping.{Gets, NextKey, Puts};
ghost use Rattle.gno_port.specs.MemoryKeeper.{kept_table, told, has_open, last_opened, keeper_faults, keeper_gets, keeper_changes, keeper_fails, opens, afters, applies, FailsNextOpen, FailsNextGet, FailsNextAfter, FailsNextApply};
ghost use Rattle.gno_port.specs.Tables.{IsRising};

use crate::failing::is_to_fail;
use crate::held::{HeldTables, KeptTable};
use crate::{Batch, Called, FailAt, KeepFault, Keeper};
use gno_base::{Bytes, List};
use std::alloc::Global;

/// A keeper whose tables stand in memory. `get` and `after` take time in the logarithm of the table's rows,
/// and `apply` that for each change.
#[derive(Drop)]
pub struct MemoryKeeper {
    tables: HeldTables,
    is_open: bool,

    fails: List<FailAt>,
    faults: u64,

    // How often each method was called.
    opens: u64,
    gets: u64,
    afters: u64,
    applies: u64,

    // How many changes were made.
    changes: u64,
}

impl MemoryKeeper {
    /// A keeper of these tables, with none open. Of two tables with one name the first counts, and of two rows
    /// with one key the last. The calls that `fails` names will fail.
    pub fn new(tables: List<KeptTable>, fails: List<FailAt>) -> MemoryKeeper
        ensures tables { (name : list ℕ) → kept_table result name ≡ given_table tables name }
        ensures closed { has_open result ≡ false }
        ensures fails { keeper_fails result ≡ fails }
        ensures counts { (keeper_gets result ≡ 0) × (keeper_changes result ≡ 0) × (keeper_faults result ≡ 0) }
        ensures calls { (opens result ≡ 0) × (afters result ≡ 0) × (applies result ≡ 0) }
    {
        MemoryKeeper {
            tables: HeldTables::new(tables),
            is_open: false,
            fails,
            faults: 0,
            opens: 0,
            gets: 0,
            afters: 0,
            applies: 0,
            changes: 0,
        }
    }

    /// How often a row was asked for.
    pub fn gets(&self) -> u64
        ensures { result ≡ keeper_gets self.now }
    {
        self.gets
    }

    /// How many changes were made.
    pub fn changes(&self) -> u64
        ensures { result ≡ keeper_changes self.now }
    {
        self.changes
    }
}

impl Keeper for MemoryKeeper {
    ghost use Rattle.gno_port.specs.MemoryKeeper.{told, has_open, last_opened, keeper_faults, keeper_gets, keeper_changes};

    ghost tables = { told };

    ghost is_open = { has_open };

    ghost open_name = { last_opened };

    ghost faults = { keeper_faults };

    ghost gets = { keeper_gets };

    ghost changes = { keeper_changes };

    fn open(&mut self, alloc: Global, name: &[u8]) -> Result<(), KeepFault>
        ensures ok { OnOk result ((has_open self.new ≡ true) × (last_opened self.new ≡ name.now)) }
        ensures err { OnErr result ((has_open self.new ≡ has_open self.old) × (last_opened self.new ≡ last_opened self.old)) }
        ensures tables { told self.new ≡ told self.old }
        ensures counts { (keeper_gets self.new ≡ keeper_gets self.old) × (keeper_changes self.new ≡ keeper_changes self.old) }
        ensures cause { IsErrOf result KeepFault.Failed → Rose (keeper_faults self.old) (keeper_faults self.new) }
        ensures later { keeper_faults self.old ≤ keeper_faults self.new }

        // It fails exactly where it is to.
        ensures failed { IsErrOf result KeepFault.Failed ↔ FailsNextOpen self.old }
        ensures fails { keeper_fails self.new ≡ keeper_fails self.old }
        ensures calls { (opens self.new ≡ next_number (opens self.old)) × (afters self.new ≡ afters self.old) × (applies self.new ≡ applies self.old) }
    {
        self.opens = self.opens.saturating_add(1);
        if is_to_fail(self.fails.as_slice(), Called::Open, self.opens) {
            self.faults = self.faults.saturating_add(1);
            return Err(KeepFault::Failed);
        }
        let Ok(()) = self.tables.bring(alloc, name) else {
            return Err(KeepFault::NoMemory);
        };
        self.is_open = true;
        Ok(())
    }

    fn get(&mut self, alloc: Global, key: &[u8]) -> Result<Option<Bytes>, KeepFault>
        requires { has_open self.old ≡ true }
        ensures value { IfOk result (λ found. Gets (told self.old (last_opened self.old)) key.now found) }
        ensures tables { told self.new ≡ told self.old }
        ensures open { (has_open self.new ≡ true) × (last_opened self.new ≡ last_opened self.old) }
        ensures counts { (keeper_gets self.new ≡ min (keeper_gets self.old + 1) (2 ^ 64 - 1)) × (keeper_changes self.new ≡ keeper_changes self.old) }
        ensures cause { IsErrOf result KeepFault.Failed → Rose (keeper_faults self.old) (keeper_faults self.new) }
        ensures later { keeper_faults self.old ≤ keeper_faults self.new }

        // It fails exactly where it is to.
        ensures failed { IsErrOf result KeepFault.Failed ↔ FailsNextGet self.old }
        ensures fails { keeper_fails self.new ≡ keeper_fails self.old }
        ensures calls { (opens self.new ≡ opens self.old) × (afters self.new ≡ afters self.old) × (applies self.new ≡ applies self.old) }
    {
        self.gets = self.gets.saturating_add(1);
        if is_to_fail(self.fails.as_slice(), Called::Get, self.gets) {
            self.faults = self.faults.saturating_add(1);
            return Err(KeepFault::Failed);
        }
        let Ok(found) = self.tables.get(alloc, key) else {
            return Err(KeepFault::NoMemory);
        };
        Ok(found)
    }

    fn after(&mut self, alloc: Global, key: &[u8]) -> Result<Option<Bytes>, KeepFault>
        requires { has_open self.old ≡ true }
        ensures key { IfOk result (λ next. NextKey (told self.old (last_opened self.old)) key.now next) }
        ensures tables { told self.new ≡ told self.old }
        ensures open { (has_open self.new ≡ true) × (last_opened self.new ≡ last_opened self.old) }
        ensures counts { (keeper_gets self.new ≡ keeper_gets self.old) × (keeper_changes self.new ≡ keeper_changes self.old) }
        ensures cause { IsErrOf result KeepFault.Failed → Rose (keeper_faults self.old) (keeper_faults self.new) }
        ensures later { keeper_faults self.old ≤ keeper_faults self.new }

        // It fails exactly where it is to.
        ensures failed { IsErrOf result KeepFault.Failed ↔ FailsNextAfter self.old }
        ensures fails { keeper_fails self.new ≡ keeper_fails self.old }
        ensures calls { (opens self.new ≡ opens self.old) × (afters self.new ≡ next_number (afters self.old)) × (applies self.new ≡ applies self.old) }
    {
        self.afters = self.afters.saturating_add(1);
        if is_to_fail(self.fails.as_slice(), Called::After, self.afters) {
            self.faults = self.faults.saturating_add(1);
            return Err(KeepFault::Failed);
        }
        let Ok(next) = self.tables.after(alloc, key) else {
            return Err(KeepFault::NoMemory);
        };
        Ok(next)
    }

    fn apply(&mut self, alloc: Global, batch: &Batch) -> Result<(), KeepFault>
        requires open { has_open self.old ≡ true }
        requires rising { IsRising batch.now.changes }
        ensures ok { OnOk result (Puts (told self.old) (told self.new) (last_opened self.old) batch.now.changes) }
        ensures count { OnOk result (keeper_changes self.new ≡ min (keeper_changes self.old + length batch.now.changes) (2 ^ 64 - 1)) }
        ensures err { OnErr result ((told self.new ≡ told self.old) × (keeper_changes self.new ≡ keeper_changes self.old)) }
        ensures open { (has_open self.new ≡ true) × (last_opened self.new ≡ last_opened self.old) }
        ensures gets { keeper_gets self.new ≡ keeper_gets self.old }
        ensures cause { IsErrOf result KeepFault.Failed → Rose (keeper_faults self.old) (keeper_faults self.new) }
        ensures later { keeper_faults self.old ≤ keeper_faults self.new }

        // It fails exactly where it is to.
        ensures failed { IsErrOf result KeepFault.Failed ↔ FailsNextApply self.old }
        ensures fails { keeper_fails self.new ≡ keeper_fails self.old }
        ensures calls { (opens self.new ≡ opens self.old) × (afters self.new ≡ afters self.old) × (applies self.new ≡ next_number (applies self.old)) }
    {
        self.applies = self.applies.saturating_add(1);
        if is_to_fail(self.fails.as_slice(), Called::Apply, self.applies) {
            self.faults = self.faults.saturating_add(1);
            return Err(KeepFault::Failed);
        }
        let Ok(()) = self.tables.apply(alloc, batch.changes.as_slice()) else {
            return Err(KeepFault::NoMemory);
        };
        self.changes = self.changes.saturating_add(batch.changes.len() as u64);
        Ok(())
    }

    fn close(&mut self)
        ensures closed { has_open self.new ≡ false }
        ensures tables { told self.new ≡ told self.old }
        ensures counts { (keeper_gets self.new ≡ keeper_gets self.old) × (keeper_changes self.new ≡ keeper_changes self.old) }
        ensures later { keeper_faults self.old ≤ keeper_faults self.new }

        // The calls are counted on.
        ensures fails { keeper_fails self.new ≡ keeper_fails self.old }
        ensures calls { (opens self.new ≡ opens self.old) × (afters self.new ≡ afters self.old) × (applies self.new ≡ applies self.old) }
    {
        self.is_open = false;
    }
}
