// Changes that are gathered for a batch.
ghost use Rattle.std.specs.Prelude.{◌≡◌, ℕ, List as list, Option, [], ◌∷◌, ◌++◌, IfOk, OnOk, OnErr};
ghost use Rattle.gno_port.specs.Tables.{IsRising, latest};

use crate::{Batch, Change};
use gno_base::{Bytes, List};
use std::alloc::{AllocError, Global};
use std::collections::BTreeMap;
use std::marker::Model;

/// Changes of a table, the latest of each key, in the order of the keys.
#[derive(Drop)]
pub struct Changes {
    values: BTreeMap<Vec<u8>, Option<Bytes>>,
}

impl Model for Changes {
    ghost use Rattle.std.specs.Prelude.{List as list};
    ghost use Rattle.gno_port.specs.declared.keeper.Change.{Change};
    ghost use Rattle.gno_port.specs.Changes.{changes_of};

    ghost Value = { list Change };

    ghost view = { λ it. changes_of it.values.entries };
}

impl Changes {
    /// No changes.
    pub fn new(alloc: Global) -> Changes
        ensures { result ≡ [] }
    {
        Changes {
            values: BTreeMap::new(alloc),
        }
    }

    /// Adds a change, in place of an earlier one of its key. After an error the changes are what they were.
    pub fn put(&mut self, key: Bytes, value: Option<Bytes>) -> Result<(), AllocError>
        ensures ok { OnOk result ((at : list ℕ) (before : Option (list ℕ)) → latest self.new at before ≡ latest (self.old ++ (record { key = key; value = value }) ∷ []) at before) }
        ensures err { OnErr result (self.new ≡ self.old) }
    {
        match self.values.insert(key.into_vec(), value) {
            Ok(_) => Ok(()),
            Err(_) => Err(AllocError),
        }
    }

    /// The batch of them.
    pub fn into_batch(self, alloc: Global) -> Result<Batch, AllocError>
        ensures changes { IfOk result (λ batch. batch.changes ≡ self) }
        ensures rising { IfOk result (λ batch. IsRising batch.changes) }
    {
        let Changes { values } = self;
        let mut changes = List::<Change>::new(alloc);
        for (key, value) in values {
            changes.push(Change {
                key: Bytes::from_vec(key),
                value,
            })?;
        }
        Ok(Batch { changes })
    }
}
