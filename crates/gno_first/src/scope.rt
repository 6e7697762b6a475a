// The names that a file declares.
ghost use Rattle.std.specs.Prelude.{◌≡◌, [], ◌∷◌, ◌++◌, true, map, IfOk};
ghost use Rattle.gno_first.specs.Declaring.{is_new, with_names, alone};
ghost use Rattle.gno_first.specs.Form.{are_names};
ghost use Rattle.gno_first.specs.Gives.{Gives};
ghost use Rattle.gno_first.specs.Places.{place};

use crate::FirstFault;
use crate::names::is_name;
use gno_base::{Bytes, List};
use std::alloc::{AllocError, Global};
use std::collections::BTreeMap;
use std::marker::Model;

/// The names that are declared so far, in order. A name's number is its place among them.
#[derive(Drop)]
pub struct Scope<'a> {
    names: Vec<&'a [u8]>,
    numbers: BTreeMap<&'a [u8], usize>,
}

impl<'a> Model for Scope<'a> {
    ghost use Rattle.std.specs.Prelude.{List as list, ℕ, map};
    ghost use Rattle.gno_first.specs.Scope.{HasPlaces};

    ghost Value = { list (list ℕ) };

    ghost view = { λ s. map (λ name. name.now) s.names.items };

    ghost invariant = { λ s. HasPlaces s.numbers (map (λ name. name.now) s.names.items) };
}

fn copies(alloc: Global, names: &[&[u8]]) -> Result<List<Bytes>, AllocError>
    ensures { IfOk result (λ copies. copies ≡ map (λ name. name.now) names.now) }
{
    let mut copies = List::new(alloc);
    for name in names {
        copies.push(Bytes::from_slice(alloc, name)?)?;
    }
    Ok(copies)
}

impl<'a> Scope<'a> {
    pub fn new(alloc: Global) -> Scope<'a>
        ensures { result ≡ [] }
    {
        Scope {
            names: Vec::new(alloc),
            numbers: BTreeMap::new(alloc),
        }
    }

    /// The number of a name, or None where it is not declared.
    pub fn number(&self, name: &[u8]) -> Option<usize>
        ensures { result ≡ place name.now self.now }
    {
        self.numbers.get(name).copied()
    }

    // Whether it is a name that is not declared yet.
    #[tactic(auto, using(crate::proofs::Places::among_is_placed))]
    fn is_new(&self, name: &[u8]) -> bool
        ensures { result ≡ is_new self.now name.now }
    {
        is_name(name) && self.number(name).is_none()
    }

    // The names with one more, which is new.
    fn push(self, name: &'a [u8]) -> Result<Scope<'a>, AllocError>
        requires { is_new self name.now ≡ true }
        ensures { IfOk result (λ scope. scope ≡ self.entry ++ name.entry.now ∷ []) }
    {
        let Scope {
            mut names,
            mut numbers,
        } = self;
        numbers.insert(name, names.len())?;
        names.push(name)?;
        Ok(Scope { names, numbers })
    }

    /// The names with one more. `NotFirst` comes exactly where it is no name, or is declared already.
    pub fn declare(self, name: &'a [u8]) -> Result<Scope<'a>, FirstFault>
        requires { are_names self ≡ true }
        ensures { Gives (with_names self.entry (Some (alone name.entry.now))) result }
    {
        if !self.is_new(name) {
            return Err(FirstFault::NotFirst);
        }
        let Ok(scope) = self.push(name) else {
            return Err(FirstFault::NoMemory);
        };
        Ok(scope)
    }

    /// A copy of the names.
    pub fn to_names(&self, alloc: Global) -> Result<List<Bytes>, AllocError>
        ensures { IfOk result (λ names. names ≡ self.now) }
    {
        copies(alloc, self.names.as_slice())
    }
}
