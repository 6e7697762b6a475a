// The packages that are held, in order of addition.
ghost use Rattle.std.specs.Prelude.{◌≡◌, ◌++◌, ◌∷◌, [], ◌<◌, length, IfSome, IsSome, None, OnOk, OnErr};
ghost use Rattle.std.specs.Option.{option_copied};
ghost use Rattle.gno_first.specs.Places.{place};
ghost use Rattle.gno_items.specs.Memory.{package_of, paths, with_values};
ghost use Rattle.gno_items.specs.Well.{IsWell, IsWellPackage};

use gno_base::{Bytes, List, NamedText, Whole};
use gno_first::FirstFile;
use std::alloc::{AllocError, Global};
use std::collections::BTreeMap;
use std::marker::Model;

/// A package: its path, its one source file as text and as tree, and the values of its variables in order of declaration.
#[derive(Drop)]
pub struct Package {
    pub path: Bytes,
    pub source: NamedText,
    pub file: FirstFile,
    pub values: List<Whole>,
}

/// The packages that are held. Contracts see them as a list, in order of addition.
#[derive(Drop)]
pub struct Packages {
    all: Vec<Package>,
    // The place of the first package of each path.
    places: BTreeMap<Vec<u8>, usize>,
}

impl Model for Packages {
    ghost use Rattle.std.specs.Prelude.{List as list};
    ghost use Rattle.gno_items.specs.Index.{HasPlaces};
    ghost use Rattle.gno_items.specs.declared.memory.Package.{Package};
    ghost use Rattle.gno_items.specs.Memory.{paths};

    ghost Value = { list Package };

    ghost view = { λ packages. packages.all.items };

    ghost invariant = { λ packages. HasPlaces packages.places (paths packages.all.items) };
}

impl Packages {
    /// No package.
    pub fn new(alloc: Global) -> Packages
        ensures { result ≡ [] }
    {
        Packages {
            all: Vec::new(alloc),
            places: BTreeMap::new(alloc),
        }
    }

    /// All of them, in order of addition.
    pub fn as_slice(&self) -> &[Package]
        ensures { result.now ≡ self.now }
    {
        self.all.as_slice()
    }

    /// How many there are.
    pub fn len(&self) -> usize
        ensures { result ≡ length self.now }
    {
        self.all.len()
    }

    // The place of the first package of a path.
    fn place(&self, path: &[u8]) -> Option<usize>
        ensures place { result ≡ place path.now (paths self.now) }
        ensures within { IfSome result (λ at. at < length self.now) }
    {
        self.places.get(path).copied()
    }

    /// The package of a path.
    pub fn find(&self, path: &[u8]) -> Option<&Package>
        ensures found { option_copied result ≡ package_of self.now path.now }
        ensures well { IfSome result (λ held. IsWell self.now → IsWellPackage held.now) }
    {
        match self.place(path) {
            Some(at) => Some(&self.all[at]),
            None => None,
        }
    }

    /// Adds a package behind the others.
    pub fn push(&mut self, held: Package) -> Result<(), AllocError>
        ensures ok { OnOk result (self.new ≡ self.old ++ held ∷ []) }
        ensures err { OnErr result (self.new ≡ self.old) }
    {
        match self.place(held.path.as_slice()) {
            Some(_) => self.push_again(held),
            None => self.push_first(held),
        }
    }

    // Adds the first package of its path. What may find no memory comes before the first change.
    fn push_first(&mut self, held: Package) -> Result<(), AllocError>
        requires { place held.path (paths self.old) ≡ None }
        ensures ok { OnOk result (self.new ≡ self.old ++ held ∷ []) }
        ensures err { OnErr result (self.new ≡ self.old) }
    {
        let key = Vec::from_slice(*self.all.allocator(), held.path.as_slice())?;
        self.all.reserve(1)?;
        self.places.insert(key, self.all.len())?;
        self.all.push(held)?;
        Ok(())
    }

    // Adds a package of a path that is there, and stays the place of its first package.
    fn push_again(&mut self, held: Package) -> Result<(), AllocError>
        requires { IsSome (place held.path (paths self.old)) }
        ensures ok { OnOk result (self.new ≡ self.old ++ held ∷ []) }
        ensures err { OnErr result (self.new ≡ self.old) }
    {
        self.all.push(held)?;
        Ok(())
    }

    /// Gives the package of a path other values. Takes no memory.
    pub fn set_values(&mut self, path: &[u8], values: List<Whole>)
        ensures { self.new ≡ with_values self.old path.now values }
    {
        if let Some(at) = self.place(path) {
            self.all[at].values = values;
        }
    }
}
