// A table that tests fill.
ghost use Rattle.std.specs.Prelude.{◌≡◌, true, false, length, IfOk};
ghost use Rattle.gno_terms.specs.Lawful.{IsLawful, is_function, is_slice, is_untyped};
ghost use Rattle.gno_terms.specs.Tables.{Below, PartsBelow, type_at};
ghost use Rattle.gno_terms.specs.Terms.{term_of, term_with};
ghost use Rattle.gno_type_texts.specs.Shelves.{AreTyped, IsTypedAt};

use crate::type_text;
use gno_base::{Bytes, List};
use gno_terms::{Term, TypeRef};
use gno_type_table::TypeTable;
use std::alloc::{AllocError, Global};
use std::marker::Model;

/// A table, and the numbers of the typed types that were added, by their places.
#[derive(Drop)]
pub(super) struct Shelf {
    table: TypeTable,
    added: Vec<TypeRef>,
}

impl Model for Shelf {
    ghost use Rattle.gno_terms.specs.contracts.term.GoType as go_type;
    ghost use Rattle.gno_terms.specs.Tables.{Table};
    ghost use Rattle.gno_type_texts.specs.Shelves.{AreTyped};
    ghost use Rattle.std.specs.Coded.{codes};

    ghost Value = { Table };

    ghost coded = { Prim.hlevel (codes, go_type.the_row.coded) };

    ghost view = { λ it. it.table };

    ghost invariant = { λ it. AreTyped it.table it.added.items };
}

impl Shelf {
    pub(super) fn new(alloc: Global) -> Result<Shelf, AllocError> {
        Ok(Shelf {
            table: TypeTable::new(alloc)?,
            added: Vec::new(alloc),
        })
    }

    /// The type at a place.
    pub(super) fn part(&self, place: usize) -> Result<TypeRef, AllocError>
        ensures { IfOk result (IsTypedAt self.now) }
    {
        match self.added.get(place) {
            Some(t) => Ok(*t),
            None => Err(AllocError),
        }
    }

    /// The types at some places.
    pub(super) fn parts(&self, alloc: Global, places: &[usize]) -> Result<List<TypeRef>, AllocError>
        ensures { IfOk result (AreTyped self.now) }
    {
        let mut parts = List::new(alloc);
        for place in places {
            parts.push(self.part(*place)?)?;
        }
        Ok(parts)
    }

    /// Adds a type at the next place.
    pub(super) fn add(&mut self, term: Term) -> Result<(), AllocError>
        requires below { PartsBelow (length self.old.types) term }
        requires lawful { IsLawful (term_with (type_at self.old.types) term) }
        requires typed { is_untyped term ≡ false }
    {
        let t = self.table.intern(term)?;
        self.added.push(t)?;
        Ok(())
    }

    pub(super) fn is_function(&self, t: TypeRef) -> bool
        requires { Below (length self.now.types) t }
        ensures { result ≡ true → is_function (term_of (type_at self.now.types t)) ≡ true }
    {
        match self.table.term(t) {
            Term::Function { .. } => true,
            _ => false,
        }
    }

    pub(super) fn is_slice(&self, t: TypeRef) -> bool
        requires { Below (length self.now.types) t }
        ensures { result ≡ true → is_slice (term_of (type_at self.now.types t)) ≡ true }
    {
        match self.table.term(t) {
            Term::Slice(_) => true,
            _ => false,
        }
    }

    fn text_of(&self, alloc: Global, t: TypeRef) -> Result<Bytes, AllocError>
        requires { Below (length self.now.types) t }
    {
        type_text(alloc, &self.table, t)
    }

    /// The text of the type at a place.
    pub(super) fn text(&self, alloc: Global, place: usize) -> Result<Bytes, AllocError> {
        let t = self.part(place)?;
        self.text_of(alloc, t)
    }
}
