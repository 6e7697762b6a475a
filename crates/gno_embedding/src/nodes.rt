// The nodes of a walk over embedded fields.
ghost use Rattle.std.specs.Prelude.{◌≡◌, ◌≢◌, ◌+◌, ◌<◌, ◌++◌, ◌∷◌, [], ℕ, true, IfOk, IfSome, IsNone, OnOk, Some, length, map, slice_get};
ghost use Rattle.gno_embedding.specs.Embedding.{IsKnown};
ghost use Rattle.gno_embedding.specs.Nodes.{AreFieldsOf, ArePlaces, IsAt, IsFieldAt, IsOfNode, Meets};
ghost use Rattle.gno_embedding.specs.Reaching.{number_of};
ghost use Rattle.gno_embedding.specs.Same.{may_embed};
ghost use Rattle.gno_embedding.specs.declared.ways.Reached.{Reached};
ghost use Rattle.gno_terms.specs.Tables.{Below, Is, PartsBelow, Table, deep, type_at};
ghost use Rattle.gno_terms.specs.declared.term.GoType.{GoType};
ghost use Rattle.gno_terms.specs.declared.term.TypeRef.{TypeRef};
ghost use Rattle.gno_type_rows.specs.RowTypes.{is_defined};

use crate::fields::{is_of, opened, pointed};
use crate::ways::Reached;
use gno_base::List;
use gno_terms::{Field, Term, TypeRef};
use gno_type_rows::Rows;
use std::alloc::{AllocError, Global};
use std::collections::BTreeMap;

/// What a walk has met.
#[derive(Drop)]
pub(crate) struct Nodes {
    /// The type itself, and the types that were met, the nearest first.
    pub(crate) items: Vec<Reached>,
    // Where each but the first stands, by its number.
    places: BTreeMap<u64, usize>,
}

impl Nodes {
    /// The type itself.
    pub(crate) fn new(alloc: Global, number: TypeRef) -> Result<Nodes, AllocError>
        ensures { IfOk result (λ it. (table : Table) (s : GoType) → IsAt table s it.items.items it.places 0 0) }
    {
        let mut items = Vec::new(alloc);
        items.push(Reached {
            of: number,
            depth: 0,
            followed: false,
            twice: false,
            from: 0,
            place: 0,
            pointer: false,
        })?;
        let places = BTreeMap::new(alloc);
        Ok(Nodes { items, places })
    }

    /// The fields of a node, where its underlying type is known.
    pub(crate) fn fields<'a>(
        &self,
        rows: &'a Rows,
        number: TypeRef,
        term: &'a Term,
        next: usize,
    ) -> Option<&'a [Field]>
        requires parts { PartsBelow (length rows.now.types) term.now }
        requires defined { is_defined term.now ≡ true → Is rows.now number (deep rows.now.types term.now) }
        requires at { IsAt rows.now (deep rows.now.types term.now) self.now.items.items self.now.places next 0 }
        requires within { next < length self.now.items.items }
        ensures some { IfSome result (λ fields. AreFieldsOf rows.now (deep rows.now.types term.now) self.now.items.items next fields.now) }
        ensures none { IsNone result → (u : GoType) → IsOfNode rows.now (deep rows.now.types term.now) self.now.items.items next u → IsKnown rows.now u → ⊥ }
    {
        if next == 0 {
            return opened(rows, number, term);
        }
        let of = self.items[next].of;
        opened(rows, of, rows.term(of))
    }

    /// Meets the fields of a node.
    pub(crate) fn meet_fields(
        &mut self,
        rows: &Rows,
        number: TypeRef,
        term: &Term,
        next: usize,
        fields: &[Field],
    ) -> Result<(), AllocError>
        requires parts { PartsBelow (length rows.now.types) term.now }
        requires number { (t : TypeRef) → Is rows.now t (deep rows.now.types term.now) → t ≡ number }
        requires defined { is_defined term.now ≡ true → Is rows.now number (deep rows.now.types term.now) }
        requires embeds { may_embed term.now ≡ true }
        requires at { IsAt rows.now (deep rows.now.types term.now) self.old.items.items self.old.places next 0 }
        requires fields { AreFieldsOf rows.now (deep rows.now.types term.now) self.old.items.items next fields.now }
        ensures at { OnOk result (IsAt rows.now (deep rows.now.types term.now) self.new.items.items self.new.places (next + 1) 0) }
        ensures within { OnOk result (next < length self.new.items.items) }
    {
        rows.have_one_number();
        rows.have_one_definition();
        for place in 0..fields.len() {
            self.meet_field(rows, number, term, next, place, &fields[place])?;
        }
        Ok(())
    }

    // Meets the field at a place of a node.
    fn meet_field(
        &mut self,
        rows: &Rows,
        number: TypeRef,
        term: &Term,
        next: usize,
        place: usize,
        field: &Field,
    ) -> Result<(), AllocError>
        requires parts { PartsBelow (length rows.now.types) term.now }
        requires number { (t : TypeRef) → Is rows.now t (deep rows.now.types term.now) → t ≡ number }
        requires defined { is_defined term.now ≡ true → Is rows.now number (deep rows.now.types term.now) }
        requires embeds { may_embed term.now ≡ true }
        requires below { Below (length rows.now.types) field.now.of }
        requires within { next < length self.old.items.items }
        requires at { IsAt rows.now (deep rows.now.types term.now) self.old.items.items self.old.places next place }
        ensures at { OnOk result ((u : GoType) → IsOfNode rows.now (deep rows.now.types term.now) self.old.items.items next u → IsFieldAt rows.now u place field.now
            → IsAt rows.now (deep rows.now.types term.now) self.new.items.items self.new.places next (place + 1)) }
        ensures node { OnOk result ((u : GoType) → IsOfNode rows.now (deep rows.now.types term.now) self.old.items.items next u → IsOfNode rows.now (deep rows.now.types term.now) self.new.items.items next u) }
    {
        rows.have_one_number();
        rows.have_one_definition();
        if !field.embedded {
            return Ok(());
        }
        let from = self.items[next];
        let (of, pointer) = pointed(rows, field.of);
        let way = Reached {
            of,
            depth: from.depth + 1,
            followed: from.followed || pointer,
            twice: from.twice,
            from: next,
            place,
            pointer,
        };
        self.meet(rows, number, term, way)
    }

    // Notes a way to a type.
    fn meet(
        &mut self,
        rows: &Rows,
        number: TypeRef,
        term: &Term,
        way: Reached,
    ) -> Result<(), AllocError>
        requires parts { PartsBelow (length rows.now.types) term.now }
        requires number { (t : TypeRef) → Is rows.now t (deep rows.now.types term.now) → t ≡ number }
        requires defined { is_defined term.now ≡ true → Is rows.now number (deep rows.now.types term.now) }
        requires embeds { may_embed term.now ≡ true }
        requires below { Below (length rows.now.types) way.of }
        requires first { 0 < length self.old.items.items }
        requires places { ArePlaces self.old.items.items self.old.places }
        ensures places { OnOk result (ArePlaces self.new.items.items self.new.places) }
        ensures meets { OnOk result (Meets (Is rows.now way.of (deep rows.now.types term.now)) self.old.items.items way self.new.items.items) }
    {
        if is_of(rows, number, term, way.of) {
            return Ok(());
        }
        match self.places.get(&way.of.0) {
            Some(place) => {
                let place = *place;
                if self.items[place].depth == way.depth {
                    self.items[place].twice = true;
                }
                Ok(())
            }
            None => self.push(way),
        }
    }

    // Adds a node.
    fn push(&mut self, way: Reached) -> Result<(), AllocError>
        requires first { 0 < length self.old.items.items }
        requires places { ArePlaces self.old.items.items self.old.places }
        requires new { (k : ℕ) (it : Reached) → slice_get self.old.items.items k ≡ Some it → 0 < k → it.of ≢ way.of }
        ensures places { OnOk result (ArePlaces self.new.items.items self.new.places) }
        ensures items { OnOk result (self.new.items.items ≡ self.old.items.items ++ way ∷ []) }
    {
        let place = self.items.len();
        let Ok(_) = self.places.insert(way.of.0, place) else {
            return Err(AllocError);
        };
        self.items.push(way)?;
        Ok(())
    }
}

/// The numbers of some nodes.
pub(crate) fn numbers(alloc: Global, nodes: &[Reached]) -> Result<List<TypeRef>, AllocError>
    ensures { IfOk result (λ it. it ≡ map number_of nodes.now) }
{
    let mut numbers = List::new(alloc);
    for node in nodes {
        numbers.push(node.of)?;
    }
    Ok(numbers)
}
