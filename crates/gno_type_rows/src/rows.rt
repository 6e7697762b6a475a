// Each type that was met stands once in the table, behind its parts.
ghost use Rattle.std.specs.Prelude.{◌≡◌, ◌≢◌, [], ◌∷◌, ◌++◌, ◌↔◌, ◌⊎◌, true, ℕ, ◌-◌, ◌^◌, IfOk, IfSome, IsNone, IsTrue, OnErr, OnOk, Some, length, map, min, slice_get};
ghost use Rattle.gno_terms.specs.declared.term.GoType.{GoType};
ghost use Rattle.gno_terms.specs.declared.term.DefinitionOf.{DefinitionOf};
ghost use Rattle.gno_terms.specs.declared.term.TermOf.{TermOf};
ghost use Rattle.gno_terms.specs.declared.term.TypeRef.{TypeRef};
ghost use Rattle.gno_terms.specs.Lawful.{Each, IsLawful};
ghost use Rattle.gno_terms.specs.Normal.{Identical, normal};
ghost use Rattle.gno_terms.specs.Tables.{Below, Defines, Grows, Is, IsOfPath, PartsBelow, deep, type_at};
ghost use Rattle.gno_terms.specs.Terms.{method_of, term_of, term_with};
ghost use Rattle.gno_type_rows.specs.Holding.{IsComparable, Slots};
ghost use Rattle.gno_type_rows.specs.Keys.{by_key, key_of};
ghost use Rattle.gno_type_rows.specs.RowTypes.{IsGood, definition_with, is_defined, is_of_path, unless_of_path};

use crate::key::Key;
use crate::laid::row_of;
use gno_layouts::{Layout, Layouts};
use gno_terms::{DefinitionOf, Term, TypeRef, normal_term};
use std::alloc::{AllocError, Global};
use std::collections::BTreeMap;
use std::marker::Model;

/// The rows of a table: the types that were met, by their numbers, and the definitions of defined types.
#[derive(Drop)]
pub struct Rows {
    // In their normal forms.
    terms: Vec<Term>,
    // The number of each term.
    numbers: BTreeMap<Key, usize>,
    // What a declaration says of each defined type, by its number.
    definitions: Vec<Option<DefinitionOf<TypeRef>>>,
    // How much values of each type hold.
    layouts: Layouts,
}

impl Model for Rows {
    ghost use Rattle.gno_terms.specs.contracts.term.GoType as go_type;
    ghost use Rattle.gno_terms.specs.Tables.{Table};
    ghost use Rattle.gno_type_rows.specs.Laid.{IsLaidOut};
    ghost use Rattle.gno_type_rows.specs.RowTypes.{table_of};
    ghost use Rattle.std.specs.Coded.{codes};

    ghost Value = { Table };

    ghost coded = { Prim.hlevel (codes, go_type.the_row.coded) };

    ghost view = { λ it. table_of it.terms.items it.definitions.items };

    ghost invariant = { λ it. IsLaidOut it.terms.items it.numbers it.definitions.items it.layouts };
}

impl Rows {
    /// No rows.
    pub fn new(alloc: Global) -> Rows
        ensures types { result.types ≡ [] }
        ensures definitions { result.definitions ≡ [] }
    {
        Rows {
            terms: Vec::new(alloc),
            numbers: BTreeMap::new(alloc),
            definitions: Vec::new(alloc),
            layouts: Layouts::new(alloc),
        }
    }

    /// What a number stands for, by the numbers of its parts.
    pub fn term(&self, t: TypeRef) -> &Term
        requires { Below (length self.now.types) t }
        ensures is { Is self.now t (deep self.now.types result.now) }
        ensures parts { PartsBelow (length self.now.types) result.now }
    {
        &self.terms[t.0 as usize]
    }

    /// What stands in the table is lawful and in its normal form. This states a law and does nothing.
    pub fn are_good(&self)
        ensures { (t : TypeRef) (s : GoType) → Is self.now t s → IsGood s }
    {
        let _ = &self.terms;
    }

    /// No two numbers stand for one type. This states a law and does nothing.
    pub fn have_one_number(&self)
        ensures { (a b : TypeRef) (s : GoType) → Is self.now a s → Is self.now b s → a ≡ b }
    {
        let _ = &self.terms;
    }

    /// A type has one definition. This states a law and does nothing.
    pub fn have_one_definition(&self)
        ensures { (d e : DefinitionOf GoType) → Defines self.now d → Defines self.now e → d.of ≡ e.of → d ≡ e }
    {
        let _ = &self.terms;
    }

    /// Each type that is defined was met. This states a law and does nothing.
    pub fn has_each_defined(&self)
        ensures { (d : DefinitionOf GoType) → Defines self.now d → (t : TypeRef) × Is self.now t d.of }
    {
        let _ = &self.terms;
    }

    /// Whether two numbers stand for identical types.
    pub fn identical(&self, a: TypeRef, b: TypeRef) -> bool
        ensures { (s u : GoType) → Is self.now a s → Is self.now b u → IsTrue result ↔ Identical s u }
    {
        let _ = &self.terms;
        a == b
    }

    /// How many types were met.
    pub fn len(&self) -> usize
        ensures { result ≡ length self.now.types }
    {
        self.terms.len()
    }

    /// The number of the term that has the key, if it was met. Takes logarithmic time.
    pub fn number(&self, key: &Key) -> Option<TypeRef>
        ensures some { (x : TermOf TypeRef) → key.now ≡ key_of x → IfSome result (λ t. Is self.now t (deep self.now.types x)) }
        ensures none { (x : TermOf TypeRef) → key.now ≡ key_of x → PartsBelow (length self.now.types) x → IsNone result → (t : TypeRef) → Is self.now t (deep self.now.types x) → ⊥ }
    {
        match self.numbers.get(key) {
            Some(number) => Some(TypeRef(*number as u64)),
            None => None,
        }
    }

    /// The number of a type, which is added where it was not met.
    pub fn intern(&mut self, term: Term) -> Result<TypeRef, AllocError>
        requires below { PartsBelow (length self.old.types) term }
        requires lawful { IsLawful (term_with (type_at self.old.types) term) }
        ensures is { IfOk result (λ t. Is self.new t (normal (deep self.old.types term))) }
        ensures grows { Grows self.old self.new }
        ensures definitions { self.new.definitions ≡ self.old.definitions }
    {
        let alloc = *self.terms.allocator();
        let term = normal_term(alloc, term)?;
        let key = Key::of(alloc, &term)?;
        match self.number(&key) {
            Some(number) => Ok(number),
            None => self.push(key, term),
        }
    }

    /// Adds a term that is not there.
    pub fn push(&mut self, key: Key, term: Term) -> Result<TypeRef, AllocError>
        requires key { key ≡ key_of term }
        requires below { PartsBelow (length self.old.types) term }
        requires good { IsGood (deep self.old.types term) }
        requires new { (t : TypeRef) → Is self.old t (deep self.old.types term) → ⊥ }
        ensures is { IfOk result (λ t. Is self.new t (deep self.old.types term)) }
        ensures number { IfOk result (λ t. t.0 ≡ length self.old.types) }
        ensures types { OnOk result (self.new.types ≡ self.old.types ++ deep self.old.types term ∷ []) }
        ensures grows { Grows self.old self.new }
        ensures definitions { self.new.definitions ≡ self.old.definitions }
        ensures err { OnErr result (self.new ≡ self.old) }
    {
        // What may find no memory comes before the first change.
        let alloc = *self.terms.allocator();
        self.terms.reserve(1)?;
        self.definitions.reserve(1)?;
        let row = row_of(alloc, &term)?;
        self.layouts.have_rows();
        self.layouts.push(row)?;
        let number = self.terms.len();
        match self.numbers.insert(key, number) {
            Ok(_) => {
                self.terms.push(term)?;
                self.definitions.push(None)?;
                Ok(TypeRef(number as u64))
            }
            Err(_) => {
                self.layouts.pop();
                Err(AllocError)
            }
        }
    }

    /// What a declaration says of a type.
    pub fn definition(&self, t: TypeRef) -> Option<&DefinitionOf<TypeRef>>
        requires { Below (length self.now.types) t }
        ensures some { IfSome result (λ d. Defines self.now (definition_with (type_at self.now.types) d.now)) }
        ensures own { IfSome result (λ d. d.now.of ≡ t) }
        ensures none { IsNone result → (d : DefinitionOf GoType) → Defines self.now d → Is self.now t d.of → ⊥ }
        ensures below { IfSome result (λ d. Below (length self.now.types) d.now.underlying) }
        ensures methods { IfSome result (λ d. Each (Below (length self.now.types)) (map method_of d.now.methods)) }
    {
        self.definitions[t.0 as usize].as_ref()
    }

    /// Notes what a declaration says of a defined type.
    pub fn define(&mut self, definition: DefinitionOf<TypeRef>) -> Result<(), AllocError>
        requires of { Below (length self.old.types) definition.of }
        requires underlying { Below (length self.old.types) definition.underlying }
        requires methods { Each (Below (length self.old.types)) (map method_of definition.methods) }
        requires defined { is_defined (term_of (type_at self.old.types definition.of)) ≡ true }
        requires new { (d : DefinitionOf GoType) → Defines self.old d → d.of ≢ type_at self.old.types definition.of }
        ensures types { self.new.types ≡ self.old.types }
        ensures definitions { OnOk result ((d : DefinitionOf GoType) → Defines self.new d ↔ (Defines self.old d ⊎ (d ≡ definition_with (type_at self.old.types) definition))) }
        ensures err { OnErr result (self.new ≡ self.old) }
    {
        let number = definition.of.0 as usize;
        self.layouts
            .define(number, definition.underlying.0 as usize)?;
        self.definitions[number] = Some(definition);
        Ok(())
    }

    /// Forgets what declarations say of the types of a package. Takes no memory.
    pub fn undefine(&mut self, path: &[u8])
        ensures types { self.new.types ≡ self.old.types }
        ensures definitions { (d : DefinitionOf GoType) → Defines self.new d ↔ (Defines self.old d × (IsOfPath path.now d.of → ⊥)) }
    {
        forget(path, &self.terms, &mut self.definitions);
        self.layouts.keep(&self.definitions);
    }

    /// Takes back what a declaration says of a type. Takes no memory.
    pub fn retract(&mut self, t: TypeRef)
        requires { Below (length self.old.types) t }
        ensures types { self.new.types ≡ self.old.types }
        ensures definitions { (d : DefinitionOf GoType) → Defines self.new d ↔ (Defines self.old d × (d.of ≢ type_at self.old.types t)) }
    {
        self.definitions[t.0 as usize] = None;
        self.layouts.keep(&self.definitions);
    }

    /// Whether values of a type have a number of slots: whether it holds no type that is not defined, and not itself. Takes constant time.
    pub fn is_sized(&self, t: TypeRef) -> bool
        requires { Below (length self.now.types) t }
        ensures { (s : GoType) → Is self.now t s → IsTrue result ↔ ((n : ℕ) × Slots self.now s n) }
    {
        self.layouts.layout(t.0 as usize).is_some()
    }

    /// How many slots values of a type have, and whether they compare. Takes constant time.
    pub fn layout(&self, t: TypeRef) -> Layout
        requires below { Below (length self.now.types) t }
        requires known { (s : GoType) → Is self.now t s → (n : ℕ) × Slots self.now s n }
        ensures slots { (s : GoType) (n : ℕ) → Is self.now t s → Slots self.now s n → result.slots ≡ min n (2 ^ 64 - 1) }
        ensures comparable { (s : GoType) → Is self.now t s → IsTrue result.comparable ↔ IsComparable self.now s }
    {
        match self.layouts.layout(t.0 as usize) {
            Some(layout) => layout,
            None => unreachable!(),
        }
    }
}

// Whether a term is a defined type of the package.
fn is_of_path(path: &[u8], term: &Term) -> bool
    ensures { result ≡ is_of_path path.now term.now }
{
    match term {
        Term::Defined { path: own, .. } => own.as_slice() == path,
        _ => false,
    }
}

// Takes away the definition beside each defined type of the package.
fn forget(path: &[u8], terms: &[Term], definitions: &mut Vec<Option<DefinitionOf<TypeRef>>>)
    requires { length terms.now ≡ length definitions.old.items }
    ensures size { length definitions.new.items ≡ length definitions.old.items }
    ensures each { (n : ℕ) (x : TermOf TypeRef) → slice_get terms.now n ≡ Some x → slice_get definitions.new.items n ≡ unless_of_path path.now x (slice_get definitions.old.items n) }
{
    for number in 0..definitions.len() {
        if is_of_path(path, &terms[number]) {
            definitions[number] = None;
        }
    }
}
