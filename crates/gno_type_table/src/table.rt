// The table of types.
ghost use Rattle.std.specs.Prelude.{◌≡◌, ◌≢◌, ◌↔◌, ◌⊎◌, ◌-◌, ◌^◌, [], true, ℕ, IfOk, IsTrue, OnErr, OnOk, length, map, min};
ghost use Rattle.gno_embedding.specs.Embedding.{IsComplete};
ghost use Rattle.gno_promotion.specs.MethodSets.{AreSelected};
ghost use Rattle.gno_promotion.specs.Searches.{promoted_with};
ghost use Rattle.gno_selectors.specs.Selectors.{IsSelection, IsSelectionBelow};
ghost use Rattle.gno_terms.specs.declared.term.DefinitionOf.{DefinitionOf};
ghost use Rattle.gno_terms.specs.declared.term.GoType.{GoType};
ghost use Rattle.gno_terms.specs.declared.term.TypeRef.{TypeRef};
ghost use Rattle.gno_terms.specs.Lawful.{Each, IsLawful, LawfulType};
ghost use Rattle.gno_terms.specs.Normal.{Identical, normal, normal_method};
ghost use Rattle.gno_terms.specs.Tables.{Below, Defines, Grows, Is, IsOfPath, PartsBelow, Underlying, deep, type_at};
ghost use Rattle.gno_terms.specs.Terms.{method_of, term_of, term_with};
ghost use Rattle.gno_type_rows.specs.Holding.{IsComparable, Slots};
ghost use Rattle.gno_type_rows.specs.Keys.{key_of};
ghost use Rattle.gno_type_rows.specs.RowTypes.{IsGood, definition_with, is_defined};

use crate::forgetting::forget;
use crate::keeping::{blank, flag};
use crate::predeclared::error_interface;
use crate::searching::{search_all, search_new, wake};
use gno_base::List;
use gno_promotion::{Promoted, Search};
use gno_selectors::{Selection, find_selected};
use gno_terms::{DefinitionOf, Method, Term, TypeRef, normal_packages, normal_term};
use gno_type_rows::{Key, Rows};
use std::alloc::{AllocError, Global};
use std::marker::Model;

/// The types that were met, by their numbers, and the definitions of defined types. Contracts see a `Table`.
#[derive(Drop)]
pub struct TypeTable {
    rows: Rows,
    // What `error` is.
    error: TypeRef,
    // What a search for the methods of each type found, by its number.
    searches: Vec<Search>,
    // Whether a search waits for the definition of a type, by its number. A flag may be set though none waits any more.
    awaited: Vec<bool>,
}

impl Model for TypeTable {
    ghost use Rattle.gno_terms.specs.contracts.term.GoType as go_type;
    ghost use Rattle.gno_terms.specs.Tables.{Table};
    ghost use Rattle.gno_type_table.specs.Kept.{IsWhole};
    ghost use Rattle.std.specs.Coded.{codes};

    ghost Value = { Table };

    ghost coded = { Prim.hlevel (codes, go_type.the_row.coded) };

    ghost view = { λ it. it.rows };

    ghost invariant = { λ it. IsWhole it.rows it.error it.searches.items it.awaited.items };
}

impl TypeTable {
    /// A table without a definition.
    pub fn new(alloc: Global) -> Result<TypeTable, AllocError>
        ensures { IfOk result (λ it. it.definitions ≡ []) }
    {
        let mut rows = Rows::new(alloc);
        let error = error_interface(alloc, &mut rows)?;
        let mut searches = blank(alloc, rows.len())?;
        let mut awaited = vec![in alloc; false; rows.len()]?;
        search_all(alloc, &rows, error, &mut searches, &mut awaited)?;
        Ok(TypeTable {
            rows,
            error,
            searches,
            awaited,
        })
    }

    /// The number of a type, which is added where it was not met. The term is taken in its normal form. Takes logarithmic time, and
    /// where the type is added also time by the types and members that its embedded fields lead to.
    pub fn intern(&mut self, term: Term) -> Result<TypeRef, AllocError>
        requires below { PartsBelow (length self.old.types) term }
        requires lawful { IsLawful (term_with (type_at self.old.types) term) }
        ensures is { IfOk result (λ t. Is self.new t (normal (deep self.old.types term))) }
        ensures grows { Grows self.old self.new }
        ensures definitions { self.new.definitions ≡ self.old.definitions }
        ensures err { OnErr result (self.new ≡ self.old) }
    {
        let alloc = *self.searches.allocator();
        self.rows.are_good();
        let term = normal_term(alloc, term)?;
        let key = Key::of(alloc, &term)?;
        match self.rows.number(&key) {
            Some(number) => Ok(number),
            None => self.add(key, term),
        }
    }

    // Adds a type that was not met. What may find no memory comes before the first change.
    fn add(&mut self, key: Key, term: Term) -> Result<TypeRef, AllocError>
        requires key { key ≡ key_of term }
        requires below { PartsBelow (length self.old.types) term }
        requires good { IsGood (deep self.old.types term) }
        requires new { (t : TypeRef) → Is self.old t (deep self.old.types term) → ⊥ }
        ensures is { IfOk result (λ t. Is self.new t (deep self.old.types term)) }
        ensures grows { Grows self.old self.new }
        ensures definitions { self.new.definitions ≡ self.old.definitions }
        ensures err { OnErr result (self.new ≡ self.old) }
    {
        let alloc = *self.searches.allocator();
        self.searches.reserve(1)?;
        self.awaited.reserve(1)?;
        let search = search_new(alloc, &self.rows, self.error, &term)?;
        let number = self.rows.push(key, term)?;
        self.rows.have_one_definition();
        flag(&mut self.awaited, &search);
        self.searches.push(search)?;
        self.awaited.push(false)?;
        Ok(number)
    }

    /// Whether the number stands for a type.
    pub fn contains(&self, t: TypeRef) -> bool
        ensures { IsTrue result ↔ Below (length self.now.types) t }
    {
        (t.0 as usize) < self.rows.len()
    }

    /// What a number stands for, by the numbers of its parts. Takes constant time.
    pub fn term(&self, t: TypeRef) -> &Term
        requires { Below (length self.now.types) t }
        ensures is { Is self.now t (deep self.now.types result.now) }
        ensures parts { PartsBelow (length self.now.types) result.now }
    {
        self.rows.term(t)
    }

    /// Each type that stands in a table is lawful and in its normal form. This states a law and does nothing.
    pub fn types_are_lawful(&self)
        ensures lawful { (t : TypeRef) (s : GoType) → Is self.now t s → LawfulType s }
        ensures normal { (t : TypeRef) (s : GoType) → Is self.now t s → normal s ≡ s }
    {
        self.rows.are_good();
    }

    /// Whether two numbers stand for identical types. Go specification, "Type identity". Takes constant time.
    pub fn identical(&self, a: TypeRef, b: TypeRef) -> bool
        ensures { (s u : GoType) → Is self.now a s → Is self.now b u → IsTrue result ↔ Identical s u }
    {
        self.rows.identical(a, b)
    }

    /// No type has two numbers. This states a law and does nothing.
    pub fn have_one_number(&self)
        ensures { (a b : TypeRef) (s : GoType) → Is self.now a s → Is self.now b s → a ≡ b }
    {
        self.rows.have_one_number();
    }

    /// No two declarations define one type. This states a law and does nothing.
    pub fn have_one_definition(&self)
        ensures { (d e : DefinitionOf GoType) → Defines self.now d → Defines self.now e → d.of ≡ e.of → d ≡ e }
    {
        self.rows.have_one_definition();
    }

    /// Notes the underlying type and the methods of a defined type. An `Err` changes no definition. Takes time by the types that
    /// embedded fields lead to from this type, and from each type whose search waits for it; where one waits or has waited also by
    /// the number of all types. Go specification, "Type definitions".
    pub fn define(
        &mut self,
        defined: TypeRef,
        underlying: TypeRef,
        methods: List<Method>,
    ) -> Result<(), AllocError>
        requires of { Below (length self.old.types) defined }
        requires underlying { Below (length self.old.types) underlying }
        requires methods { Each (Below (length self.old.types)) (map method_of methods) }
        requires defined { is_defined (term_of (type_at self.old.types defined)) ≡ true }
        requires new { (d : DefinitionOf GoType) → Defines self.old d → d.of ≢ type_at self.old.types defined }
        ensures types { self.new.types ≡ self.old.types }
        ensures definitions { OnOk result ((d : DefinitionOf GoType) → Defines self.new d ↔ (Defines self.old d
            ⊎ (d ≡ definition_with (type_at self.old.types) (record { of = defined; underlying = underlying; methods = map normal_method methods })))) }
        ensures err { OnErr result ((d : DefinitionOf GoType) → Defines self.new d ↔ Defines self.old d) }
    {
        let alloc = *self.searches.allocator();
        let methods = normal_packages(alloc, methods);
        self.rows.have_one_number();
        self.rows.have_one_definition();
        self.rows.define(DefinitionOf {
            of: defined,
            underlying,
            methods,
        })?;
        self.rows.have_one_definition();
        match wake(
            alloc,
            &self.rows,
            self.error,
            defined,
            &mut self.searches,
            &mut self.awaited,
        ) {
            Ok(()) => Ok(()),
            Err(error) => {
                self.rows.retract(defined);
                forget(alloc, &self.rows, &mut self.searches, &mut self.awaited);
                Err(error)
            }
        }
    }

    /// Takes back the definitions of all types of a package. Takes no memory.
    pub fn undefine(&mut self, path: &[u8])
        ensures types { self.new.types ≡ self.old.types }
        ensures definitions { (d : DefinitionOf GoType) → Defines self.new d ↔ (Defines self.old d × (IsOfPath path.now d.of → ⊥)) }
    {
        let alloc = *self.searches.allocator();
        self.rows.have_one_definition();
        self.rows.undefine(path);
        forget(alloc, &self.rows, &mut self.searches, &mut self.awaited);
    }

    /// Whether a declaration defines the type. Takes constant time.
    pub fn is_defined(&self, t: TypeRef) -> bool
        requires { Below (length self.now.types) t }
        ensures { (s : GoType) → Is self.now t s → IsTrue result ↔ ((d : DefinitionOf GoType) × Defines self.now d × (d.of ≡ s)) }
    {
        self.rows.definition(t).is_some()
    }

    /// The underlying type of a type that is no defined one, or is defined. Go specification, "Underlying types".
    pub fn underlying(&self, t: TypeRef) -> TypeRef
        requires below { Below (length self.now.types) t }
        requires known { (s : GoType) → Is self.now t s → (u : GoType) × Underlying self.now s u }
        ensures { (s : GoType) → Is self.now t s → (u : GoType) × Underlying self.now s u × Is self.now result u }
    {
        match self.rows.term(t) {
            Term::Defined { .. } => match self.rows.definition(t) {
                Some(definition) => definition.underlying,
                None => t,
            },
            Term::Error => self.error,
            _ => t,
        }
    }

    /// Whether values of the type have a number of slots: it holds no type that is not defined, and not itself. Takes constant time.
    pub fn is_sized(&self, t: TypeRef) -> bool
        requires { Below (length self.now.types) t }
        ensures { (s : GoType) → Is self.now t s → IsTrue result ↔ ((n : ℕ) × Slots self.now s n) }
    {
        self.rows.is_sized(t)
    }

    /// How many slots a value of the type has; at most 2^64 - 1 is answered. Takes constant time.
    pub fn slots(&self, t: TypeRef) -> u64
        requires below { Below (length self.now.types) t }
        requires known { (s : GoType) → Is self.now t s → (n : ℕ) × Slots self.now s n }
        ensures { (s : GoType) (n : ℕ) → Is self.now t s → Slots self.now s n → result ≡ min n (2 ^ 64 - 1) }
    {
        self.rows.layout(t).slots
    }

    /// Whether values of the type compare. Go specification, "Comparison operators". Takes constant time.
    pub fn comparable(&self, t: TypeRef) -> bool
        requires below { Below (length self.now.types) t }
        requires known { (s : GoType) → Is self.now t s → (n : ℕ) × Slots self.now s n }
        ensures { (s : GoType) → Is self.now t s → IsTrue result ↔ IsComparable self.now s }
    {
        self.rows.layout(t).comparable
    }

    /// Whether each type is defined to which the embedded fields of the type lead, and the type itself. Takes constant time.
    pub fn is_complete(&self, t: TypeRef) -> bool
        requires { Below (length self.now.types) t }
        ensures { (s : GoType) → Is self.now t s → IsTrue result ↔ IsComplete self.now s }
    {
        let search = &self.searches[t.0 as usize];
        match search {
            Search::Found { .. } => true,
            Search::Blocked(_) => false,
        }
    }

    /// The methods that a type has of itself or by its embedded fields, in byte order, where each type that they lead to is
    /// defined. Takes constant time. Go specification, "Selectors".
    pub fn promoted(&self, t: TypeRef) -> &[Promoted]
        requires below { Below (length self.now.types) t }
        requires complete { (s : GoType) → Is self.now t s → IsComplete self.now s }
        ensures selected { (s : GoType) → Is self.now t s → AreSelected self.now s (map (promoted_with (type_at self.now.types)) result.now) }
        ensures below { Each (λ p. Below (length self.now.types) p.method.of) result.now }
    {
        match &self.searches[t.0 as usize] {
            Search::Found { methods, .. } => methods.as_slice(),
            Search::Blocked(_) => unreachable!(),
        }
    }

    /// What a name selects in a type of which each type is defined that its embedded fields lead to; what a pointer points at is not
    /// looked at. The package is empty where the name is exported, and else the path of the package that asks. Takes time by the number
    /// of the fields and methods of the type, and where none of these has the name by the number of types, fields and methods that its
    /// embedded fields lead to, and its logarithm. Go specification, "Selectors".
    pub fn select(
        &self,
        alloc: Global,
        t: TypeRef,
        name: &[u8],
        package: &[u8],
    ) -> Result<Selection, AllocError>
        requires below { Below (length self.now.types) t }
        requires complete { (s : GoType) → Is self.now t s → IsComplete self.now s }
        ensures selection { IfOk result (λ it. (s : GoType) → Is self.now t s → IsSelection self.now s name.now «package».now it) }
        ensures below { IfOk result (λ it. IsSelectionBelow (length self.now.types) it) }
    {
        find_selected(alloc, &self.rows, self.error, t, name, package)
    }
}
