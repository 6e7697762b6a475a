// Types, by their numbers.
ghost use Rattle.std.specs.Prelude.{◌≡◌, ◌≢◌, ◌↔◌, ◌⊎◌, ◌-◌, ◌^◌, [], None, true, ℕ, IfOk, IfSome, IsTrue, OnErr, OnOk, length, map, min, option_map};
ghost use Rattle.gno_assignability.specs.Assignability.{IsAssignable};
ghost use Rattle.gno_embedding.specs.Embedding.{IsComplete, IsKnown, base};
ghost use Rattle.gno_promotion.specs.MethodSets.{IsMethodSet};
ghost use Rattle.gno_selectors.specs.Selectors.{IsSelection, IsSelectionBelow};
ghost use Rattle.gno_terms.specs.Lawful.{Each, IsLawful};
ghost use Rattle.gno_terms.specs.Normal.{Identical, normal, normal_method};
ghost use Rattle.gno_terms.specs.Tables.{Below, Defines, Grows, Is, IsOfPath, PartsBelow, Underlying, deep, type_at};
ghost use Rattle.gno_terms.specs.Terms.{method_of, method_with, term_of, term_with};
ghost use Rattle.gno_terms.specs.Texts.{type_text};
ghost use Rattle.gno_terms.specs.declared.term.DefinitionOf.{DefinitionOf};
ghost use Rattle.gno_terms.specs.declared.term.GoType.{GoType};
ghost use Rattle.gno_terms.specs.declared.term.TypeRef.{TypeRef};
ghost use Rattle.gno_type_reading.specs.TypeTexts.{IsTypeText};
ghost use Rattle.gno_type_rows.specs.Holding.{IsComparable, Slots};
ghost use Rattle.gno_type_rows.specs.RowTypes.{definition_with, is_defined};

use gno_base::{Bytes, List};
use gno_constants::Constant;
use gno_selectors::Selection;
use gno_terms::{Method, Term, TypeRef};
use gno_type_table::TypeTable;
use std::alloc::{AllocError, Global};
use std::marker::Model;

/// There is no memory for it.
#[derive(Clone, Copy, Debug, PartialEq, Eq)]
pub struct NoMemory;

impl From<AllocError> for NoMemory {
    fn from(_: AllocError) -> NoMemory {
        NoMemory
    }
}

/// The types that were met, by their numbers, and what declarations say of the types that they define. Contracts see a `Table`. A number
/// that it gave stands for the same type from then on.
#[derive(Drop)]
pub struct Types {
    table: TypeTable,
    alloc: Global,
}

impl Model for Types {
    ghost use Rattle.gno_terms.specs.Tables.{Table};
    ghost use Rattle.gno_terms.specs.contracts.term.GoType as go_type;
    ghost use Rattle.std.specs.Coded.{codes};

    ghost Value = { Table };

    ghost coded = { Prim.hlevel (codes, go_type.the_row.coded) };

    ghost view = { λ it. it.table };
}

impl Types {
    /// A table without a definition.
    pub fn new(alloc: Global) -> Result<Types, NoMemory>
        ensures { IfOk result (λ it. it.definitions ≡ []) }
    {
        let table = TypeTable::new(alloc)?;
        Ok(Types { table, alloc })
    }

    /// The number of a type, which is added where it was not met. The term is taken in its normal form. Takes logarithmic time, and for
    /// a struct with embedded fields or an interface that of a search for its methods.
    pub fn intern(&mut self, term: Term) -> Result<TypeRef, NoMemory>
        requires below { PartsBelow (length self.old.types) term }
        requires lawful { IsLawful (term_with (type_at self.old.types) term) }
        ensures is { IfOk result (λ t. Is self.new t (normal (deep self.old.types term))) }
        ensures grows { Grows self.old self.new }
        ensures definitions { self.new.definitions ≡ self.old.definitions }
    {
        Ok(self.table.intern(term)?)
    }

    /// Notes the underlying type and the methods of a defined type, which are taken without packages beside exported names. An `Err`
    /// changes no type and no definition. Go specification, "Type definitions".
    pub fn define(
        &mut self,
        defined: TypeRef,
        underlying: TypeRef,
        methods: List<Method>,
    ) -> Result<(), NoMemory>
        requires of { Below (length self.old.types) defined }
        requires underlying { Below (length self.old.types) underlying }
        requires methods { Each (Below (length self.old.types)) (map method_of methods) }
        requires defined { is_defined (term_of (type_at self.old.types defined)) ≡ true }
        requires new { (d : DefinitionOf GoType) → Defines self.old d → d.of ≢ type_at self.old.types defined }
        ensures types { self.new.types ≡ self.old.types }
        ensures definitions { OnOk result ((d : DefinitionOf GoType) → Defines self.new d ↔ (Defines self.old d
            ⊎ (d ≡ definition_with (type_at self.old.types) (record { of = defined; underlying = underlying; methods = map normal_method methods })))) }
        ensures err { OnErr result ((d : DefinitionOf GoType) → Defines self.new d ↔ Defines self.old d) }
    {
        Ok(self.table.define(defined, underlying, methods)?)
    }

    /// Takes back the definitions of all types of a package. Takes no memory.
    pub fn undefine(&mut self, path: &[u8])
        ensures types { self.new.types ≡ self.old.types }
        ensures definitions { (d : DefinitionOf GoType) → Defines self.new d ↔ (Defines self.old d × (IsOfPath path.now d.of → ⊥)) }
    {
        self.table.undefine(path);
    }

    /// Whether the number stands for a type.
    pub fn contains(&self, t: TypeRef) -> bool
        ensures { IsTrue result ↔ Below (length self.now.types) t }
    {
        self.table.contains(t)
    }

    /// What a number stands for, by the numbers of its parts. Takes constant time.
    pub fn term(&self, t: TypeRef) -> &Term
        requires { Below (length self.now.types) t }
        ensures is { Is self.now t (deep self.now.types result.now) }
        ensures parts { PartsBelow (length self.now.types) result.now }
    {
        self.table.term(t)
    }

    /// Whether a declaration defines the type. Takes constant time.
    pub fn is_defined(&self, t: TypeRef) -> bool
        requires { Below (length self.now.types) t }
        ensures { (s : GoType) → Is self.now t s → IsTrue result ↔ ((d : DefinitionOf GoType) × Defines self.now d × (d.of ≡ s)) }
    {
        self.table.is_defined(t)
    }

    /// The underlying type of a type that is no defined one, or is defined. Go specification, "Underlying types".
    pub fn underlying(&self, t: TypeRef) -> TypeRef
        requires below { Below (length self.now.types) t }
        requires known { (s : GoType) → Is self.now t s → IsKnown self.now s }
        ensures { (s : GoType) → Is self.now t s → (u : GoType) × Underlying self.now s u × Is self.now result u }
    {
        self.table.underlying(t)
    }

    /// Whether two numbers stand for identical types. Go specification, "Type identity". Takes constant time.
    pub fn identical(&self, a: TypeRef, b: TypeRef) -> bool
        ensures { (s u : GoType) → Is self.now a s → Is self.now b u → IsTrue result ↔ Identical s u }
    {
        self.table.identical(a, b)
    }

    /// Whether each type is defined to which the embedded fields of the type lead, or those of the type that it points at. Takes constant
    /// time.
    pub fn is_complete(&self, t: TypeRef) -> bool
        requires { Below (length self.now.types) t }
        ensures { (s : GoType) → Is self.now t s → IsTrue result ↔ IsComplete self.now (base s) }
    {
        gno_method_sets::is_complete(&self.table, t)
    }

    /// Whether a value of a type may be assigned to a variable of another type: a constant where one is given. Takes no memory. Go
    /// specification, "Assignability".
    pub fn assignable(&self, from: TypeRef, constant: Option<&Constant>, to: TypeRef) -> bool
        requires from { Below (length self.now.types) from }
        requires to { Below (length self.now.types) to }
        requires complete { (s : GoType) → Is self.now from s → IsComplete self.now (base s) }
        requires known { (s : GoType) → Is self.now to s → IsKnown self.now s }
        ensures { (s u : GoType) → Is self.now from s → Is self.now to u → IsTrue result ↔ IsAssignable self.now s (option_map (λ it. it.now) constant.entry) u }
    {
        gno_assignability::assignable(&self.table, from, constant, to)
    }

    /// Whether values of the type have a number of slots: it holds no type that is not defined, and not itself. Takes constant time.
    pub fn is_sized(&self, t: TypeRef) -> bool
        requires { Below (length self.now.types) t }
        ensures { (s : GoType) → Is self.now t s → IsTrue result ↔ ((n : ℕ) × Slots self.now s n) }
    {
        self.table.is_sized(t)
    }

    /// How many slots a value of the type has; at most 2^64 - 1 is answered. Takes constant time.
    pub fn slots(&self, t: TypeRef) -> u64
        requires below { Below (length self.now.types) t }
        requires known { (s : GoType) → Is self.now t s → (n : ℕ) × Slots self.now s n }
        ensures { (s : GoType) (n : ℕ) → Is self.now t s → Slots self.now s n → result ≡ min n (2 ^ 64 - 1) }
    {
        self.table.slots(t)
    }

    /// Whether values of the type compare. Go specification, "Comparison operators". Takes constant time.
    pub fn comparable(&self, t: TypeRef) -> bool
        requires below { Below (length self.now.types) t }
        requires known { (s : GoType) → Is self.now t s → (n : ℕ) × Slots self.now s n }
        ensures { (s : GoType) → Is self.now t s → IsTrue result ↔ IsComparable self.now s }
    {
        self.table.comparable(t)
    }

    /// The method set of a type, in byte order, with the methods that embedded fields promote. Go specification, "Method sets".
    pub fn method_set(&self, alloc: Global, t: TypeRef) -> Result<List<Method>, NoMemory>
        requires below { Below (length self.now.types) t }
        requires complete { (s : GoType) → Is self.now t s → IsComplete self.now (base s) }
        ensures methods { IfOk result (λ ms. (s : GoType) → Is self.now t s → IsMethodSet self.now s (map (method_with (type_at self.now.types)) ms)) }
        ensures below { IfOk result (λ ms. Each (Below (length self.now.types)) (map method_of ms)) }
    {
        Ok(gno_method_sets::method_set(alloc, &self.table, t)?)
    }

    /// What a name selects in a type of which each type is defined that its embedded fields lead to; what a pointer points at is not
    /// looked at. The package is empty where the name is exported, and else the path of the package that asks. Takes time by the number
    /// of the fields and methods of the type, and where none of these has the name by the number of types, fields and methods that its
    /// embedded fields lead to, and its logarithm. Go specification, "Selectors".
    pub fn select(
        &self,
        alloc: Global,
        t: TypeRef,
        name: &[u8],
        package: &[u8],
    ) -> Result<Selection, NoMemory>
        requires below { Below (length self.now.types) t }
        requires complete { (s : GoType) → Is self.now t s → IsComplete self.now s }
        ensures selection { IfOk result (λ it. (s : GoType) → Is self.now t s → IsSelection self.now s name.now «package».now it) }
        ensures below { IfOk result (λ it. IsSelectionBelow (length self.now.types) it) }
    {
        Ok(self.table.select(alloc, t, name, package)?)
    }

    /// The text of a type, in which a type that declarations define is its name. An untyped type has the empty text.
    pub fn type_text(&self, alloc: Global, t: TypeRef) -> Result<Bytes, NoMemory>
        requires { Below (length self.now.types) t }
        ensures { IfOk result (λ text. (s : GoType) → Is self.now t s → text ≡ type_text s) }
    {
        Ok(gno_type_texts::type_text(alloc, &self.table, t)?)
    }

    /// The type that has this text, over types that are defined; `None` where no type has it.
    pub fn read_text(&mut self, text: &[u8]) -> Result<Option<TypeRef>, NoMemory>
        ensures some { IfOk result (λ it. IfSome it (λ t. (s : GoType) × Is self.new t s × IsTypeText self.old text.now s)) }
        ensures none { IfOk result (λ it. it ≡ None → (s : GoType) → IsTypeText self.old text.now s → ⊥) }
        ensures grows { Grows self.old self.new }
        ensures definitions { self.new.definitions ≡ self.old.definitions }
    {
        Ok(gno_type_reading::read_text(self.alloc, &mut self.table, text)?)
    }
}
