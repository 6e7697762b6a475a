// A table of declared types that cases are tried on.
ghost use Rattle.std.specs.Prelude.{◌≡◌, ◌≢◌, IsTrue, length, map, true};
ghost use Rattle.gno_embedding.specs.Embedding.{IsComplete, IsKnown, base};
ghost use Rattle.gno_terms.specs.Lawful.{Each};
ghost use Rattle.gno_terms.specs.Tables.{Below, Defines, Is, type_at};
ghost use Rattle.gno_terms.specs.Terms.{method_of, term_of};
ghost use Rattle.gno_terms.specs.declared.term.DefinitionOf.{DefinitionOf};
ghost use Rattle.gno_terms.specs.declared.term.GoType.{GoType};
ghost use Rattle.gno_type_rows.specs.RowTypes.{is_defined};

use super::cases::{DECLARED, METHODS};
use crate::{Constant, Method, Passed, Selection, Term, TypeRef, Types};
use gno_base::{Bytes, Kind, List};
use gno_type_reading::is_lawful_name;
use std::alloc::{AllocError, Global};

const PATH: &str = "gno.land/p/demo/t";

/// A table in which types are declared.
#[derive(Drop)]
pub(super) struct Bench {
    types: Types,
    alloc: Global,
}

/// What a declaration says.
#[derive(Drop)]
struct Declaration {
    defined: TypeRef,
    underlying: TypeRef,
    methods: List<Method>,
}

/// The table of the declared types, if each could be declared.
pub(super) fn new_bench(alloc: Global) -> Result<Option<Bench>, AllocError> {
    let Ok(types) = Types::new(alloc) else {
        return Err(AllocError);
    };
    let mut bench = Bench { types, alloc };
    if !bench.place_all()? {
        return Ok(None);
    }
    let declarations = bench.read_all()?;
    bench.types.undefine(PATH.as_bytes());
    if declarations.len() == DECLARED.len() && bench.define_all(declarations)? {
        Ok(Some(bench))
    } else {
        Ok(None)
    }
}

impl Bench {
    // Defines each type as an integer, so that texts may name it.
    fn place_all(&mut self) -> Result<bool, AllocError> {
        for (name, _) in DECLARED.as_slice() {
            if !self.place(name)? {
                return Ok(false);
            }
        }
        Ok(true)
    }

    fn place(&mut self, name: &str) -> Result<bool, AllocError> {
        match self.defined(name)? {
            Some(defined) => {
                let int = self.intern_kind(Kind::Int)?;
                self.define(Declaration {
                    defined,
                    underlying: int,
                    methods: List::new(self.alloc),
                })
            }
            None => Ok(false),
        }
    }

    fn intern_kind(&mut self, kind: Kind) -> Result<TypeRef, AllocError> {
        match self.types.intern(Term::Basic(kind)) {
            Ok(t) => Ok(t),
            Err(_) => Err(AllocError),
        }
    }

    // The type that a declaration of this name defines.
    fn defined(&mut self, name: &str) -> Result<Option<TypeRef>, AllocError> {
        let path = Bytes::from_slice(self.alloc, PATH.as_bytes())?;
        let name = Bytes::from_slice(self.alloc, name.as_bytes())?;
        if !is_lawful_name(self.alloc, &path, &name, 0)? {
            return Ok(None);
        }
        match self.types.intern(Term::Defined {
            path,
            name,
            local: 0,
        }) {
            Ok(t) => Ok(Some(t)),
            Err(_) => Err(AllocError),
        }
    }

    fn read_all(&mut self) -> Result<Vec<Declaration>, AllocError> {
        let mut declarations = Vec::new(self.alloc);
        for (name, text) in DECLARED.as_slice() {
            if let Some(declaration) = self.read_declaration(name, text)? {
                declarations.push(declaration)?;
            }
        }
        Ok(declarations)
    }

    fn read_declaration(
        &mut self,
        name: &str,
        text: &str,
    ) -> Result<Option<Declaration>, AllocError> {
        let Some(defined) = self.defined(name)? else {
            return Ok(None);
        };
        let Some(underlying) = self.read(text)? else {
            return Ok(None);
        };
        let methods = self.methods_of(name)?;
        Ok(Some(Declaration {
            defined,
            underlying,
            methods,
        }))
    }

    fn methods_of(&mut self, of: &str) -> Result<List<Method>, AllocError> {
        let mut methods = List::new(self.alloc);
        for (receiver, name, pointer, text) in METHODS.as_slice() {
            if *receiver == of {
                if let Some(method) = self.method(name, *pointer, text)? {
                    methods.push(method)?;
                }
            }
        }
        Ok(methods)
    }

    fn method(
        &mut self,
        name: &str,
        pointer: bool,
        text: &str,
    ) -> Result<Option<Method>, AllocError> {
        let Some(of) = self.read(text)? else {
            return Ok(None);
        };
        Ok(Some(Method {
            name: Bytes::from_slice(self.alloc, name.as_bytes())?,
            package: Bytes::from_slice(self.alloc, PATH.as_bytes())?,
            of,
            pointer,
        }))
    }

    fn define_all(&mut self, declarations: Vec<Declaration>) -> Result<bool, AllocError> {
        for declaration in declarations {
            if !self.define(declaration)? {
                return Ok(false);
            }
        }
        Ok(true)
    }

    fn define(&mut self, declaration: Declaration) -> Result<bool, AllocError> {
        let Declaration {
            defined,
            underlying,
            methods,
        } = declaration;
        if !is_open(&self.types, defined) || !self.types.contains(underlying) {
            return Ok(false);
        }
        if !contains_all(&self.types, methods.as_slice()) {
            return Ok(false);
        }
        match self.types.define(defined, underlying, methods) {
            Ok(()) => Ok(true),
            Err(_) => Err(AllocError),
        }
    }

    // The type of a text, or an untyped one by its name.
    fn read(&mut self, text: &str) -> Result<Option<TypeRef>, AllocError> {
        let found = match text {
            "nil" => self.types.intern(Term::UntypedNil).map(Some),
            "untyped bool" => self.types.intern(Term::UntypedBool).map(Some),
            "untyped int" => self.types.intern(Term::UntypedWhole).map(Some),
            "untyped rune" => self.types.intern(Term::UntypedRune).map(Some),
            "untyped string" => self.types.intern(Term::UntypedText).map(Some),
            _ => self.types.read_text(text.as_bytes()),
        };
        match found {
            Ok(t) => Ok(t),
            Err(_) => Err(AllocError),
        }
    }

    fn constant(&self, text: &str) -> Option<Constant> {
        match text {
            "true" => Some(Constant::Bool(true)),
            "text" => Some(Constant::Text(Bytes::new(self.alloc))),
            _ => match text.parse::<i128>() {
                Ok(number) => Some(Constant::Whole(number)),
                Err(_) => None,
            },
        }
    }

    /// The first type that has another method set.
    pub(super) fn wrong_set(
        &mut self,
        cases: &[(&'static str, &'static str)],
    ) -> Result<Option<&'static str>, AllocError> {
        for (text, wanted) in cases {
            if !self.has_set(text, wanted)? {
                return Ok(Some(*text));
            }
        }
        Ok(None)
    }

    fn has_set(&mut self, text: &str, wanted: &str) -> Result<bool, AllocError> {
        let Some(t) = self.read(text)? else {
            return Ok(false);
        };
        if !is_complete(&self.types, t) {
            return Ok(false);
        }
        match self.types.method_set(self.alloc, t) {
            Ok(methods) => {
                let names = joined(self.alloc, methods.as_slice())?;
                Ok(names.as_slice() == wanted.as_bytes())
            }
            Err(_) => Err(AllocError),
        }
    }

    /// The first assignment of which something else is answered.
    pub(super) fn wrong_assignment(
        &mut self,
        cases: &[(&'static str, &'static str, &'static str, bool)],
    ) -> Result<Option<(&'static str, &'static str)>, AllocError> {
        for (from, constant, to, wanted) in cases {
            if self.assigns(from, constant, to)? != Some(*wanted) {
                return Ok(Some((*from, *to)));
            }
        }
        Ok(None)
    }

    fn assigns(
        &mut self,
        from: &str,
        constant: &str,
        to: &str,
    ) -> Result<Option<bool>, AllocError> {
        let Some(from) = self.read(from)? else {
            return Ok(None);
        };
        let Some(to) = self.read(to)? else {
            return Ok(None);
        };
        let constant = self.constant(constant);
        Ok(assigns(&self.types, from, constant.as_ref(), to))
    }

    /// The first type in which a name selects something else.
    pub(super) fn wrong_selection(
        &mut self,
        cases: &[(&'static str, &'static str, &'static str, &'static str)],
    ) -> Result<Option<(&'static str, &'static str)>, AllocError> {
        for (text, name, package, wanted) in cases {
            if !self.selects(text, name, package, wanted)? {
                return Ok(Some((*text, *name)));
            }
        }
        Ok(None)
    }

    fn selects(
        &mut self,
        text: &str,
        name: &str,
        package: &str,
        wanted: &str,
    ) -> Result<bool, AllocError> {
        let Some(t) = self.read(text)? else {
            return Ok(false);
        };
        if !is_selectable(&self.types, t) {
            return Ok(false);
        }
        match self
            .types
            .select(self.alloc, t, name.as_bytes(), package.as_bytes())
        {
            Ok(selection) => {
                let text = selection_text(self.alloc, &selection)?;
                Ok(text.as_slice() == wanted.as_bytes())
            }
            Err(_) => Err(AllocError),
        }
    }

    /// The first type whose values hold something else.
    pub(super) fn wrong_holding(
        &mut self,
        cases: &[(&'static str, u64, bool)],
    ) -> Result<Option<&'static str>, AllocError> {
        for (text, slots, comparable) in cases {
            if !self.has_holding(text, *slots, *comparable)? {
                return Ok(Some(*text));
            }
        }
        Ok(None)
    }

    fn has_holding(
        &mut self,
        text: &str,
        slots: u64,
        comparable: bool,
    ) -> Result<bool, AllocError> {
        let Some(t) = self.read(text)? else {
            return Ok(false);
        };
        if !self.types.contains(t) || !self.types.is_sized(t) {
            return Ok(false);
        }
        Ok(self.types.slots(t) == slots && self.types.comparable(t) == comparable)
    }
}

// Whether it is a defined type that no declaration defines yet.
fn is_open(types: &Types, t: TypeRef) -> bool
    ensures below { IsTrue result → Below (length types.now.types) t }
    ensures defined { IsTrue result → is_defined (term_of (type_at types.now.types t)) ≡ true }
    ensures new { IsTrue result → (d : DefinitionOf GoType) → Defines types.now d → d.of ≢ type_at types.now.types t }
{
    if !types.contains(t) {
        return false;
    }
    match types.term(t) {
        Term::Defined { .. } => !types.is_defined(t),
        _ => false,
    }
}

fn contains_all(types: &Types, methods: &[Method]) -> bool
    ensures { IsTrue result → Each (Below (length types.now.types)) (map method_of methods.now) }
{
    for method in methods {
        if !types.contains(method.of) {
            return false;
        }
    }
    true
}

// Whether it stands in the table, and all that its embedded fields lead to is defined.
fn is_complete(types: &Types, t: TypeRef) -> bool
    ensures below { IsTrue result → Below (length types.now.types) t }
    ensures complete { IsTrue result → (s : GoType) → Is types.now t s → IsComplete types.now (base s) }
    ensures known { IsTrue result → (s : GoType) → Is types.now t s → IsKnown types.now s }
{
    types.contains(t) && types.is_complete(t)
}

// Whether it stands in the table, is no pointer, and all that its embedded fields lead to is defined.
fn is_selectable(types: &Types, t: TypeRef) -> bool
    ensures below { IsTrue result → Below (length types.now.types) t }
    ensures complete { IsTrue result → (s : GoType) → Is types.now t s → IsComplete types.now s }
{
    if !is_complete(types, t) {
        return false;
    }
    match types.term(t) {
        Term::Pointer(_) => false,
        _ => true,
    }
}

fn assigns(types: &Types, from: TypeRef, constant: Option<&Constant>, to: TypeRef) -> Option<bool> {
    if !is_complete(types, from) {
        return None;
    }
    if !is_complete(types, to) {
        return None;
    }
    Some(types.assignable(from, constant, to))
}

// The names, with a space between them.
fn joined(alloc: Global, methods: &[Method]) -> Result<Bytes, AllocError> {
    let mut names = Bytes::new(alloc);
    for method in methods {
        if !names.is_empty() {
            names.push(b' ')?;
        }
        names.extend_from_slice(method.name.as_slice())?;
    }
    Ok(names)
}

fn selection_text(alloc: Global, selection: &Selection) -> Result<Bytes, AllocError> {
    match selection {
        Selection::Missing => Bytes::from_slice(alloc, b"missing"),
        Selection::Ambiguous => Bytes::from_slice(alloc, b"ambiguous"),
        Selection::Field { way, place, .. } => {
            let mut text = way_text(alloc, way.as_slice())?;
            text.extend_from_slice(b"field ")?;
            text.push(digit(*place))?;
            Ok(text)
        }
        Selection::Method { way, method, .. } => {
            let mut text = way_text(alloc, way.as_slice())?;
            text.extend_from_slice(b"method ")?;
            text.extend_from_slice(method.name.as_slice())?;
            Ok(text)
        }
    }
}

// The places, each with a space behind it, and a star before that at pointers.
fn way_text(alloc: Global, way: &[Passed]) -> Result<Bytes, AllocError> {
    let mut text = Bytes::new(alloc);
    for passed in way {
        text.push(digit(passed.place))?;
        if passed.pointer {
            text.push(b'*')?;
        }
        text.push(b' ')?;
    }
    Ok(text)
}

fn digit(place: usize) -> u8 {
    match b"0123456789".get(place) {
        Some(digit) => *digit,
        None => b'?',
    }
}
