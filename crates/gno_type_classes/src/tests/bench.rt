// A table of declared types that cases are tried on.
use super::cases::{BASIC, FORMED, Form};
use super::lawful::{array, declared, defined, function, map, pointer, slice};
use crate::{
    elements_of, has_nil, holder_of, is_basic, is_boolean, is_integer, is_interface, is_ordered,
    is_text, is_untyped,
};
use gno_base::{Bytes, Kind, List};
use gno_constants::Constant;
use gno_terms::{Method, Term, TypeRef};
use gno_type_table::TypeTable;
use gno_typed::IndexKind;
use std::alloc::{AllocError, Global};
use std::test::Fail;

/// All classes of types.
const CLASSES: [&str; 8] = [
    "integer",
    "text",
    "boolean",
    "ordered",
    "basic",
    "interface",
    "nil",
    "untyped",
];

/// A table in which types are declared, and their names.
#[derive(Drop)]
pub(super) struct Bench {
    pub(super) types: TypeTable,
    alloc: Global,
    names: Vec<(&'static str, TypeRef)>,
}

/// The table of the declared types.
pub(super) fn new_bench(alloc: Global) -> Result<Bench, Fail> {
    let mut bench = Bench {
        types: TypeTable::new(alloc)?,
        alloc,
        names: Vec::new(alloc),
    };
    bench.place_basic()?;
    bench.place_others()?;
    bench.place_formed()?;
    Ok(bench)
}

impl Bench {
    fn place(&mut self, name: &'static str, t: TypeRef) -> Result<(), AllocError> {
        self.names.push((name, t))?;
        Ok(())
    }

    fn place_basic(&mut self) -> Result<(), AllocError> {
        for (name, kind) in BASIC {
            let t = self.types.intern(Term::Basic(kind))?;
            self.place(name, t)?;
        }
        Ok(())
    }

    fn place_others(&mut self) -> Result<(), AllocError> {
        let error = self.types.intern(Term::Error)?;
        self.place("error", error)?;
        let boolean = self.types.intern(Term::UntypedBool)?;
        self.place("untyped bool", boolean)?;
        let whole = self.types.intern(Term::UntypedWhole)?;
        self.place("untyped int", whole)?;
        let rune = self.types.intern(Term::UntypedRune)?;
        self.place("untyped rune", rune)?;
        let text = self.types.intern(Term::UntypedText)?;
        self.place("untyped string", text)?;
        let nil = self.types.intern(Term::UntypedNil)?;
        self.place("nil", nil)
    }

    fn place_formed(&mut self) -> Result<(), Fail> {
        for (name, form, of) in FORMED {
            let of = self.number(of);
            let t = self.formed(form, of)?;
            self.place(name, t)?;
        }
        Ok(())
    }

    fn formed(&mut self, form: Form, of: TypeRef) -> Result<TypeRef, Fail> {
        match form {
            Form::Pointer => pointer(&mut self.types, of),
            Form::Slice => slice(&mut self.types, of),
            Form::Array => array(&mut self.types, 3, of),
            Form::Map => map(&mut self.types, of, of),
            Form::Function => function(self.alloc, &mut self.types, of),
            Form::Struct => Ok(self.types.intern(Term::Struct(List::new(self.alloc)))?),
            Form::Interface => Ok(self.types.intern(Term::Interface(List::new(self.alloc)))?),
            Form::Defined => self.declare(of, List::new(self.alloc)),
            Form::Failing => {
                let methods = self.failing()?;
                self.declare(of, methods)
            }
            Form::Open => self.open(),
        }
    }

    // Types are told apart by the numbers of their declarations.
    fn open(&mut self) -> Result<TypeRef, Fail> {
        defined(self.alloc, &mut self.types, self.names.len() as u64)
    }

    fn declare(&mut self, underlying: TypeRef, methods: List<Method>) -> Result<TypeRef, Fail> {
        let t = self.open()?;
        declared(&mut self.types, t, underlying, methods)
    }

    // The method of `error`.
    fn failing(&self) -> Result<List<Method>, Fail> {
        let error = self.number("error");
        let Some(interface) = crate::underlying(&self.types, error) else {
            return Err(Fail::from("no error"));
        };
        match self.types.term(interface) {
            Term::Interface(methods) => Ok(methods.clone()?),
            _ => Err(Fail::from("no interface")),
        }
    }

    /// The number of a type by its name; a number that stands for no type where there is none.
    pub(super) fn number(&self, name: &str) -> TypeRef {
        for (known, t) in self.names.as_slice() {
            if *known == name {
                return *t;
            }
        }
        TypeRef(u64::MAX)
    }

    pub(super) fn found(&self, name: Option<&str>) -> Option<TypeRef> {
        match name {
            Some(name) => Some(self.number(name)),
            None => None,
        }
    }

    /// A truth value, a number, or an empty string.
    pub(super) fn constant(&self, text: &str) -> Constant {
        match text {
            "true" => Constant::Bool(true),
            "text" => Constant::Text(Bytes::new(self.alloc)),
            _ => match text.parse::<i128>() {
                Ok(number) => Constant::Whole(number),
                Err(_) => Constant::Bool(false),
            },
        }
    }

    fn is_of_class(&self, t: TypeRef, class: &str) -> bool {
        match class {
            "integer" => is_integer(&self.types, t),
            "text" => is_text(&self.types, t),
            "boolean" => is_boolean(&self.types, t),
            "ordered" => is_ordered(&self.types, t),
            "basic" => is_basic(&self.types, t),
            "interface" => is_interface(&self.types, t),
            "nil" => has_nil(&self.types, t),
            _ => is_untyped(&self.types, t),
        }
    }

    /// Whether the type is of these classes and of no others.
    pub(super) fn is_of(&self, name: &str, wanted: &str) -> bool {
        let t = self.number(name);
        for class in CLASSES {
            if self.is_of_class(t, class) != wanted.contains(class) {
                return false;
            }
        }
        true
    }

    pub(super) fn has_elements(
        &self,
        name: &str,
        wanted: Option<(IndexKind, &str, Option<u64>)>,
    ) -> bool {
        let byte = self.number("uint8");
        match (elements_of(&self.types, self.number(name), byte), wanted) {
            (Some(it), Some((kind, of, count))) => {
                it.kind == kind && it.of == self.number(of) && it.count == count
            }
            (None, None) => true,
            _ => false,
        }
    }

    pub(super) fn has_holder(&self, name: &str, wanted: Option<(&str, bool, bool)>) -> bool {
        match (holder_of(&self.types, self.number(name)), wanted) {
            (Some(it), Some((of, pointer, fields_alone))) => {
                it.of == self.number(of) && it.pointer == pointer && it.fields_alone == fields_alone
            }
            (None, None) => true,
            _ => false,
        }
    }
}
