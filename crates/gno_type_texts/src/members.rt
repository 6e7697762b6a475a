// The texts of structs and interfaces.
#![tactic(auto, using(crate::proofs::Stacks::stack_push, crate::proofs::Stacks::good_push, crate::proofs::Stacks::good_same))]

ghost use Rattle.std.specs.Prelude.{[], ◌++◌, List, codes, map, length, OnOk};
ghost use Rattle.gno_terms.specs.declared.term.GoType.{GoType};
ghost use Rattle.gno_terms.specs.Lawful.{Each};
ghost use Rattle.gno_terms.specs.Tables.{Below};
ghost use Rattle.gno_terms.specs.Terms.{field_of};
ghost use Rattle.gno_terms.specs.Texts.{joined};
ghost use Rattle.gno_type_texts.specs.Pieces.{Adds, AreGood, ArePieceMethods, Pays, field_texts, method_texts, more_text};

use crate::heads::{write_field, write_member};
use crate::piece::Piece;
use crate::writer::Writer;
use gno_terms::{Field, Method};
use std::alloc::AllocError;

impl<'a> Writer<'a> {
    // Fields, of which the first is next.
    fn write_fields(&mut self, fields: &'a [Field]) -> Result<(), AllocError>
        ensures text { OnOk result (Adds self.old self.new (λ at. joined (codes "; ") (field_texts at fields.entry.now))) }
        ensures good { OnOk result ((types : List GoType) → Each (Below (length types)) (map field_of fields.entry.now) → AreGood types self.old → AreGood types self.new) }
        ensures pays { OnOk result (Pays 2 self.old self.new) }
    {
        match fields {
            [] => Ok(()),
            [first, rest @ ..] => {
                write_field(&mut self.text, first)?;
                self.push(Piece::MoreFields(rest))?;
                self.push(Piece::Type(first.of))
            }
        }
    }

    /// Writes what stands behind the first field.
    pub(crate) fn write_more_fields(&mut self, fields: &'a [Field]) -> Result<(), AllocError>
        ensures text { OnOk result (Adds self.old self.new (λ at. more_text (codes "; ") (field_texts at fields.entry.now))) }
        ensures good { OnOk result ((types : List GoType) → Each (Below (length types)) (map field_of fields.entry.now) → AreGood types self.old → AreGood types self.new) }
        ensures pays { OnOk result (Pays 0 self.old self.new) }
    {
        match fields {
            [] => Ok(()),
            _ => {
                self.write(b"; ")?;
                self.write_fields(fields)
            }
        }
    }

    /// Writes the text of a struct.
    pub(crate) fn write_struct(&mut self, fields: &'a [Field]) -> Result<(), AllocError>
        ensures text { OnOk result (Adds self.old self.new (λ at. codes "struct{" ++ (joined (codes "; ") (field_texts at fields.entry.now) ++ codes "}"))) }
        ensures good { OnOk result ((types : List GoType) → Each (Below (length types)) (map field_of fields.entry.now) → AreGood types self.old → AreGood types self.new) }
        ensures pays { OnOk result (Pays 0 self.old self.new) }
    {
        self.write(b"struct{")?;
        self.push(Piece::Text(b"}"))?;
        self.write_fields(fields)
    }

    // Methods, of which the first is next.
    fn write_methods(&mut self, methods: &'a [Method]) -> Result<(), AllocError>
        ensures text { OnOk result (Adds self.old self.new (λ at. joined (codes "; ") (method_texts at methods.entry.now))) }
        ensures good { OnOk result ((types : List GoType) → ArePieceMethods types methods.entry.now → AreGood types self.old → AreGood types self.new) }
        ensures pays { OnOk result (Pays 2 self.old self.new) }
    {
        match methods {
            [] => Ok(()),
            [first, rest @ ..] => {
                write_member(&mut self.text, &first.name, &first.package)?;
                self.push(Piece::MoreMethods(rest))?;
                self.push(Piece::Signature(first.of))
            }
        }
    }

    /// Writes what stands behind the first method.
    pub(crate) fn write_more_methods(&mut self, methods: &'a [Method]) -> Result<(), AllocError>
        ensures text { OnOk result (Adds self.old self.new (λ at. more_text (codes "; ") (method_texts at methods.entry.now))) }
        ensures good { OnOk result ((types : List GoType) → ArePieceMethods types methods.entry.now → AreGood types self.old → AreGood types self.new) }
        ensures pays { OnOk result (Pays 0 self.old self.new) }
    {
        match methods {
            [] => Ok(()),
            _ => {
                self.write(b"; ")?;
                self.write_methods(methods)
            }
        }
    }

    /// Writes the text of an interface.
    pub(crate) fn write_interface(&mut self, methods: &'a [Method]) -> Result<(), AllocError>
        ensures text { OnOk result (Adds self.old self.new (λ at. codes "interface{" ++ (joined (codes "; ") (method_texts at methods.entry.now) ++ codes "}"))) }
        ensures good { OnOk result ((types : List GoType) → ArePieceMethods types methods.entry.now → AreGood types self.old → AreGood types self.new) }
        ensures pays { OnOk result (Pays 0 self.old self.new) }
    {
        self.write(b"interface{")?;
        self.push(Piece::Text(b"}"))?;
        self.write_methods(methods)
    }
}
