// The texts of types, over those of their parts.
#![tactic(auto, using(crate::proofs::Stacks::stack_push, crate::proofs::Stacks::good_push, crate::proofs::Stacks::good_same))]

ghost use Rattle.std.specs.Prelude.{[], ◌++◌, List, codes, decimal, map, length, OnOk};
ghost use Rattle.gno_terms.specs.declared.term.GoType.{GoType};
ghost use Rattle.gno_terms.specs.declared.term.TypeRef.{TypeRef};
ghost use Rattle.gno_terms.specs.Lawful.{IsLawful};
ghost use Rattle.gno_terms.specs.Tables.{Below, PartsBelow, type_at};
ghost use Rattle.gno_terms.specs.Terms.{term_with};
ghost use Rattle.gno_terms.specs.Texts.{local_text, member_text, term_text};
ghost use Rattle.gno_type_texts.specs.Pieces.{Adds, AreGood, Pays};

use crate::heads::{kind_text, write_local, write_member, write_number};
use crate::piece::Piece;
use crate::writer::Writer;
use gno_base::Bytes;
use gno_terms::{Term, TypeRef};
use std::alloc::AllocError;

impl<'a> Writer<'a> {
    /// Writes the text of a type, or its beginning, behind which pieces for its parts are left.
    pub(crate) fn write_term(&mut self, term: &'a Term) -> Result<(), AllocError>
        ensures text { OnOk result (Adds self.old self.new (λ at. term_text (term_with at term.entry.now))) }
        ensures good { OnOk result ((types : List GoType) → PartsBelow (length types) term.entry.now → IsLawful (term_with (type_at types) term.entry.now) → AreGood types self.old → AreGood types self.new) }
        ensures pays { OnOk result (Pays 0 self.old self.new) }
    {
        match term {
            Term::Basic(kind) => self.write(kind_text(*kind)),
            Term::Error => self.write(b"error"),
            Term::Realm => self.write(b"realm"),
            Term::Defined { path, name, local } => self.write_defined(path, name, *local),
            Term::Pointer(of) => self.write_mark(b"*", *of),
            Term::Slice(of) => self.write_mark(b"[]", *of),
            Term::Array(count, of) => self.write_array(*count, *of),
            Term::Map(key, of) => self.write_map(*key, *of),
            Term::Function {
                params,
                variadic,
                results,
            } => {
                self.write(b"func")?;
                self.write_signature(params.as_slice(), *variadic, results.as_slice())
            }
            Term::Struct(fields) => self.write_struct(fields.as_slice()),
            Term::Interface(methods) => self.write_interface(methods.as_slice()),
            _ => Ok(()),
        }
    }

    fn write_defined(&mut self, path: &Bytes, name: &Bytes, local: u64) -> Result<(), AllocError>
        ensures text { OnOk result (Adds self.old self.new (λ at. member_text name.now path.now ++ local_text local)) }
        ensures good { OnOk result ((types : List GoType) → AreGood types self.old → AreGood types self.new) }
        ensures pays { OnOk result (Pays 0 self.old self.new) }
    {
        write_member(&mut self.text, name, path)?;
        write_local(&mut self.text, local)
    }

    fn write_array(&mut self, count: u64, of: TypeRef) -> Result<(), AllocError>
        ensures text { OnOk result (Adds self.old self.new (λ at. codes "[" ++ (decimal count ++ (codes "]" ++ at of)))) }
        ensures good { OnOk result ((types : List GoType) → Below (length types) of → AreGood types self.old → AreGood types self.new) }
        ensures pays { OnOk result (Pays 0 self.old self.new) }
    {
        self.write(b"[")?;
        write_number(&mut self.text, count)?;
        self.write_mark(b"]", of)
    }

    fn write_map(&mut self, key: TypeRef, of: TypeRef) -> Result<(), AllocError>
        ensures text { OnOk result (Adds self.old self.new (λ at. codes "map[" ++ (at key ++ (codes "]" ++ at of)))) }
        ensures good { OnOk result ((types : List GoType) → Below (length types) key → Below (length types) of → AreGood types self.old → AreGood types self.new) }
        ensures pays { OnOk result (Pays 0 self.old self.new) }
    {
        self.write(b"map[")?;
        self.push(Piece::Type(of))?;
        self.push(Piece::Text(b"]"))?;
        self.push(Piece::Type(key))
    }
}
