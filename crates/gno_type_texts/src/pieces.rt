// The pieces of a text.
#![tactic(auto, using(crate::proofs::Stacks::stack_push, crate::proofs::Stacks::good_push, crate::proofs::Stacks::good_same))]

ghost use Rattle.std.specs.Prelude.{◌≡◌, ◌++◌, true, codes, drop, length, OnOk};
ghost use Rattle.gno_terms.specs.declared.term.TypeRef.{TypeRef};
ghost use Rattle.gno_terms.specs.Lawful.{is_function, is_slice};
ghost use Rattle.gno_terms.specs.Tables.{Below, type_at};
ghost use Rattle.gno_terms.specs.Terms.{term_of};
ghost use Rattle.gno_type_texts.specs.Pieces.{AddsOf, AreGood, IsGoodPiece, Pays, piece_text, text_at};

use crate::piece::Piece;
use crate::writer::Writer;
use gno_terms::{Term, TypeRef};
use gno_type_table::TypeTable;
use std::alloc::AllocError;

impl<'a> Writer<'a> {
    /// Writes a piece, or its beginning, behind which smaller pieces are left.
    pub(crate) fn write_piece(
        &mut self,
        types: &'a TypeTable,
        piece: Piece<'a>,
    ) -> Result<(), AllocError>
        requires piece { IsGoodPiece types.now.types piece }
        requires pieces { AreGood types.now.types self.old }
        ensures text { OnOk result (AddsOf (text_at types.entry.now.types) self.old self.new (piece_text (text_at types.entry.now.types) piece.entry)) }
        ensures good { OnOk result (AreGood types.entry.now.types self.new) }
        ensures pays { OnOk result (Pays 0 self.old self.new) }
    {
        match piece {
            Piece::Text(text) => self.write(text),
            Piece::Type(t) => self.write_type(types, t),
            Piece::Signature(t) => self.write_signature_of(types, t),
            Piece::Variadic(t) => self.write_variadic(types, t),
            Piece::MoreParams(params, variadic) => self.write_more_params(params, variadic),
            Piece::Results(results) => self.write_results(results),
            Piece::MoreFields(fields) => self.write_more_fields(fields),
            Piece::MoreMethods(methods) => self.write_more_methods(methods),
        }
    }

    fn write_type(&mut self, types: &'a TypeTable, t: TypeRef) -> Result<(), AllocError>
        requires below { Below (length types.now.types) t }
        requires pieces { AreGood types.now.types self.old }
        ensures text { OnOk result (AddsOf (text_at types.entry.now.types) self.old self.new (text_at types.entry.now.types t)) }
        ensures good { OnOk result (AreGood types.entry.now.types self.new) }
        ensures pays { OnOk result (Pays 0 self.old self.new) }
    {
        types.types_are_lawful();
        self.write_term(types.term(t))
    }

    fn write_signature_of(&mut self, types: &'a TypeTable, t: TypeRef) -> Result<(), AllocError>
        requires below { Below (length types.now.types) t }
        requires function { is_function (term_of (type_at types.now.types t)) ≡ true }
        requires pieces { AreGood types.now.types self.old }
        ensures text { OnOk result (AddsOf (text_at types.entry.now.types) self.old self.new (drop 4 (text_at types.entry.now.types t))) }
        ensures good { OnOk result (AreGood types.entry.now.types self.new) }
        ensures pays { OnOk result (Pays 0 self.old self.new) }
    {
        types.types_are_lawful();
        match types.term(t) {
            Term::Function {
                params,
                variadic,
                results,
            } => self.write_signature(params.as_slice(), *variadic, results.as_slice()),
            _ => Ok(()),
        }
    }

    fn write_variadic(&mut self, types: &'a TypeTable, t: TypeRef) -> Result<(), AllocError>
        requires below { Below (length types.now.types) t }
        requires slice { is_slice (term_of (type_at types.now.types t)) ≡ true }
        requires pieces { AreGood types.now.types self.old }
        ensures text { OnOk result (AddsOf (text_at types.entry.now.types) self.old self.new (codes "..." ++ drop 2 (text_at types.entry.now.types t))) }
        ensures good { OnOk result (AreGood types.entry.now.types self.new) }
        ensures pays { OnOk result (Pays 0 self.old self.new) }
    {
        match types.term(t) {
            Term::Slice(of) => self.write_mark(b"...", *of),
            _ => Ok(()),
        }
    }
}
