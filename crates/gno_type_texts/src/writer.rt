// A text, and the pieces of it that are still to be written.
#![tactic(auto, using(crate::proofs::Stacks::stack_push, crate::proofs::Stacks::good_push, crate::proofs::Stacks::good_same))]

ghost use Rattle.std.specs.Prelude.{◌≡◌, [], ◌++◌, ◌+◌, ◌<◌, ℕ, List, length, IfSome, MatchOption, OnOk, OnSome};
ghost use Rattle.gno_terms.specs.declared.term.GoType.{GoType};
ghost use Rattle.gno_terms.specs.declared.term.TypeRef.{TypeRef};
ghost use Rattle.gno_type_texts.specs.Pieces.{Adds, AreGood, IsGoodPiece, Pays, piece_text, stack_text};
ghost use Rattle.gno_terms.specs.Tables.{Below};

use crate::piece::Piece;
use gno_base::{Bytes, List};
use gno_terms::TypeRef;
use std::alloc::{AllocError, Global};

/// A text as far as it is written, and what is still to be written, the next piece last.
#[derive(Drop)]
pub(crate) struct Writer<'a> {
    pub text: Bytes,
    pub pieces: List<Piece<'a>>,
}

impl<'a> Writer<'a> {
    /// Nothing is written, and nothing is to be written.
    pub(crate) fn new(alloc: Global) -> Writer<'a>
        ensures text { result.text ≡ [] }
        ensures pieces { result.pieces ≡ [] }
    {
        Writer {
            text: Bytes::new(alloc),
            pieces: List::new(alloc),
        }
    }

    /// Writes some bytes.
    pub(crate) fn write(&mut self, bytes: &[u8]) -> Result<(), AllocError>
        ensures text { OnOk result (self.new.text ≡ self.old.text ++ bytes.now) }
        ensures pieces { self.new.pieces ≡ self.old.pieces }
        ensures good { (types : List GoType) → AreGood types self.old → AreGood types self.new }
    {
        self.text.extend_from_slice(bytes)
    }

    /// Leaves a piece to be written next.
    pub(crate) fn push(&mut self, piece: Piece<'a>) -> Result<(), AllocError>
        ensures text { self.new.text ≡ self.old.text }
        ensures stack { OnOk result ((at : TypeRef → List ℕ) → stack_text at self.new.pieces ≡ piece_text at piece.entry ++ stack_text at self.old.pieces) }
        ensures good { OnOk result ((types : List GoType) → AreGood types self.old → IsGoodPiece types piece.entry → AreGood types self.new) }
        ensures count { OnOk result (length self.new.pieces ≡ length self.old.pieces + 1) }
    {
        self.pieces.push(piece)
    }

    /// Takes the next piece.
    pub(crate) fn pop(&mut self) -> Option<Piece<'a>>
        ensures text { self.new.text ≡ self.old.text }
        ensures stack { (at : TypeRef → List ℕ) → MatchOption result (stack_text at self.old.pieces ≡ []) (λ piece. stack_text at self.old.pieces ≡ piece_text at piece ++ stack_text at self.new.pieces) }
        ensures good { (types : List GoType) → AreGood types self.old → IfSome result (λ piece. IsGoodPiece types piece × AreGood types self.new) }
        ensures count { OnSome result (length self.old.pieces ≡ length self.new.pieces + 1) }
    {
        self.pieces.pop()
    }

    /// Writes a mark, and leaves a type to be written behind it.
    pub(crate) fn write_mark(&mut self, mark: &[u8], of: TypeRef) -> Result<(), AllocError>
        ensures text { OnOk result (Adds self.old self.new (λ at. mark.now ++ at of)) }
        ensures good { OnOk result ((types : List GoType) → Below (length types) of → AreGood types self.old → AreGood types self.new) }
        ensures pays { OnOk result (0 < length mark.now → Pays 0 self.old self.new) }
    {
        self.write(mark)?;
        self.push(Piece::Type(of))
    }
}
