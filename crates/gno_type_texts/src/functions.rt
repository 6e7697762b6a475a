// The texts of functions.
#![tactic(auto, using(crate::proofs::Stacks::stack_push, crate::proofs::Stacks::good_push, crate::proofs::Stacks::good_same))]

ghost use Rattle.std.specs.Prelude.{◌≡◌, [], ◌++◌, ◌+◌, ◌≤◌, ℕ, List, codes, map, length, OnOk};
ghost use Rattle.gno_terms.specs.declared.term.GoType.{GoType};
ghost use Rattle.gno_terms.specs.declared.term.TypeRef.{TypeRef};
ghost use Rattle.gno_terms.specs.Lawful.{Each};
ghost use Rattle.gno_terms.specs.Tables.{Below};
ghost use Rattle.gno_terms.specs.Texts.{joined, params_text, results_text};
ghost use Rattle.gno_type_texts.specs.Pieces.{Adds, AreGood, ArePieceParams, Pays, more_text, param_texts, stack_text};

use crate::piece::Piece;
use crate::writer::Writer;
use gno_terms::TypeRef;
use std::alloc::AllocError;

impl<'a> Writer<'a> {
    // Parameters, of which the first is next.
    fn push_params(&mut self, params: &'a [TypeRef], variadic: bool) -> Result<(), AllocError>
        ensures text { self.new.text ≡ self.old.text }
        ensures stack { OnOk result ((at : TypeRef → List ℕ) → stack_text at self.new.pieces ≡ joined (codes ", ") (param_texts variadic (map at params.entry.now)) ++ stack_text at self.old.pieces) }
        ensures good { OnOk result ((types : List GoType) → ArePieceParams types params.entry.now variadic → AreGood types self.old → AreGood types self.new) }
        ensures count { OnOk result (length self.new.pieces ≤ length self.old.pieces + 2) }
    {
        match params {
            [] => Ok(()),
            [last] => self.push(if variadic {
                Piece::Variadic(*last)
            } else {
                Piece::Type(*last)
            }),
            [first, rest @ ..] => {
                self.push(Piece::MoreParams(rest, variadic))?;
                self.push(Piece::Type(*first))
            }
        }
    }

    /// Writes what stands behind the first parameter.
    pub(crate) fn write_more_params(
        &mut self,
        params: &'a [TypeRef],
        variadic: bool,
    ) -> Result<(), AllocError>
        ensures text { OnOk result (Adds self.old self.new (λ at. more_text (codes ", ") (param_texts variadic (map at params.entry.now)))) }
        ensures good { OnOk result ((types : List GoType) → ArePieceParams types params.entry.now variadic → AreGood types self.old → AreGood types self.new) }
        ensures pays { OnOk result (Pays 0 self.old self.new) }
    {
        match params {
            [] => Ok(()),
            [_, ..] => {
                self.write(b", ")?;
                self.push_params(params, variadic)
            }
        }
    }

    /// Writes the results of a function.
    pub(crate) fn write_results(&mut self, results: &'a [TypeRef]) -> Result<(), AllocError>
        ensures text { OnOk result (Adds self.old self.new (λ at. results_text (map at results.entry.now))) }
        ensures good { OnOk result ((types : List GoType) → Each (Below (length types)) results.entry.now → AreGood types self.old → AreGood types self.new) }
        ensures pays { OnOk result (Pays 0 self.old self.new) }
    {
        match results {
            [] => Ok(()),
            [_] => {
                self.write(b" ")?;
                self.push_params(results, false)
            }
            [_, _, ..] => {
                self.write(b" (")?;
                self.push(Piece::Text(b")"))?;
                self.push_params(results, false)
            }
        }
    }

    /// Writes the text of a function's type without `func`.
    pub(crate) fn write_signature(
        &mut self,
        params: &'a [TypeRef],
        variadic: bool,
        results: &'a [TypeRef],
    ) -> Result<(), AllocError>
        ensures text { OnOk result (Adds self.old self.new (λ at. params_text variadic (map at params.entry.now) ++ results_text (map at results.entry.now))) }
        ensures good { OnOk result ((types : List GoType) → ArePieceParams types params.entry.now variadic → Each (Below (length types)) results.entry.now → AreGood types self.old → AreGood types self.new) }
        ensures pays { OnOk result (Pays 0 self.old self.new) }
    {
        self.write(b"(")?;
        self.push(Piece::Results(results))?;
        self.push(Piece::Text(b")"))?;
        self.push_params(params, variadic)
    }
}
