// Laws of literals.
ghost use Rattle.std.specs.Prelude.{ℕ, List, ◌≡◌, ◌↔◌};
ghost use Rattle.gno_constants.specs.declared.constant.Constant.{Constant};
ghost use Rattle.gno_scan.specs.Escapes.{AreParts, IsEscape};
ghost use Rattle.gno_tree.specs.declared.word.LiteralKind.{LiteralKind};
ghost use Rattle.gno_literals.specs.declared.escape.Escaped.{Escaped};
ghost use Rattle.gno_literals.specs.EscapeValues.{EscapeValue};
ghost use Rattle.gno_literals.specs.Literals.{Spells};
ghost use Rattle.gno_literals.specs.Parts.{PartsValue};

/// A literal spells one constant. This states a law and does nothing.
pub fn one_value_a_spelling()
    ensures { (kind : LiteralKind) (word : List ℕ) (v u : Constant) → Spells kind word v → Spells kind word u → v ≡ u }
{}

/// What has a value is what may stand in a literal: each escape has one, and all parts together. This states laws and does nothing.
pub fn each_part_has_a_value()
    ensures escape { (quote : ℕ) (word : List ℕ) → IsEscape quote word ↔ ((value : Escaped) × EscapeValue quote word value) }
    ensures parts { (quote : ℕ) (word : List ℕ) → AreParts quote word ↔ ((bytes : List ℕ) × PartsValue quote word bytes) }
{}
