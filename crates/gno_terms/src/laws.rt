// Laws of types.
ghost use Rattle.std.specs.Prelude.{◌≡◌};
ghost use Rattle.gno_terms.specs.declared.term.GoType.{GoType};
ghost use Rattle.gno_terms.specs.Lawful.{IsTyped, LawfulType};
ghost use Rattle.gno_terms.specs.Normal.{normal, Identical};
ghost use Rattle.gno_terms.specs.Texts.{type_text};

/// Lawful types that are not identical, none of them untyped, have different texts. This states a law and does nothing.
pub fn one_type_a_text()
    ensures { (s u : GoType) → LawfulType s → LawfulType u → IsTyped s → IsTyped u → type_text (normal s) ≡ type_text (normal u) → Identical s u }
{}
