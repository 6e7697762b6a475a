// The constant that a literal spells.
ghost use Rattle.std.specs.Prelude.{◌≡◌, None, IfOk, IfSome};
ghost use Rattle.gno_constants.specs.declared.constant.Constant.{Constant};
ghost use Rattle.gno_literals.specs.Literals.{Spells};

use crate::integer::integer_value;
use crate::rune::rune_value;
use crate::text::text_value;
use gno_constants::Constant;
use gno_tree::LiteralKind;
use std::alloc::{AllocError, Global};

/// The constant that a literal spells: a whole number for an integer or rune literal, a text for a string literal. `None` where the
/// spelling is no literal of its kind, or an integer above 2^127 - 1. Takes time in the length of the spelling.
/// Go specification, "Integer literals", "Rune literals", "String literals".
pub fn literal_value(
    alloc: Global,
    kind: LiteralKind,
    spelling: &[u8],
) -> Result<Option<Constant>, AllocError>
    ensures some { IfOk result (λ it. IfSome it (λ value. Spells kind spelling.now value)) }
    ensures none { IfOk result (λ it. it ≡ None → (value : Constant) → Spells kind spelling.now value → ⊥) }
{
    match kind {
        LiteralKind::Integer => Ok(whole_integer(spelling)),
        LiteralKind::Rune => Ok(whole_rune(spelling)),
        LiteralKind::String => text(alloc, spelling),
    }
}

fn whole_integer(spelling: &[u8]) -> Option<Constant>
    ensures some { IfSome result (λ value. Spells LiteralKind.Integer spelling.now value) }
    ensures none { result ≡ None → (value : Constant) → Spells LiteralKind.Integer spelling.now value → ⊥ }
{
    match integer_value(spelling) {
        Some(value) => Some(Constant::Whole(value as i128)),
        None => None,
    }
}

fn whole_rune(spelling: &[u8]) -> Option<Constant>
    ensures some { IfSome result (λ value. Spells LiteralKind.Rune spelling.now value) }
    ensures none { result ≡ None → (value : Constant) → Spells LiteralKind.Rune spelling.now value → ⊥ }
{
    match rune_value(spelling) {
        Some(value) => Some(Constant::Whole(i128::from(value))),
        None => None,
    }
}

fn text(alloc: Global, spelling: &[u8]) -> Result<Option<Constant>, AllocError>
    ensures some { IfOk result (λ it. IfSome it (λ value. Spells LiteralKind.String spelling.now value)) }
    ensures none { IfOk result (λ it. it ≡ None → (value : Constant) → Spells LiteralKind.String spelling.now value → ⊥) }
{
    match text_value(alloc, spelling)? {
        Some(bytes) => Ok(Some(Constant::Text(bytes))),
        None => Ok(None),
    }
}
