// What stands between the quotes of a literal.
ghost use Rattle.std.specs.Prelude.{ℕ, List as list, ◌≡◌, [], ◌∷◌, ◌++◌, None, IfSome};

/// What stands between two such quotes, the first and the last byte of the word.
pub(crate) fn between(word: &[u8], quote: u8) -> Option<&[u8]>
    ensures inside { IfSome result (λ inside. word.now ≡ quote ∷ (inside.now ++ quote ∷ [])) }
    ensures none { result ≡ None → (inside : list ℕ) → word.now ≡ quote ∷ (inside ++ quote ∷ []) → ⊥ }
{
    let (first, behind) = word.split_first()?;
    let (last, inside) = behind.split_last()?;
    if *first == quote && *last == quote {
        Some(inside)
    } else {
        None
    }
}
