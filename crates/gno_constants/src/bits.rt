// The bit operators on whole numbers. Go specification, "Arithmetic operators".
ghost use Rattle.std.specs.Prelude.{◌≡◌};
ghost use Rattle.gno_constants.specs.Bits.{complement, with_both, with_either, with_one};

/// The number with the bits that both have.
pub fn bits_of_both(x: i128, y: i128) -> i128
    ensures { result ≡ with_both x y }
{
    x & y
}

/// The number with the bits that either has.
pub fn bits_of_either(x: i128, y: i128) -> i128
    ensures { result ≡ with_either x y }
{
    x | y
}

/// The number with the bits that exactly one has.
pub fn bits_of_one(x: i128, y: i128) -> i128
    ensures { result ≡ with_one x y }
{
    x ^ y
}

/// The number with the bits that x has and y has not.
pub fn bits_of_left_only(x: i128, y: i128) -> i128
    ensures { result ≡ with_both x (complement y) }
{
    bits_of_both(x, !y)
}
