// Laws of the operators.
ghost use Rattle.std.specs.Prelude.{◌≡◌, ◌≢◌, ◌↔◌, ℕ, ℤ, ◌&&◌, ◌||◌, not, if◌then◌else◌};
ghost use Rattle.gno_constants.specs.Bits.{complement, has_bit, with_both, with_either, with_one};
ghost use Rattle.gno_constants.specs.Exact.{exact};
ghost use Rattle.gno_constants.specs.Exact.Exact.{NotDefined};
ghost use Rattle.gno_constants.specs.Kinds.{Takes};
ghost use Rattle.gno_constants.specs.declared.constant.Constant.{Constant};
ghost use Rattle.gno_constants.specs.declared.operator.FoldOp.{FoldOp};

/// What each bit of a result is, in two's complement of unlimited width. This states laws and does nothing.
pub fn bits_of_each_place()
    ensures complement { (x : ℤ) (k : ℕ) → has_bit (complement x) k ≡ not (has_bit x k) }
    ensures both { (x y : ℤ) (k : ℕ) → has_bit (with_both x y) k ≡ (has_bit x k && has_bit y k) }
    ensures either { (x y : ℤ) (k : ℕ) → has_bit (with_either x y) k ≡ (has_bit x k || has_bit y k) }
    ensures one { (x y : ℤ) (k : ℕ) → has_bit (with_one x y) k ≡ (if has_bit x k then not (has_bit y k) else has_bit y k) }
{}

/// One number at most has given bits. This states a law and does nothing.
pub fn one_number_has_the_bits()
    ensures { (x y : ℤ) → ((k : ℕ) → has_bit x k ≡ has_bit y k) → x ≡ y }
{}

/// An operator is defined exactly on constants of the kinds that it takes. This states a law and does nothing.
pub fn defined_on_what_it_takes()
    ensures { (op : FoldOp) (left right : Constant) → Takes op left right ↔ (exact op left right ≢ NotDefined) }
{}
