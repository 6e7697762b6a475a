// Whole numbers of the integer kinds. Go specification, "Integer overflow": sums, differences and products wrap around.
ghost use Rattle.std.specs.Prelude.{◌≡◌, ◌+ℤ◌, ◌*ℤ◌, ◌≤ℤ◌, ◌<ℤ◌, ◌<◌, ◌^◌, neg_ℤ, pos};
ghost use Rattle.std.specs.Int.{cast_unsigned, w64};
ghost use Rattle.std.specs.Option.{SomeIff};
ghost use Rattle.gno_base.specs.Range.{InRange, IsAlike, wrapped, span};
ghost use Rattle.gno_base.specs.Number.{difference, product, sum};
ghost use Rattle.gno_base.specs.declared.kind.Kind.TheVariants.{Int};

use crate::Kind;
use std::marker::Model;

/// A number in the range of its integer kind. Contracts see it as a `Number`.
#[derive(Clone, Copy, Debug)]
pub struct Whole {
    kind: Kind,
    bits: i128,
}

impl Model for Whole {
    ghost use Rattle.gno_base.specs.Number.{Number};
    ghost use Rattle.gno_base.specs.Range.{InRange};

    ghost Value = { Number };

    ghost view = { λ w. record { kind = w.kind; value = w.bits } };

    ghost invariant = { λ w. InRange w.kind w.bits };

    ghost inverse = { λ n. record { kind = n.kind; bits = n.value } };
}

impl Whole {
    /// The number of that kind. None exactly where the kind is no integer kind or lacks the number.
    pub fn new(kind: Kind, value: i128) -> Option<Whole>
        ensures { SomeIff result (InRange kind value) (record { kind = kind; value = value }) }
    {
        let least = kind.least();
        if value < least || value >= least + kind.span() {
            return None;
        }
        Some(Whole { kind, bits: value })
    }

    /// An `int`.
    pub fn int(value: i64) -> Whole
        ensures number { result ≡ record { kind = Int; value = value } }
        ensures range { InRange Int result.value }
    {
        Whole {
            kind: Kind::Int,
            bits: i128::from(value),
        }
    }

    /// The kind, which is an integer kind.
    pub fn kind(self) -> Kind
        ensures { result ≡ self.kind }
    {
        self.kind
    }

    /// The number itself.
    pub fn value(self) -> i128
        ensures value { result ≡ self.value }
        ensures range { InRange self.kind result }
    {
        self.bits
    }

    /// The 64 bits of an `int` in two's complement.
    pub fn word(self) -> u64
        requires { self.kind ≡ Int }
        ensures { result ≡ cast_unsigned w64 self.value }
    {
        word_of(self.bits)
    }

    /// The sum, wrapped to the kind of both.
    pub fn add(self, other: Whole) -> Whole
        requires { self.kind ≡ other.kind }
        ensures sum { result ≡ sum self other }
        ensures range { InRange self.kind result.value }
    {
        wrap(self.kind, self.bits + other.bits)
    }

    /// The difference, wrapped to the kind of both.
    pub fn sub(self, other: Whole) -> Whole
        requires { self.kind ≡ other.kind }
        ensures difference { result ≡ difference self other }
        ensures range { InRange self.kind result.value }
    {
        wrap(self.kind, self.bits - other.bits)
    }

    /// The product, wrapped to the kind of both.
    pub fn mul(self, other: Whole) -> Whole
        requires { self.kind ≡ other.kind }
        ensures product { result ≡ product self other }
        ensures range { InRange self.kind result.value }
    {
        let value = times(near_zero(self.bits), near_zero(other.bits));
        wrap(self.kind, value)
    }
}

fn times(a: i128, b: i128) -> i128
    requires low { (neg_ℤ (pos (2 ^ 63)) ≤ℤ a) × (neg_ℤ (pos (2 ^ 63)) ≤ℤ b) }
    requires high { (a ≤ℤ pos (2 ^ 63)) × (b ≤ℤ pos (2 ^ 63)) }
    ensures product { result ≡ a *ℤ b }
    ensures low { neg_ℤ (pos (2 ^ 126)) ≤ℤ result }
    ensures high { result ≤ℤ pos (2 ^ 126) }
{
    a * b
}

// The number itself, or 2^64 less, so that a product of two fits.
fn near_zero(value: i128) -> i128
    requires low { neg_ℤ (pos (2 ^ 63)) ≤ℤ value }
    requires high { value <ℤ pos (2 ^ 64) }
    ensures alike { IsAlike result value }
    ensures low { neg_ℤ (pos (2 ^ 63)) ≤ℤ result }
    ensures high { result ≤ℤ pos (2 ^ 63) }
{
    if value < 9223372036854775808 {
        value
    } else {
        value - 18446744073709551616
    }
}

fn word_of(value: i128) -> u64
    requires { InRange Int value }
    ensures { result ≡ cast_unsigned w64 value }
{
    if value < 0 {
        (value + 18446744073709551616) as u64
    } else {
        value as u64
    }
}

// The number wrapped to an integer kind.
fn wrap(kind: Kind, value: i128) -> Whole
    requires kind { 0 < span kind }
    requires low { neg_ℤ (pos (2 ^ 126)) ≤ℤ value }
    requires high { value ≤ℤ pos (2 ^ 126) }
    ensures number { result ≡ record { kind = kind; value = wrapped kind value } }
    ensures range { InRange kind result.value }
{
    let least = kind.least();
    let bits = (value - least).rem_euclid(kind.span()) + least;
    Whole { kind, bits }
}
