// The shifts. Go specification, "Operators", "Integer operators".
ghost use Rattle.std.specs.Prelude.{◌≡◌, ◌<◌, ◌≤◌, ◌^◌, ◌*ℤ◌, pos, FitsSigned};
ghost use Rattle.std.specs.Int.{w128};
ghost use Rattle.std.specs.Option.{SomeIff};
ghost use Rattle.gno_constants.specs.Exact.{shifted_left, shifted_right};
ghost use Rattle.gno_constants.specs.Gives.{Gives};

use crate::{Constant, FoldFault};

/// The value times 2 to the power of the count.
pub fn shift_left(value: i128, count: i128) -> Result<Constant, FoldFault>
    ensures { Gives result (shifted_left value count) }
{
    if count < 0 {
        return Err(FoldFault::BadShift);
    }
    if value == 0 {
        return Ok(Constant::Whole(0));
    }
    if count > 127 {
        return Err(FoldFault::TooWide);
    }
    match times_power(value, count as u32) {
        Some(product) => Ok(Constant::Whole(product)),
        None => Err(FoldFault::TooWide),
    }
}

/// The value divided by 2 to the power of the count, rounded down. What 127 places leave, further ones leave too.
pub fn shift_right(value: i128, count: i128) -> Result<Constant, FoldFault>
    ensures { Gives result (shifted_right value count) }
{
    if count < 0 {
        return Err(FoldFault::BadShift);
    }
    Ok(Constant::Whole(value >> count.min(127) as u32))
}

// In two steps, since 2^127 itself is no number of 128 bits.
fn times_power(value: i128, count: u32) -> Option<i128>
    requires { count < 128 }
    ensures { SomeIff result (FitsSigned w128 (value *ℤ pos (2 ^ count))) (value *ℤ pos (2 ^ count)) }
{
    let half = count / 2;
    value
        .checked_mul(power(half))?
        .checked_mul(power(count - half))
}

fn power(exponent: u32) -> i128
    requires { exponent < 127 }
    ensures { result ≡ pos (2 ^ exponent) }
{
    1 << exponent
}
