// Which rows hold a row.
ghost use Rattle.std.specs.Prelude.{◌≡◌, ◌++◌, ◌∷◌, [], ◌<◌, ◌≤◌, ◌⊎◌, ℕ, OnOk, Some, length, slice_get, slice_index, true};
ghost use Rattle.std.specs.List.{AllByRecursion};
ghost use Rattle.gno_layouts.specs.Layouts.{is_known};
ghost use Rattle.gno_layouts.specs.Settling.{EachKeeps, Holds, In, Keeps};
ghost use Rattle.gno_layouts.specs.declared.row.Row.{Row};

use crate::row::Row;
use gno_base::List;
use std::alloc::AllocError;

/// Notes that a row holds another. An `Err` changes nothing.
pub(crate) fn hold(
    holders: &mut [List<usize>],
    part: usize,
    number: usize,
) -> Result<(), AllocError>
    requires { part < length holders.old }
    ensures grows { (m n : ℕ) → Holds holders.old m n → Holds holders.new m n }
    ensures ok { OnOk result (Holds holders.new number part) }
{
    holders[part].push(number)
}

/// Notes that a row holds others. An `Err` may have noted some of them.
pub(crate) fn hold_all(
    holders: &mut [List<usize>],
    parts: &[usize],
    number: usize,
) -> Result<(), AllocError>
    requires { AllByRecursion (λ n. n < length holders.old) parts.now }
    ensures grows { (m n : ℕ) → Holds holders.old m n → Holds holders.new m n }
    ensures ok { OnOk result (AllByRecursion (Holds holders.new number) parts.now) }
{
    for part in parts {
        hold(holders, *part, number)?;
    }
    Ok(())
}

/// Takes out the holders that are undefined, and so hold nothing. Takes time by the number of all holders.
pub(crate) fn forget_holders(rows: &[Row], holders: &mut [List<usize>])
    ensures { EachKeeps rows.now holders.old holders.new }
{
    for number in 0..holders.len() {
        keep_known(rows, &mut holders[number]);
    }
}

fn keep_known(rows: &[Row], held: &mut List<usize>)
    ensures { Keeps rows.now held.old held.new }
{
    let mut at = held.len();
    while at > 0 {
        at -= 1;
        keep_at(rows, held, at);
    }
}

fn keep_at(rows: &[Row], held: &mut List<usize>, at: usize)
    requires { at < length held.old }
    ensures size { at ≤ length held.new }
    ensures keeps { Keeps rows.now held.old held.new }
{
    if is_known_at(rows, held.as_slice()[at]) {
        return;
    }
    take_out(held, at);
}

fn is_known_at(rows: &[Row], number: usize) -> bool
    ensures { (row : Row) → slice_get rows.now number ≡ Some row → is_known row ≡ true → result ≡ true }
{
    match rows.get(number) {
        Some(row) => row.is_known(),
        None => false,
    }
}

// The last one comes into its place.
fn take_out(held: &mut List<usize>, at: usize)
    requires { at < length held.old }
    ensures size { at ≤ length held.new }
    ensures others { (n : ℕ) → In n held.old → (n ≡ slice_index held.old at) ⊎ In n held.new }
{
    match held.pop() {
        None => {}
        Some(last) => put(held, at, last),
    }
}

fn put(held: &mut List<usize>, at: usize, last: usize)
    requires { at ≤ length held.old }
    ensures size { at ≤ length held.new }
    ensures others { (n : ℕ) → In n (held.old ++ last ∷ []) → (n ≡ slice_index (held.old ++ last ∷ []) at) ⊎ In n held.new }
{
    if at == held.len() {
        return;
    }
    held.set(at, last);
}
