// The rows of the packages that are held.
ghost use Rattle.std.specs.Prelude.{◌≡◌, ◌∷◌, [], length, IfOk, OnOk, Some};
ghost use Rattle.std.specs.Int.{cast_unsigned, w64};
ghost use Rattle.gno_base.specs.declared.kind.Kind.TheVariants.{Int};
ghost use Rattle.gno_machine.specs.Ints.{AreInts};
ghost use Rattle.gno_table.specs.Rows.{Writes, differing_rows, eight_bytes, format_row, package_rows, row, source_key, source_row, variable_key, variable_rows};

use gno_base::{Bytes, Whole};
use gno_items::Package;
use gno_port::Changes;
use std::alloc::{AllocError, Global};

/// Puts the row of the format.
pub(crate) fn put_format(alloc: Global, changes: &mut Changes) -> Result<(), AllocError>
    ensures { OnOk result (Writes changes.old changes.new (format_row ∷ [])) }
{
    let key = Bytes::from_slice(alloc, b"F")?;
    let value = Bytes::from_slice(alloc, b"\0")?;
    put_row(changes, key, value)?;
    Ok(())
}

fn put_row(changes: &mut Changes, key: Bytes, value: Bytes) -> Result<(), AllocError>
    ensures { OnOk result (Writes changes.old changes.new (row key value ∷ [])) }
{
    changes.put(key, Some(value))?;
    Ok(())
}

/// Puts the rows of a package.
pub(crate) fn put_package(
    alloc: Global,
    changes: &mut Changes,
    order: u64,
    held: &Package,
) -> Result<(), AllocError>
    requires count { length held.now.values ≡ length held.now.file.variables }
    requires ints { AreInts held.now.values }
    ensures { OnOk result (Writes changes.old changes.new (package_rows order held.now)) }
{
    let key = source_key(alloc, held.path.as_slice())?;
    let value = source_value(alloc, order, held)?;
    put_row(changes, key, value)?;
    put_variables(
        alloc,
        changes,
        held.path.as_slice(),
        held.file.variables.as_slice(),
        held.values.as_slice(),
    )?;
    Ok(())
}

/// Puts the rows of a package's variables.
pub(crate) fn put_variables(
    alloc: Global,
    changes: &mut Changes,
    path: &[u8],
    names: &[Bytes],
    values: &[Whole],
) -> Result<(), AllocError>
    requires count { length values.now ≡ length names.now }
    requires ints { AreInts values.now }
    ensures { OnOk result (Writes changes.old changes.new (variable_rows path.now names.now values.now)) }
{
    for (index, name) in names.iter().enumerate() {
        put_variable(alloc, changes, path, name.as_slice(), values[index])?;
    }
    Ok(())
}

/// Puts the rows of the variables whose values differ, with the new ones.
pub(crate) fn put_differing(
    alloc: Global,
    changes: &mut Changes,
    path: &[u8],
    names: &[Bytes],
    old: &[Whole],
    new: &[Whole],
) -> Result<(), AllocError>
    requires old { length old.now ≡ length names.now }
    requires new { length new.now ≡ length names.now }
    requires old_ints { AreInts old.now }
    requires new_ints { AreInts new.now }
    ensures { OnOk result (Writes changes.old changes.new (differing_rows path.now names.now old.now new.now)) }
{
    for (index, name) in names.iter().enumerate() {
        let value = new[index];
        if old[index].word() != value.word() {
            put_variable(alloc, changes, path, name.as_slice(), value)?;
        }
    }
    Ok(())
}

fn put_variable(
    alloc: Global,
    changes: &mut Changes,
    path: &[u8],
    name: &[u8],
    value: Whole,
) -> Result<(), AllocError>
    requires { value.kind ≡ Int }
    ensures { OnOk result (Writes changes.old changes.new (row (variable_key path.now name.now) (eight_bytes (cast_unsigned w64 value.value)) ∷ [])) }
{
    let key = variable_key(alloc, path, name)?;
    let bits = Bytes::from_slice(alloc, &eight_bytes(value.word()))?;
    put_row(changes, key, bits)?;
    Ok(())
}

pub(crate) fn source_key(alloc: Global, path: &[u8]) -> Result<Bytes, AllocError>
    ensures { IfOk result (λ key. key ≡ source_key path.now) }
{
    let mut key = Bytes::from_slice(alloc, b"S")?;
    key.extend_from_slice(path)?;
    Ok(key)
}

fn source_value(alloc: Global, order: u64, held: &Package) -> Result<Bytes, AllocError>
    ensures { IfOk result (λ value. Some value ≡ (source_row order held.now).value) }
{
    let mut value = Bytes::from_slice(alloc, &eight_bytes(order))?;
    value.extend_from_slice(held.source.name.as_slice())?;
    value.push(0)?;
    value.extend_from_slice(held.source.text.as_slice())?;
    Ok(value)
}

pub(crate) fn variable_key(alloc: Global, path: &[u8], name: &[u8]) -> Result<Bytes, AllocError>
    ensures { IfOk result (λ key. key ≡ variable_key path.now name.now) }
{
    let mut key = Bytes::from_slice(alloc, b"V")?;
    key.extend_from_slice(path)?;
    key.push(0)?;
    key.extend_from_slice(name)?;
    Ok(key)
}

// A number in 8 bytes, big-endian.
#[tactic(auto, unfolding(crate::specs::Rows::eight_bytes))]
fn eight_bytes(number: u64) -> [u8; 8]
    ensures { result ≡ eight_bytes number }
{
    number.to_be_bytes()
}
