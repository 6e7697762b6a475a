// What stands before the parts of a text.
ghost use Rattle.std.specs.Prelude.{◌≡◌, ◌++◌, codes, decimal, OnOk, if◌then◌else◌, [], Bool};
ghost use Rattle.gno_terms.specs.Texts.{kind_text, local_text, member_text};

use gno_base::{Bytes, Kind};
use gno_terms::Field;
use itoa::Buffer;
use std::alloc::AllocError;

/// The name of a basic type.
pub(crate) fn kind_text(kind: Kind) -> &'static [u8]
    ensures { result.now ≡ kind_text kind }
{
    match kind {
        Kind::Bool => b"bool",
        Kind::Text => b"string",
        Kind::Int => b"int",
        Kind::Int8 => b"int8",
        Kind::Int16 => b"int16",
        Kind::Int32 => b"int32",
        Kind::Int64 => b"int64",
        Kind::Uint => b"uint",
        Kind::Uint8 => b"uint8",
        Kind::Uint16 => b"uint16",
        Kind::Uint32 => b"uint32",
        Kind::Uint64 => b"uint64",
    }
}

/// Writes a number.
pub(crate) fn write_number(text: &mut Bytes, number: u64) -> Result<(), AllocError>
    ensures { OnOk result (text.new ≡ text.old ++ decimal number) }
{
    let mut digits = Buffer::new();
    text.extend_from_slice(digits.format(number).as_bytes())
}

/// Writes a name behind the path of its package, which is empty where the name belongs to none.
pub(crate) fn write_member(text: &mut Bytes, name: &Bytes, path: &Bytes) -> Result<(), AllocError>
    ensures { OnOk result (text.new ≡ text.old ++ member_text name.now path.now) }
{
    if !path.is_empty() {
        text.extend_from_slice(path.as_slice())?;
        text.extend_from_slice(b".")?;
    }
    text.extend_from_slice(name.as_slice())
}

/// Writes the number of a type that a function declares.
pub(crate) fn write_local(text: &mut Bytes, local: u64) -> Result<(), AllocError>
    ensures { OnOk result (text.new ≡ text.old ++ local_text local) }
{
    if local == 0 {
        return Ok(());
    }
    text.extend_from_slice(b"#")?;
    write_number(text, local)
}

/// Writes what stands before the type of a field.
pub(crate) fn write_field(text: &mut Bytes, field: &Field) -> Result<(), AllocError>
    ensures { OnOk result (text.new ≡ text.old ++ ((if field.now.embedded then codes "!" else []) ++ (member_text field.now.name field.now.«package» ++ codes " "))) }
{
    if field.embedded {
        text.extend_from_slice(b"!")?;
    }
    write_member(text, &field.name, &field.package)?;
    text.extend_from_slice(b" ")
}
