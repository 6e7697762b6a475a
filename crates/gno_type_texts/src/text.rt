// The text of a type.
ghost use Rattle.std.specs.Prelude.{◌≡◌, IfOk, length};
ghost use Rattle.gno_terms.specs.declared.term.GoType.{GoType};
ghost use Rattle.gno_terms.specs.Tables.{Below, Is};
ghost use Rattle.gno_terms.specs.Texts.{type_text};

use crate::piece::Piece;
use crate::writer::Writer;
use gno_base::Bytes;
use gno_terms::TypeRef;
use gno_type_table::TypeTable;
use std::alloc::{AllocError, Global};

/// The text of a type, in which a type that declarations define is its name. An untyped type has the empty text. Takes time linear in the text.
pub fn type_text(alloc: Global, types: &TypeTable, t: TypeRef) -> Result<Bytes, AllocError>
    requires { Below (length types.now.types) t }
    ensures { IfOk result (λ text. (s : GoType) → Is types.now t s → text ≡ type_text s) }
{
    let mut writer = Writer::new(alloc);
    writer.push(Piece::Type(t))?;
    while let Some(piece) = writer.pop() {
        writer.write_piece(types, piece)?;
    }
    Ok(writer.text)
}
