// The rows of layouts beside the rows of a table.
ghost use Rattle.std.specs.Prelude.{◌≡◌, IfOk, None, map};
ghost use Rattle.gno_terms.specs.Terms.{field_of};
ghost use Rattle.gno_type_rows.specs.Holding.{compares};
ghost use Rattle.gno_type_rows.specs.Keys.{refs};
ghost use Rattle.gno_type_rows.specs.Laid.{row_of};

use gno_base::List;
use gno_layouts::Row;
use gno_terms::{Field, Term};
use std::alloc::{AllocError, Global};

/// What a term says of what values hold. A defined type is not defined yet.
pub(crate) fn row_of(alloc: Global, term: &Term) -> Result<Row, AllocError>
    ensures { IfOk result (λ row. row ≡ row_of term.now None) }
{
    match term {
        Term::Array(length, of) => Ok(Row::Array {
            length: *length,
            of: of.0 as usize,
        }),
        Term::Struct(fields) => Ok(Row::Struct(field_types(alloc, fields.as_slice())?)),
        Term::Defined { .. } => Ok(Row::Defined(None)),
        _ => Ok(Row::Single {
            comparable: compares(term),
        }),
    }
}

fn compares(term: &Term) -> bool
    ensures { result ≡ compares term.now }
{
    matches!(
        term,
        Term::Basic(_) | Term::Error | Term::Pointer(_) | Term::Interface(_)
    )
}

fn field_types(alloc: Global, fields: &[Field]) -> Result<List<usize>, AllocError>
    ensures { IfOk result (λ types. types ≡ refs (map field_of fields.now)) }
{
    let mut types = List::new(alloc);
    for field in fields {
        types.push(field.of.0 as usize)?;
    }
    Ok(types)
}
