// What the embedded fields of a type lead to.
ghost use Rattle.std.specs.Prelude.{◌≡◌, IfOk, length, true};
ghost use Rattle.gno_embedding.specs.Reaching.{IsReach};
ghost use Rattle.gno_terms.specs.Tables.{Is, PartsBelow, deep};
ghost use Rattle.gno_terms.specs.declared.term.TypeRef.{TypeRef};
ghost use Rattle.gno_type_rows.specs.RowTypes.{is_defined};

use crate::fields::may_embed;
use crate::nodes::{Nodes, numbers};
use crate::ways::Reach;
use gno_base::List;
use gno_terms::{Term, TypeRef};
use gno_type_rows::Rows;
use std::alloc::{AllocError, Global};

/// What the embedded fields of a type lead to. The type is given by its term, and by its number if it stands among the rows. Takes
/// time by the number of types and fields that are met, and its logarithm. Go specification, "Selectors".
pub fn follow_embedded(
    alloc: Global,
    rows: &Rows,
    number: TypeRef,
    term: &Term,
) -> Result<Reach, AllocError>
    requires parts { PartsBelow (length rows.now.types) term.now }
    requires number { (t : TypeRef) → Is rows.now t (deep rows.now.types term.now) → t ≡ number }
    requires defined { is_defined term.now ≡ true → Is rows.now number (deep rows.now.types term.now) }
    ensures { IfOk result (λ it. IsReach rows.now (deep rows.now.types term.now) it) }
{
    rows.have_one_number();
    rows.have_one_definition();
    if !may_embed(term) {
        return Ok(Reach::All(List::new(alloc)));
    }
    let mut nodes = Nodes::new(alloc, number)?;
    let mut next = 0;
    while next < nodes.items.len() {
        let Some(fields) = nodes.fields(rows, number, term, next) else {
            return Ok(Reach::Blocked(numbers(alloc, &nodes.items[1..next + 1])?));
        };
        nodes.meet_fields(rows, number, term, next, fields)?;
        next += 1;
    }
    Ok(Reach::All(List::from_slice(alloc, &nodes.items[1..])?))
}
