// The members of a type and of those that its embedded fields lead to.
ghost use Rattle.std.specs.Prelude.{◌≡◌, ◌++◌, IfOk, OnOk, length, map, true};
ghost use Rattle.gno_embedding.specs.Embedding.{IsKnown};
ghost use Rattle.gno_promotion.specs.Candidates.{AreGathered, ArePushed, AreReachedPushed, IsDefinedAt, IsKnownAt, candidates_of, no_way, of_field, of_method};
ghost use Rattle.gno_terms.specs.declared.term.GoType.{GoType};
ghost use Rattle.gno_terms.specs.Lawful.{Each};
ghost use Rattle.gno_terms.specs.Tables.{Is, PartsBelow, deep, error_interface};
ghost use Rattle.gno_type_rows.specs.RowTypes.{is_defined};

use crate::candidate::{Candidate, CandidateOf, Way};
use gno_base::Bytes;
use gno_embedding::Reached;
use gno_terms::{Field, Method, MethodOf, Term, TypeRef};
use gno_type_rows::Rows;
use std::alloc::{AllocError, Global};

/// The members of a type and of those that its embedded fields lead to, the nearest first.
pub(crate) fn gather(
    alloc: Global,
    rows: &Rows,
    error: TypeRef,
    number: TypeRef,
    term: &Term,
    reached: &[Reached],
) -> Result<Vec<Candidate>, AllocError>
    requires error { Is rows.now error error_interface }
    requires parts { PartsBelow (length rows.now.types) term.now }
    requires defined { is_defined term.now ≡ true → Is rows.now number (deep rows.now.types term.now) }
    requires known { IsKnown rows.now (deep rows.now.types term.now) }
    requires each { Each (IsKnownAt rows.now) reached.now }
    ensures { IfOk result (λ it. AreGathered rows.now (deep rows.now.types term.now) reached.now it.items) }
{
    let mut candidates = Vec::new(alloc);
    let way = Way {
        depth: 0,
        followed: false,
        twice: false,
    };
    push_members(alloc, rows, error, number, term, way, &mut candidates)?;
    push_reached(alloc, rows, error, reached, &mut candidates)?;
    Ok(candidates)
}

// The members of each of these types.
fn push_reached(
    alloc: Global,
    rows: &Rows,
    error: TypeRef,
    reached: &[Reached],
    candidates: &mut Vec<Candidate>,
) -> Result<(), AllocError>
    requires error { Is rows.now error error_interface }
    requires each { Each (IsKnownAt rows.now) reached.now }
    ensures { OnOk result (AreReachedPushed rows.now reached.now candidates.old.items candidates.new.items) }
{
    for it in reached {
        let way = Way {
            depth: it.depth,
            followed: it.followed,
            twice: it.twice,
        };
        push_members(alloc, rows, error, it.of, rows.term(it.of), way, candidates)?;
    }
    Ok(())
}

// The members of a type. It is given by its term, and by its number if it is a defined type.
fn push_members(
    alloc: Global,
    rows: &Rows,
    error: TypeRef,
    number: TypeRef,
    term: &Term,
    way: Way,
    candidates: &mut Vec<Candidate>,
) -> Result<(), AllocError>
    requires error { Is rows.now error error_interface }
    requires parts { PartsBelow (length rows.now.types) term.now }
    requires defined { is_defined term.now ≡ true → Is rows.now number (deep rows.now.types term.now) }
    requires known { IsKnown rows.now (deep rows.now.types term.now) }
    ensures { OnOk result (ArePushed rows.now (deep rows.now.types term.now) way candidates.old.items candidates.new.items) }
{
    match term {
        Term::Defined { .. } => push_defined(alloc, rows, number, way, candidates),
        Term::Error => push_by_underlying(alloc, &[], rows.term(error), way, candidates),
        _ => push_by_underlying(alloc, &[], term, way, candidates),
    }
}

// The members of a defined type, by its number.
fn push_defined(
    alloc: Global,
    rows: &Rows,
    number: TypeRef,
    way: Way,
    candidates: &mut Vec<Candidate>,
) -> Result<(), AllocError>
    requires defined { IsDefinedAt rows.now number }
    ensures { OnOk result ((s : GoType) → Is rows.now number s → ArePushed rows.now s way candidates.old.items candidates.new.items) }
{
    match rows.definition(number) {
        Some(definition) => push_by_underlying(
            alloc,
            definition.methods.as_slice(),
            rows.term(definition.underlying),
            way,
            candidates,
        ),
        None => Ok(()),
    }
}

// By the underlying type.
fn push_by_underlying(
    alloc: Global,
    declared: &[Method],
    underlying: &Term,
    way: Way,
    candidates: &mut Vec<Candidate>,
) -> Result<(), AllocError>
    ensures { OnOk result (candidates.new.items ≡ candidates.old.items ++ candidates_of way declared.now underlying.now) }
{
    match underlying {
        Term::Struct(fields) => {
            push_methods(alloc, declared, way, candidates)?;
            push_fields(alloc, fields.as_slice(), way, candidates)
        }
        Term::Interface(methods) => {
            push_methods(alloc, declared, way, candidates)?;
            push_methods(alloc, methods.as_slice(), way, candidates)
        }
        Term::Pointer(_) => Ok(()),
        _ => push_methods(alloc, declared, way, candidates),
    }
}

fn push_methods(
    alloc: Global,
    methods: &[Method],
    way: Way,
    candidates: &mut Vec<Candidate>,
) -> Result<(), AllocError>
    ensures { OnOk result (candidates.new.items ≡ candidates.old.items ++ map (of_method way) methods.now) }
{
    for method in methods {
        candidates.push(CandidateOf {
            member: copy_method(alloc, method)?,
            is_method: true,
            way,
        })?;
    }
    Ok(())
}

fn push_fields(
    alloc: Global,
    fields: &[Field],
    way: Way,
    candidates: &mut Vec<Candidate>,
) -> Result<(), AllocError>
    ensures { OnOk result (candidates.new.items ≡ candidates.old.items ++ map (of_field way) fields.now) }
{
    for field in fields {
        candidates.push(field_candidate(alloc, field, way)?)?;
    }
    Ok(())
}

fn field_candidate(alloc: Global, field: &Field, way: Way) -> Result<Candidate, AllocError>
    ensures { IfOk result (λ it. it ≡ of_field way field.now) }
{
    Ok(CandidateOf {
        member: MethodOf {
            name: Bytes::from_slice(alloc, field.name.as_slice())?,
            package: Bytes::from_slice(alloc, field.package.as_slice())?,
            of: field.of,
            pointer: false,
        },
        is_method: false,
        way,
    })
}

/// A copy of a method.
pub(crate) fn copy_method(alloc: Global, method: &Method) -> Result<Method, AllocError>
    ensures { IfOk result (λ it. it ≡ method.now) }
{
    Ok(MethodOf {
        name: Bytes::from_slice(alloc, method.name.as_slice())?,
        package: Bytes::from_slice(alloc, method.package.as_slice())?,
        of: method.of,
        pointer: method.pointer,
    })
}
