// Struct types and their fields.
ghost use Rattle.std.specs.Prelude.{ℕ, ◌≡◌, ◌↔◌, IfOk, IsTrue, List};
ghost use Rattle.gno_judging.specs.Answers.{Answers};
ghost use Rattle.gno_judging.specs.Found.{TypeStands};
ghost use Rattle.gno_judging.specs.Stands.{EachStands};
ghost use Rattle.gno_made_types.specs.Parts.{FieldStands, IsFieldOf};
ghost use Rattle.gno_terms.specs.Lawful.{Each, IsPath};
ghost use Rattle.gno_terms.specs.Normal.{package_of};
ghost use Rattle.gno_terms.specs.Tables.{Grows, Is, Table};
ghost use Rattle.gno_terms.specs.Terms.{term_with};
ghost use Rattle.gno_terms.specs.declared.term.FieldOf.{FieldOf};
ghost use Rattle.gno_terms.specs.declared.term.GoType.{GoType};
ghost use Rattle.gno_terms.specs.declared.term.TypeRef.{TypeRef};
ghost use Rattle.gno_tree_typing.specs.WrittenTypes.{MayBeEmbedded, embedded_field, field_of_struct, is_pointer_or_interface_of, starred, struct_type};
ghost use Rattle.gno_type_classes.specs.Unnumbered.{unnumbered};

use crate::made::pointer_to;
use crate::parts::are_fields;
use crate::sizes::small;
use gno_base::{Bytes, List};
use gno_judging::Faults;
use gno_scan::Pos;
use gno_terms::{Field, Term, TypeRef, is_exported};
use gno_type_classes::underlying;
use gno_type_table::TypeTable;
use std::alloc::{AllocError, Global};

/// The package that owns a name where the package of a path declares it: none where the name is exported.
pub(crate) fn package_of(alloc: Global, name: &[u8], path: &[u8]) -> Result<Bytes, AllocError>
    ensures { IfOk result (λ owner. owner ≡ package_of name.now path.now) }
{
    if is_exported(name) {
        Ok(Bytes::new(alloc))
    } else {
        Bytes::from_slice(alloc, path)
    }
}

/// A field of a struct type that is written in the package of a path. An `Err` comes where there is no memory.
pub fn field(
    alloc: Global,
    path: &[u8],
    name: &[u8],
    embedded: bool,
    of: TypeRef,
) -> Result<Field, AllocError>
    ensures { (table : Table) (s : GoType) → TypeStands table of s → IfOk result (λ r. FieldStands table r (field_of_struct path.now name.now embedded s)) }
{
    let package = package_of(alloc, name, path)?;
    let name = Bytes::from_slice(alloc, name)?;
    Ok(Field {
        name,
        package,
        embedded,
        of,
    })
}

fn is_pointer_or_interface(star: bool, row: &Term) -> bool
    ensures { (f : TypeRef → GoType) → result ≡ is_pointer_or_interface_of star (term_with f row.now) }
{
    match row {
        Term::Pointer(_) => true,
        Term::Interface(_) => star,
        _ => false,
    }
}

fn may_be_embedded(types: &TypeTable, star: bool, of: TypeRef) -> bool
    ensures { (s : GoType) → Is types.now of s → IsTrue result ↔ MayBeEmbedded (unnumbered types.now) star s }
{
    types.have_one_definition();
    match underlying(types, of) {
        Some(under) => !is_pointer_or_interface(star, types.term(under)),
        None => false,
    }
}

fn starred(types: &mut TypeTable, star: bool, of: TypeRef) -> Result<TypeRef, AllocError>
    ensures stands { (s : GoType) → TypeStands types.old of s → IfOk result (λ r. TypeStands types.new r (starred star s)) }
    ensures grows { Grows types.old types.new }
    ensures definitions { types.new.definitions ≡ types.old.definitions }
{
    if star { pointer_to(types, of) } else { Ok(of) }
}

/// An embedded field of a type, or with `star` of pointers to it, by the type's own name; `None` where the type may not be embedded, which
/// is noted. Go specification, "Struct types". An `Err` comes where there is no memory.
pub fn embedded_field(
    alloc: Global,
    types: &mut TypeTable,
    faults: &mut Faults,
    path: &[u8],
    place: Pos,
    star: bool,
    name: &[u8],
    of: TypeRef,
) -> Result<Option<Field>, AllocError>
    ensures answers { (s : GoType) → TypeStands types.old of s → IfOk result (λ r. Answers (embedded_field (unnumbered types.old) path.now place star name.now s) (FieldStands types.new) faults.old faults.new r) }
    ensures grows { Grows types.old types.new }
    ensures definitions { types.new.definitions ≡ types.old.definitions }
{
    if may_be_embedded(types, star, of) {
        let of = starred(types, star, of)?;
        let field = field(alloc, path, name, true, of)?;
        Ok(Some(field))
    } else {
        faults.note(78, place);
        Ok(None)
    }
}

/// The type of structs of some fields that the package of a path declares; `None` where a name is none, or its values would have too many
/// slots, which is noted. Go specification, "Struct types". An `Err` comes where there is no memory.
pub fn struct_type(
    alloc: Global,
    types: &mut TypeTable,
    faults: &mut Faults,
    place: Pos,
    fields: List<Field>,
) -> Result<Option<TypeRef>, AllocError>
    ensures answers { (path : List ℕ) (fs : List (FieldOf GoType)) → IsPath path → Each (IsFieldOf path) fs → EachStands (FieldStands types.old) fields fs
        → IfOk result (λ r. Answers (struct_type (unnumbered types.old) place fs) (TypeStands types.new) faults.old faults.new r) }
    ensures grows { Grows types.old types.new }
    ensures definitions { types.new.definitions ≡ types.old.definitions }
{
    types.types_are_lawful();
    if !are_fields(alloc, types, fields.as_slice())? {
        faults.note(78, place);
        return Ok(None);
    }
    let made = types.intern(Term::Struct(fields))?;
    Ok(small(types, faults, place, made))
}
