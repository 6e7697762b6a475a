// Interface types and their methods.
ghost use Rattle.std.specs.Prelude.{◌≡◌, IfOk, IfSome, IsNone, List, Some};
ghost use Rattle.gno_judging.specs.Answers.{Answers};
ghost use Rattle.gno_judging.specs.Found.{TypeStands};
ghost use Rattle.gno_judging.specs.Stands.{BothStand, EachStands};
ghost use Rattle.gno_made_types.specs.Parts.{MethodStands};
ghost use Rattle.gno_terms.specs.Lawful.{Each, IsLawfulMethod};
ghost use Rattle.gno_terms.specs.Tables.{Grows, Is, Table};
ghost use Rattle.gno_terms.specs.declared.term.GoType.{GoType};
ghost use Rattle.gno_terms.specs.declared.term.MethodOf.{MethodOf};
ghost use Rattle.gno_tree_typing.specs.WrittenTypes.{IsInterfaceOf, embedded_methods, interface_method, interface_type};
ghost use Rattle.gno_type_classes.specs.Unnumbered.{unnumbered};

use crate::parts::{are_methods, is_blank};
use crate::structs::package_of;
use gno_base::{Bytes, List};
use gno_judging::Faults;
use gno_scan::Pos;
use gno_terms::{Method, Term, TypeRef};
use gno_tree::Name;
use gno_type_classes::underlying;
use gno_type_reading::is_name;
use gno_type_table::TypeTable;
use std::alloc::{AllocError, Global};

/// A method that an interface type names in the package of a path; `None` where its name is `_` or none, which is noted. Go specification,
/// "Interface types". An `Err` comes where there is no memory.
pub fn interface_method(
    alloc: Global,
    faults: &mut Faults,
    path: &[u8],
    name: &Name,
    of: TypeRef,
) -> Result<Option<Method>, AllocError>
    ensures { (table : Table) (s : GoType) → TypeStands table of s → IfOk result (λ r. Answers (interface_method path.now name.now s) (MethodStands table) faults.old faults.new r) }
{
    if is_blank(name.text.as_slice()) {
        faults.note(80, name.pos);
        return Ok(None);
    }
    if !is_name(name.text.as_slice()) {
        faults.note(78, name.pos);
        return Ok(None);
    }
    let package = package_of(alloc, name.text.as_slice(), path)?;
    let name = Bytes::from_slice(alloc, name.text.as_slice())?;
    Ok(Some(Method {
        name,
        package,
        of,
        pointer: false,
    }))
}

fn methods_of(types: &TypeTable, of: TypeRef) -> Option<&List<Method>>
    ensures some { IfSome result (λ methods. (s : GoType) → Is types.now of s → (ms : List (MethodOf GoType)) × IsInterfaceOf (unnumbered types.now) s ms × EachStands (MethodStands types.now) methods.now ms) }
    ensures none { IsNone result → (s : GoType) (ms : List (MethodOf GoType)) → Is types.now of s → IsInterfaceOf (unnumbered types.now) s ms → ⊥ }
{
    types.have_one_definition();
    types.types_are_lawful();
    match underlying(types, of) {
        Some(under) => match types.term(under) {
            Term::Interface(methods) => Some(methods),
            _ => None,
        },
        None => None,
    }
}

fn methods_again(methods: &List<Method>) -> Result<List<Method>, AllocError>
    ensures { IfOk result (λ it. it ≡ methods.now) }
{
    methods.clone()
}

/// The methods of an interface type that another one embeds, in byte order; `None` where the type is no interface, which is noted. Go
/// specification, "Embedded interfaces". An `Err` comes where there is no memory.
pub fn embedded_methods(
    types: &TypeTable,
    faults: &mut Faults,
    place: Pos,
    of: TypeRef,
) -> Result<Option<List<Method>>, AllocError>
    ensures { (s : GoType) → TypeStands types.now of s → IfOk result (λ r. Answers (embedded_methods (unnumbered types.now) place s) (EachStands (MethodStands types.now)) faults.old faults.new r) }
{
    match methods_of(types, of) {
        Some(methods) => {
            let methods = methods_again(methods)?;
            Ok(Some(methods))
        }
        None => {
            faults.note(78, place);
            Ok(None)
        }
    }
}

/// The type of interfaces of some methods. Go specification, "Interface types". An `Err` comes where there is no memory.
pub fn interface_type(
    alloc: Global,
    types: &mut TypeTable,
    methods: List<Method>,
) -> Result<Option<TypeRef>, AllocError>
    ensures stands { (ms : List (MethodOf GoType)) → Each IsLawfulMethod ms → EachStands (MethodStands types.old) methods ms → IfOk result (λ r. BothStand (TypeStands types.new) r (Some (interface_type ms))) }
    ensures grows { Grows types.old types.new }
    ensures definitions { types.new.definitions ≡ types.old.definitions }
{
    if !are_methods(alloc, types, methods.as_slice())? {
        return Ok(None);
    }
    let made = types.intern(Term::Interface(methods))?;
    Ok(Some(made))
}
