// Names of types.
ghost use Rattle.std.specs.Prelude.{ℕ, IfOk, List, Option, Some};
ghost use Rattle.std.specs.Option.{option_copied};
ghost use Rattle.gno_judging.specs.Answers.{Answers};
ghost use Rattle.gno_judging.specs.Found.{OperandStands, TypeStands};
ghost use Rattle.gno_judging.specs.Stands.{BothStand};
ghost use Rattle.gno_names.specs.Scopes.{ExportsOf, NamedStands, NamesStand};
ghost use Rattle.gno_terms.specs.Tables.{Table};
ghost use Rattle.gno_terms.specs.declared.term.GoType.{GoType};
ghost use Rattle.gno_tree_typing.specs.WrittenTypes.{as_type, qualified_type, type_in, type_named};
ghost use Rattle.gno_typed.specs.declared.scope.NamedOf.{NamedOf};
ghost use Rattle.gno_typing.specs.Names.{Meaning, exported, meaning_of};
ghost use Rattle.gno_typing.specs.Verdicts.{After};
ghost use Rattle.gno_typing.specs.declared.operand.OperandOf.{OperandOf};

use crate::meaning::meaning_of;
use crate::names::{exported, is_blank, named};
use gno_judging::Faults;
use gno_scan::Pos;
use gno_terms::TypeRef;
use gno_tree::Name;
use gno_type_table::TypeTable;
use gno_typed::{Named, NamedOf, ScopeName};
use gno_typing::OperandOf;
use std::alloc::AllocError;

/// The type that a name stands for; `None` where it stands for none, which is noted. Go specification, "Types". An `Err` comes where
/// there is no memory for a copy of a text.
pub fn type_named(
    types: &TypeTable,
    faults: &mut Faults,
    names: &[ScopeName],
    name: &Name,
) -> Result<Option<TypeRef>, AllocError>
    ensures { (ms : List Meaning) → NamesStand types.now names.now ms → IfOk result (λ r. Answers (type_named ms name.now) (TypeStands types.now) faults.old faults.new r) }
{
    match named(types, faults, names, name)? {
        Some(x) => Ok(as_type(faults, name.pos, &x)),
        None => Ok(None),
    }
}

/// The type that `qualifier.name` stands for; `None` where it stands for none, which is noted. `exports` are the names that the package
/// declares whose name the qualifier is; where it names no package they are not looked at. Go specification, "Qualified identifiers".
/// An `Err` comes where there is no memory for a copy of a text.
pub fn qualified_type(
    types: &TypeTable,
    faults: &mut Faults,
    names: &[ScopeName],
    exports: &[ScopeName],
    qualifier: &Name,
    name: &Name,
) -> Result<Option<TypeRef>, AllocError>
    ensures { (packages : List ℕ → List Meaning) (ms : List Meaning) → NamesStand types.now names.now ms → ExportsOf types.now packages (meaning_of ms qualifier.now.text) exports.now → IfOk result (λ r. Answers (qualified_type packages ms qualifier.now name.now) (TypeStands types.now) faults.old faults.new r) }
{
    if is_blank(qualifier.text.as_slice()) {
        faults.note(41, qualifier.pos);
        Ok(None)
    } else {
        let is = meaning_of(names, qualifier.text.as_slice());
        type_in(
            types,
            faults,
            exports,
            qualifier.pos,
            is,
            name.text.as_slice(),
        )
    }
}

// The type of the package that a meaning is.
fn type_in(
    types: &TypeTable,
    faults: &mut Faults,
    exports: &[ScopeName],
    at: Pos,
    is: Option<&Named>,
    name: &[u8],
) -> Result<Option<TypeRef>, AllocError>
    ensures { (packages : List ℕ → List Meaning) (y : Option (NamedOf GoType)) → BothStand (NamedStands types.now) (option_copied is.entry) y → ExportsOf types.now packages y exports.now → IfOk result (λ r. Answers (type_in packages at y name.now) (TypeStands types.now) faults.old faults.new r) }
{
    match is {
        Some(meaning) => type_meant(types, faults, exports, at, meaning, name),
        None => {
            faults.note(40, at);
            Ok(None)
        }
    }
}

fn type_meant(
    types: &TypeTable,
    faults: &mut Faults,
    exports: &[ScopeName],
    at: Pos,
    meaning: &Named,
    name: &[u8],
) -> Result<Option<TypeRef>, AllocError>
    ensures { (packages : List ℕ → List Meaning) (y : NamedOf GoType) → NamedStands types.now meaning.now y → ExportsOf types.now packages (Some y) exports.now → IfOk result (λ r. Answers (type_in packages at (Some y) name.now) (TypeStands types.now) faults.old faults.new r) }
{
    match meaning {
        NamedOf::Package(_) => type_of_package(types, faults, exports, at, name),
        _ => {
            faults.note(41, at);
            Ok(None)
        }
    }
}

fn type_of_package(
    types: &TypeTable,
    faults: &mut Faults,
    exports: &[ScopeName],
    at: Pos,
    name: &[u8],
) -> Result<Option<TypeRef>, AllocError>
    ensures { (ms : List Meaning) → NamesStand types.now exports.now ms → IfOk result (λ r. Answers (After (exported ms at name.now) (as_type at)) (TypeStands types.now) faults.old faults.new r) }
{
    match exported(types, faults, exports, at, name)? {
        Some(x) => Ok(as_type(faults, at, &x)),
        None => Ok(None),
    }
}

// A value is no type.
fn as_type(faults: &mut Faults, at: Pos, x: &OperandOf<TypeRef>) -> Option<TypeRef>
    ensures { (table : Table) (y : OperandOf GoType) → OperandStands table x.now y → Answers (as_type at y) (TypeStands table) faults.old faults.new result }
{
    match x {
        OperandOf::Type { of, .. } => Some(*of),
        _ => {
            faults.note(41, at);
            None
        }
    }
}
