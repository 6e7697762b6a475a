// Names as operands.
ghost use Rattle.std.specs.Prelude.{◌≡◌, IfOk, List, Option, Some};
ghost use Rattle.std.specs.Option.{option_copied};
ghost use Rattle.gno_judging.specs.Answers.{Answers};
ghost use Rattle.gno_judging.specs.Found.{ConstantTypeStands, OperandStands, TypeStands};
ghost use Rattle.gno_judging.specs.Stands.{BothStand};
ghost use Rattle.gno_names.specs.Scopes.{NamedStands, NamesStand};
ghost use Rattle.gno_terms.specs.Tables.{Table};
ghost use Rattle.gno_terms.specs.Terms.{term_of};
ghost use Rattle.gno_terms.specs.declared.term.GoType.{GoType};
ghost use Rattle.gno_typed.specs.declared.scope.NamedOf.{NamedOf};
ghost use Rattle.gno_typing.specs.Names.{Meaning, exported, found, function, is_blank, is_realm, meant, named, type_name, variable};
ghost use Rattle.gno_typing.specs.Verdicts.{good};
ghost use Rattle.gno_typing.specs.declared.fault.Fault.{Fault};
ghost use Rattle.gno_typing.specs.declared.operand.OperandOf.TheVariants as o;
ghost use Rattle.gno_typing.specs.declared.value.ValueOf.TheVariants as v;

use crate::copies::{code_again, constant_again, text_again, variable_again};
use crate::meaning::meaning_of;
use crate::predeclared::{is_realm, predeclared};
use gno_base::Bytes;
use gno_constants::Constant;
use gno_judging::Faults;
use gno_scan::Pos;
use gno_terms::{TypeRef, is_exported};
use gno_tree::Name;
use gno_type_table::TypeTable;
use gno_typed::{CodeId, Named, NamedOf, ScopeName, TypedExprOf, VariableId};
use gno_typing::{FormOf, OperandOf, Standing, ValueOf};
use std::alloc::AllocError;

/// A name as an operand; `None` where it has no meaning that may stand in an expression, which is noted. Go specification, "Operands"
/// and "Blank identifier". An `Err` comes where there is no memory for a copy of a text.
pub fn named(
    types: &TypeTable,
    faults: &mut Faults,
    names: &[ScopeName],
    name: &Name,
) -> Result<Option<OperandOf<TypeRef>>, AllocError>
    ensures { (ms : List Meaning) → NamesStand types.now names.now ms → IfOk result (λ r. Answers (named ms name.now.pos name.now.text) (OperandStands types.now) faults.old faults.new r) }
{
    if is_blank(name.text.as_slice()) {
        faults.note(41, name.pos);
        Ok(None)
    } else {
        found(
            types,
            faults,
            name.pos,
            meaning_of(names, name.text.as_slice()),
        )
    }
}

/// What a package declares under a name at its level, as an operand at a place; `None` where the name is not exported or not declared,
/// which is noted. `names` are the package's own. Go specification, "Qualified identifiers" and "Exported identifiers". An `Err` comes
/// where there is no memory for a copy of a text.
pub fn exported(
    types: &TypeTable,
    faults: &mut Faults,
    names: &[ScopeName],
    at: Pos,
    name: &[u8],
) -> Result<Option<OperandOf<TypeRef>>, AllocError>
    ensures { (ms : List Meaning) → NamesStand types.now names.now ms → IfOk result (λ r. Answers (exported ms at name.now) (OperandStands types.now) faults.old faults.new r) }
{
    if is_exported(name) {
        found(types, faults, at, meaning_of(names, name))
    } else {
        faults.note(40, at);
        Ok(None)
    }
}

/// Whether a name is the blank one. Go specification, "Blank identifier".
pub fn is_blank(name: &[u8]) -> bool
    ensures { result ≡ is_blank name.now }
{
    name == b"_".as_slice()
}

fn found(
    types: &TypeTable,
    faults: &mut Faults,
    at: Pos,
    is: Option<&Named>,
) -> Result<Option<OperandOf<TypeRef>>, AllocError>
    ensures { (y : Option (NamedOf GoType)) → BothStand (NamedStands types.now) (option_copied is.entry) y → IfOk result (λ r. Answers (found at y) (OperandStands types.now) faults.old faults.new r) }
{
    match is {
        Some(meaning) => meant(types, faults, at, meaning),
        None => {
            faults.note(40, at);
            Ok(None)
        }
    }
}

fn meant(
    types: &TypeTable,
    faults: &mut Faults,
    at: Pos,
    is: &Named,
) -> Result<Option<OperandOf<TypeRef>>, AllocError>
    ensures { (y : NamedOf GoType) → NamedStands types.now is.now y → IfOk result (λ r. Answers (meant at y) (OperandStands types.now) faults.old faults.new r) }
{
    match is {
        NamedOf::Variable(id, of) => variable(types, at, id, *of),
        NamedOf::Constant(of, value) => constant(at, *of, value),
        NamedOf::TypeName(of) => Ok(type_name(types, faults, at, *of)),
        NamedOf::Function(code, of, crossing) => function(at, code, *of, *crossing),
        NamedOf::Package(path) => package(at, path),
        NamedOf::Builtin(name) => predeclared(faults, at, name),
    }
}

// A variable; the first parameter of a crossing function is none.
fn variable(
    types: &TypeTable,
    at: Pos,
    id: &VariableId,
    of: TypeRef,
) -> Result<Option<OperandOf<TypeRef>>, AllocError>
    ensures { (s : GoType) (f : Option Fault) → TypeStands types.now of s → IfOk result (λ r. Answers (variable (is_realm (term_of s)) at id.now s) (OperandStands types.now) f f r) }
{
    if is_realm(types, of) {
        Ok(Some(OperandOf::Realm { pos: at }))
    } else {
        let variable = variable_again(id)?;
        Ok(Some(OperandOf::Value(ValueOf::Typed {
            pos: at,
            of,
            standing: Standing::Place,
            calls: false,
            form: FormOf::Whole(TypedExprOf::Variable {
                pos: at,
                of,
                variable,
            }),
        })))
    }
}

fn constant(
    at: Pos,
    of: TypeRef,
    value: &Constant,
) -> Result<Option<OperandOf<TypeRef>>, AllocError>
    ensures { (table : Table) (s : GoType) (f : Option Fault) → ConstantTypeStands table of s → IfOk result (λ r. Answers (good (o.Value (v.Constant at s value.now))) (OperandStands table) f f r) }
{
    let value = constant_again(value)?;
    Ok(Some(OperandOf::Value(ValueOf::Constant { pos: at, of, value })))
}

// The name of a type, which is not `realm`.
fn type_name(
    types: &TypeTable,
    faults: &mut Faults,
    at: Pos,
    of: TypeRef,
) -> Option<OperandOf<TypeRef>>
    ensures { (s : GoType) → TypeStands types.now of s → Answers (type_name (is_realm (term_of s)) at s) (OperandStands types.now) faults.old faults.new result }
{
    if is_realm(types, of) {
        faults.note(82, at);
        None
    } else {
        Some(OperandOf::Type { pos: at, of })
    }
}

// A function. A crossing one is only called.
fn function(
    at: Pos,
    code: &CodeId,
    of: TypeRef,
    crossing: bool,
) -> Result<Option<OperandOf<TypeRef>>, AllocError>
    ensures { (table : Table) (s : GoType) (f : Option Fault) → TypeStands table of s → IfOk result (λ r. Answers (function crossing at code.now s) (OperandStands table) f f r) }
{
    let code = code_again(code)?;
    if crossing {
        Ok(Some(OperandOf::Crossing { pos: at, of, code }))
    } else {
        Ok(Some(OperandOf::Value(ValueOf::Typed {
            pos: at,
            of,
            standing: Standing::Result,
            calls: false,
            form: FormOf::Whole(TypedExprOf::Function { pos: at, of, code }),
        })))
    }
}

fn package(at: Pos, path: &Bytes) -> Result<Option<OperandOf<TypeRef>>, AllocError>
    ensures { (table : Table) (f : Option Fault) → IfOk result (λ r. Answers (good (o.Package at path.now)) (OperandStands table) f f r) }
{
    let path = text_again(path)?;
    Ok(Some(OperandOf::Package { pos: at, path }))
}
