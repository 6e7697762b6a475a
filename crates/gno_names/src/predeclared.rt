// What is declared outside packages.
ghost use Rattle.std.specs.Prelude.{◌≡◌, IfOk, Option, codes};
ghost use Rattle.std.specs.Str.{bytes_eq};
ghost use Rattle.gno_judging.specs.Answers.{Answers};
ghost use Rattle.gno_judging.specs.Found.{OperandStands};
ghost use Rattle.gno_names.specs.Scopes.{is_builtin};
ghost use Rattle.gno_terms.specs.Tables.{Is, Table};
ghost use Rattle.gno_terms.specs.Terms.{term_of};
ghost use Rattle.gno_terms.specs.declared.term.GoType.{GoType};
ghost use Rattle.gno_typing.specs.Names.{is_realm, predeclared};

use crate::copies::text_again;
use gno_base::Bytes;
use gno_judging::Faults;
use gno_scan::Pos;
use gno_terms::{Term, TypeRef};
use gno_type_table::TypeTable;
use gno_typing::{OperandOf, ValueOf};
use std::alloc::AllocError;

/// Whether the type is `realm`.
pub(crate) fn is_realm(types: &TypeTable, t: TypeRef) -> bool
    ensures { (s : GoType) → Is types.now t s → result ≡ is_realm (term_of s) }
{
    types.contains(t) && is_realm_by(types.term(t))
}

fn is_realm_by(term: &Term) -> bool
    ensures { result ≡ is_realm term.now }
{
    matches!(term, Term::Realm)
}

fn is_nil(name: &[u8]) -> bool
    ensures { result ≡ bytes_eq name.now (codes "nil") }
{
    name == b"nil".as_slice()
}

fn is_cross(name: &[u8]) -> bool
    ensures { result ≡ bytes_eq name.now (codes "cross") }
{
    name == b"cross".as_slice()
}

// Whether a predeclared function has the name.
fn is_builtin(name: &[u8]) -> bool
    ensures { result ≡ is_builtin name.now }
{
    name == b"append".as_slice()
        || (name == b"cap".as_slice()
            || (name == b"copy".as_slice()
                || (name == b"delete".as_slice()
                    || (name == b"len".as_slice()
                        || (name == b"make".as_slice()
                            || (name == b"new".as_slice()
                                || (name == b"panic".as_slice()
                                    || (name == b"print".as_slice()
                                        || (name == b"println".as_slice()
                                            || name == b"recover".as_slice())))))))))
}

/// `nil`, `cross` or a predeclared function, by its name.
pub(crate) fn predeclared(
    faults: &mut Faults,
    at: Pos,
    name: &Bytes,
) -> Result<Option<OperandOf<TypeRef>>, AllocError>
    ensures { (table : Table) → IfOk result (λ r. Answers (predeclared at name.now) (OperandStands table) faults.old faults.new r) }
{
    if is_nil(name.as_slice()) {
        Ok(Some(OperandOf::Value(ValueOf::Nil { pos: at })))
    } else if is_cross(name.as_slice()) {
        Ok(Some(OperandOf::Cross { pos: at }))
    } else if is_builtin(name.as_slice()) {
        let name = text_again(name)?;
        Ok(Some(OperandOf::Builtin { pos: at, name }))
    } else {
        faults.note(40, at);
        Ok(None)
    }
}
