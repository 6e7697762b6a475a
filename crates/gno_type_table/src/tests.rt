// A table in use, with ample memory.
ghost use Rattle.std.specs.Prelude.{◌≡◌, IfOk, length};
ghost use Rattle.gno_terms.specs.declared.term.TermOf.TheVariants as term;
ghost use Rattle.gno_terms.specs.Tables.{Below, Grows, Is};
ghost use Rattle.gno_terms.specs.Terms.{type_of};

use crate::TypeTable;
use gno_base::Kind;
use gno_terms::{Term, TypeRef};
use std::alloc::AllocError;
use std::test::Fail;

fn basic(table: &mut TypeTable, kind: Kind) -> Result<TypeRef, AllocError>
    ensures is { IfOk result (λ t. Is table.new t (type_of (term.Basic kind))) }
    ensures below { IfOk result (λ t. Below (length table.new.types) t) }
    ensures grows { Grows table.old table.new }
    ensures definitions { table.new.definitions ≡ table.old.definitions }
{
    table.intern(Term::Basic(kind))
}

#[test]
fn a_type_has_one_number(rt: HostRuntime) -> Result<(), Fail> {
    let mut table = TypeTable::new(rt.alloc())?;
    let int = basic(&mut table, Kind::Int)?;
    let again = basic(&mut table, Kind::Int)?;
    let text = basic(&mut table, Kind::Text)?;
    assert!(rt; table.identical(int, again));
    assert!(rt; !table.identical(int, text));
    assert!(rt; matches!(table.term(text), Term::Basic(Kind::Text)));
    Ok(())
}

fn error(table: &mut TypeTable) -> Result<TypeRef, AllocError>
    ensures { IfOk result (λ t. Is table.new t (type_of term.Error)) }
{
    table.intern(Term::Error)
}

fn interface_of(table: &TypeTable, error: TypeRef) -> TypeRef
    requires { Is table.now error (type_of term.Error) }
    ensures { Below (length table.now.types) result }
{
    table.underlying(error)
}

#[test]
fn an_error_is_an_interface(rt: HostRuntime) -> Result<(), Fail> {
    let mut table = TypeTable::new(rt.alloc())?;
    let error = error(&mut table)?;
    let underlying = interface_of(&table, error);
    let methods = match table.term(underlying) {
        Term::Interface(methods) => methods.len(),
        _ => 0,
    };
    assert!(rt; methods == 1);
    Ok(())
}

fn holding(table: &TypeTable, t: TypeRef, kind: Kind) -> (u64, bool)
    requires is { Is table.now t (type_of (term.Basic kind)) }
    requires below { Below (length table.now.types) t }
{
    (table.slots(t), table.comparable(t))
}

#[test]
fn an_integer_is_one_slot_and_compares(rt: HostRuntime) -> Result<(), Fail> {
    let mut table = TypeTable::new(rt.alloc())?;
    let int = basic(&mut table, Kind::Int)?;
    let (slots, comparable) = holding(&table, int, Kind::Int);
    assert!(rt; slots == 1);
    assert!(rt; comparable);
    Ok(())
}
