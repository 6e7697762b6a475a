// The basic types that rules speak of.
ghost use Rattle.std.specs.Prelude.{◌≡◌, IfOk};
ghost use Rattle.gno_giving.specs.Basics.{AreBasics};
ghost use Rattle.gno_terms.specs.Tables.{Grows, Is, Table};
ghost use Rattle.gno_terms.specs.declared.term.GoType.{GoType};
ghost use Rattle.gno_typing.specs.Classes.{IsDefault, basic};

use gno_base::Kind;
use gno_terms::{Term, TypeRef};
use gno_type_table::TypeTable;
use std::alloc::AllocError;

/// The numbers of the basic types that values get where nothing else names a type. They keep their meaning while the table grows.
#[derive(Clone, Copy, Debug)]
pub struct Basics {
    pub bool: TypeRef,
    pub text: TypeRef,
    pub int: TypeRef,
    /// `int32`
    pub rune: TypeRef,
    pub uint: TypeRef,
    /// `uint8`
    pub byte: TypeRef,
}

impl Basics {
    /// Adds the types to a table where it does not hold them.
    pub fn new(types: &mut TypeTable) -> Result<Basics, AllocError>
        ensures basics { IfOk result (λ it. AreBasics types.new it) }
        ensures grows { Grows types.old types.new }
        ensures definitions { types.new.definitions ≡ types.old.definitions }
    {
        let bool = basic(types, Kind::Bool)?;
        let text = basic(types, Kind::Text)?;
        let int = basic(types, Kind::Int)?;
        let rune = basic(types, Kind::Int32)?;
        let uint = basic(types, Kind::Uint)?;
        let byte = basic(types, Kind::Uint8)?;
        Ok(Basics {
            bool,
            text,
            int,
            rune,
            uint,
            byte,
        })
    }

    /// The default type that has this kind. Go specification, "Constants".
    pub fn default_of(self, kind: Kind) -> TypeRef
        ensures { (table : Table) (s : GoType) → AreBasics table self → IsDefault s kind → Is table result (basic kind) }
    {
        match kind {
            Kind::Bool => self.bool,
            Kind::Text => self.text,
            Kind::Int32 => self.rune,
            _ => self.int,
        }
    }
}

fn basic(types: &mut TypeTable, kind: Kind) -> Result<TypeRef, AllocError>
    ensures is { IfOk result (λ t. Is types.new t (basic kind)) }
    ensures grows { Grows types.old types.new }
    ensures definitions { types.new.definitions ≡ types.old.definitions }
{
    types.intern(Term::Basic(kind))
}
