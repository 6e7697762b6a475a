// Lists of parameters while they are read: all are named or none is, and which shows late.
ghost use Rattle.std.specs.Prelude.{◌≡◌, IfOk};
ghost use Rattle.gno_rules.specs.Signatures as spec;

use gno_base::List;
use gno_tree::{Name, Parameter, TypeExpr, TypeName};
use std::alloc::{AllocError, Global};

/// What the entries of a list of parameters were so far.
#[derive(Clone, Copy, Debug, PartialEq, Eq)]
pub enum ListState {
    /// Names alone, which are types or names of parameters.
    Names,
    /// Types.
    Types,
    /// Names with types.
    Named,
    /// A type behind `...`, which is the last.
    Last,
    /// Nothing, behind a last comma.
    Ended,
}

/// A list of parameters so far: those that are known, and names behind them that are types or names of parameters.
#[derive(Drop)]
pub struct ParameterList {
    pub known: List<Parameter>,
    pub names: List<Name>,
    pub state: ListState,
}

/// An entry of a list of parameters.
#[derive(Drop)]
pub enum Entry {
    Name(Name),
    Type(TypeExpr),
    Named { names: List<Name>, of: TypeExpr },
    Variadic { name: Option<Name>, of: TypeExpr },
    Nothing,
}

/// A parameter without a name.
pub fn nameless(alloc: Global, of: TypeExpr) -> Parameter
    ensures { result ≡ spec.nameless of }
{
    Parameter {
        names: List::new(alloc),
        variadic: false,
        of,
    }
}

/// A type by its name, which has a package before it or not.
pub fn qualified(name: Name, member: Option<Name>) -> TypeName
    ensures { result ≡ spec.qualified name member }
{
    match member {
        Some(member) => TypeName {
            qualifier: Some(name),
            name: member,
        },
        None => TypeName {
            qualifier: None,
            name,
        },
    }
}

// A name that is the type of a parameter.
fn type_alone(alloc: Global, name: Name) -> Parameter
    ensures { result ≡ spec.type_alone name }
{
    nameless(alloc, TypeExpr::Name(qualified(name, None)))
}

fn as_list(alloc: Global, name: Option<Name>) -> Result<List<Name>, AllocError>
    ensures { IfOk result (λ names. names ≡ spec.as_list name) }
{
    let mut names = List::new(alloc);
    if let Some(name) = name {
        names.push(name)?;
    }
    Ok(names)
}

impl ParameterList {
    /// No parameters.
    pub fn new(alloc: Global) -> ParameterList
        ensures { result ≡ spec.no_entry }
    {
        ParameterList {
            known: List::new(alloc),
            names: List::new(alloc),
            state: ListState::Names,
        }
    }

    /// All parameters: the names behind the known ones are types.
    pub fn into_parameters(self, alloc: Global) -> Result<List<Parameter>, AllocError>
        ensures { IfOk result (λ all. all ≡ spec.parameters_of self) }
    {
        let ParameterList {
            mut known,
            names,
            ..
        } = self;
        for name in names.into_vec() {
            known.push(type_alone(alloc, name))?;
        }
        Ok(known)
    }

    fn with_parameter(
        self,
        alloc: Global,
        parameter: Parameter,
        state: ListState,
    ) -> Result<ParameterList, AllocError>
        ensures { IfOk result (λ list. list ≡ spec.with_parameter self parameter state) }
    {
        let mut known = self.into_parameters(alloc)?;
        known.push(parameter)?;
        Ok(ParameterList {
            known,
            names: List::new(alloc),
            state,
        })
    }

    /// The list with one more entry.
    pub fn with_entry(self, alloc: Global, entry: Entry) -> Result<ParameterList, AllocError>
        ensures { IfOk result (λ list. list ≡ spec.with_entry self entry) }
    {
        match entry {
            Entry::Name(name) => self.with_name(name),
            Entry::Type(of) => self.with_parameter(alloc, nameless(alloc, of), ListState::Types),
            Entry::Named { names, of } => self.with_named(alloc, names, of),
            Entry::Variadic { name, of } => {
                let parameter = Parameter {
                    names: as_list(alloc, name)?,
                    variadic: true,
                    of,
                };
                self.with_parameter(alloc, parameter, ListState::Last)
            }
            Entry::Nothing => Ok(ParameterList {
                known: self.into_parameters(alloc)?,
                names: List::new(alloc),
                state: ListState::Ended,
            }),
        }
    }

    fn with_name(self, name: Name) -> Result<ParameterList, AllocError>
        ensures { IfOk result (λ list. list ≡ spec.with_name self name) }
    {
        let ParameterList {
            known,
            mut names,
            ..
        } = self;
        names.push(name)?;
        Ok(ParameterList {
            known,
            names,
            state: ListState::Names,
        })
    }

    // The names behind the known parameters are names of this one too.
    fn with_named(
        self,
        alloc: Global,
        more: List<Name>,
        of: TypeExpr,
    ) -> Result<ParameterList, AllocError>
        ensures { IfOk result (λ list. list ≡ spec.with_named self more of) }
    {
        let ParameterList {
            mut known,
            mut names,
            ..
        } = self;
        names.append(more)?;
        known.push(Parameter {
            names,
            variadic: false,
            of,
        })?;
        Ok(ParameterList {
            known,
            names: List::new(alloc),
            state: ListState::Named,
        })
    }
}
