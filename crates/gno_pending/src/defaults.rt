// A value that waits, where its place names no type.
ghost use Rattle.std.specs.Prelude.{◌≡◌, ◌∷◌, List, Bool, Option, IfOk};
ghost use Rattle.gno_giving.specs.Basics.{AreBasics};
ghost use Rattle.gno_giving.specs.InTypes.{InTypeStands};
ghost use Rattle.gno_judging.specs.Answers.{Answers};
ghost use Rattle.gno_judging.specs.Found.{PendingStands, PendingsStand, TypeStands};
ghost use Rattle.gno_judging.specs.Waiting.{IsWaiting};
ghost use Rattle.gno_pending.specs.Defaults.{DefaultsAnswer, OneWaits};
ghost use Rattle.gno_pending.specs.Fronts.{DefaultedSoFar, FirstConstant, JudgedSoFar};
ghost use Rattle.gno_terms.specs.Tables.{Table};
ghost use Rattle.gno_terms.specs.declared.term.GoType.{GoType};
ghost use Rattle.gno_terms.specs.declared.term.TypeRef.{TypeRef};
ghost use Rattle.gno_type_classes.specs.Unnumbered.{unnumbered};
ghost use Rattle.gno_typing.specs.Giving.{IsDefaulted, default_of};
ghost use Rattle.gno_typing.specs.declared.fault.Fault.{Fault};
ghost use Rattle.gno_typing.specs.declared.pending.PendingOf.{PendingOf};
ghost use Rattle.gno_typing.specs.declared.pending.PendingOf.TheVariants as p;
ghost use Rattle.gno_typing.specs.declared.pending.PendingOperationOf.{PendingOperationOf};
ghost use Rattle.gno_typing.specs.declared.pending.PendingOperationOf.TheVariants as o;

use crate::forms::{compared, constant, with_operand};
use crate::in_types::{
    beside, joined_as_left, joined_as_right, joined_in_one_type, shifted_in_type, unary_in_type,
};
use gno_base::List;
use gno_constants::Constant;
use gno_giving::{Basics, InType};
use gno_judging::Faults;
use gno_scan::Pos;
use gno_terms::TypeRef;
use gno_tree::BinaryOperator;
use gno_type_table::TypeTable;
use gno_typed::TypedExpr;
use gno_typing::{PendingOf, PendingOperationOf};
use std::alloc::{AllocError, Global};

// What stands in front of an operation.
#[derive(Drop)]
enum Front {
    /// An untyped constant, where the operation is the first of its chain.
    Constant {
        pos: Pos,
        value: Constant,
        rune: bool,
    },
    /// What the chain became up to there.
    Judged(Option<InType>),
}

// The default type of an untyped constant.
fn default_type(basics: Basics, rune: bool) -> TypeRef
    ensures { (table : Table) → AreBasics table basics → TypeStands table result (default_of rune) }
{
    if rune { basics.rune } else { basics.int }
}

// A shift of a constant.
fn constant_shifted(
    alloc: Global,
    types: &TypeTable,
    basics: Basics,
    faults: &mut Faults,
    first_pos: Pos,
    value: Constant,
    rune: bool,
    pos: Pos,
    operator: BinaryOperator,
    count: TypedExpr,
) -> Result<Option<InType>, AllocError>
    ensures { (y : PendingOf GoType) (first : Option Fault) (left : List (PendingOperationOf TypeRef)) → AreBasics types.now basics → FirstConstant types.now y first (o.Count pos operator count ∷ left) faults.old first_pos value rune → IfOk result (λ r. JudgedSoFar types.now y first left faults.new r) }
{
    let of = default_type(basics, rune);
    match constant(types, faults, of, first_pos, value) {
        Some(form) => {
            let form = with_operand(alloc, of, pos, operator, form, count)?;
            Ok(Some(InType { of, form }))
        }
        None => {
            drop(count);
            Ok(None)
        }
    }
}

// A constant on the left of a value that waits. The faults of the constant stand before those of that value.
#[cycle(defaulted)]
fn constant_joined(
    alloc: Global,
    types: &TypeTable,
    basics: Basics,
    faults: &mut Faults,
    first_pos: Pos,
    value: Constant,
    pos: Pos,
    operator: BinaryOperator,
    operand: PendingOf<TypeRef>,
) -> Result<Option<InType>, AllocError>
    ensures { (y : PendingOf GoType) (rune : Bool) (first : Option Fault) (left : List (PendingOperationOf TypeRef)) → AreBasics types.now basics → FirstConstant types.now y first (o.Operand pos operator operand ∷ left) faults.old first_pos value rune → IfOk result (λ r. JudgedSoFar types.now y first left faults.new r) }
{
    let mut later = Faults::new();
    let right = defaulted(alloc, types, basics, &mut later, operand)?;
    let left = beside(types, faults, &right, first_pos, value);
    faults.note_all(later);
    joined_as_right(alloc, pos, operator, left, right)
}

// The first operation of a chain behind a constant.
#[cycle(defaulted)]
fn behind_constant(
    alloc: Global,
    types: &TypeTable,
    basics: Basics,
    faults: &mut Faults,
    first_pos: Pos,
    value: Constant,
    rune: bool,
    operation: PendingOperationOf<TypeRef>,
) -> Result<Option<InType>, AllocError>
    ensures { (y : PendingOf GoType) (first : Option Fault) (left : List (PendingOperationOf TypeRef)) → AreBasics types.now basics → FirstConstant types.now y first (operation ∷ left) faults.old first_pos value rune → IfOk result (λ r. JudgedSoFar types.now y first left faults.new r) }
{
    match operation {
        PendingOperationOf::Operand {
            pos,
            operator,
            operand,
        } => constant_joined(
            alloc, types, basics, faults, first_pos, value, pos, operator, operand,
        ),
        PendingOperationOf::Count {
            pos,
            operator,
            count,
        } => constant_shifted(
            alloc, types, basics, faults, first_pos, value, rune, pos, operator, count,
        ),
    }
}

// A constant on the right of what became of the chain.
fn joined_constant(
    alloc: Global,
    types: &TypeTable,
    faults: &mut Faults,
    x: Option<InType>,
    pos: Pos,
    operator: BinaryOperator,
    right_pos: Pos,
    value: Constant,
    rune: bool,
) -> Result<Option<InType>, AllocError>
    ensures { (y : PendingOf GoType) (first : Option Fault) (left : List (PendingOperationOf TypeRef)) → JudgedSoFar types.now y first (o.Operand pos operator (p.Constant right_pos value rune) ∷ left) faults.old x → IfOk result (λ r. JudgedSoFar types.now y first left faults.new r) }
{
    let right = beside(types, faults, &x, right_pos, value);
    joined_as_left(alloc, pos, operator, x, right)
}

// A value that waits on the right of what became of the chain, or a constant.
#[cycle(defaulted)]
fn joined_operand(
    alloc: Global,
    types: &TypeTable,
    basics: Basics,
    faults: &mut Faults,
    x: Option<InType>,
    pos: Pos,
    operator: BinaryOperator,
    operand: PendingOf<TypeRef>,
) -> Result<Option<InType>, AllocError>
    ensures { (y : PendingOf GoType) (first : Option Fault) (left : List (PendingOperationOf TypeRef)) → AreBasics types.now basics → JudgedSoFar types.now y first (o.Operand pos operator operand ∷ left) faults.old x → IfOk result (λ r. JudgedSoFar types.now y first left faults.new r) }
{
    match operand {
        PendingOf::Constant {
            pos: right_pos,
            value,
            rune,
        } => joined_constant(
            alloc, types, faults, x, pos, operator, right_pos, value, rune,
        ),
        operand => match defaulted(alloc, types, basics, faults, operand) {
            Ok(right) => joined_in_one_type(alloc, types, faults, pos, operator, x, right),
            Err(error) => {
                drop(x);
                Err(error)
            }
        },
    }
}

// A further operation of a chain.
#[cycle(defaulted)]
fn behind_judged(
    alloc: Global,
    types: &TypeTable,
    basics: Basics,
    faults: &mut Faults,
    x: Option<InType>,
    operation: PendingOperationOf<TypeRef>,
) -> Result<Option<InType>, AllocError>
    ensures { (y : PendingOf GoType) (first : Option Fault) (left : List (PendingOperationOf TypeRef)) → AreBasics types.now basics → JudgedSoFar types.now y first (operation ∷ left) faults.old x → IfOk result (λ r. JudgedSoFar types.now y first left faults.new r) }
{
    match operation {
        PendingOperationOf::Operand {
            pos,
            operator,
            operand,
        } => joined_operand(alloc, types, basics, faults, x, pos, operator, operand),
        PendingOperationOf::Count {
            pos,
            operator,
            count,
        } => shifted_in_type(alloc, pos, operator, x, count),
    }
}

// An operation of a chain.
#[cycle(defaulted)]
fn one_defaulted(
    alloc: Global,
    types: &TypeTable,
    basics: Basics,
    faults: &mut Faults,
    front: Front,
    operation: PendingOperationOf<TypeRef>,
) -> Result<Option<InType>, AllocError>
    ensures { (y : PendingOf GoType) (first : Option Fault) (left : List (PendingOperationOf TypeRef)) → AreBasics types.now basics → DefaultedSoFar types.now y first (operation ∷ left) faults.old front → IfOk result (λ r. JudgedSoFar types.now y first left faults.new r) }
{
    match front {
        Front::Constant { pos, value, rune } => {
            behind_constant(alloc, types, basics, faults, pos, value, rune, operation)
        }
        Front::Judged(x) => behind_judged(alloc, types, basics, faults, x, operation),
    }
}

// The operations of a chain.
#[cycle(defaulted)]
fn all_defaulted(
    alloc: Global,
    types: &TypeTable,
    basics: Basics,
    faults: &mut Faults,
    front: Front,
    rest: List<PendingOperationOf<TypeRef>>,
) -> Result<Option<InType>, AllocError>
    ensures { (y : PendingOf GoType) (first : Option Fault) → AreBasics types.now basics → DefaultedSoFar types.now y first rest faults.old front → IfOk result (λ r. Answers (IsDefaulted (unnumbered types.now) y) (InTypeStands types.now) first faults.new r) }
{
    let mut front = front;
    for operation in rest.into_vec() {
        let x = one_defaulted(alloc, types, basics, faults, front, operation)?;
        front = Front::Judged(x);
    }
    match front {
        // an operation stands behind a constant
        Front::Constant {
            pos: _,
            value,
            rune: _,
        } => {
            drop(value);
            Ok(None)
        }
        Front::Judged(x) => Ok(x),
    }
}

// The first operand of a chain.
#[cycle(defaulted)]
fn first_defaulted(
    alloc: Global,
    types: &TypeTable,
    basics: Basics,
    faults: &mut Faults,
    x: PendingOf<TypeRef>,
) -> Result<Front, AllocError>
    ensures { (y z : PendingOf GoType) (left : List (PendingOperationOf TypeRef)) (rest : List (PendingOperationOf GoType)) → AreBasics types.now basics → PendingStands types.now x z → PendingsStand types.now left rest → y ≡ p.Chain z rest → IsWaiting y → IfOk result (λ r. DefaultedSoFar types.now y faults.old left faults.new r) }
{
    match x {
        PendingOf::Constant { pos, value, rune } => Ok(Front::Constant { pos, value, rune }),
        x => {
            let x = defaulted(alloc, types, basics, faults, x)?;
            Ok(Front::Judged(x))
        }
    }
}

/// A value that waits, in the type that its operands take where its place names none; `None` where it has none, which is noted.
#[cycle(defaulted)]
pub fn defaulted(
    alloc: Global,
    types: &TypeTable,
    basics: Basics,
    faults: &mut Faults,
    x: PendingOf<TypeRef>,
) -> Result<Option<InType>, AllocError>
    ensures { (y : PendingOf GoType) → AreBasics types.now basics → PendingStands types.now x y → IsWaiting y → IfOk result (λ r. Answers (IsDefaulted (unnumbered types.now) y) (InTypeStands types.now) faults.old faults.new r) }
{
    match x {
        PendingOf::Comparison {
            pos,
            operator,
            operands,
            boxed,
            left,
            right,
        } => {
            let of = basics.bool;
            let form = compared(alloc, of, pos, operator, operands, boxed, left, right)?;
            Ok(Some(InType { of, form }))
        }
        // a constant alone does not wait
        PendingOf::Constant {
            pos: _,
            value,
            rune: _,
        } => {
            drop(value);
            Ok(None)
        }
        PendingOf::Unary {
            pos,
            operator,
            operand,
        } => {
            let x = defaulted(alloc, types, basics, faults, operand.into_inner())?;
            unary_in_type(alloc, pos, operator, x)
        }
        PendingOf::Chain { first, rest } => {
            let front = first_defaulted(alloc, types, basics, faults, first.into_inner())?;
            all_defaulted(alloc, types, basics, faults, front, rest)
        }
    }
}

/// What two operands became.
#[derive(Drop)]
pub struct Defaults {
    pub left: Option<InType>,
    pub right: Option<InType>,
}

/// Two operands, of which one at least waits, where no place names a type. A constant takes the type of the operand beside it.
pub fn both_defaulted(
    alloc: Global,
    types: &TypeTable,
    basics: Basics,
    faults: &mut Faults,
    left: PendingOf<TypeRef>,
    right: PendingOf<TypeRef>,
) -> Result<Defaults, AllocError>
    ensures { (l r : PendingOf GoType) → AreBasics types.now basics → PendingStands types.now left l → PendingStands types.now right r → OneWaits l r → IfOk result (λ it. DefaultsAnswer types.now l r faults.old faults.new it) }
{
    match left {
        PendingOf::Constant {
            pos,
            value,
            rune: _,
        } => {
            let mut later = Faults::new();
            let right = defaulted(alloc, types, basics, &mut later, right)?;
            let left = beside(types, faults, &right, pos, value);
            faults.note_all(later);
            Ok(Defaults { left, right })
        }
        left => match defaulted(alloc, types, basics, faults, left) {
            Ok(left) => right_defaulted(alloc, types, basics, faults, left, right),
            Err(error) => {
                drop(right);
                Err(error)
            }
        },
    }
}

// Behind what the left operand became.
fn right_defaulted(
    alloc: Global,
    types: &TypeTable,
    basics: Basics,
    faults: &mut Faults,
    left: Option<InType>,
    right: PendingOf<TypeRef>,
) -> Result<Defaults, AllocError>
    ensures { (l r : PendingOf GoType) (first : Option Fault) → AreBasics types.now basics → Answers (IsDefaulted (unnumbered types.now) l) (InTypeStands types.now) first faults.old left → PendingStands types.now right r → OneWaits l r → IfOk result (λ it. DefaultsAnswer types.now l r first faults.new it) }
{
    match right {
        PendingOf::Constant {
            pos,
            value,
            rune: _,
        } => {
            let right = beside(types, faults, &left, pos, value);
            Ok(Defaults { left, right })
        }
        right => match defaulted(alloc, types, basics, faults, right) {
            Ok(right) => Ok(Defaults { left, right }),
            Err(error) => {
                drop(left);
                Err(error)
            }
        },
    }
}
