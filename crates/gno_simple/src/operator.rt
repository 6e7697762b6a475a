// Where a simple statement stands, and its operators.
ghost use Rattle.std.specs.Prelude.{◌≡◌};
ghost use Rattle.gno_rules.specs.Statements as spec;

use gno_rules::{Kind, Place};
use gno_scan::TokenKind;
use gno_tree::{AssignOperator, StepOperator};

/// Where the expressions of a simple statement stand.
pub fn place_of(kind: Kind) -> Place
    ensures { result ≡ spec.place_of kind }
{
    match kind {
        Kind::Body => Place::Plain,
        Kind::Header | Kind::For => Place::Header,
        Kind::Switch => Place::Guard,
    }
}

/// The operator of a token that adds or takes away one.
pub fn step_operator(kind: TokenKind) -> StepOperator
    ensures { result ≡ spec.step_operator kind }
{
    match kind {
        TokenKind::Increment => StepOperator::Increment,
        _ => StepOperator::Decrement,
    }
}

/// The operator of a token that assigns.
pub fn assign_operator(kind: TokenKind) -> AssignOperator
    ensures { result ≡ spec.assign_operator kind }
{
    match kind {
        TokenKind::Assign => AssignOperator::Assign,
        TokenKind::PlusAssign => AssignOperator::Add,
        TokenKind::MinusAssign => AssignOperator::Sub,
        TokenKind::StarAssign => AssignOperator::Mul,
        TokenKind::SlashAssign => AssignOperator::Quo,
        TokenKind::PercentAssign => AssignOperator::Rem,
        TokenKind::AndAssign => AssignOperator::And,
        TokenKind::OrAssign => AssignOperator::Or,
        TokenKind::CaretAssign => AssignOperator::Xor,
        TokenKind::ShiftLeftAssign => AssignOperator::ShiftLeft,
        TokenKind::ShiftRightAssign => AssignOperator::ShiftRight,
        _ => AssignOperator::AndNot,
    }
}
