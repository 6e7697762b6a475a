// The operators between operands.
ghost use Rattle.std.specs.Prelude.{◌≡◌, ◌&&◌, not};
ghost use Rattle.gno_grammar.specs.Readers.{begins};
ghost use Rattle.gno_reader.specs.Answers.{Gives, one_token};
ghost use Rattle.gno_rules.specs.Kinds.{code, numbers};
ghost use Rattle.gno_rules.specs.Shapes as spec;
ghost use Rattle.gno_rules.specs.declared.types.TypeEnd.TheVariants.{Open};

use gno_reader::{Cursor, Failure};
use gno_rules::{Operands, TypeEnd};
use gno_scan::{Token, TokenKind};

static PRODUCT: [TokenKind; 7] = [
    TokenKind::Star,
    TokenKind::Slash,
    TokenKind::Percent,
    TokenKind::ShiftLeft,
    TokenKind::ShiftRight,
    TokenKind::And,
    TokenKind::AndNot,
];

static SUM: [TokenKind; 4] = [
    TokenKind::Plus,
    TokenKind::Minus,
    TokenKind::Or,
    TokenKind::Caret,
];

static COMPARISON: [TokenKind; 6] = [
    TokenKind::Equal,
    TokenKind::NotEqual,
    TokenKind::Less,
    TokenKind::LessEqual,
    TokenKind::Greater,
    TokenKind::GreaterEqual,
];

static BOTH_TRUE: [TokenKind; 1] = [TokenKind::BothTrue];

static ONE_TRUE: [TokenKind; 1] = [TokenKind::OneTrue];

/// The operators of a level, the tightest one being 0.
#[tactic(auto, using(crate::proofs::LevelSets::loosest))]
fn operators(level: u8) -> &'static [TokenKind]
    ensures { result.now ≡ spec.operators level }
{
    match level {
        0 => &PRODUCT,
        1 => &SUM,
        2 => &COMPARISON,
        3 => &BOTH_TRUE,
        _ => &ONE_TRUE,
    }
}

/// The operators of a level that may stand behind a signature without results: behind it a `*` begins a result.
#[tactic(auto, using(crate::proofs::LevelSets::looser_behind_open))]
fn operators_behind_open(level: u8) -> &'static [TokenKind]
    ensures { result.now ≡ spec.operators_behind Open level }
{
    if level == 0 {
        return &PRODUCT[1..];
    }
    operators(level)
}

/// The operators of a level that may stand behind an operand that ends so.
fn operators_behind(end: TypeEnd, level: u8) -> &'static [TokenKind]
    ensures { result.now ≡ spec.operators_behind end level }
{
    match end {
        TypeEnd::Open => operators_behind_open(level),
        TypeEnd::Closed | TypeEnd::Name => operators(level),
    }
}

/// Whether an operator of that level follows.
#[tactic(auto, unfolding(gno_reader::proofs::Shown::reading))]
pub fn goes_on(tokens: &Cursor<'_>, operands: &Operands, level: u8) -> bool
    ensures { result ≡ (not (spec.is_guard (spec.shape_of_operands operands.now)) && begins code (numbers (spec.operators_behind (spec.end_of (spec.shape_of_operands operands.now)) level)) tokens.now) }
{
    let shape = operands.shape();
    !shape.is_guard() && tokens.sees_any(operators_behind(shape.end(), level))
}

/// An operator of that level.
pub fn operator(tokens: &mut Cursor<'_>, end: TypeEnd, level: u8) -> Result<Token, Failure>
    ensures { Gives (one_token (spec.operators_behind end level) tokens.old) result tokens.new }
{
    tokens.expect_any(operators_behind(end, level))
}
