// What constants become.
ghost use Rattle.std.specs.Prelude.{◌≡◌, ◌↔◌, IsTrue, None, Some, option_map};
ghost use Rattle.gno_assignability.specs.Assignability.{Becomes, IsValue, is_alike, is_whole};

use gno_base::{Kind, Whole};
use gno_constants::Constant;

/// Whether a constant is a value of a kind. Go specification, "Representability".
pub fn is_value(constant: &Constant, kind: Kind) -> bool
    ensures { IsTrue result ↔ IsValue constant.now kind }
{
    match constant {
        Constant::Bool(_) => matches!(kind, Kind::Bool),
        Constant::Text(_) => matches!(kind, Kind::Text),
        Constant::Whole(number) => Whole::new(kind, *number).is_some(),
    }
}

fn is_whole(kind: Kind) -> bool
    ensures { result ≡ is_whole kind }
{
    !matches!(kind, Kind::Bool | Kind::Text)
}

fn is_alike(a: Kind, b: Kind) -> bool
    ensures { result ≡ is_alike a b }
{
    match (a, b) {
        (Kind::Bool, Kind::Bool) | (Kind::Text, Kind::Text) => true,
        _ => is_whole(a) && is_whole(b),
    }
}

/// Whether an untyped constant, or an untyped value that is none, becomes a value of a kind.
pub(crate) fn becomes(constant: Option<&Constant>, default: Kind, kind: Kind) -> bool
    ensures { IsTrue result ↔ Becomes (option_map (λ it. it.now) constant.entry) default kind }
{
    match constant {
        Some(constant) => is_value(constant, kind),
        None => is_alike(default, kind),
    }
}
