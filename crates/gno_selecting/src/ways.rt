// What a way of embedded fields ends in.
ghost use Rattle.std.specs.Prelude.{◌≡◌};
ghost use Rattle.gno_typing.specs.Selectors.{adjustment, ends_in_pointer, is_followed, is_place, may_receive, reached, reached_by};

use gno_typed::{Adjustment, Passed};
use gno_typing::Standing;

pub(crate) fn is_place(standing: Standing) -> bool
    ensures { result ≡ is_place standing }
{
    matches!(standing, Standing::Place)
}

// One of the embedded fields is a pointer.
fn is_followed(way: &[Passed]) -> bool
    ensures { result ≡ is_followed way.now }
{
    for field in way {
        if field.pointer {
            return true;
        }
    }
    false
}

/// Whether what the way leads to is reached by a pointer: the last embedded field, or else the operand.
pub(crate) fn ends_in_pointer(pointer: bool, way: &[Passed]) -> bool
    ensures { result ≡ ends_in_pointer pointer way.now }
{
    let mut ends = pointer;
    for field in way {
        ends = field.pointer;
    }
    ends
}

/// What a pointer leads to is a place, and a part of a place.
pub(crate) fn reached(pointer: bool, way: &[Passed], standing: Standing) -> Standing
    ensures { result ≡ reached pointer way.now standing }
{
    if pointer {
        Standing::Place
    } else if is_place(standing) {
        Standing::Place
    } else {
        reached_by(is_followed(way))
    }
}

fn reached_by(followed: bool) -> Standing
    ensures { result ≡ reached_by followed }
{
    if followed {
        Standing::Place
    } else {
        Standing::Result
    }
}

/// A pointer method wants a pointer, or a place whose address is taken.
pub(crate) fn may_receive(wants: bool, ends: bool, standing: Standing) -> bool
    ensures { result ≡ may_receive wants ends standing }
{
    if !wants {
        return true;
    }
    if ends {
        return true;
    }
    is_place(standing)
}

/// How the receiver is made: whether the method wants a pointer, and whether the way ends in one.
pub(crate) fn adjustment(wants: bool, ends: bool) -> Adjustment
    ensures { result ≡ adjustment wants ends }
{
    if wants {
        if ends {
            Adjustment::Pointer
        } else {
            Adjustment::Address
        }
    } else if ends {
        Adjustment::Followed
    } else {
        Adjustment::Copied
    }
}
