// The way to a type that embedded fields lead to.
ghost use Rattle.std.specs.Prelude.{◌≡◌, ◌+◌, ◌<◌, IfOk, length};
ghost use Rattle.gno_selectors.specs.Standings.{AreBehind, GoesFrom};

use crate::selection::Passed;
use gno_base::List;
use gno_embedding::Reached;
use std::alloc::{AllocError, Global};

/// The embedded fields that are passed on a shortest way to the reached type at a place, outermost first.
pub(crate) fn way_to(
    alloc: Global,
    reached: &[Reached],
    place: usize,
) -> Result<List<Passed>, AllocError>
    requires place { place < length reached.now }
    requires behind { AreBehind reached.now }
    ensures { IfOk result (λ way. GoesFrom reached.now 0 (place + 1) way) }
{
    let mut way = Vec::new(alloc);
    let mut number = place + 1;
    while number > 0 {
        let it = reached[number - 1];
        way.push(Passed {
            place: it.place,
            pointer: it.pointer,
        })?;
        number = it.from;
    }
    way.reverse();
    Ok(List::from_vec(way))
}
