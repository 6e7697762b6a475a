// The arms of an `if`.
ghost use Rattle.std.specs.Prelude.{◌≡◌, IfOk};
ghost use Rattle.gno_rules.specs.Statements as spec;

use gno_base::List;
use gno_tree::{Arm, Block};
use std::alloc::AllocError;

/// The arms with what stands behind `else`.
pub fn with_arm(
    arms: (List<Arm>, Option<Block>),
    alternative: (Option<Arm>, Option<Block>),
) -> Result<(List<Arm>, Option<Block>), AllocError>
    ensures { IfOk result (λ all. all ≡ spec.with_arm arms alternative) }
{
    let (mut all, _) = arms;
    let (arm, block) = alternative;
    match arm {
        None => Ok((all, block)),
        Some(arm) => {
            all.push(arm)?;
            Ok((all, block))
        }
    }
}
