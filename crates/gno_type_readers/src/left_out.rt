// Forms that are left out.
ghost use Rattle.std.specs.Prelude.{◌≡◌};
ghost use Rattle.gno_grammar.specs.declared.refusal.Refusal.TheVariants as refusal;
ghost use Rattle.gno_reader.specs.declared.cursor.Failure.TheVariants as failure;

use gno_grammar::{LeftOut, Refusal};
use gno_reader::Failure;

/// A form that is left out began so many tokens before the next one.
pub fn left_out(form: LeftOut, begun: usize) -> Failure
    ensures { result ≡ failure.Refused (refusal.LeftOut form begun) }
{
    Failure::Refused(Refusal::LeftOut { form, begun })
}
