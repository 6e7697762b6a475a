// Why a text has no tree.
ghost use Rattle.std.specs.Prelude.{◌≡◌, ◌<◌, ◌^◌, ◌+◌, length};
ghost use Rattle.gno_syntax.specs.Parsing as spec;

use gno_grammar::{LeftOut, Refusal};
use gno_scan::Pos;

/// Why a text has no tree.
#[derive(Clone, Copy, Debug, PartialEq, Eq)]
pub enum SyntaxFault {
    /// The first fault, with its refusal code: 20 a token that continues no tree, 21 a construct that nests too deep, 22 a form that
    /// is left out, with its name. The place is that of the token that is refused, of the construct or the form; where the end is
    /// refused, it is the end of the text.
    At {
        code: u8,
        pos: Pos,
        form: Option<LeftOut>,
    },
    NoMemory,
}

/// The code of a refusal.
pub fn code_of(refusal: Refusal) -> u8
    ensures { result ≡ spec.code_of refusal }
{
    match refusal {
        Refusal::Unexpected => 20,
        Refusal::TooDeep => 21,
        Refusal::LeftOut { .. } => 22,
    }
}

/// The form that a refusal names.
pub fn form_of(refusal: Refusal) -> Option<LeftOut>
    ensures { result ≡ spec.form_of refusal }
{
    match refusal {
        Refusal::LeftOut { form, .. } => Some(form),
        Refusal::Unexpected | Refusal::TooDeep => None,
    }
}

/// How many tokens before the refused one the form began.
pub fn begun(refusal: Refusal) -> usize
    ensures { result ≡ spec.begun refusal }
{
    match refusal {
        Refusal::LeftOut { begun, .. } => begun,
        Refusal::Unexpected | Refusal::TooDeep => 0,
    }
}
