// What a `switch` chooses by, of what was read.
ghost use Rattle.std.specs.Prelude.{◌≡◌};
ghost use Rattle.gno_rules.specs.Statements as spec;

use gno_rules::{Found, Tag};
use gno_tree::{Expr, Guard, Name, Subject};

/// An expression or a guard, behind a name and `:=` where they stand before it.
pub fn tag_of(found: Found, bound: Option<Name>) -> Tag
    ensures { result ≡ spec.tag_of found bound }
{
    match found {
        Found::Name(name) => Tag::Expr(Expr::Name(name)),
        Found::Expr { expr, .. } => Tag::Expr(expr),
        Found::Guard { of, pos } => Tag::Guard(Guard {
            name: bound,
            of,
            pos,
        }),
    }
}

/// What stands behind the `;`.
pub fn subject_of(tag: Option<Tag>) -> Subject
    ensures { result ≡ spec.subject_of tag }
{
    match tag {
        None => Subject::Nothing,
        Some(Tag::Expr(expr)) => Subject::Expr(expr),
        Some(Tag::Guard(guard)) => Subject::Guard(guard),
    }
}
