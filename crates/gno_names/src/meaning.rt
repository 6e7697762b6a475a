// The innermost declaration of a name.
ghost use Rattle.std.specs.Prelude.{List};
ghost use Rattle.std.specs.Option.{option_copied};
ghost use Rattle.gno_judging.specs.Stands.{BothStand};
ghost use Rattle.gno_names.specs.Scopes.{NamedStands, NamesStand};
ghost use Rattle.gno_terms.specs.Tables.{Table};
ghost use Rattle.gno_typing.specs.Names.{Meaning, meaning_of};

use gno_typed::{Named, ScopeName};

/// What a name means among the names in scope, whose innermost declaration stands last: `None` where none declares it. Takes time by
/// their number. Go specification, "Declarations and scope".
pub fn meaning_of<'a>(names: &'a [ScopeName], name: &[u8]) -> Option<&'a Named>
    ensures { (table : Table) (ms : List Meaning) → NamesStand table names.now ms → BothStand (NamedStands table) (option_copied result) (meaning_of ms name.now) }
{
    let mut found = None;
    for one in names {
        if one.name.as_slice() == name {
            found = Some(&one.is);
        }
    }
    found
}
