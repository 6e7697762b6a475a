// Laws of sessions.
ghost use Rattle.std.specs.Prelude.{◌≡◌, List as list};
ghost use Rattle.gno_items.specs.Session.{IsSession, Session};
ghost use Rattle.gno_items.specs.declared.memory.Package.{Package as PackageOf};
ghost use Rattle.gno_script.specs.declared.item.Item.{Item as ItemOf};

/// Items that begin with some packages have one session at most. This states a law and does nothing.
pub fn one_session()
    ensures { (memory : list PackageOf) (items : list ItemOf) (session other : Session) → IsSession memory items session → IsSession memory items other → session ≡ other }
{}
