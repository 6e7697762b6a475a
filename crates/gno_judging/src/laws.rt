// What holds of the fault that is told.
ghost use Rattle.std.specs.Prelude.{◌≡◌, List, [], None, Some};
ghost use Rattle.gno_judging.specs.Noting.{IsLeast, noted};
ghost use Rattle.gno_typing.specs.declared.fault.Fault.{Fault};

/// Where no fault is told, none was noted. This states a law and does nothing.
pub fn a_fault_is_told_where_one_was_noted()
    ensures { (fs : List Fault) → noted None fs ≡ None → fs ≡ [] }
{}

/// A fault that is told is the first of those at the least place. This states a law and does nothing.
pub fn the_told_fault_is_the_least()
    ensures { (fs : List Fault) (f : Fault) → noted None fs ≡ Some f → IsLeast f fs }
{}
