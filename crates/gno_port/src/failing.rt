// The calls of a form in memory that are to fail.
ghost use Rattle.std.specs.Prelude.{IsTrue, ◌↔◌};
ghost use Rattle.gno_port.specs.Failing.{IsToFail};

/// A method of a source, a sink or a keeper.
#[derive(Clone, Copy, Debug, PartialEq, Eq)]
pub enum Called {
    Read,
    Write,
    Open,
    Get,
    After,
    Apply,
}

/// The call of a method that is to fail, by its number among the calls of that method, from 1.
#[derive(Clone, Copy, Debug, PartialEq, Eq)]
pub struct FailAt {
    pub call: Called,
    pub number: u64,
}

// Whether the call of that number is to fail.
pub(crate) fn is_to_fail(fails: &[FailAt], call: Called, number: u64) -> bool
    ensures { IsTrue result ↔ IsToFail fails.now call number }
{
    for one in fails {
        if one.number == number && one.call == call {
            return true;
        }
    }
    false
}
