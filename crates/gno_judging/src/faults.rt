// The fault that is told.
ghost use Rattle.std.specs.Prelude.{◌≡◌, ◌∷◌, [], List, None};
ghost use Rattle.gno_judging.specs.Noting.{is_before, noted};
ghost use Rattle.gno_typing.specs.declared.fault.Fault.{Fault};

use gno_scan::Pos;
use gno_typing::Fault;
use std::marker::Model;

/// Of the faults that were noted, the one at the least place; of those at one place the first. Contracts see that fault.
#[derive(Debug, Drop)]
pub struct Faults {
    least: Option<Fault>,
}

impl Model for Faults {
    ghost use Rattle.std.specs.Prelude.{Option};
    ghost use Rattle.gno_typing.specs.declared.fault.Fault.{Fault};
    ghost use Rattle.gno_typing.specs.contracts.fault.Fault as f;
    ghost use Rattle.std.specs.Coded.{codes};

    ghost Value = { Option Fault };

    ghost view = { λ it. it.least };
}

impl Faults {
    /// No fault.
    pub fn new() -> Faults
        ensures { result ≡ None }
    {
        Faults { least: None }
    }

    /// Notes that the premise of a code does not hold at a place.
    pub fn note(&mut self, code: u8, pos: Pos)
        ensures { self.new ≡ noted self.old (record { code = code; pos = pos } ∷ []) }
    {
        let fault = Fault { code, pos };
        self.least = match self.least {
            Some(least) if !is_before(pos, least.pos) => Some(least),
            _ => Some(fault),
        };
    }

    /// Notes the faults of another judgement, behind those that were noted here.
    pub fn note_all(&mut self, others: Faults)
        ensures { (fs : List Fault) → others ≡ noted None fs → self.new ≡ noted self.old fs }
    {
        if let Some(fault) = others.least {
            self.note(fault.code, fault.pos);
        }
    }

    /// The fault at the least place, where one was noted.
    pub fn least(&self) -> Option<Fault>
        ensures { result ≡ self.now }
    {
        self.least
    }
}

// Whether a place stands before another one.
fn is_before(a: Pos, b: Pos) -> bool
    ensures { result ≡ is_before a b }
{
    if a.file != b.file {
        return a.file < b.file;
    }
    if a.line != b.line {
        return a.line < b.line;
    }
    a.column < b.column
}
