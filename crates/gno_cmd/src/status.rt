// How a command ends.
ghost use Rattle.std.specs.Prelude.{◌≡◌};
ghost use Rattle.gno_cmd.specs.Statuses.{number_of};

use gno_base::{Bytes, LimitOf};

/// How a command ends. Each has the number of the exit status.
#[derive(Debug, Drop)]
pub enum Status {
    /// All items ended in results.
    Done,
    /// Some item was refused or spent.
    SomeFailed,
    /// The word of that number, from 1, cannot stand there.
    Usage(u64),
    /// The input failed.
    ReadFault,
    /// The output failed, or took nothing of a text.
    WriteFault,
    /// The keeper failed.
    StoreFault,
    /// The table is not of the first format; with the key at which that shows.
    Damaged(Bytes),
    NoMemory,
    /// The line of that number, from 1, is the first that no script has there.
    ScriptFault(u64),
    /// A limit was passed.
    Limit(LimitOf),
}

impl Status {
    /// The exit status.
    pub fn number(&self) -> u8
        ensures { result ≡ number_of self.now }
    {
        match self {
            Status::Done => 0,
            Status::SomeFailed => 1,
            Status::Usage(_) => 2,
            Status::ReadFault => 3,
            Status::WriteFault => 4,
            Status::StoreFault => 5,
            Status::Damaged(_) => 6,
            Status::NoMemory => 7,
            Status::ScriptFault(_) => 8,
            Status::Limit(_) => 10,
        }
    }
}
