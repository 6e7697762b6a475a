// What is wrong with a program.
use gno_scan::Pos;

/// A premise that does not hold: its code, and the place of the node that wants it.
#[derive(Clone, Copy, Debug, PartialEq, Eq)]
pub struct Fault {
    pub code: u8,
    pub pos: Pos,
}
