// What a source text is read as.
ghost use Rattle.std.specs.Prelude.{◌≡◌, IfOk};
ghost use Rattle.gno_reading.specs.Readings.{IsLawfulReading, IsReading};
ghost use Rattle.gno_reading.specs.declared.reading.Reading.{Reading as ReadingOf};

use gno_first::{FirstFault, FirstFile, first_form};
use gno_grammar::LeftOut;
use gno_scan::{Pos, ScanFault, scan};
use gno_syntax::{SyntaxFault, parse_file};
use std::alloc::Global;

/// There is no memory.
#[derive(Clone, Copy, Debug, PartialEq, Eq)]
pub struct NoMemory;

/// What a source text is read as.
#[derive(Drop)]
pub enum Reading {
    /// Its first fault: the refusal code, 1 to 7 of its tokens and 20 to 22 of its tree, the place, and the form that is left out.
    Faulty {
        code: u8,
        pos: Pos,
        form: Option<LeftOut>,
    },
    /// A file that is not in the first form.
    NotFirst,
    /// A file in the first form.
    First(FirstFile),
}

// Places are in one file, so they name none.
const FILE: u64 = 0;

/// Reads a text. Its places are those of the file 0.
#[tactic(auto, unfolding(crate::specs::Readings::IsReading))]
pub fn read_text(alloc: Global, text: &[u8]) -> Result<Reading, NoMemory>
    ensures reading { IfOk result (IsReading text.now) }
    ensures lawful { IfOk result IsLawfulReading }
{
    let tokens = match scan(alloc, FILE, text) {
        Ok(tokens) => tokens,
        Err(ScanFault::At { code, pos }) => {
            return Ok(Reading::Faulty {
                code,
                pos,
                form: None,
            });
        }
        Err(ScanFault::NoMemory) => return Err(NoMemory),
    };
    let tree = match parse_file(alloc, FILE, text, &tokens) {
        Ok(tree) => tree,
        Err(SyntaxFault::At { code, pos, form }) => {
            return Ok(Reading::Faulty { code, pos, form });
        }
        Err(SyntaxFault::NoMemory) => return Err(NoMemory),
    };
    match first_form(alloc, &tree) {
        Ok(file) => Ok(Reading::First(file)),
        Err(FirstFault::NotFirst) => Ok(Reading::NotFirst),
        Err(FirstFault::NoMemory) => Err(NoMemory),
    }
}

/// A text is read as one thing at most. This states a law and does nothing.
pub fn one_reading(text: &[u8])
    ensures { (reading other : ReadingOf) → IsReading text.now reading → IsReading text.now other → reading ≡ other }
{}
