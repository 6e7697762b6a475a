// The scan of a text.
ghost use Rattle.std.specs.Prelude.{List as list, Option, ◌≡◌, ◌≤◌, None, Err, IfSome, length};
ghost use Rattle.std.specs.Str.{IsUtf8, IsValidUpTo};
ghost use Rattle.gno_scan.specs.declared.token.ScanFault.TheVariants.{At};
ghost use Rattle.gno_scan.specs.Scan.{IsFirstFault, IsFound, IsFaultless, Scans, Stands};
ghost use Rattle.gno_scan.specs.Tokens.{Fault as FaultOf, Span, TokensOf};

#[cfg(test)]
mod tests;

use crate::scanner::{Fault, Scanner};
use crate::{Pos, ScanFault, Token};
use gno_base::List;
use std::alloc::Global;
use std::str::from_utf8;

/// A text has at most so many bytes.
const MOST_BYTES: usize = 1_048_576;

/// The tokens of a text, with their places in the file of that number. A semicolon is inserted at a line's end where Go does so; it
/// has no bytes. Where the text has faults, the first one is answered.
pub fn scan(alloc: Global, file: u64, text: &[u8]) -> Result<List<Token>, ScanFault>
    ensures { Scans file text.now result }
{
    if text.len() > MOST_BYTES {
        return Err(ScanFault::At {
            code: 7,
            pos: Pos::first_of(file),
        });
    }
    let mut scanner = Scanner::start(alloc, file, text);
    let Ok(found) = scanner.read_all() else {
        return Err(ScanFault::NoMemory);
    };
    match first_bad_byte(text) {
        Some(bad) => Err(first_fault(file, text, found, bad)),
        None => tokens_of(scanner, found),
    }
}

/// A text has one list of tokens, and at most one fault of its tokens. This states a law and does nothing.
pub fn one_list(text: &[u8])
    ensures { (spans other : list Span) (fault fault' : Option FaultOf) → TokensOf text.now spans fault → TokensOf text.now other fault' → (spans ≡ other) × (fault ≡ fault') }
{}

/// A text has one first fault, or none and tokens. This states a law and does nothing.
pub fn one_answer(text: &[u8])
    ensures fault { (fault other : FaultOf) → IsFirstFault text.now fault → IsFirstFault text.now other → fault ≡ other }
    ensures right { (spans : list Span) (fault : FaultOf) → IsFaultless text.now spans → IsFirstFault text.now fault → ⊥ }
{}

// The first fault of a text with a byte that is no UTF-8.
fn first_fault(file: u64, text: &[u8], found: Option<Fault>, bad: usize) -> ScanFault
    requires size { length text.now ≤ 1048576 }
    requires found { IsFound file text.now found }
    requires bad { IsValidUpTo text.now bad }
    ensures { Scans file text.now (Err result) }
{
    match found {
        Some(fault) if fault.at < bad => fault_at(fault),
        _ => ScanFault::At {
            code: 1,
            pos: Pos::first_of(file).behind(&text[..bad]),
        },
    }
}

// The tokens of a text without such a byte, or the fault of its tokens.
fn tokens_of(scanner: Scanner<'_>, found: Option<Fault>) -> Result<List<Token>, ScanFault>
    requires size { length scanner.text.now ≤ 1048576 }
    requires utf8 { IsUtf8 scanner.text.now }
    requires found { IsFound scanner.file scanner.text.now found }
    requires stands { found ≡ None → Stands scanner }
    requires over { found ≡ None → length scanner.text.now ≤ scanner.at }
    ensures { Scans scanner.entry.file scanner.entry.text.now result }
{
    match found {
        Some(fault) => Err(fault_at(fault)),
        None => match scanner.end() {
            Ok(tokens) => Ok(tokens),
            Err(_) => Err(ScanFault::NoMemory),
        },
    }
}

fn fault_at(fault: Fault) -> ScanFault
    ensures { result ≡ At fault.code fault.pos }
{
    ScanFault::At {
        code: fault.code,
        pos: fault.pos,
    }
}

// Where the first byte stands that is no UTF-8.
fn first_bad_byte(text: &[u8]) -> Option<usize>
    ensures bad { IfSome result (λ at. IsValidUpTo text.now at) }
    ensures none { result ≡ None → IsUtf8 text.now }
{
    match from_utf8(text) {
        Ok(_) => None,
        Err(error) => Some(error.valid_up_to()),
    }
}
