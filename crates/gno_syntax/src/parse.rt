// The parser.
ghost use Rattle.std.specs.Prelude.{◌≡◌, ◌-◌, [], Ok, IfErr, IfOk, drop, length};
ghost use Rattle.gno_grammar.specs.Answers.{closed};
ghost use Rattle.gno_grammar.specs.Readers.{got};
ghost use Rattle.gno_reader.specs.Answers.{Gives};
ghost use Rattle.gno_reader.specs.Scope.{reads};
ghost use Rattle.gno_rules.specs.Declarations.{file as a_file};
ghost use Rattle.gno_rules.specs.Files.{IsOutcome};
ghost use Rattle.gno_rules.specs.Table.{grammar};
ghost use Rattle.gno_scan.specs.Scan.{Scans};
ghost use Rattle.gno_syntax.specs.Parsing as spec;
ghost use Rattle.gno_syntax.specs.Parsing.{IsFault};

use crate::SyntaxFault;
use crate::construct::construct;
use crate::fault::{begun, code_of, form_of};
use crate::level::Level;
use gno_base::List;
use gno_declarations::file;
use gno_grammar::Refusal;
use gno_reader::{Cursor, Failure};
use gno_scan::{Pos, Token};
use gno_tree::FileTree;
use std::alloc::Global;

/// So many constructs nest at most.
const MOST_NESTED: usize = 200;

/// The tree of a text's tokens, which are those that `scan` answers, in time linear in them; or their first fault: the first token
/// that continues no tree, the first form that is left out, or the first construct that nests deeper than 200, whichever stands
/// first. `file` is the number that the tokens' places have.
pub fn parse_file(
    alloc: Global,
    file: u64,
    text: &[u8],
    tokens: &List<Token>,
) -> Result<FileTree, SyntaxFault>
    requires { Scans file text.now (Ok tokens.now) }
    ensures tree { IfOk result (λ tree. IsOutcome text.now tokens.now (got tree [])) }
    ensures fault { IfErr result (IsFault file text.now tokens.now) }
{
    let mut cursor = Cursor::new(tokens.as_slice());
    match whole_file(alloc, text, &mut cursor) {
        Ok(tree) => Ok(tree),
        Err(Failure::NoMemory) => Err(SyntaxFault::NoMemory),
        Err(Failure::Refused(refusal)) => Err(SyntaxFault::At {
            code: code_of(refusal),
            pos: refused_at(file, text, tokens, refusal, cursor.len()),
            form: form_of(refusal),
        }),
    }
}

/// The file that all the tokens are.
fn whole_file(alloc: Global, text: &[u8], tokens: &mut Cursor<'_>) -> Result<FileTree, Failure>
    ensures { Gives (closed (grammar text.now) (reads (record { text = text.now; depth = MOST_NESTED }) a_file tokens.old)) result tokens.new }
{
    let reader = Level {
        alloc,
        text,
        depth: MOST_NESTED,
        construct,
    };
    let tree = file(&reader, tokens)?;
    tokens.end()?;
    Ok(tree)
}

/// Where a refusal is reported, where so many tokens are left from the refused one on.
fn refused_at(file: u64, text: &[u8], tokens: &List<Token>, refusal: Refusal, left: usize) -> Pos
    requires { Scans file text.now (Ok tokens.now) }
    ensures { result ≡ spec.place_of (spec.end_of file text.now) (drop (length tokens.now - left - spec.begun refusal) tokens.now) }
{
    let at = tokens
        .len()
        .saturating_sub(left)
        .saturating_sub(begun(refusal));
    match tokens.get(at) {
        Some(token) => token.pos,
        None => Pos::first_of(file).behind(text),
    }
}
