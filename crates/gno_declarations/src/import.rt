// Imports.
ghost use Rattle.std.specs.Prelude.{◌≡◌};
ghost use Rattle.gno_grammar.specs.Phrases.{optional};
ghost use Rattle.gno_reader.specs.Answers.{Gives};
ghost use Rattle.gno_reader.specs.Scope.{reads};
ghost use Rattle.gno_rules.specs.Declarations as spec;
ghost use Rattle.gno_rules.specs.Parts as part;
ghost use Rattle.gno_rules.specs.Parts.{a, closed_list as closed_by, up_to};
ghost use Rattle.gno_scan.specs.declared.kind.TokenKind.TheVariants as k;

use crate::declarations::one;
use gno_base::List;
use gno_grammar::{LeftOut, Refusal};
use gno_reader::list::closed_list;
use gno_reader::name::{literal_of, name};
use gno_reader::{Cursor, Failure, Reader};
use gno_scan::TokenKind;
use gno_tree::{Import, Name};

#[tactic(auto, unfolding(gno_reader::proofs::Shown::reading, gno_rules::specs::Parts::name))]
fn optional_name<R: Reader>(reader: &R, tokens: &mut Cursor<'_>) -> Result<Option<Name>, Failure>
    ensures { Gives (reads (R.scope reader.now) (λ text. optional (part.name text)) tokens.old) result tokens.new }
{
    if tokens.sees(TokenKind::Name) {
        return Ok(Some(name(reader, tokens)?));
    }
    Ok(None)
}

/// `"path"`, `name "path"`
#[tactic(auto, unfolding(gno_reader::proofs::Shown::reading, gno_rules::specs::Declarations::import_spec))]
fn import_spec<R: Reader>(reader: &R, tokens: &mut Cursor<'_>) -> Result<Import, Failure>
    ensures { Gives (reads (R.scope reader.now) spec.import_spec tokens.old) result tokens.new }
{
    if tokens.sees(TokenKind::Period) {
        return Err(Failure::Refused(Refusal::LeftOut {
            form: LeftOut::DotImport,
            begun: 0,
        }));
    }
    let name = optional_name(reader, tokens)?;
    let token = tokens.expect(TokenKind::String)?;
    let path = literal_of(reader, token)?;
    Ok(Import { name, path })
}

/// `specs )`, with semicolons between them.
fn import_group<R: Reader>(reader: &R, tokens: &mut Cursor<'_>) -> Result<List<Import>, Failure>
    ensures { Gives (reads (R.scope reader.now) (λ text. closed_by k.Semicolon k.RightParen (spec.import_spec text)) tokens.old) result tokens.new }
{
    let begin = [TokenKind::Period, TokenKind::Name, TokenKind::String];
    let item = |tokens: &mut Cursor<'_>| import_spec(reader, tokens);
    closed_list(
        reader.alloc(),
        tokens,
        TokenKind::Semicolon,
        TokenKind::RightParen,
        &begin,
        &item,
    )
}

/// One, or any number in parentheses.
#[tactic(auto, unfolding(gno_reader::proofs::Shown::reading))]
fn import_specs<R: Reader>(reader: &R, tokens: &mut Cursor<'_>) -> Result<List<Import>, Failure>
    ensures { Gives (reads (R.scope reader.now) (λ text. spec.one_or_group text (spec.import_spec text)) tokens.old) result tokens.new }
{
    if tokens.sees(TokenKind::LeftParen) {
        tokens.expect(TokenKind::LeftParen)?;
        return import_group(reader, tokens);
    }
    let import = import_spec(reader, tokens)?;
    Ok(one(reader.alloc(), import)?)
}

/// `import specs`
#[tactic(auto, unfolding(gno_reader::proofs::Shown::reading, gno_rules::specs::Declarations::import_declaration))]
fn import_declaration<R: Reader>(
    reader: &R,
    tokens: &mut Cursor<'_>,
) -> Result<List<Import>, Failure>
    ensures { Gives (reads (R.scope reader.now) spec.import_declaration tokens.old) result tokens.new }
{
    tokens.expect(TokenKind::Import)?;
    import_specs(reader, tokens)
}

/// `import specs ;`
#[tactic(auto, unfolding(gno_reader::proofs::Shown::reading))]
fn next_imports<R: Reader>(reader: &R, tokens: &mut Cursor<'_>) -> Result<List<Import>, Failure>
    ensures { Gives (reads (R.scope reader.now) (λ text. up_to (spec.import_declaration text) (a k.Semicolon)) tokens.old) result tokens.new }
{
    let imports = import_declaration(reader, tokens)?;
    tokens.expect(TokenKind::Semicolon)?;
    Ok(imports)
}

/// All imports of a file.
#[tactic(auto, unfolding(gno_reader::proofs::Shown::reading, gno_rules::specs::Declarations::imports, gno_rules::specs::Declarations::import_declaration))]
pub fn imports<R: Reader>(reader: &R, tokens: &mut Cursor<'_>) -> Result<List<Import>, Failure>
    ensures { Gives (reads (R.scope reader.now) spec.imports tokens.old) result tokens.new }
{
    let mut imports = List::new(reader.alloc());
    while tokens.sees(TokenKind::Import) {
        imports.append(next_imports(reader, tokens)?)?;
    }
    Ok(imports)
}
