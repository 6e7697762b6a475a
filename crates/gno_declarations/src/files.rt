// Files.
ghost use Rattle.std.specs.Prelude.{◌≡◌, ◌∷◌, []};
ghost use Rattle.gno_grammar.specs.Phrases.{both};
ghost use Rattle.gno_grammar.specs.Readers.{begins};
ghost use Rattle.gno_reader.specs.Answers.{Gives};
ghost use Rattle.gno_reader.specs.Scope.{reads};
ghost use Rattle.gno_rules.specs.Declarations as spec;
ghost use Rattle.gno_rules.specs.Kinds.{code, numbers};
ghost use Rattle.gno_rules.specs.Parts.{a, up_to};
ghost use Rattle.gno_scan.specs.declared.kind.TokenKind.TheVariants as k;

use crate::declarations::{begins_declaration, declaration};
use crate::functions::function;
use crate::import::imports;
use gno_base::List;
use gno_reader::name::name;
use gno_reader::{Cursor, Failure, ListReader, Reader};
use gno_scan::{Token, TokenKind};
use gno_tree::{FileTree, Name, TopLevel};

/// A declaration or a function.
#[tactic(auto, unfolding(gno_reader::proofs::Shown::reading, gno_rules::specs::Declarations::top_level, gno_rules::specs::Declarations::declaration, gno_rules::specs::Declarations::const_declaration, gno_rules::specs::Declarations::type_declaration, gno_rules::specs::Declarations::var_declaration))]
fn top_level<R: ListReader>(reader: &R, tokens: &mut Cursor<'_>) -> Result<TopLevel, Failure>
    requires { R.nests reader.now }
    ensures { Gives (reads (R.scope reader.now) spec.top_level tokens.old) result tokens.new }
{
    if begins_declaration(tokens) {
        let declaration = declaration(reader, tokens)?;
        return Ok(TopLevel::Declaration(declaration));
    }
    let function = function(reader, tokens)?;
    Ok(TopLevel::Function(function))
}

/// A declaration or a function, and `;`.
#[tactic(auto, unfolding(gno_reader::proofs::Shown::reading))]
fn next_top_level<R: ListReader>(reader: &R, tokens: &mut Cursor<'_>) -> Result<TopLevel, Failure>
    requires { R.nests reader.now }
    ensures { Gives (reads (R.scope reader.now) (λ text. up_to (spec.top_level text) (a k.Semicolon)) tokens.old) result tokens.new }
{
    let top_level = top_level(reader, tokens)?;
    tokens.expect(TokenKind::Semicolon)?;
    Ok(top_level)
}

#[tactic(auto, unfolding(gno_reader::proofs::Shown::reading))]
fn begins_top_level(tokens: &Cursor<'_>) -> bool
    ensures { result ≡ begins code (numbers (k.Const ∷ k.Type ∷ k.Var ∷ k.Func ∷ [])) tokens.now }
{
    tokens.sees_any(&[
        TokenKind::Const,
        TokenKind::Type,
        TokenKind::Var,
        TokenKind::Func,
    ])
}

/// All declarations and functions of a file.
#[tactic(auto, unfolding(gno_reader::proofs::Shown::reading, gno_rules::specs::Declarations::top_levels, gno_rules::specs::Declarations::top_level, gno_rules::specs::Declarations::declaration, gno_rules::specs::Declarations::const_declaration, gno_rules::specs::Declarations::type_declaration, gno_rules::specs::Declarations::var_declaration, gno_rules::specs::Declarations::function))]
fn top_levels<R: ListReader>(reader: &R, tokens: &mut Cursor<'_>) -> Result<List<TopLevel>, Failure>
    requires { R.nests reader.now }
    ensures { Gives (reads (R.scope reader.now) spec.top_levels tokens.old) result tokens.new }
{
    let mut top_levels = List::new(reader.alloc());
    while begins_top_level(tokens) {
        top_levels.push(next_top_level(reader, tokens)?)?;
    }
    Ok(top_levels)
}

/// `package name ;`
#[tactic(auto, unfolding(gno_reader::proofs::Shown::reading, gno_rules::specs::Declarations::package_clause))]
fn package_clause<R: Reader>(reader: &R, tokens: &mut Cursor<'_>) -> Result<(Token, Name), Failure>
    ensures { Gives (reads (R.scope reader.now) spec.package_clause tokens.old) result tokens.new }
{
    let token = tokens.expect(TokenKind::Package)?;
    let name = name(reader, tokens)?;
    tokens.expect(TokenKind::Semicolon)?;
    Ok((token, name))
}

/// A file.
#[tactic(auto, unfolding(gno_reader::proofs::Shown::reading, gno_rules::specs::Declarations::file))]
pub fn file<R: ListReader>(reader: &R, tokens: &mut Cursor<'_>) -> Result<FileTree, Failure>
    requires { R.nests reader.now }
    ensures { Gives (reads (R.scope reader.now) spec.file tokens.old) result tokens.new }
{
    let (token, package_name) = package_clause(reader, tokens)?;
    let imports = imports(reader, tokens)?;
    let declarations = top_levels(reader, tokens)?;
    Ok(FileTree {
        pos: token.pos,
        package_name,
        imports,
        declarations,
    })
}
