// Structs.
ghost use Rattle.std.specs.Prelude.{◌≡◌};
ghost use Rattle.gno_grammar.specs.Phrases.{both, construct};
ghost use Rattle.gno_grammar.specs.Readers.{map};
ghost use Rattle.gno_reader.specs.Answers.{Gives};
ghost use Rattle.gno_reader.specs.Scope.{reads};
ghost use Rattle.gno_rules.specs.Parts.{closed_list as closed_by};
ghost use Rattle.gno_rules.specs.Signatures as part;
ghost use Rattle.gno_rules.specs.Types as spec;
ghost use Rattle.gno_rules.specs.declared.rule.Rule.TheVariants as r;
ghost use Rattle.gno_scan.specs.declared.kind.TokenKind.TheVariants as k;
ghost use Rattle.gno_tree.specs.declared.type_expr.Field.{Field as FieldTree};
ghost use Rattle.gno_tree.specs.declared.word.Name.{Name as NameTree};

use crate::left_out::left_out;
use gno_base::List;
use gno_grammar::LeftOut;
use gno_reader::list::closed_list;
use gno_reader::name::{dotted, further_names, name, one_name};
use gno_reader::type_name::type_name;
use gno_reader::{Cursor, Failure, Reader, construct};
use gno_rules::{TypeEnd, TypeRead, qualified};
use gno_scan::TokenKind;
use gno_tree::{Field, Name, TypeExpr};

/// Fields of one type, behind the first name.
#[tactic(auto, unfolding(gno_reader::proofs::Shown::reading))]
fn named_fields<R: Reader>(
    reader: &R,
    tokens: &mut Cursor<'_>,
    name: Name,
) -> Result<Field, Failure>
    requires { R.nests reader.now }
    ensures { Gives (map (λ (f : NameTree → FieldTree). f name) (reads (R.scope reader.now) (λ text. both (λ ns of n. spec.named_fields n ns of) (part.further_names text) (construct r.Type))) tokens.old) result tokens.new }
{
    let mut names = one_name(reader.alloc(), name)?;
    names.append(further_names(reader, tokens)?)?;
    let TypeRead { of, .. } = construct::type_read(reader, tokens)?;
    Ok(Field::Named { names, of })
}

/// What stands behind a name: `.name`, further names and a type, or nothing.
#[tactic(auto, unfolding(gno_reader::proofs::Shown::reading, gno_rules::specs::Parts::dotted, gno_rules::specs::Signatures::further_names, gno_rules::specs::Types::behind_field_name))]
fn behind_field_name<R: Reader>(
    reader: &R,
    tokens: &mut Cursor<'_>,
    name: Name,
) -> Result<Field, Failure>
    requires { R.nests reader.now }
    ensures { Gives (map (λ f. f name) (reads (R.scope reader.now) spec.behind_field_name) tokens.old) result tokens.new }
{
    if tokens.sees(TokenKind::Period) {
        let member = dotted(reader, tokens)?;
        let of = qualified(name, Some(member));
        return Ok(Field::Embedded { star: None, of });
    }
    if tokens.sees_any(&[
        TokenKind::Comma,
        TokenKind::Name,
        TokenKind::LeftParen,
        TokenKind::Star,
        TokenKind::LeftBracket,
        TokenKind::Map,
        TokenKind::Func,
        TokenKind::Struct,
        TokenKind::Interface,
    ]) {
        return named_fields(reader, tokens, name);
    }
    let of = qualified(name, None);
    Ok(Field::Embedded { star: None, of })
}

/// A field without a tag.
#[tactic(auto, unfolding(gno_reader::proofs::Shown::reading, gno_rules::specs::Parts::name, gno_rules::specs::Types::untagged_field))]
fn untagged_field<R: Reader>(reader: &R, tokens: &mut Cursor<'_>) -> Result<Field, Failure>
    requires { R.nests reader.now }
    ensures { Gives (reads (R.scope reader.now) spec.untagged_field tokens.old) result tokens.new }
{
    if tokens.sees(TokenKind::Name) {
        let name = name(reader, tokens)?;
        return behind_field_name(reader, tokens, name);
    }
    let token = tokens.expect(TokenKind::Star)?;
    let of = type_name(reader, tokens)?;
    let star = Some(token.pos);
    Ok(Field::Embedded { star, of })
}

/// `names type`, or a type by its name, with `*` before it or not.
#[tactic(auto, unfolding(gno_reader::proofs::Shown::reading, gno_rules::specs::Types::field))]
fn field<R: Reader>(reader: &R, tokens: &mut Cursor<'_>) -> Result<Field, Failure>
    requires { R.nests reader.now }
    ensures { Gives (reads (R.scope reader.now) spec.field tokens.old) result tokens.new }
{
    let field = untagged_field(reader, tokens)?;
    if tokens.sees(TokenKind::String) {
        return Err(left_out(LeftOut::StructTag, 0));
    }
    Ok(field)
}

/// `fields }`, with semicolons between them.
fn fields<R: Reader>(reader: &R, tokens: &mut Cursor<'_>) -> Result<List<Field>, Failure>
    requires { R.nests reader.now }
    ensures { Gives (reads (R.scope reader.now) (λ text. closed_by k.Semicolon k.RightBrace (spec.field text)) tokens.old) result tokens.new }
{
    let begin = [TokenKind::Name, TokenKind::Star];
    let item = |tokens: &mut Cursor<'_>| field(reader, tokens);
    closed_list(
        reader.alloc(),
        tokens,
        TokenKind::Semicolon,
        TokenKind::RightBrace,
        &begin,
        &item,
    )
}

/// `struct { fields }`
#[tactic(auto, unfolding(gno_reader::proofs::Shown::reading, crate::proofs::Shown::structure))]
pub fn structure<R: Reader>(reader: &R, tokens: &mut Cursor<'_>) -> Result<TypeRead, Failure>
    requires { R.nests reader.now }
    ensures { Gives (reads (R.scope reader.now) spec.struct tokens.old) result tokens.new }
{
    let token = tokens.expect(TokenKind::Struct)?;
    tokens.expect(TokenKind::LeftBrace)?;
    let fields = fields(reader, tokens)?;
    Ok(TypeRead {
        of: TypeExpr::Struct {
            pos: token.pos,
            fields,
        },
        end: TypeEnd::Closed,
    })
}
