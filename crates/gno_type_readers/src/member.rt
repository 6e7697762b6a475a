// Interfaces.
ghost use Rattle.std.specs.Prelude.{◌≡◌};
ghost use Rattle.gno_grammar.specs.Readers.{map};
ghost use Rattle.gno_reader.specs.Answers.{Gives};
ghost use Rattle.gno_reader.specs.Scope.{reads};
ghost use Rattle.gno_rules.specs.Parts.{closed_list as closed_by};
ghost use Rattle.gno_rules.specs.Types as spec;
ghost use Rattle.gno_scan.specs.declared.kind.TokenKind.TheVariants as k;

use crate::left_out::left_out;
use gno_base::List;
use gno_grammar::LeftOut;
use gno_reader::list::closed_list;
use gno_reader::name::{dotted, name};
use gno_reader::{Cursor, ExprReader, Failure};
use gno_rules::{SignatureRead, TypeEnd, TypeRead, qualified};
use gno_scan::TokenKind;
use gno_tree::{Member, Name, TypeExpr};

/// What stands behind a name: a signature, `.name` or nothing.
#[tactic(auto, unfolding(gno_reader::proofs::Shown::reading, gno_rules::specs::Parts::dotted, gno_rules::specs::Signatures::signature, gno_rules::specs::Signatures::parameters, gno_rules::specs::Types::behind_member_name, gno_rules::specs::Types::no_union))]
fn behind_member_name<R: ExprReader>(
    reader: &R,
    tokens: &mut Cursor<'_>,
    name: Name,
) -> Result<Member, Failure>
    requires { R.nests reader.now }
    ensures { Gives (map (λ f. f name) (reads (R.scope reader.now) spec.behind_member_name) tokens.old) result tokens.new }
{
    if tokens.sees(TokenKind::LeftParen) {
        let SignatureRead { signature, .. } = reader.signature(tokens)?;
        return Ok(Member::Method { name, signature });
    }
    if tokens.sees(TokenKind::Period) {
        let member = dotted(reader, tokens)?;
        if tokens.sees(TokenKind::Or) {
            return Err(left_out(LeftOut::TypeUnion, 0));
        }
        return Ok(Member::Embedded(qualified(name, Some(member))));
    }
    if tokens.sees(TokenKind::Or) {
        return Err(left_out(LeftOut::TypeUnion, 0));
    }
    Ok(Member::Embedded(qualified(name, None)))
}

/// `name(parameters) results`, or an interface by its name.
#[tactic(auto, unfolding(gno_reader::proofs::Shown::reading, gno_rules::specs::Types::member))]
fn member<R: ExprReader>(reader: &R, tokens: &mut Cursor<'_>) -> Result<Member, Failure>
    requires { R.nests reader.now }
    ensures { Gives (reads (R.scope reader.now) spec.member tokens.old) result tokens.new }
{
    if tokens.sees(TokenKind::Tilde) {
        return Err(left_out(LeftOut::TypeUnion, 0));
    }
    let name = name(reader, tokens)?;
    behind_member_name(reader, tokens, name)
}

/// `members }`, with semicolons between them.
fn members<R: ExprReader>(reader: &R, tokens: &mut Cursor<'_>) -> Result<List<Member>, Failure>
    requires { R.nests reader.now }
    ensures { Gives (reads (R.scope reader.now) (λ text. closed_by k.Semicolon k.RightBrace (spec.member text)) tokens.old) result tokens.new }
{
    let begin = [TokenKind::Tilde, TokenKind::Name];
    let item = |tokens: &mut Cursor<'_>| member(reader, tokens);
    closed_list(
        reader.alloc(),
        tokens,
        TokenKind::Semicolon,
        TokenKind::RightBrace,
        &begin,
        &item,
    )
}

/// `interface { members }`
#[tactic(auto, unfolding(gno_reader::proofs::Shown::reading, gno_rules::specs::Types::interface))]
pub fn interface<R: ExprReader>(reader: &R, tokens: &mut Cursor<'_>) -> Result<TypeRead, Failure>
    requires { R.nests reader.now }
    ensures { Gives (reads (R.scope reader.now) spec.interface tokens.old) result tokens.new }
{
    let token = tokens.expect(TokenKind::Interface)?;
    tokens.expect(TokenKind::LeftBrace)?;
    let members = members(reader, tokens)?;
    Ok(TypeRead {
        of: TypeExpr::Interface {
            pos: token.pos,
            members,
        },
        end: TypeEnd::Closed,
    })
}
