// Functions and methods.
ghost use Rattle.std.specs.Prelude.{◌≡◌, None};
ghost use Rattle.gno_grammar.specs.Phrases.{both, either, optional, construct};
ghost use Rattle.gno_grammar.specs.Readers.{map};
ghost use Rattle.gno_reader.specs.Answers.{Gives};
ghost use Rattle.gno_reader.specs.Scope.{reads};
ghost use Rattle.gno_rules.specs.Declarations as spec;
ghost use Rattle.gno_rules.specs.Parts as part;
ghost use Rattle.gno_rules.specs.Parts.{to};
ghost use Rattle.gno_rules.specs.declared.rule.Rule.TheVariants as r;

use gno_grammar::{LeftOut, Refusal};
use gno_reader::name::{dotted, name};
use gno_reader::{Cursor, ExprReader, Failure, Reader, begins_type, construct};
use gno_rules::{SignatureRead, TypeRead, qualified};
use gno_scan::TokenKind;
use gno_tree::{Block, Function, Name, Receiver, TypeExpr};

// ---- receivers

/// What stands behind a name: `.name`, a type or nothing.
#[tactic(auto, unfolding(gno_reader::proofs::Shown::reading, gno_rules::specs::Parts::dotted, gno_rules::specs::Declarations::behind_receiver_name))]
fn behind_receiver_name<R: Reader>(
    reader: &R,
    tokens: &mut Cursor<'_>,
    first: Name,
) -> Result<Receiver, Failure>
    requires { R.nests reader.now }
    ensures { Gives (map (λ f. f first) (reads (R.scope reader.now) spec.behind_receiver_name) tokens.old) result tokens.new }
{
    if tokens.sees(TokenKind::Period) {
        let member = dotted(reader, tokens)?;
        let of = TypeExpr::Name(qualified(first, Some(member)));
        return Ok(Receiver { name: None, of });
    }
    if begins_type(tokens) {
        let TypeRead { of, .. } = construct::type_read(reader, tokens)?;
        let name = Some(first);
        return Ok(Receiver { name, of });
    }
    let of = TypeExpr::Name(qualified(first, None));
    Ok(Receiver { name: None, of })
}

/// `type`, `name type`
#[tactic(auto, unfolding(gno_reader::proofs::Shown::reading, gno_rules::specs::Parts::name))]
fn bare_receiver<R: Reader>(reader: &R, tokens: &mut Cursor<'_>) -> Result<Receiver, Failure>
    requires { R.nests reader.now }
    ensures { Gives (reads (R.scope reader.now) (λ text. either (both (λ n f. f n) (part.name text) (spec.behind_receiver_name text)) (to (λ of. spec.receiver_of None of.of) (construct r.OtherType))) tokens.old) result tokens.new }
{
    if tokens.sees(TokenKind::Name) {
        let first = name(reader, tokens)?;
        return behind_receiver_name(reader, tokens, first);
    }
    let TypeRead { of, .. } = construct::other_type(reader, tokens)?;
    Ok(Receiver { name: None, of })
}

/// `(type)`, `(name type)`
#[tactic(auto, unfolding(gno_reader::proofs::Shown::reading, gno_rules::specs::Declarations::receiver))]
fn receiver<R: Reader>(reader: &R, tokens: &mut Cursor<'_>) -> Result<Receiver, Failure>
    requires { R.nests reader.now }
    ensures { Gives (reads (R.scope reader.now) spec.receiver tokens.old) result tokens.new }
{
    tokens.expect(TokenKind::LeftParen)?;
    let receiver = bare_receiver(reader, tokens)?;
    tokens.expect(TokenKind::RightParen)?;
    Ok(receiver)
}

#[tactic(auto, unfolding(gno_reader::proofs::Shown::reading, gno_rules::specs::Declarations::receiver))]
fn optional_receiver<R: Reader>(
    reader: &R,
    tokens: &mut Cursor<'_>,
) -> Result<Option<Receiver>, Failure>
    requires { R.nests reader.now }
    ensures { Gives (reads (R.scope reader.now) (λ text. optional (spec.receiver text)) tokens.old) result tokens.new }
{
    if tokens.sees(TokenKind::LeftParen) {
        return Ok(Some(receiver(reader, tokens)?));
    }
    Ok(None)
}

// ---- functions

#[tactic(auto, unfolding(gno_reader::proofs::Shown::reading))]
fn optional_block<R: Reader>(reader: &R, tokens: &mut Cursor<'_>) -> Result<Option<Block>, Failure>
    requires { R.nests reader.now }
    ensures { Gives (reads (R.scope reader.now) (λ text. optional (construct r.Block)) tokens.old) result tokens.new }
{
    if tokens.sees(TokenKind::LeftBrace) {
        return Ok(Some(construct::block(reader, tokens)?));
    }
    Ok(None)
}

/// `(parameters) results body`
#[tactic(auto, unfolding(gno_reader::proofs::Shown::reading, gno_rules::specs::Declarations::function_rest))]
fn function_rest<R: ExprReader>(
    reader: &R,
    tokens: &mut Cursor<'_>,
) -> Result<(SignatureRead, Option<Block>), Failure>
    requires { R.nests reader.now }
    ensures { Gives (reads (R.scope reader.now) spec.function_rest tokens.old) result tokens.new }
{
    if tokens.sees(TokenKind::LeftBracket) {
        return Err(Failure::Refused(Refusal::LeftOut {
            form: LeftOut::Generics,
            begun: 0,
        }));
    }
    let signature = reader.signature(tokens)?;
    let body = optional_block(reader, tokens)?;
    Ok((signature, body))
}

/// `name(parameters) results body`
#[tactic(auto, unfolding(gno_reader::proofs::Shown::reading, gno_rules::specs::Declarations::function_named))]
fn function_named<R: ExprReader>(
    reader: &R,
    tokens: &mut Cursor<'_>,
) -> Result<(Name, (SignatureRead, Option<Block>)), Failure>
    requires { R.nests reader.now }
    ensures { Gives (reads (R.scope reader.now) spec.function_named tokens.old) result tokens.new }
{
    let name = name(reader, tokens)?;
    let rest = function_rest(reader, tokens)?;
    Ok((name, rest))
}

/// `func (receiver) name(parameters) results body`
#[tactic(auto, unfolding(gno_reader::proofs::Shown::reading, gno_rules::specs::Declarations::function))]
pub fn function<R: ExprReader>(reader: &R, tokens: &mut Cursor<'_>) -> Result<Function, Failure>
    requires { R.nests reader.now }
    ensures { Gives (reads (R.scope reader.now) spec.function tokens.old) result tokens.new }
{
    let token = tokens.expect(TokenKind::Func)?;
    let receiver = optional_receiver(reader, tokens)?;
    let (name, (read, body)) = function_named(reader, tokens)?;
    let SignatureRead { signature, .. } = read;
    Ok(Function {
        pos: token.pos,
        receiver,
        name,
        signature,
        body,
    })
}
