// Lists of parameters.
ghost use Rattle.std.specs.Prelude.{◌≡◌, ◌&&◌, [], ◌∷◌};
ghost use Rattle.gno_grammar.specs.Phrases.{either};
ghost use Rattle.gno_grammar.specs.Readers.{begins, map};
ghost use Rattle.gno_reader.specs.Answers.{Gives};
ghost use Rattle.gno_reader.specs.Scope.{reads};
ghost use Rattle.gno_rules.specs.Kinds.{code};
ghost use Rattle.gno_rules.specs.Parts.{a, past, to, up_to};
ghost use Rattle.gno_rules.specs.Signatures as spec;
ghost use Rattle.gno_scan.specs.declared.kind.TokenKind.TheVariants as k;

use crate::entry::{first_entry, next_entry};
use gno_base::List;
use gno_reader::{Cursor, Failure, Reader};
use gno_rules::{ListState, ParameterList};
use gno_scan::{Pos, TokenKind};
use gno_tree::Parameter;

/// A list with its first entry.
#[tactic(auto, unfolding(gno_reader::proofs::Shown::reading))]
fn first_of_list<R: Reader>(
    reader: &R,
    tokens: &mut Cursor<'_>,
    variadics: bool,
) -> Result<ParameterList, Failure>
    requires { R.nests reader.now }
    ensures { Gives (reads (R.scope reader.now) (λ text. to (spec.with_entry spec.no_entry) (spec.first_entry text variadics)) tokens.old) result tokens.new }
{
    let entry = first_entry(reader, tokens, variadics)?;
    let list = ParameterList::new(reader.alloc());
    Ok(list.with_entry(reader.alloc(), entry)?)
}

/// Whether the list goes on.
#[tactic(auto, unfolding(gno_reader::proofs::Shown::reading))]
fn goes_on(list: &ParameterList, tokens: &Cursor<'_>) -> bool
    ensures { result ≡ (spec.goes_on list.now && begins code spec.COMMA tokens.now) }
{
    !matches!(list.state, ListState::Ended) && tokens.sees(TokenKind::Comma)
}

/// The list with the entry behind a comma.
#[tactic(auto, unfolding(gno_reader::proofs::Shown::reading))]
fn with_next<R: Reader>(
    reader: &R,
    tokens: &mut Cursor<'_>,
    variadics: bool,
    list: ParameterList,
) -> Result<ParameterList, Failure>
    requires { R.nests reader.now }
    ensures { Gives (map (spec.with_entry list) (reads (R.scope reader.now) (λ text. past (a k.Comma) (spec.next_entry text variadics list.state))) tokens.old) result tokens.new }
{
    tokens.expect(TokenKind::Comma)?;
    let entry = next_entry(reader, tokens, variadics, list.state)?;
    Ok(list.with_entry(reader.alloc(), entry)?)
}

/// One entry or more, with commas between them and perhaps one behind.
#[tactic(auto, unfolding(gno_reader::proofs::Shown::reading, gno_rules::specs::Signatures::parameter_list))]
fn parameter_list<R: Reader>(
    reader: &R,
    tokens: &mut Cursor<'_>,
    variadics: bool,
) -> Result<ParameterList, Failure>
    requires { R.nests reader.now }
    ensures { Gives (reads (R.scope reader.now) (λ text. spec.parameter_list text variadics) tokens.old) result tokens.new }
{
    let mut list = first_of_list(reader, tokens, variadics)?;
    while goes_on(&list, tokens) {
        list = with_next(reader, tokens, variadics, list)?;
    }
    Ok(list)
}

/// `parameters)`
#[tactic(auto, unfolding(gno_reader::proofs::Shown::reading))]
fn closed_parameters<R: Reader>(
    reader: &R,
    tokens: &mut Cursor<'_>,
    variadics: bool,
) -> Result<List<Parameter>, Failure>
    requires { R.nests reader.now }
    ensures { Gives (reads (R.scope reader.now) (λ text. either (to (λ _. []) (a k.RightParen)) (to spec.parameters_of (up_to (spec.parameter_list text variadics) (a k.RightParen)))) tokens.old) result tokens.new }
{
    if tokens.sees(TokenKind::RightParen) {
        tokens.expect(TokenKind::RightParen)?;
        return Ok(List::new(reader.alloc()));
    }
    let list = parameter_list(reader, tokens, variadics)?;
    tokens.expect(TokenKind::RightParen)?;
    Ok(list.into_parameters(reader.alloc())?)
}

/// `(parameters)`, with the place of its `(`; `...` stands among parameters alone.
#[tactic(auto, unfolding(gno_reader::proofs::Shown::reading, gno_rules::specs::Signatures::parameters))]
pub(crate) fn parameters<R: Reader>(
    reader: &R,
    tokens: &mut Cursor<'_>,
    variadics: bool,
) -> Result<(Pos, List<Parameter>), Failure>
    requires { R.nests reader.now }
    ensures { Gives (reads (R.scope reader.now) (λ text. spec.parameters text variadics) tokens.old) result tokens.new }
{
    let token = tokens.expect(TokenKind::LeftParen)?;
    let parameters = closed_parameters(reader, tokens, variadics)?;
    Ok((token.pos, parameters))
}
