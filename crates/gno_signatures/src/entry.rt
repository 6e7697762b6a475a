// The entries of a list of parameters.
ghost use Rattle.std.specs.Prelude.{◌≡◌, [], ◌∷◌, true, false};
ghost use Rattle.gno_grammar.specs.Phrases.{nothing, either, construct};
ghost use Rattle.gno_grammar.specs.Readers.{map};
ghost use Rattle.gno_reader.specs.Answers.{Gives};
ghost use Rattle.gno_reader.specs.Scope.{reads};
ghost use Rattle.gno_rules.specs.Parts.{to};
ghost use Rattle.gno_rules.specs.Signatures as spec;
ghost use Rattle.gno_rules.specs.declared.parameters.Entry.TheVariants as e;
ghost use Rattle.gno_rules.specs.declared.parameters.ListState.TheVariants as s;
ghost use Rattle.gno_rules.specs.declared.rule.Rule.TheVariants as r;

use gno_base::List;
use gno_reader::name::{dotted, further_names, name, one_name};
use gno_reader::{Cursor, Failure, Reader, begins_other_type, begins_type, construct};
use gno_rules::{Entry, ListState, TypeRead, qualified};
use gno_scan::TokenKind;
use gno_tree::{Name, TypeExpr};

// ---- the types of entries

/// `...type`
#[tactic(auto, unfolding(gno_reader::proofs::Shown::reading, gno_rules::specs::Signatures::variadic))]
fn variadic<R: Reader>(reader: &R, tokens: &mut Cursor<'_>) -> Result<TypeExpr, Failure>
    requires { R.nests reader.now }
    ensures { Gives (reads (R.scope reader.now) spec.variadic tokens.old) result tokens.new }
{
    tokens.expect(TokenKind::Ellipsis)?;
    let TypeRead { of, .. } = construct::type_read(reader, tokens)?;
    Ok(of)
}

/// `...type`, as an entry
#[tactic(auto, unfolding(gno_reader::proofs::Shown::reading, gno_rules::specs::Signatures::variadic_entry))]
fn variadic_entry<R: Reader>(reader: &R, tokens: &mut Cursor<'_>) -> Result<Entry, Failure>
    requires { R.nests reader.now }
    ensures { Gives (reads (R.scope reader.now) spec.variadic_entry tokens.old) result tokens.new }
{
    let of = variadic(reader, tokens)?;
    Ok(Entry::Variadic { name: None, of })
}

/// A type that does not begin with a name, as an entry.
#[tactic(auto, unfolding(gno_reader::proofs::Shown::reading, gno_rules::specs::Signatures::type_entry))]
fn type_entry<R: Reader>(reader: &R, tokens: &mut Cursor<'_>) -> Result<Entry, Failure>
    requires { R.nests reader.now }
    ensures { Gives (reads (R.scope reader.now) spec.type_entry tokens.old) result tokens.new }
{
    let TypeRead { of, .. } = construct::other_type(reader, tokens)?;
    Ok(Entry::Type(of))
}

// ---- behind a name

/// What stands behind a name where names alone stood before it: `.name`, a type or nothing.
#[tactic(auto, unfolding(gno_reader::proofs::Shown::reading, gno_rules::specs::Parts::dotted, gno_rules::specs::Signatures::behind_name))]
fn behind_name<R: Reader>(reader: &R, tokens: &mut Cursor<'_>, name: Name) -> Result<Entry, Failure>
    requires { R.nests reader.now }
    ensures { Gives (map (λ f. f name) (reads (R.scope reader.now) spec.behind_name) tokens.old) result tokens.new }
{
    if tokens.sees(TokenKind::Period) {
        let member = dotted(reader, tokens)?;
        return Ok(Entry::Type(TypeExpr::Name(qualified(name, Some(member)))));
    }
    if begins_type(tokens) {
        let names = one_name(reader.alloc(), name)?;
        let TypeRead { of, .. } = construct::type_read(reader, tokens)?;
        return Ok(Entry::Named { names, of });
    }
    Ok(Entry::Name(name))
}

/// What stands behind the first name: the same, or `...type`.
#[tactic(auto, unfolding(gno_reader::proofs::Shown::reading, gno_rules::specs::Signatures::behind_first, gno_rules::specs::Signatures::variadic))]
fn behind_first<R: Reader>(
    reader: &R,
    tokens: &mut Cursor<'_>,
    name: Name,
) -> Result<Entry, Failure>
    requires { R.nests reader.now }
    ensures { Gives (map (λ f. f name) (reads (R.scope reader.now) spec.behind_first) tokens.old) result tokens.new }
{
    if tokens.sees(TokenKind::Ellipsis) {
        let of = variadic(reader, tokens)?;
        let name = Some(name);
        return Ok(Entry::Variadic { name, of });
    }
    behind_name(reader, tokens, name)
}

// ---- the first entry

/// An entry that begins with a name behind which nothing, a type or `.name` stands.
#[tactic(auto, unfolding(gno_reader::proofs::Shown::reading))]
fn named_entry<R: Reader>(reader: &R, tokens: &mut Cursor<'_>) -> Result<Entry, Failure>
    requires { R.nests reader.now }
    ensures { Gives (reads (R.scope reader.now) (λ text. spec.named_entry text (spec.behind_name text)) tokens.old) result tokens.new }
{
    let name = name(reader, tokens)?;
    behind_name(reader, tokens, name)
}

#[tactic(auto, unfolding(gno_reader::proofs::Shown::reading))]
fn first_named_entry<R: Reader>(reader: &R, tokens: &mut Cursor<'_>) -> Result<Entry, Failure>
    requires { R.nests reader.now }
    ensures { Gives (reads (R.scope reader.now) (λ text. spec.named_entry text (spec.behind_first text)) tokens.old) result tokens.new }
{
    let name = name(reader, tokens)?;
    behind_first(reader, tokens, name)
}

#[tactic(auto, unfolding(gno_reader::proofs::Shown::reading, gno_rules::specs::Parts::name, gno_rules::specs::Signatures::first_entry, gno_rules::specs::Signatures::variadic_entry, gno_rules::specs::Signatures::variadic))]
fn first_parameter<R: Reader>(reader: &R, tokens: &mut Cursor<'_>) -> Result<Entry, Failure>
    requires { R.nests reader.now }
    ensures { Gives (reads (R.scope reader.now) (λ text. spec.first_entry text true) tokens.old) result tokens.new }
{
    if tokens.sees(TokenKind::Name) {
        return first_named_entry(reader, tokens);
    }
    if tokens.sees(TokenKind::Ellipsis) {
        return variadic_entry(reader, tokens);
    }
    type_entry(reader, tokens)
}

#[tactic(auto, unfolding(gno_reader::proofs::Shown::reading, gno_rules::specs::Parts::name, gno_rules::specs::Signatures::first_entry))]
fn first_result<R: Reader>(reader: &R, tokens: &mut Cursor<'_>) -> Result<Entry, Failure>
    requires { R.nests reader.now }
    ensures { Gives (reads (R.scope reader.now) (λ text. spec.first_entry text false) tokens.old) result tokens.new }
{
    if tokens.sees(TokenKind::Name) {
        return named_entry(reader, tokens);
    }
    type_entry(reader, tokens)
}

/// The first entry; `...` stands among parameters alone.
pub(crate) fn first_entry<R: Reader>(
    reader: &R,
    tokens: &mut Cursor<'_>,
    variadics: bool,
) -> Result<Entry, Failure>
    requires { R.nests reader.now }
    ensures { Gives (reads (R.scope reader.now) (λ text. spec.first_entry text variadics) tokens.old) result tokens.new }
{
    match variadics {
        true => first_parameter(reader, tokens),
        false => first_result(reader, tokens),
    }
}

// ---- named entries

/// `, names type`, behind a name
#[tactic(auto, unfolding(gno_reader::proofs::Shown::reading, gno_rules::specs::Signatures::group_rest))]
fn group_rest<R: Reader>(reader: &R, tokens: &mut Cursor<'_>, name: Name) -> Result<Entry, Failure>
    requires { R.nests reader.now }
    ensures { Gives (map (λ f. f name) (reads (R.scope reader.now) spec.group_rest) tokens.old) result tokens.new }
{
    let mut names = one_name(reader.alloc(), name)?;
    names.append(further_names(reader, tokens)?)?;
    let TypeRead { of, .. } = construct::type_read(reader, tokens)?;
    Ok(Entry::Named { names, of })
}

/// The same, or `...type`.
#[tactic(auto, unfolding(gno_reader::proofs::Shown::reading, gno_rules::specs::Signatures::variadic))]
fn variadic_or_group_rest<R: Reader>(
    reader: &R,
    tokens: &mut Cursor<'_>,
    name: Name,
) -> Result<Entry, Failure>
    requires { R.nests reader.now }
    ensures { Gives (map (λ f. f name) (reads (R.scope reader.now) (λ text. either (to (λ t n. e.Variadic (Some n) t) (spec.variadic text)) (spec.group_rest text))) tokens.old) result tokens.new }
{
    if tokens.sees(TokenKind::Ellipsis) {
        let of = variadic(reader, tokens)?;
        let name = Some(name);
        return Ok(Entry::Variadic { name, of });
    }
    group_rest(reader, tokens, name)
}

#[tactic(auto, unfolding(gno_reader::proofs::Shown::reading, gno_rules::specs::Signatures::group))]
fn group_of_parameters<R: Reader>(reader: &R, tokens: &mut Cursor<'_>) -> Result<Entry, Failure>
    requires { R.nests reader.now }
    ensures { Gives (reads (R.scope reader.now) (λ text. spec.group text true) tokens.old) result tokens.new }
{
    let name = name(reader, tokens)?;
    variadic_or_group_rest(reader, tokens, name)
}

#[tactic(auto, unfolding(gno_reader::proofs::Shown::reading, gno_rules::specs::Signatures::group))]
fn group_of_results<R: Reader>(reader: &R, tokens: &mut Cursor<'_>) -> Result<Entry, Failure>
    requires { R.nests reader.now }
    ensures { Gives (reads (R.scope reader.now) (λ text. spec.group text false) tokens.old) result tokens.new }
{
    let name = name(reader, tokens)?;
    group_rest(reader, tokens, name)
}

// ---- the entry behind a comma

/// A type that does not begin with a name, or nothing.
#[tactic(auto, unfolding(gno_reader::proofs::Shown::reading, gno_rules::specs::Signatures::type_entry))]
fn type_or_nothing<R: Reader>(reader: &R, tokens: &mut Cursor<'_>) -> Result<Entry, Failure>
    requires { R.nests reader.now }
    ensures { Gives (reads (R.scope reader.now) (λ text. either (spec.type_entry text) (nothing e.Nothing)) tokens.old) result tokens.new }
{
    if begins_other_type(tokens) {
        return type_entry(reader, tokens);
    }
    Ok(Entry::Nothing)
}

/// Any type, or nothing.
#[tactic(auto, unfolding(gno_reader::proofs::Shown::reading))]
fn any_type_or_nothing<R: Reader>(reader: &R, tokens: &mut Cursor<'_>) -> Result<Entry, Failure>
    requires { R.nests reader.now }
    ensures { Gives (reads (R.scope reader.now) (λ text. either (to (λ x. e.Type x.of) (construct r.Type)) (nothing e.Nothing)) tokens.old) result tokens.new }
{
    if begins_type(tokens) {
        let TypeRead { of, .. } = construct::type_read(reader, tokens)?;
        return Ok(Entry::Type(of));
    }
    Ok(Entry::Nothing)
}

#[tactic(auto, unfolding(gno_reader::proofs::Shown::reading, gno_rules::specs::Parts::name, gno_rules::specs::Signatures::next_entry, gno_rules::specs::Signatures::variadic_entry, gno_rules::specs::Signatures::variadic))]
fn parameter_behind_names<R: Reader>(reader: &R, tokens: &mut Cursor<'_>) -> Result<Entry, Failure>
    requires { R.nests reader.now }
    ensures { Gives (reads (R.scope reader.now) (λ text. spec.next_entry text true s.Names) tokens.old) result tokens.new }
{
    if tokens.sees(TokenKind::Name) {
        return named_entry(reader, tokens);
    }
    if tokens.sees(TokenKind::Ellipsis) {
        return variadic_entry(reader, tokens);
    }
    type_or_nothing(reader, tokens)
}

#[tactic(auto, unfolding(gno_reader::proofs::Shown::reading, gno_rules::specs::Parts::name, gno_rules::specs::Signatures::next_entry))]
fn result_behind_names<R: Reader>(reader: &R, tokens: &mut Cursor<'_>) -> Result<Entry, Failure>
    requires { R.nests reader.now }
    ensures { Gives (reads (R.scope reader.now) (λ text. spec.next_entry text false s.Names) tokens.old) result tokens.new }
{
    if tokens.sees(TokenKind::Name) {
        return named_entry(reader, tokens);
    }
    type_or_nothing(reader, tokens)
}

#[tactic(auto, unfolding(gno_reader::proofs::Shown::reading, gno_rules::specs::Signatures::next_entry, gno_rules::specs::Signatures::variadic_entry, gno_rules::specs::Signatures::variadic))]
fn parameter_behind_types<R: Reader>(reader: &R, tokens: &mut Cursor<'_>) -> Result<Entry, Failure>
    requires { R.nests reader.now }
    ensures { Gives (reads (R.scope reader.now) (λ text. spec.next_entry text true s.Types) tokens.old) result tokens.new }
{
    if tokens.sees(TokenKind::Ellipsis) {
        return variadic_entry(reader, tokens);
    }
    any_type_or_nothing(reader, tokens)
}

#[tactic(auto, unfolding(gno_reader::proofs::Shown::reading, gno_rules::specs::Parts::name, gno_rules::specs::Signatures::next_entry, gno_rules::specs::Signatures::group))]
fn parameter_behind_named<R: Reader>(reader: &R, tokens: &mut Cursor<'_>) -> Result<Entry, Failure>
    requires { R.nests reader.now }
    ensures { Gives (reads (R.scope reader.now) (λ text. spec.next_entry text true s.Named) tokens.old) result tokens.new }
{
    if tokens.sees(TokenKind::Name) {
        return group_of_parameters(reader, tokens);
    }
    Ok(Entry::Nothing)
}

#[tactic(auto, unfolding(gno_reader::proofs::Shown::reading, gno_rules::specs::Parts::name, gno_rules::specs::Signatures::next_entry, gno_rules::specs::Signatures::group))]
fn result_behind_named<R: Reader>(reader: &R, tokens: &mut Cursor<'_>) -> Result<Entry, Failure>
    requires { R.nests reader.now }
    ensures { Gives (reads (R.scope reader.now) (λ text. spec.next_entry text false s.Named) tokens.old) result tokens.new }
{
    if tokens.sees(TokenKind::Name) {
        return group_of_results(reader, tokens);
    }
    Ok(Entry::Nothing)
}

/// The entry of parameters behind a comma, or nothing.
#[tactic(auto, unfolding(gno_reader::proofs::Shown::reading, gno_rules::specs::Signatures::next_entry))]
fn next_parameter<R: Reader>(
    reader: &R,
    tokens: &mut Cursor<'_>,
    state: ListState,
) -> Result<Entry, Failure>
    requires { R.nests reader.now }
    ensures { Gives (reads (R.scope reader.now) (λ text. spec.next_entry text true state) tokens.old) result tokens.new }
{
    match state {
        ListState::Names => parameter_behind_names(reader, tokens),
        ListState::Types => parameter_behind_types(reader, tokens),
        ListState::Named => parameter_behind_named(reader, tokens),
        ListState::Last => Ok(Entry::Nothing),
        ListState::Ended => Ok(Entry::Nothing),
    }
}

/// The entry of results behind a comma, or nothing.
#[tactic(auto, unfolding(gno_reader::proofs::Shown::reading, gno_rules::specs::Signatures::next_entry))]
fn next_result<R: Reader>(
    reader: &R,
    tokens: &mut Cursor<'_>,
    state: ListState,
) -> Result<Entry, Failure>
    requires { R.nests reader.now }
    ensures { Gives (reads (R.scope reader.now) (λ text. spec.next_entry text false state) tokens.old) result tokens.new }
{
    match state {
        ListState::Names => result_behind_names(reader, tokens),
        ListState::Types => any_type_or_nothing(reader, tokens),
        ListState::Named => result_behind_named(reader, tokens),
        ListState::Last => Ok(Entry::Nothing),
        ListState::Ended => Ok(Entry::Nothing),
    }
}

/// The entry behind a comma, or nothing; `...` stands among parameters alone.
pub(crate) fn next_entry<R: Reader>(
    reader: &R,
    tokens: &mut Cursor<'_>,
    variadics: bool,
    state: ListState,
) -> Result<Entry, Failure>
    requires { R.nests reader.now }
    ensures { Gives (reads (R.scope reader.now) (λ text. spec.next_entry text variadics state) tokens.old) result tokens.new }
{
    match variadics {
        true => next_parameter(reader, tokens, state),
        false => next_result(reader, tokens, state),
    }
}
