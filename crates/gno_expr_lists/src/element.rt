// The elements of composite literals.
ghost use Rattle.std.specs.Prelude.{◌≡◌, []};
ghost use Rattle.gno_grammar.specs.Readers.{first};
ghost use Rattle.gno_reader.specs.Answers.{Gives};
ghost use Rattle.gno_reader.specs.Scope.{reads};
ghost use Rattle.gno_rules.specs.Expressions as spec;
ghost use Rattle.gno_rules.specs.Kinds.{numbers};
ghost use Rattle.gno_rules.specs.Parts.{closed_list as closed_by};
ghost use Rattle.gno_rules.specs.Table.{grammar};
ghost use Rattle.gno_scan.specs.declared.kind.TokenKind.TheVariants as k;

use gno_base::List;
use gno_reader::list::closed_list;
use gno_reader::phrase::plain_expr;
use gno_reader::{Cursor, ExprReader, Failure, construct};
use gno_rules::Elements;
use gno_scan::TokenKind;
use gno_tree::{Element, Part};

static ELEMENT: [TokenKind; 17] = [
    TokenKind::LeftBrace,
    TokenKind::Plus,
    TokenKind::Minus,
    TokenKind::Not,
    TokenKind::Caret,
    TokenKind::Star,
    TokenKind::And,
    TokenKind::Integer,
    TokenKind::Rune,
    TokenKind::String,
    TokenKind::Name,
    TokenKind::LeftParen,
    TokenKind::Func,
    TokenKind::LeftBracket,
    TokenKind::Map,
    TokenKind::Struct,
    TokenKind::Interface,
];

/// A key or a value of an element.
#[tactic(auto, unfolding(gno_reader::proofs::Shown::reading, gno_rules::specs::Expressions::elements_part))]
fn elements_part<R: ExprReader>(reader: &R, tokens: &mut Cursor<'_>) -> Result<Part, Failure>
    requires { R.nests reader.now }
    ensures { Gives (reads (R.scope reader.now) spec.elements_part tokens.old) result tokens.new }
{
    if tokens.sees(TokenKind::LeftBrace) {
        let Elements { pos, elements } = construct::elements(reader, tokens)?;
        return Ok(Part::Elements { pos, elements });
    }
    Ok(Part::Expr(plain_expr(reader, tokens)?))
}

/// `value`, `key: value`
#[tactic(auto, unfolding(gno_reader::proofs::Shown::reading, gno_rules::specs::Expressions::one_element))]
fn one_element<R: ExprReader>(reader: &R, tokens: &mut Cursor<'_>) -> Result<Element, Failure>
    requires { R.nests reader.now }
    ensures { Gives (reads (R.scope reader.now) spec.one_element tokens.old) result tokens.new }
{
    let part = elements_part(reader, tokens)?;
    if tokens.sees(TokenKind::Colon) {
        tokens.expect(TokenKind::Colon)?;
        let value = elements_part(reader, tokens)?;
        return Ok(Element {
            key: Some(part),
            value,
        });
    }
    Ok(Element {
        key: None,
        value: part,
    })
}

/// The kinds that begin an element of a composite literal, in the order of what it is read as.
#[tactic(auto, unfolding(gno_reader::proofs::Shown::reading, gno_reader::proofs::Shown::beginnings, gno_rules::specs::Expressions::elements_part, gno_rules::specs::Expressions::one_element))]
fn element_kinds() -> &'static [TokenKind]
    ensures { numbers result.now ≡ first (grammar []) (spec.one_element []) }
{
    &ELEMENT
}

/// `elements }`
fn closed_elements<R: ExprReader>(
    reader: &R,
    tokens: &mut Cursor<'_>,
) -> Result<List<Element>, Failure>
    requires { R.nests reader.now }
    ensures { Gives (reads (R.scope reader.now) (λ text. closed_by k.Comma k.RightBrace (spec.one_element text)) tokens.old) result tokens.new }
{
    let begin = element_kinds();
    let element = |tokens: &mut Cursor<'_>| one_element(reader, tokens);
    closed_list(
        reader.alloc(),
        tokens,
        TokenKind::Comma,
        TokenKind::RightBrace,
        begin,
        &element,
    )
}

/// `{elements}`
#[tactic(auto, unfolding(gno_reader::proofs::Shown::reading, gno_rules::specs::Expressions::elements))]
pub fn elements<R: ExprReader>(reader: &R, tokens: &mut Cursor<'_>) -> Result<Elements, Failure>
    requires { R.nests reader.now }
    ensures { Gives (reads (R.scope reader.now) spec.elements tokens.old) result tokens.new }
{
    let pos = tokens.expect(TokenKind::LeftBrace)?.pos;
    let elements = closed_elements(reader, tokens)?;
    Ok(Elements { pos, elements })
}
