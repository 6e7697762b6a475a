// The constructs that nest.
ghost use Rattle.std.specs.Prelude.{◌≡◌};
ghost use Rattle.gno_grammar.specs.Readers.{begins, level};
ghost use Rattle.gno_reader.specs.Constructs.{GivesConstruct};
ghost use Rattle.gno_reader.specs.Scope.{reads};
ghost use Rattle.gno_rules.specs.Kinds.{code};
ghost use Rattle.gno_rules.specs.Table.{first_of, grammar, rule as rule_of};

use crate::level::Level;
use gno_declarations::{function, header_function};
use gno_expr_lists::{arguments, elements, index, paren};
use gno_expressions::unary;
use gno_grammar::Refusal;
use gno_reader::{Construct, Cursor, Failure, SimpleReader, begins_expr};
use gno_rules::{Place, Rule};
use gno_scan::TokenKind;
use gno_statements::{block, switch_body};
use gno_type_readers::{declared_type, other_type, result_type, type_operand, type_read};
use std::alloc::Global;

/// Reads a construct, where constructs may nest so deep, itself counted.
#[tactic(auto, unfolding(gno_grammar::specs::Readers::level, gno_grammar::specs::Readers::why, gno_reader::specs::Answers::refusal))]
pub fn construct(
    alloc: Global,
    text: &[u8],
    tokens: &mut Cursor<'_>,
    depth: usize,
    rule: Rule,
) -> Result<Construct, Failure>
    ensures { GivesConstruct rule (level (grammar text.now) depth rule tokens.old) result tokens.new }
{
    if depth == 0 {
        if begins_rule(rule, tokens) {
            return Err(Failure::Refused(Refusal::TooDeep));
        }
        return Err(Failure::Refused(tokens.refusal()));
    }
    let reader = Level {
        alloc,
        text,
        depth: depth - 1,
        construct,
    };
    read(&reader, tokens, rule)
}

/// Reads what a construct is made of.
fn read<R: SimpleReader>(
    reader: &R,
    tokens: &mut Cursor<'_>,
    rule: Rule,
) -> Result<Construct, Failure>
    requires { R.nests reader.now }
    ensures { GivesConstruct rule (reads (R.scope reader.now) (λ text. rule_of text rule) tokens.old) result tokens.new }
{
    match rule {
        Rule::Type => Ok(Construct::Type(type_read(reader, tokens)?)),
        Rule::OtherType => Ok(Construct::Type(other_type(reader, tokens)?)),
        Rule::ResultType => Ok(Construct::Type(result_type(reader, tokens)?)),
        Rule::DeclaredType => Ok(Construct::Type(declared_type(reader, tokens)?)),
        Rule::OperandType => Ok(Construct::OperandType(type_operand(reader, tokens)?)),
        Rule::Function => Ok(Construct::Expr(function(reader, tokens)?)),
        Rule::HeaderFunction => Ok(Construct::Expr(header_function(reader, tokens)?)),
        Rule::Paren => Ok(Construct::Expr(paren(reader, tokens)?)),
        Rule::Index => Ok(Construct::Step(index(reader, tokens)?)),
        Rule::Arguments => Ok(Construct::Step(arguments(reader, tokens)?)),
        Rule::Elements => Ok(Construct::Elements(elements(reader, tokens)?)),
        Rule::Unary => Ok(Construct::Expr(unary(reader, tokens, Place::Plain)?)),
        Rule::HeaderUnary => Ok(Construct::Expr(unary(reader, tokens, Place::Header)?)),
        Rule::Block => Ok(Construct::Block(block(reader, tokens)?)),
        Rule::SwitchBody => Ok(Construct::Cases(switch_body(reader, tokens)?)),
    }
}

const TYPE: [TokenKind; 8] = [
    TokenKind::Name,
    TokenKind::LeftParen,
    TokenKind::Star,
    TokenKind::LeftBracket,
    TokenKind::Map,
    TokenKind::Func,
    TokenKind::Struct,
    TokenKind::Interface,
];

const OTHER_TYPE: [TokenKind; 7] = [
    TokenKind::LeftParen,
    TokenKind::Star,
    TokenKind::LeftBracket,
    TokenKind::Map,
    TokenKind::Func,
    TokenKind::Struct,
    TokenKind::Interface,
];

const RESULT_TYPE: [TokenKind; 7] = [
    TokenKind::Name,
    TokenKind::Star,
    TokenKind::LeftBracket,
    TokenKind::Map,
    TokenKind::Func,
    TokenKind::Struct,
    TokenKind::Interface,
];

const OPERAND_TYPE: [TokenKind; 4] = [
    TokenKind::LeftBracket,
    TokenKind::Map,
    TokenKind::Struct,
    TokenKind::Interface,
];

/// Whether a construct begins here.
#[tactic(auto, unfolding(gno_reader::proofs::Shown::reading))]
fn begins_rule(rule: Rule, tokens: &Cursor<'_>) -> bool
    ensures { result ≡ begins code (first_of rule) tokens.now }
{
    match rule {
        Rule::Type | Rule::DeclaredType => tokens.sees_any(&TYPE),
        Rule::OtherType => tokens.sees_any(&OTHER_TYPE),
        Rule::ResultType => tokens.sees_any(&RESULT_TYPE),
        Rule::OperandType => tokens.sees_any(&OPERAND_TYPE),
        Rule::Function | Rule::HeaderFunction => tokens.sees(TokenKind::Func),
        Rule::Paren | Rule::Arguments => tokens.sees(TokenKind::LeftParen),
        Rule::Index => tokens.sees(TokenKind::LeftBracket),
        Rule::Elements | Rule::Block | Rule::SwitchBody => tokens.sees(TokenKind::LeftBrace),
        Rule::Unary | Rule::HeaderUnary => begins_expr(tokens),
    }
}
