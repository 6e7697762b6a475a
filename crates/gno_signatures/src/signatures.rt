// Signatures of functions.
ghost use Rattle.std.specs.Prelude.{◌≡◌, [], ◌∷◌, ◌++◌, IfOk};
ghost use Rattle.gno_grammar.specs.Phrases.{construct};
ghost use Rattle.gno_grammar.specs.Readers.{begins};
ghost use Rattle.gno_reader.specs.Answers.{Gives};
ghost use Rattle.gno_reader.specs.Scope.{reads};
ghost use Rattle.gno_rules.specs.Kinds.{code, numbers};
ghost use Rattle.gno_rules.specs.Parts.{given};
ghost use Rattle.gno_rules.specs.Signatures as spec;
ghost use Rattle.gno_rules.specs.Table.{first_of};
ghost use Rattle.gno_rules.specs.declared.rule.Rule.TheVariants as r;
ghost use Rattle.gno_scan.specs.declared.kind.TokenKind.TheVariants as k;

use crate::parameters::parameters;
use gno_base::List;
use gno_reader::{Cursor, Failure, Reader, construct};
use gno_rules::{SignatureRead, TypeEnd, TypeRead, nameless};
use gno_scan::TokenKind;
use gno_tree::{Parameter, Signature, TypeExpr};
use std::alloc::{AllocError, Global};

/// One result without a name.
fn one_result(alloc: Global, of: TypeExpr) -> Result<List<Parameter>, AllocError>
    ensures { IfOk result (λ results. results ≡ spec.nameless of ∷ []) }
{
    let mut results = List::new(alloc);
    results.push(nameless(alloc, of))?;
    Ok(results)
}

/// A result without parentheses.
#[tactic(auto, unfolding(gno_reader::proofs::Shown::reading))]
fn result_alone<R: Reader>(
    reader: &R,
    tokens: &mut Cursor<'_>,
) -> Result<(List<Parameter>, TypeEnd), Failure>
    requires { R.nests reader.now }
    ensures { Gives (reads (R.scope reader.now) (λ text. given (λ rs. spec.type_more rs.1) spec.TYPE_MOST (λ x. (spec.nameless x.of ∷ [], x.end)) (construct r.ResultType)) tokens.old) result tokens.new }
{
    let TypeRead { of, end } = construct::result_type(reader, tokens)?;
    Ok((one_result(reader.alloc(), of)?, end))
}

/// `(results)`, or one type
#[tactic(auto, unfolding(gno_reader::proofs::Shown::reading, gno_rules::specs::Signatures::results, gno_rules::specs::Signatures::parameters))]
fn results<R: Reader>(
    reader: &R,
    tokens: &mut Cursor<'_>,
) -> Result<(List<Parameter>, TypeEnd), Failure>
    requires { R.nests reader.now }
    ensures { Gives (reads (R.scope reader.now) spec.results tokens.old) result tokens.new }
{
    if tokens.sees(TokenKind::LeftParen) {
        let (_, results) = parameters(reader, tokens, false)?;
        return Ok((results, TypeEnd::Closed));
    }
    result_alone(reader, tokens)
}

/// Whether results come next.
#[tactic(auto, unfolding(gno_reader::proofs::Shown::reading))]
fn begins_results(tokens: &Cursor<'_>) -> bool
    ensures { result ≡ begins code (numbers (k.LeftParen ∷ []) ++ first_of r.ResultType) tokens.now }
{
    tokens.sees_any(&[
        TokenKind::LeftParen,
        TokenKind::Name,
        TokenKind::Star,
        TokenKind::LeftBracket,
        TokenKind::Map,
        TokenKind::Func,
        TokenKind::Struct,
        TokenKind::Interface,
    ])
}

/// `(parameters) results`
#[tactic(auto, unfolding(gno_reader::proofs::Shown::reading, gno_rules::specs::Signatures::signature, gno_rules::specs::Signatures::results, gno_rules::specs::Signatures::parameters))]
pub fn signature<R: Reader>(reader: &R, tokens: &mut Cursor<'_>) -> Result<SignatureRead, Failure>
    requires { R.nests reader.now }
    ensures { Gives (reads (R.scope reader.now) spec.signature tokens.old) result tokens.new }
{
    let (pos, parameters) = parameters(reader, tokens, true)?;
    if begins_results(tokens) {
        let (results, end) = results(reader, tokens)?;
        let signature = Signature {
            pos,
            parameters,
            results,
        };
        return Ok(SignatureRead { signature, end });
    }
    let signature = Signature {
        pos,
        parameters,
        results: List::new(reader.alloc()),
    };
    Ok(SignatureRead {
        signature,
        end: TypeEnd::Open,
    })
}
