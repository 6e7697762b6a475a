// What reads: the text, and the constructs that nest one level deeper.
ghost use Rattle.std.specs.Prelude.{◌≡◌};

use crate::{Cursor, Failure};
use gno_base::List;
use gno_rules::{
    Elements, Exprs, Found, Kind, OperandType, Place, Rule, SignatureRead, SimpleRead, TypeRead,
};
use gno_tree::{Block, Case, Expr, Step};
use std::alloc::Global;

/// What a construct gives.
#[derive(Drop)]
pub enum Construct {
    Type(TypeRead),
    OperandType(OperandType),
    Expr(Found),
    Step(Step),
    Elements(Elements),
    Block(Block),
    Cases(List<Case>),
}

/// What reads the tokens of a text. The constructs that nest in what is read are read one level deeper.
pub trait Reader {
    ghost use Rattle.gno_reader.specs.Scope.{Scope, nested};
    ghost use Rattle.gno_reader.specs.Constructs.{GivesConstruct};

    /// Where it reads.
    ghost scope: { Self → Scope };

    /// Whether it reads the constructs that nest.
    ghost nests: { Self → Type 0 };

    fn alloc(&self) -> Global;

    fn text(&self) -> &[u8]
        ensures { result.now ≡ (scope self.now).text };

    /// Reads a construct that nests.
    fn construct(&self, tokens: &mut Cursor<'_>, rule: Rule) -> Result<Construct, Failure>
        requires { nests self.now }
        ensures { GivesConstruct rule (nested (scope self.now) rule tokens.old) result tokens.new };
}

/// A reader that reads expressions and signatures.
pub trait ExprReader: Reader {
    ghost use Rattle.gno_reader.specs.Answers.{Gives};
    ghost use Rattle.gno_reader.specs.Scope.{reads};
    ghost use Rattle.gno_rules.specs.Expressions as spec;
    ghost use Rattle.gno_rules.specs.Signatures.{signature};

    /// Reads an expression.
    fn expr(&self, tokens: &mut Cursor<'_>, place: Place) -> Result<Found, Failure>
        requires { Self.nests self.now }
        ensures { Gives (reads (Self.scope self.now) (λ text. spec.expr text place) tokens.old) result tokens.new };

    /// Reads a signature: parameters and results.
    fn signature(&self, tokens: &mut Cursor<'_>) -> Result<SignatureRead, Failure>
        requires { Self.nests self.now }
        ensures { Gives (reads (Self.scope self.now) signature tokens.old) result tokens.new };
}

/// A reader that reads lists of expressions.
pub trait ListReader: ExprReader {
    ghost use Rattle.gno_reader.specs.Answers.{Gives};
    ghost use Rattle.gno_reader.specs.Scope.{reads};
    ghost use Rattle.gno_rules.specs.Expressions as spec;

    /// Reads one expression or more, with commas between them.
    fn exprs(&self, tokens: &mut Cursor<'_>, place: Place) -> Result<Exprs, Failure>
        requires { Self.nests self.now }
        ensures { Gives (reads (Self.scope self.now) (λ text. spec.exprs text place) tokens.old) result tokens.new };

    /// Reads one value or more, with commas between them.
    fn values(&self, tokens: &mut Cursor<'_>, place: Place) -> Result<List<Expr>, Failure>
        requires { Self.nests self.now }
        ensures { Gives (reads (Self.scope self.now) (λ text. spec.values text place) tokens.old) result tokens.new };
}

/// A reader that reads simple statements.
pub trait SimpleReader: ListReader {
    ghost use Rattle.gno_reader.specs.Answers.{Gives};
    ghost use Rattle.gno_reader.specs.Scope.{reads};
    ghost use Rattle.gno_rules.specs.Statements as spec;

    /// Reads a simple statement, or what else may stand at its place.
    fn simple_statements(&self, tokens: &mut Cursor<'_>, place: Kind) -> Result<SimpleRead, Failure>
        requires { Self.nests self.now }
        ensures { Gives (reads (Self.scope self.now) (λ text. spec.simple_statements text place) tokens.old) result tokens.new };
}
