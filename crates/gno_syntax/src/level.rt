// A reader of what nests so deep.
ghost use Rattle.std.specs.Prelude.{◌≡◌};

use gno_base::List;
use gno_reader::{Construct, Cursor, ExprReader, Failure, ListReader, Reader, SimpleReader};
use gno_rules::{Exprs, Found, Kind, Place, Rule, SignatureRead, SimpleRead};
use gno_tree::Expr;
use std::alloc::Global;

/// A reader that is passed the function that reads the constructs one level deeper.
#[derive(Clone, Copy)]
pub struct Level<'t, F> {
    pub alloc: Global,
    pub text: &'t [u8],
    /// How deep constructs may nest in what is read.
    pub depth: usize,
    pub construct: F,
}

impl<'t, F> Reader for Level<'t, F>
where
    F: Fn(Global, &[u8], &mut Cursor<'_>, usize, Rule) -> Result<Construct, Failure>,
{
    ghost use Rattle.gno_syntax.specs.Nests.{Nests};

    ghost scope = { λ level. record { text = level.text.now; depth = level.depth } };

    ghost nests = { λ level. Nests (record { text = level.text.now; depth = level.depth }) (F.pre level.construct) (F.post level.construct) };

    fn alloc(&self) -> Global {
        self.alloc
    }

    fn text(&self) -> &[u8] {
        self.text
    }

    fn construct(&self, tokens: &mut Cursor<'_>, rule: Rule) -> Result<Construct, Failure> {
        (self.construct)(self.alloc, self.text, tokens, self.depth, rule)
    }
}

impl<'t, F> ExprReader for Level<'t, F>
where
    F: Fn(Global, &[u8], &mut Cursor<'_>, usize, Rule) -> Result<Construct, Failure>,
{
    fn expr(&self, tokens: &mut Cursor<'_>, place: Place) -> Result<Found, Failure> {
        gno_expressions::expr(self, tokens, place)
    }

    fn signature(&self, tokens: &mut Cursor<'_>) -> Result<SignatureRead, Failure> {
        gno_signatures::signature(self, tokens)
    }
}

impl<'t, F> ListReader for Level<'t, F>
where
    F: Fn(Global, &[u8], &mut Cursor<'_>, usize, Rule) -> Result<Construct, Failure>,
{
    fn exprs(&self, tokens: &mut Cursor<'_>, place: Place) -> Result<Exprs, Failure> {
        gno_expr_lists::exprs(self, tokens, place)
    }

    fn values(&self, tokens: &mut Cursor<'_>, place: Place) -> Result<List<Expr>, Failure> {
        gno_expr_lists::values(self, tokens, place)
    }
}

impl<'t, F> SimpleReader for Level<'t, F>
where
    F: Fn(Global, &[u8], &mut Cursor<'_>, usize, Rule) -> Result<Construct, Failure>,
{
    fn simple_statements(
        &self,
        tokens: &mut Cursor<'_>,
        place: Kind,
    ) -> Result<SimpleRead, Failure> {
        gno_simple::simple_statements(self, tokens, place)
    }
}
