// The tokens that are left.
ghost use Rattle.std.specs.Prelude.{◌≡◌, [], ◌∷◌, length};
ghost use Rattle.gno_reader.specs.Answers.{Ends, Gives, one_token, refusal, sees};

use crate::kind::{is_any, is_kind, why};
use gno_grammar::Refusal;
use gno_scan::{Token, TokenKind};
use std::alloc::AllocError;
use std::marker::Model;

/// Why nothing is read.
#[derive(Clone, Copy, Debug, PartialEq, Eq)]
pub enum Failure {
    NoMemory,
    /// The next token is refused.
    Refused(Refusal),
}

impl From<AllocError> for Failure {
    ghost use Rattle.gno_reader.specs.declared.cursor.Failure.TheVariants.{NoMemory};

    ghost from_gives = { λ _ failure. failure ≡ NoMemory };

    fn from(_error: AllocError) -> Failure {
        Failure::NoMemory
    }
}

/// The tokens that are left.
#[derive(Drop)]
pub struct Cursor<'a> {
    left: &'a [Token],
}

impl<'a> Model for Cursor<'a> {
    ghost use Rattle.std.specs.Prelude.{List};
    ghost use Rattle.std.specs.Coded.{coded_list};
    ghost use Rattle.gno_scan.specs.declared.token.Token.{Token};

    ghost Value = { List Token };

    ghost view = { λ cursor. cursor.left.now };
}

impl<'a> Cursor<'a> {
    pub fn new(left: &'a [Token]) -> Cursor<'a>
        ensures { result ≡ left.now }
    {
        Cursor { left }
    }

    pub fn len(&self) -> usize
        ensures { result ≡ length self.now }
    {
        self.left.len()
    }

    /// Whether a token of this kind comes next.
    #[tactic(auto, unfolding(crate::specs::Answers::sees, gno_grammar::specs::Readers::begins))]
    pub fn sees(&self, kind: TokenKind) -> bool
        ensures { result ≡ sees (kind ∷ []) self.now }
    {
        match self.left {
            [token, ..] => is_kind(token.kind, kind),
            [] => false,
        }
    }

    /// Whether a token of one of these kinds comes next.
    #[tactic(auto, unfolding(crate::specs::Answers::sees, gno_grammar::specs::Readers::begins))]
    pub fn sees_any(&self, kinds: &[TokenKind]) -> bool
        ensures { result ≡ sees kinds.now self.now }
    {
        match self.left {
            [token, ..] => is_any(token.kind, kinds),
            [] => false,
        }
    }

    /// Why what comes next is refused.
    #[tactic(auto, unfolding(crate::specs::Answers::refusal, gno_grammar::specs::Readers::why))]
    pub fn refusal(&self) -> Refusal
        ensures { result ≡ refusal self.now }
    {
        match self.left {
            [token, ..] => why(token.kind),
            [] => Refusal::Unexpected,
        }
    }

    /// The next token, if it is of this kind.
    #[tactic(auto, unfolding(crate::specs::Answers::one_token, gno_grammar::specs::Readers::why))]
    pub fn expect(&mut self, kind: TokenKind) -> Result<Token, Failure>
        ensures { Gives (one_token (kind ∷ []) self.old) result self.new }
    {
        match self.left {
            [token, rest @ ..] => {
                if is_kind(token.kind, kind) {
                    self.left = rest;
                    Ok(*token)
                } else {
                    Err(Failure::Refused(why(token.kind)))
                }
            }
            [] => Err(Failure::Refused(Refusal::Unexpected)),
        }
    }

    /// The next token, if it is of one of these kinds.
    #[tactic(auto, unfolding(crate::specs::Answers::one_token, gno_grammar::specs::Readers::why))]
    pub fn expect_any(&mut self, kinds: &[TokenKind]) -> Result<Token, Failure>
        ensures { Gives (one_token kinds.now self.old) result self.new }
    {
        match self.left {
            [token, rest @ ..] => {
                if is_any(token.kind, kinds) {
                    self.left = rest;
                    Ok(*token)
                } else {
                    Err(Failure::Refused(why(token.kind)))
                }
            }
            [] => Err(Failure::Refused(Refusal::Unexpected)),
        }
    }

    /// Refuses whatever is left.
    pub fn end(&self) -> Result<(), Failure>
        ensures { Ends self.now result }
    {
        if self.left.is_empty() {
            Ok(())
        } else {
            Err(Failure::Refused(self.refusal()))
        }
    }
}
