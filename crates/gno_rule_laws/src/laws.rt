// Laws of the grammar.
ghost use Rattle.std.specs.Prelude.{◌≡◌};
ghost use Rattle.gno_grammar.specs.Readers.{Outcome};
ghost use Rattle.gno_rules.specs.Files.{IsOutcome, Reads};
ghost use Rattle.gno_scan.specs.declared.token.Token.{Token as TokenOf};
ghost use Rattle.gno_tree.specs.declared.file.FileTree.{FileTree};

use gno_scan::Token;

/// The tokens of a text have one tree at most. This states a law and does nothing.
pub fn one_tree(text: &[u8], tokens: &[Token])
    ensures { (tree other : FileTree) → Reads text.now tokens.now tree → Reads text.now tokens.now other → tree ≡ other }
{}

/// The tokens of a text have one outcome: their tree, or the first token that is refused, and why. This states a law and does nothing.
pub fn one_outcome(text: &[u8], tokens: &[Token])
    ensures some { (out : Outcome TokenOf FileTree) × IsOutcome text.now tokens.now out }
    ensures one { (out other : Outcome TokenOf FileTree) → IsOutcome text.now tokens.now out → IsOutcome text.now tokens.now other → out ≡ other }
{}
