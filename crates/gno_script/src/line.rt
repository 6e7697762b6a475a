// The lines of a text.
ghost use Rattle.std.specs.Prelude.{◌≡◌, ◌∷◌, ◌<◌, [], length};
ghost use Rattle.gno_script.specs.Lines.{lines_of};

/// The first line, and the text behind its line feed.
#[tactic(auto, using(crate::proofs::FirstLine::steps))]
pub fn first_line(text: &[u8]) -> (&[u8], &[u8])
    requires { 0 < length text.now }
    ensures lines { lines_of text.now ≡ result.0.now ∷ lines_of result.1.now }
    ensures shorter { length result.1.now < length text.now }
{
    for (at, b) in text.iter().enumerate() {
        if *b == b'\n' {
            return (&text[..at], &text[at + 1..]);
        }
    }
    (text, &text[text.len()..])
}
