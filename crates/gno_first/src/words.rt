// The words that Go keeps for itself.
ghost use Rattle.std.specs.Prelude.{◌≡◌};
ghost use Rattle.std.specs.List.{list_any};
ghost use Rattle.std.specs.Str.{bytes_eq};
ghost use Rattle.gno_first.specs.Names.{is_among, keywords};

const KEYWORDS: [&str; 25] = [
    "break",
    "case",
    "chan",
    "const",
    "continue",
    "default",
    "defer",
    "else",
    "fallthrough",
    "for",
    "func",
    "go",
    "goto",
    "if",
    "import",
    "interface",
    "map",
    "package",
    "range",
    "return",
    "select",
    "struct",
    "switch",
    "type",
    "var",
];

pub fn is_among(words: &[&str], word: &[u8]) -> bool
    ensures { result ≡ list_any (λ it. bytes_eq word.now it.now) words.now }
{
    words.iter().any(|it| word == it.as_bytes())
}

pub fn is_keyword(word: &[u8]) -> bool
    ensures { result ≡ is_among keywords word.now }
{
    is_among(KEYWORDS.as_slice(), word)
}
