// The words of the command line.
ghost use Rattle.std.specs.Prelude.{◌≡◌, Some, IfErr, IfOk, map};
ghost use Rattle.std.specs.Str.{bytes_eq};
ghost use Rattle.std.specs.String.{string_bytes};
ghost use Rattle.gno_cmd.specs.Usage.{AreReplayWords, is_table_name, usage_fault};

/// The table's name in the words `replay -store NAME`, or the number of the first word, from 1, that cannot stand there.
pub(crate) fn table_name(words: &[String]) -> Result<&str, u64>
    ensures name { IfOk result (λ name. AreReplayWords (map string_bytes words.now) name.now) }
    ensures fault { IfErr result (λ word. usage_fault (map string_bytes words.now) ≡ Some word) }
{
    match words {
        [] => Err(1),
        [replay, ..] if !is_word(replay, "replay") => Err(1),
        [_] => Err(2),
        [_, store, ..] if !is_word(store, "-store") => Err(2),
        [_, _] => Err(3),
        [_, _, name, ..] if !is_table_name(name.as_str()) => Err(3),
        [_, _, name] => Ok(name.as_str()),
        _ => Err(4),
    }
}

fn is_word(word: &String, text: &str) -> bool
    ensures { result ≡ bytes_eq (string_bytes word.now) text.now }
{
    word.as_str() == text
}

fn is_table_name(name: &str) -> bool
    ensures { result ≡ is_table_name name.now }
{
    match name.as_bytes() {
        [] => false,
        [first, ..] => *first != b'-',
    }
}
