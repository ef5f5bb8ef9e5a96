//! The words of a command line.

ghost use Rattle.std.specs.Prelude.{◌≡◌, map, string_bytes};
ghost use Rattle.tb_check.specs.Words.{asks_check};

/// Whether the words are the program's name and `check`, perhaps with `--` at the end.
pub fn is_check(words: &[String]) -> bool
    ensures { result ≡ asks_check (map string_bytes words.now) }
{
    match words {
        [_, word] => word.as_str() == "check",
        [_, word, end] => word.as_str() == "check" && end.as_str() == "--",
        _ => false,
    }
}
