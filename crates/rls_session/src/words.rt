//! The word that begins a session.

ghost use Rattle.std.specs.Prelude.{◌≡◌, map, string_bytes};
ghost use Rattle.rls_session.specs.Words.{begins_session};

/// Whether these words, those after the program's name, begin a session: they are the one word `session`.
pub fn begins_session(words: &[String]) -> bool
    ensures session { result ≡ begins_session (map string_bytes words.now) }
{
    match words {
        [word] => word.as_str() == "session",
        _ => false,
    }
}
