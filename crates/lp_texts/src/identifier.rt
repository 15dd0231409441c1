//! Which texts are identifiers.

ghost use Rattle.std.specs.Prelude.{◌≡◌, IsTrue};
ghost use Rattle.std.specs.List.{list_all};
ghost use Rattle.std.specs.Str.{chars};
ghost use Rattle.lp_tok.specs.Scans.{starts_word, continues_word};
ghost use Rattle.lp_texts.specs.Identifiers.{is_word, is_identifier};

/// Whether a text is an identifier: `_` or an XID start, then XID continue characters, and not `_`
/// alone.
pub fn is_identifier(text: &str) -> bool
    ensures { result ≡ is_identifier text.now }
{
    text != "_" && is_word(text)
}

/// Whether a text is `_` or an XID start, and then XID continue characters.
fn is_word(text: &str) -> bool
    ensures { result ≡ is_word (chars text.now) }
{
    match text.chars().next() {
        None => false,
        Some(first) => starts_word(first) && is_continued(text),
    }
}

/// Whether a word may begin with a character, which may then also stand further on in it.
fn starts_word(first: char) -> bool
    ensures starts { result ≡ starts_word first }
    ensures continues { IsTrue result → IsTrue (continues_word first) }
{
    unicode_ident::is_xid_start(first) || first == '_'
}

/// Whether all characters may stand in a word.
fn is_continued(text: &str) -> bool
    ensures { result ≡ list_all continues_word (chars text.now) }
{
    text.chars().all(|c| continues_word(c))
}

/// Whether a word may go on with a character.
fn continues_word(c: char) -> bool
    ensures { result ≡ continues_word c }
{
    unicode_ident::is_xid_continue(c) || c == '_'
}
