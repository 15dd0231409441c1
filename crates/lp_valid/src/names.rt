//! Names that a grammar may have.

ghost use Rattle.std.specs.Prelude.{◌≡◌, ◌&&◌, IsTrue, codes, drop, nat_eq};
ghost use Rattle.std.specs.List.{list_all, starts_with};
ghost use Rattle.std.specs.Str.{chars};
ghost use Rattle.unicode_ident.specs.Ident.{is_xid_continue};
ghost use Rattle.lp_valid.specs.NameRules.{begins_word, is_word, is_identifier, is_reserved, is_parameter_name, is_argument_name};

/// An identifier: `_` or an XID start, and then XID continue characters; not `_` alone.
pub fn is_identifier(name: &str) -> bool
    ensures { result ≡ is_identifier name.now }
{
    name != "_" && is_word(name)
}

/// `_` or an XID start, and then XID continue characters.
fn is_word(name: &str) -> bool
    ensures { result ≡ is_word (chars name.now) }
{
    match name.chars().next() {
        None => false,
        Some(first) => begins_word(first) && is_continued(name),
    }
}

/// Whether a word may begin with the character, which may then also stand further on in it.
fn begins_word(first: char) -> bool
    ensures begins { result ≡ begins_word first }
    ensures continues { IsTrue result → IsTrue (is_xid_continue first) }
{
    if first == '_' {
        return unicode_ident::is_xid_continue(first);
    }
    unicode_ident::is_xid_start(first)
}

/// Whether all characters may stand in a word after its first.
fn is_continued(name: &str) -> bool
    ensures { result ≡ list_all is_xid_continue (chars name.now) }
{
    name.chars().all(|c| unicode_ident::is_xid_continue(c))
}

/// An identifier that a parameter of an emitted function can have.
pub(crate) fn is_parameter_name(name: &str) -> bool
    ensures { result ≡ is_parameter_name name.now }
{
    is_identifier(name) && !is_reserved(name)
}

fn is_reserved(name: &str) -> bool
    ensures { result ≡ is_reserved name.now }
{
    name == "self"
        || name == "Self"
        || name == "super"
        || name == "crate"
        || name == "Some"
        || name == "None"
        || name == "Ok"
        || name == "Err"
}

/// The name of an action's argument: `_`, an identifier, or `mut`, a blank and an identifier.
pub(crate) fn is_argument_name(pattern: &str) -> bool
    ensures { result ≡ is_argument_name pattern.now }
{
    pattern == "_" || is_identifier(pattern) || is_mutable_name(pattern)
}

/// `mut`, a blank and an identifier.
fn is_mutable_name(pattern: &str) -> bool
    ensures { result ≡ (starts_with nat_eq pattern.now (codes "mut ") && is_identifier (drop 4 pattern.now)) }
{
    match pattern.strip_prefix("mut ") {
        None => false,
        Some(name) => is_identifier(name),
    }
}
