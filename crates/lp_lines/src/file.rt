//! A file of a grammar and what follows it.

ghost use Rattle.std.specs.Prelude.{◌≡◌, ◌≤◌, length, drop, MatchOption};
ghost use Rattle.lp_lines.specs.File.{IsCutFile, IsFirstMark, HasNoMark, is_mark, is_mark_at};

/// A grammar's text, and what follows the first line that is exactly `%%`, which is empty where no
/// line is. The line feed before that line belongs to the grammar's text.
pub fn cut_file(file: &[u8]) -> (&[u8], &[u8])
    ensures { IsCutFile file.now result.0.now result.1.now }
{
    match first_mark(file) {
        None => (file, &file[file.len()..]),
        Some(place) => (&file[..place], from(file, place + 3)),
    }
}

/// What stands from a place on.
fn from(file: &[u8], place: usize) -> &[u8]
    ensures { result.now ≡ drop place file.now }
{
    if place < file.len() {
        &file[place..]
    } else {
        &file[file.len()..]
    }
}

/// The place of the first line that is exactly `%%`.
fn first_mark(file: &[u8]) -> Option<usize>
    ensures { MatchOption result (HasNoMark file.now) (IsFirstMark file.now) }
{
    for place in 0..file.len() {
        if is_mark_here(file, place) {
            return Some(place);
        }
    }
    None
}

/// A line that is exactly `%%` begins here.
fn is_mark_here(file: &[u8], place: usize) -> bool
    requires { place ≤ length file.now }
    ensures { result ≡ is_mark_at file.now place }
{
    (place == 0 || file[place - 1] == b'\n') && begins_with_mark(&file[place..])
}

/// The first line of a text is exactly `%%`.
fn begins_with_mark(text: &[u8]) -> bool
    ensures { result ≡ is_mark text.now }
{
    text.starts_with(b"%%") && (text.len() == 2 || text[2] == b'\n')
}
