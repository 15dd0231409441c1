//! The place of a reader in its text.

ghost use Rattle.std.specs.Prelude.{◌≡◌, ◌<◌, ◌≤◌, ◌+◌, ◌++◌, ◌==◌, length, take, drop};
ghost use Rattle.std.specs.Str.{IsCharBoundary, trim_start};
ghost use Rattle.lp_spelling.specs.Counting.{line_len, front_line, behind_line, feeds, is_skipped, settled, IsLineAt};
ghost use Rattle.lp_spelling.specs.LineNumbers.{line_number, is_ended, past_last, number_at};
ghost use Rattle.std.proofs.Props.{props};

/// Whether a byte is a line feed.
pub(crate) fn ends_line(byte: u8) -> bool
    ensures { result ≡ (byte == 10) }
{
    byte == b'\n'
}

/// Where the line ends that goes on at a place of some bytes.
#[tactic(auto, using(crate::proofs::Counting::line_steps))]
fn line_end_in(text: &[u8], from: usize) -> usize
    requires { from ≤ length text.now }
    ensures place { result ≡ from + line_len (drop from text.now) }
    ensures bound { result ≤ length text.now }
{
    for at in from..text.len() {
        if ends_line(text[at]) {
            return at;
        }
    }
    text.len()
}

/// Where the line ends that goes on at a place: the place of its line feed, or the length.
pub(crate) fn line_end(text: &str, from: usize) -> usize
    requires { from ≤ length text.now }
    ensures place { result ≡ from + line_len (drop from text.now) }
    ensures bound { result ≤ length text.now }
{
    line_end_in(text.as_bytes(), from)
}

/// The place after the line that goes on at a place: behind its line feed, or the length.
fn next_line(text: &str, from: usize) -> usize
    requires { from ≤ length text.now }
    ensures rest { drop result text.now ≡ behind_line (drop from text.now) }
    ensures cut { IsCharBoundary text.now result }
    ensures after { from ≤ result }
{
    let end = line_end(text, from);
    if end < text.len() {
        end + 1
    } else {
        text.len()
    }
}

/// How many lines end before a place, from another on where so many end before that.
#[tactic(auto, using(crate::proofs::Counting::feed_steps))]
fn lines_ended_in(text: &[u8], from: usize, ended: usize, place: usize) -> usize
    requires from { from ≤ place }
    requires place { place ≤ length text.now }
    requires ended { ended ≡ feeds (take from text.now) }
    ensures { result ≡ feeds (take place text.now) }
{
    let mut count = ended;
    for at in from..place {
        if ends_line(text[at]) {
            count += 1;
        }
    }
    count
}

/// How many lines end before a place of a text, from another on where so many end before that.
fn lines_ended(text: &str, from: usize, ended: usize, place: usize) -> usize
    requires from { from ≤ place }
    requires place { place ≤ length text.now }
    requires ended { ended ≡ feeds (take from text.now) }
    ensures { result ≡ feeds (take place text.now) }
{
    lines_ended_in(text.as_bytes(), from, ended, place)
}

/// The number of a line before which so many end, from 1.
fn line_number(ended: usize) -> usize
    ensures { result ≡ line_number ended }
{
    ended.saturating_add(1)
}

/// Whether a text is empty, or ends with a line feed.
fn is_ended(text: &str) -> bool
    ensures { result ≡ is_ended text.now }
{
    text.is_empty() || text.as_bytes().ends_with(b"\n")
}

/// Whether a line, without the blanks in front, counts for nothing: it is empty, or a comment.
pub fn is_skipped(line: &str) -> bool
    ensures { result ≡ is_skipped line.now }
{
    line.is_empty() || line.as_bytes().starts_with(b"//")
}

/// A line without the blanks in front, where it then starts, and where it ends.
#[derive(Clone, Copy)]
struct Shown<'t> {
    line: &'t str,
    start: usize,
    end: usize,
}

/// The line that goes on at a place.
fn shown_at<'t>(text: &'t str, from: usize) -> Shown<'t>
    requires { IsCharBoundary text.now from }
    ensures line { result.line.now ≡ trim_start (front_line (drop from text.now)) }
    ensures start { drop result.start text.now ≡ result.line.now ++ drop (line_len (drop from text.now)) (drop from text.now) }
    ensures start_in { IsCharBoundary text.now result.start }
    ensures same_line { feeds (take result.start text.now) ≡ feeds (take from text.now) }
    ensures end { result.end ≡ from + line_len (drop from text.now) }
    ensures end_in { result.end ≤ length text.now }
{
    let end = line_end(text, from);
    let (_, rest) = text.split_at(from);
    let (whole, _) = rest.split_at(end - from);
    let line = whole.trim_start();
    Shown {
        line,
        start: end - line.len(),
        end,
    }
}

/// Where the next line that counts starts, behind its blanks, and how many lines end before that;
/// the length, where there is none.
fn settle(text: &str, from: usize, ended: usize) -> (usize, usize)
    requires from { IsCharBoundary text.now from }
    requires ended { ended ≡ feeds (take from text.now) }
    ensures start { drop result.0 text.now ≡ settled (drop from text.now) }
    ensures start_in { IsCharBoundary text.now result.0 }
    ensures before { result.1 ≡ feeds (take result.0 text.now) }
{
    let mut at = from;
    let mut before = ended;
    while at < text.len() {
        let shown = shown_at(text, at);
        if !is_skipped(shown.line) {
            return (shown.start, before);
        }
        if shown.end >= text.len() {
            return (text.len(), before);
        }
        at = shown.end + 1;
        before += 1;
    }
    (text.len(), before)
}

/// The line from a place on, if the text doesn't end there.
fn line_from<'t>(text: &'t str, start: usize) -> Option<&'t str>
    requires { IsCharBoundary text.now start }
    ensures { IsLineAt (drop start text.now) result }
{
    if start >= text.len() {
        return None;
    }
    let end = line_end(text, start);
    let (_, rest) = text.split_at(start);
    let (line, _) = rest.split_at(end - start);
    Some(line)
}

/// A place in a text: where what was read ends, and the next line that counts.
#[derive(Clone, Copy)]
pub struct Cursor<'t> {
    text: &'t str,
    /// Where the reading goes on, and how many lines end before that.
    raw: usize,
    ended: usize,
    /// Where the next line that counts starts, without its blanks, and how many lines end before
    /// that; at the end of the text, its length.
    start: usize,
    before: usize,
    /// That line.
    line: Option<&'t str>,
    ghost raw_in: { IsCharBoundary text.now raw },
    ghost raw_ended: { ended ≡ feeds (take raw text.now) },
    ghost start_in: { IsCharBoundary text.now start },
    ghost start_is: { drop start text.now ≡ settled (drop raw text.now) },
    ghost start_ended: { before ≡ feeds (take start text.now) },
    ghost line_is: { IsLineAt (drop start text.now) line } by { Prim.hlevel props },
}

/// A place in a text before which so many lines end.
fn placed<'t>(text: &'t str, raw: usize, ended: usize) -> Cursor<'t>
    requires raw { IsCharBoundary text.now raw }
    requires ended { ended ≡ feeds (take raw text.now) }
    ensures text { result.text.now ≡ text.now }
    ensures raw { result.raw ≡ raw }
{
    let (start, before) = settle(text, raw, ended);
    Cursor {
        text,
        raw,
        ended,
        start,
        before,
        line: line_from(text, start),
    }
}

impl<'t> Cursor<'t> {
    ghost use Rattle.lp_spelling.specs.Cursors.{left};

    /// The front of a text.
    pub fn new(text: &'t str) -> Cursor<'t>
        ensures text { result.text.now ≡ text.now }
        ensures rest { left result ≡ text.now }
    {
        placed(text, 0, 0)
    }

    /// The next line that counts.
    pub fn line(&self) -> Option<&'t str>
        ensures { IsLineAt (settled (left self.now)) result }
    {
        self.line
    }

    /// The number of that line, from 1; at the end of the text, one past that of the last line.
    pub fn number(&self) -> usize
        ensures { result ≡ number_at self.now.start self.now.text.now }
    {
        if self.start < self.text.len() {
            line_number(self.before)
        } else {
            self.past_last()
        }
    }

    /// Where that line starts, without its blanks; at the end of the text, its length.
    pub fn start(&self) -> usize
        ensures start { drop result self.now.text.now ≡ settled (left self.now) }
        ensures start_in { IsCharBoundary self.now.text.now result }
    {
        self.start
    }

    /// Where the reading goes on.
    pub fn raw(&self) -> usize
        ensures raw { result ≡ self.now.raw }
        ensures raw_in { IsCharBoundary self.now.text.now result }
    {
        self.raw
    }

    /// The whole text.
    pub fn text(&self) -> &'t str
        ensures { result.now ≡ self.now.text.now }
    {
        self.text
    }

    /// The number of the line at a place; at the end of the text, one past that of the last line.
    pub fn line_from(&self, place: usize) -> usize
        ensures { result ≡ number_at place self.now.text.now }
    {
        if place < self.text.len() {
            line_number(lines_ended(self.text, 0, 0, place))
        } else {
            self.past_last()
        }
    }

    /// One past the number of the last line.
    #[tactic(auto, using(crate::proofs::Cursors::feeds_all))]
    pub fn past_last(&self) -> usize
        ensures { result ≡ past_last self.now.text.now }
    {
        let ended = lines_ended(self.text, 0, 0, self.text.len());
        if is_ended(self.text) {
            line_number(ended)
        } else {
            line_number(line_number(ended))
        }
    }

    /// The place after the next line that counts.
    pub fn after_line(&self) -> Cursor<'t>
        ensures text { result.text.now ≡ self.now.text.now }
        ensures rest { left result ≡ behind_line (settled (left self.now)) }
    {
        let next = next_line(self.text, self.start);
        let ended = lines_ended(self.text, self.start, self.before, next);
        placed(self.text, next, ended)
    }

    /// How many lines end before a place.
    fn ended_before(&self, place: usize) -> usize
        requires { place ≤ length self.now.text.now }
        ensures { result ≡ feeds (take place self.now.text.now) }
    {
        if self.raw <= place {
            return lines_ended(self.text, self.raw, self.ended, place);
        }
        lines_ended(self.text, 0, 0, place)
    }

    /// Another place in the text.
    pub fn at(&self, place: usize) -> Cursor<'t>
        requires { IsCharBoundary self.now.text.now place }
        ensures text { result.text.now ≡ self.now.text.now }
        ensures rest { left result ≡ drop place self.now.text.now }
    {
        placed(self.text, place, self.ended_before(place))
    }
}
