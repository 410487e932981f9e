// Lines: the end of a line, and the text before it.
ghost use Rattle.std.specs.Prelude.{◌≡◌, ◌+◌, drop};
ghost use Rattle.class.specs.Class.{paper};
ghost use Rattle.parse.specs.Line.{newline_at, text_len, text_at, line_len};

use crate::scan;

// Text that ends in a line end.
#[derive(Clone, Copy)]
pub struct Text {
    // Where the text ends.
    pub end: usize,
    // The place behind the line end.
    pub next: usize,
}

// The place behind the LF or CR LF that stands at a place.
#[tactic(auto, using(crate::proofs::Lines::newlines))]
pub fn newline(s: &[u8], at: usize) -> Option<usize>
    ensures { result ≡ newline_at s.now at }
{
    if s.len() <= at {
        return None;
    }
    if s[at] == b'\n' {
        return Some(at + 1);
    }
    if s[at] != b'\r' {
        return None;
    }
    if s.len() - at < 2 {
        return None;
    }
    if s[at + 1] != b'\n' {
        return None;
    }
    Some(at + 2)
}

// The place of the first CR or LF from a place on, or the end; the place itself where that is beyond the end.
pub(crate) fn text_end(s: &[u8], at: usize) -> usize
    ensures { result ≡ at + text_len paper (drop at s.now) }
{
    let Some(rest) = s.get(at..) else {
        return at;
    };
    at + scan::until_low(rest, class::is_cr_or_lf)
}

// The text that stands at a place, with its line end.
pub fn until_line_end(s: &[u8], at: usize) -> Option<Text>
    ensures { result ≡ text_at paper s.now at }
{
    let end = text_end(s, at);
    let next = newline(s, end)?;
    Some(Text { end, next })
}

// The place behind the next LF, or the end; the place itself where that is beyond the end.
pub fn line_end(s: &[u8], at: usize) -> usize
    ensures { result ≡ at + line_len (drop at s.now) }
{
    let feed = scan::next_byte(s, at, b'\n');
    if feed < s.len() {
        return feed + 1;
    }
    feed
}
