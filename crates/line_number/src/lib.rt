// The line that a place lies in: its number, and the text of it from the place on.
#![tactic(auto)]

ghost use Rattle.std.specs.Prelude.{◌≡◌, ◌+◌, ltb, drop};
ghost use Rattle.parse.specs.Choice.{if};
ghost use Rattle.line_number.specs.LineNumber.{line_feeds, line_told, at_most, until_feed};

// The number of the line that a place lies in: one more than the line feeds before it.
pub fn line_number(s: &[u8], place: usize) -> u64
    ensures { result ≡ line_told s.now place }
{
    more_lines(1, line_feeds(parse::part::between(s, 0, place)))
}

// A line number and so many lines more; the largest number stays.
pub fn more_lines(line: u64, lines: u64) -> u64
    ensures { result ≡ at_most (line + lines) }
{
    line.saturating_add(lines)
}

// How many line feeds stand in some bytes. One sum, which compiles to vector code; std's filter and count take the bytes one by one.
fn line_feeds(s: &[u8]) -> u64
    ensures { result ≡ line_feeds s.now }
{
    let mut count = 0;
    for b in s {
        count += u64::from(*b == b'\n');
    }
    count
}

// The length of a line's text from a place on, without the line feed that ends it: a last line that none ends loses nothing.
pub fn text_len(s: &[u8], place: usize) -> usize
    ensures { result ≡ until_feed (drop place s.now) }
{
    parse::scan::next_byte(s, place, b'\n') - place
}

// The place behind a line whose text ends at a place, in so many bytes: behind its line feed, or the end if there is none.
pub fn behind(len: usize, end: usize) -> usize
    ensures { result ≡ if (ltb end len) (end + 1) end }
{
    if end < len {
        return end + 1;
    }
    end
}
