// The header: the first line of a file, where that begins with #.
#![tactic(auto)]

ghost use Rattle.std.specs.Prelude.{◌≡◌};
ghost use Rattle.class.specs.Class.{paper};
ghost use Rattle.header.specs.Header.{header_of, all_noted, tokens, noted, first_line, header_answer, plain_header};

use parse::limit::TooLarge;
use parse::line::Text;

// What a header says of peeled ids; each with the number that C is given.
#[derive(Clone, Copy)]
pub enum Peeled {
    Unspecified = 0,
    Partial = 1,
    Fully = 2,
}

#[derive(Clone, Copy)]
pub struct Header {
    pub peeled: Peeled,
    pub sorted: bool,
    // The place behind the header.
    pub body: usize,
}

// A first line that begins with # but is no header.
#[derive(Clone, Copy)]
pub struct BadHeader {
    // The length of its text.
    pub text: usize,
}

// The header, with the size limit first.
#[tactic(auto, unfolding(crate::specs::Header::header_answer))]
pub fn read_header(file: &[u8]) -> Result<Result<Header, BadHeader>, TooLarge>
    ensures { result ≡ header_answer file.now }
{
    if parse::limit::over_limit(file.len()) {
        return Err(TooLarge);
    }
    Ok(open(file))
}

// How a file opens. Where its first byte is no # there is no header, which counts as a header that says nothing.
#[tactic(auto, unfolding(crate::specs::Header::header_of))]
pub fn open(file: &[u8]) -> Result<Header, BadHeader>
    ensures { result ≡ header_of paper file.now }
{
    if file.is_empty() || file[0] != b'#' {
        return Ok(plain(0));
    }
    if !compare::prefix::begins_with(file, b"# pack-refs with: ") {
        return Err(BadHeader {
            text: first_line(file),
        });
    }
    let Some(Text { end, next }) = parse::line::until_line_end(file, 18) else {
        return Err(BadHeader {
            text: first_line(file),
        });
    };
    Ok(note_tokens(parse::part::between(file, 18, end), plain(next)))
}

// A header that says nothing, with the body from a place on.
fn plain(body: usize) -> Header
    ensures { result ≡ plain_header body }
{
    Header {
        peeled: Peeled::Unspecified,
        sorted: false,
        body,
    }
}

// The length of the first line without its LF or CR LF; all bytes where there is no LF.
#[tactic(auto, unfolding(crate::specs::Header::first_line))]
fn first_line(s: &[u8]) -> usize
    ensures { result ≡ first_line s.now }
{
    let end = parse::scan::next_byte(s, 0, b'\n');
    if 0 < end && end < s.len() && s[end - 1] == b'\r' {
        return end - 1;
    }
    end
}

// What a header says once every token of a text was noted, from the first to the last. Tokens are split at single spaces.
fn note_tokens(text: &[u8], before: Header) -> Header
    ensures { result ≡ all_noted (tokens text.now) before }
{
    text.split(|b| *b == b' ').fold(before, note)
}

// What a header says once one more token was noted.
#[tactic(auto, unfolding(crate::specs::Header::noted))]
fn note(before: Header, token: &[u8]) -> Header
    ensures { result ≡ noted token.now before }
{
    if compare::prefix::is_same(token, b"fully-peeled") {
        return Header {
            peeled: Peeled::Fully,
            ..before
        };
    }
    if compare::prefix::is_same(token, b"peeled") {
        return Header {
            peeled: Peeled::Partial,
            ..before
        };
    }
    if compare::prefix::is_same(token, b"sorted") {
        return Header {
            sorted: true,
            ..before
        };
    }
    before
}
