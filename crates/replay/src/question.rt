// Reading the questions. A question's line has a letter, the id kind, the lengths of the bytes that it lends, two numbers, and what a reader may find it
// by. The bytes stand behind that line, and an LF behind them.
ghost use Rattle.std.specs.Prelude.{◌<◌, ◌≤◌, length};
ghost use Rattle.std.specs.Iterator.{at_most};

// What is asked, with the numbers that it takes.
#[derive(Clone, Copy)]
pub(crate) enum Asks {
    Header,
    Name,
    Iteration,
    Step { place: usize },
    Walk { place: usize, line: u64 },
    Check,
    RecordStart { place: usize },
    Lookup,
    Prefix,
    Trusted,
    Loose,
    Merge { index_len: usize, out_len: usize },
}

impl Asks {
    // What a letter asks, where there is such a letter.
    fn read(letter: u8, first: u64, second: u64) -> Option<Asks> {
        let place = first as usize;
        let asks = match letter {
            b'h' => Asks::Header,
            b'n' => Asks::Name,
            b'i' => Asks::Iteration,
            b't' => Asks::Step { place },
            b'w' => Asks::Walk {
                place,
                line: second,
            },
            b'c' => Asks::Check,
            b's' => Asks::RecordStart { place },
            b'f' => Asks::Lookup,
            b'p' => Asks::Prefix,
            b'a' => Asks::Trusted,
            b'l' => Asks::Loose,
            b'm' => Asks::Merge {
                index_len: place,
                out_len: second as usize,
            },
            _ => return None,
        };
        Some(asks)
    }
}

#[derive(Clone, Copy)]
pub(crate) struct Question<'a> {
    pub asks: Asks,
    pub kind: u32,
    // The bytes that are lent first, and those that are lent second.
    pub a: &'a [u8],
    pub b: &'a [u8],
}

#[derive(Clone, Copy)]
pub(crate) enum Said<'a> {
    Comment,
    Question(Question<'a>),
    // Neither a question nor a comment.
    Unreadable,
}

#[derive(Clone, Copy)]
pub(crate) struct Line<'a> {
    // The line as it stands, with its LF.
    pub text: &'a [u8],
    pub said: Said<'a>,
}

// The comments and questions of a file that are left.
#[derive(Drop)]
pub(crate) struct Lines<'a> {
    pub file: &'a [u8],
    pub rest: &'a [u8],
}

impl<'a> Iterator for Lines<'a> {
    type Item = Line<'a>;

    ghost remaining = { λ s. at_most (length s.rest.now) };

    fn next(&mut self) -> Option<Line<'a>> {
        let (letter, numbers) = self.rest.split_first()?;
        let (text, behind) = through_line_end(self.rest);
        let (said, rest) = read(*letter, Numbers::read(self.file, numbers), behind);
        self.rest = rest;
        Some(Line { text, said })
    }
}

// What a line of a letter and numbers says, and what stands behind the bytes that it lends, which stand behind the line.
fn read<'a>(letter: u8, numbers: Option<Numbers>, behind: &'a [u8]) -> (Said<'a>, &'a [u8])
    ensures { length result.1.now ≤ length behind.now }
{
    if letter == b'#' {
        return (Said::Comment, behind);
    }
    let Some(n) = numbers else {
        return (Said::Unreadable, behind);
    };
    let (a, rest) = front(behind, n.a_len as usize);
    let (b, rest) = front(rest, n.b_len as usize);
    let (_, rest) = through_line_end(rest);
    let said = match Asks::read(letter, n.first, n.second) {
        Some(asks) => Said::Question(Question {
            asks,
            kind: n.kind,
            a,
            b,
        }),
        None => Said::Unreadable,
    };
    (said, rest)
}

// The numbers of a question's line.
#[derive(Clone, Copy)]
struct Numbers {
    kind: u32,
    a_len: u64,
    b_len: u64,
    first: u64,
    second: u64,
}

impl Numbers {
    // The numbers in front of s. Where one is missing, it is 0, and the next is read at the start of the file: there is none but in a file that begins with
    // a space, so all are missing.
    fn read(file: &[u8], s: &[u8]) -> Option<Numbers> {
        let (kind, rest) = number(s).unwrap_or((0, file));
        let (a_len, rest) = number(rest).unwrap_or((0, file));
        let (b_len, rest) = number(rest).unwrap_or((0, file));
        let (first, rest) = number(rest).unwrap_or((0, file));
        let (second, _) = number(rest)?;
        if 2 < kind {
            return None;
        }
        Some(Numbers {
            kind: kind as u32,
            a_len,
            b_len,
            first,
            second,
        })
    }
}

// A space and a number, and what stands behind them.
fn number(s: &[u8]) -> Option<(u64, &[u8])> {
    match s {
        [b' ', rest @ ..] => digits(rest),
        _ => None,
    }
}

// The decimal digits in front, and what stands behind them. A number over the largest stops before the digit that would make it so, or wraps at the last.
fn digits(s: &[u8]) -> Option<(u64, &[u8])> {
    let mut value: u64 = 0;
    let mut rest = s;
    while let [digit @ b'0'..=b'9', behind @ ..] = rest {
        if 1844674407370955161 < value {
            break;
        }
        value = (value * 10).wrapping_add(u64::from(*digit - b'0'));
        rest = behind;
    }
    if rest.len() == s.len() {
        return None;
    }
    Some((value, rest))
}

// A line with its LF, or all where there is none, and what stands behind it.
fn through_line_end(s: &[u8]) -> (&[u8], &[u8])
    ensures shrinks { 0 < length s.now → length result.1.now < length s.now }
    ensures bound { length result.1.now ≤ length s.now }
{
    front(s, parse::line::line_end(s, 0))
}

// So many bytes in front, or all where there are fewer, and what stands behind them.
fn front(s: &[u8], n: usize) -> (&[u8], &[u8])
    ensures shrinks { 0 < n → 0 < length s.now → length result.1.now < length s.now }
    ensures bound { length result.1.now ≤ length s.now }
{
    s.split_at(n.min(s.len()))
}
