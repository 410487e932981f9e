// Where the record begins that a place lies in.
ghost use Rattle.std.specs.Prelude.{◌≡◌, length};
ghost use Rattle.probe.specs.RecordStart.{line_start, record_start, OfLine};

// The start of the record that a place lies in, by line feeds alone.
pub fn record_start(s: &[u8], place: usize) -> usize
    ensures { result ≡ record_start s.now place }
{
    from_line(s, line_start(s, place))
}

// The same, where the line is expected to begin far away: sixteen bytes a step at once. Two functions, since each is fast for its own kind of line
// (docs/DECISIONS.md, "Looking ahead in a search").
pub fn record_start_far(s: &[u8], place: usize) -> usize
    ensures { result ≡ record_start s.now place }
{
    from_line(s, line_start_far(s, place))
}

// The start of the record of a line that starts there.
fn from_line(s: &[u8], start: usize) -> usize
    ensures { OfLine s.now start result }
{
    if s.len() <= start {
        return 0;
    }
    if s[start] != b'^' {
        return start;
    }
    if start == 0 {
        return 0;
    }
    line_start(s, start - 1)
}

// The byte after the last LF before a place, or 0. A place beyond the end counts as the end. Eight bytes a step, eight times at most: most lines are short. Then
// sixteen a step.
pub(crate) fn line_start(s: &[u8], place: usize) -> usize
    ensures { result ≡ line_start s.now place }
{
    let mut i = place.min(s.len());
    for _ in 0..8 {
        if i < 8 {
            break;
        }
        let Some(n) = word::last_low(s, i - 8) else {
            break;
        };
        if n < 8 {
            if s[i - n - 1] == b'\n' {
                return i - n;
            }
            break;
        }
        i -= 8;
    }
    line_start_far(s, i)
}

// The same by sixteen bytes a step where there is no LF, then byte by byte.
fn line_start_far(s: &[u8], place: usize) -> usize
    ensures { result ≡ line_start s.now place }
{
    let mut rest = &s[..place.min(s.len())];
    while let Some((front, sixteen)) = rest.split_last_chunk::<16>() {
        if block::among(sixteen, b'\n') {
            break;
        }
        rest = front;
    }
    by_one(rest)
}

// The start of the last line, byte by byte.
fn by_one(s: &[u8]) -> usize
    ensures { result ≡ line_start s.now (length s.now) }
{
    match s.iter().rev().position(|b| *b == b'\n') {
        Some(n) => s.len() - n,
        None => 0,
    }
}
