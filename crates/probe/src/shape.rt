// The name of a record by shape only: hex and name rules aren't looked at.
ghost use Rattle.std.specs.Prelude.{◌≡◌};
ghost use Rattle.class.specs.Class.{paper};
ghost use Rattle.probe.specs.Shape.{shape_of};

use parse::line::Text;

// The length of the name of the record at the front of the bytes, by the shape of its first line: the name stands behind n bytes and a space.
pub fn name_at_record_start(s: &[u8], n: usize) -> Option<usize>
    ensures { result ≡ shape_of paper n s.now }
{
    let from = parse::part::past_byte(s, n, b' ')?;
    let Text { end, next: _ } = parse::line::until_line_end(s, from)?;
    if end <= from {
        return None;
    }
    Some(end - from)
}
