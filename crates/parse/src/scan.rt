// The next byte of one value, and the next that passes a test.
ghost use Rattle.std.specs.Prelude.{◌≡◌, ◌+◌, ◌≤◌, length, drop};
ghost use Rattle.parse.specs.Run.{before, FirstStop};

// The place of the first b from a place on, or the end; the place itself where that is beyond the end. Sixteen bytes a step where none of them is b.
// Always inlined: of a short line the call would be a good part.
#[inline(always)]
pub fn next_byte(s: &[u8], at: usize, b: u8) -> usize
    ensures { result ≡ at + before b (drop at s.now) }
{
    let Some(mut rest) = s.get(at..) else {
        return at;
    };
    while let Some((_, behind)) = rest.split_first_chunk::<16>() {
        if block::among16(rest, 0, b) {
            break;
        }
        rest = behind;
    }
    let place = s.len() - rest.len();
    if b < 14 {
        return place + until_low(rest, |x| x == b);
    }
    place + by_one(rest, b)
}

// How many bytes stand before the first b, byte by byte.
fn by_one(s: &[u8], b: u8) -> usize
    ensures { result ≡ before b s.now }
{
    s.iter().position(|x| *x == b).unwrap_or(s.len())
}

// How many bytes stand before the first that stops, where only low bytes do, as line ends are: eight bytes a step while none of them is low, then byte by byte.
// The library's `position` looks at one byte a step.
pub(crate) fn until_low<F: Fn(u8) -> bool>(s: &[u8], stop: F) -> usize
    requires { F.IsAlwaysCallable stop }
    ensures within { result ≤ length s.now }
    ensures first { FirstStop (F.post stop) s.now result }
{
    let mut i = 0;
    while let Some(n) = word::first_low(s, i) {
        if n < 8 {
            if stop(s[i + n]) {
                return i + n;
            }
            break;
        }
        i += 8;
    }
    for k in i..s.len() {
        if stop(s[k]) {
            return k;
        }
    }
    s.len()
}
