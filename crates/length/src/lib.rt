// A length in groups of seven bits: how an edit says how long its name is.
#![tactic(auto)]

ghost use Rattle.std.specs.Prelude.{◌≡◌};
ghost use Rattle.length.specs.Length.{length_at};

// A length, and the place behind it.
#[derive(Clone, Copy)]
pub struct Length {
    pub value: usize,
    pub next: usize,
}

// The length that stands at a place: groups of seven bits, low group first, top bit set on all but the last.
pub fn length_at(s: &[u8], at: usize) -> Option<Length>
    ensures { result ≡ length_at s.now at }
{
    let low = usize::from(*s.get(at)?);
    let next = at + 1;
    if low < 128 {
        return Some(Length { value: low, next });
    }
    let high = usize::from(*s.get(next)?);
    if high == 0 || 128 <= high {
        return None;
    }
    Some(Length {
        value: low % 128 + 128 * high,
        next: next + 1,
    })
}
