// Parts of the lent bytes, for any two places.
ghost use Rattle.std.specs.Prelude.{◌≡◌, ◌-◌, take, drop};
ghost use Rattle.parse.specs.Part.{byte_at};

// The place behind the byte b, if that byte stands at a place.
pub fn past_byte(s: &[u8], at: usize, b: u8) -> Option<usize>
    ensures { result ≡ byte_at b s.now at }
{
    if s.len() <= at {
        return None;
    }
    if s[at] != b {
        return None;
    }
    Some(at + 1)
}

// The bytes from one place up to another, as far as there are any.
pub fn between(s: &[u8], from: usize, to: usize) -> &[u8]
    ensures { result.now ≡ take (to - from) (drop from s.now) }
{
    if to < from {
        return &s[0..0];
    }
    if to <= s.len() {
        return &s[from..to];
    }
    if from <= s.len() {
        return &s[from..];
    }
    &s[0..0]
}
