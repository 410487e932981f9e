// Sixteen bytes at one look.
#![tactic(auto)]

ghost use Rattle.std.specs.Prelude.{◌≡◌, take, drop};
ghost use Rattle.block.specs.Among.{among};

// Whether a byte is among the sixteen from a place on, or among those that are left. Always inlined, as the one below: where the sixteen are known to be
// there, only their vector code is left of it.
#[inline(always)]
pub fn among16(s: &[u8], at: usize, b: u8) -> bool
    ensures { result ≡ among b (take 16 (drop at s.now)) }
{
    let Some(rest) = s.get(at..) else {
        return false;
    };
    if rest.len() < 16 {
        return among(rest, b);
    }
    among(&rest[..16], b)
}

// Whether a byte is among these. With no early way out, so that for sixteen it compiles to vector code.
#[inline(always)]
pub fn among(s: &[u8], b: u8) -> bool
    ensures { result ≡ among b s.now }
{
    let mut any = false;
    for x in s {
        any = any | (*x == b);
    }
    any
}
