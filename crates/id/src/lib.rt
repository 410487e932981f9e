// Ids: n hex digits, kept as they stand.
#![tactic(auto)]

ghost use Rattle.std.specs.Prelude.{◌≡◌, leb, length};
ghost use Rattle.class.specs.Class.{paper, is_hex};
ghost use Rattle.parse.specs.Run.{span};
ghost use Rattle.id.specs.Id.{id_at};

// The place behind the n hex digits that stand at a place.
pub fn hex_hash(s: &[u8], at: usize, n: usize) -> Option<usize>
    ensures { result ≡ id_at paper n s.now at }
{
    if s.len() < at {
        // No digits stand there, which is enough where none is asked for.
        return if n == 0 { Some(at) } else { None };
    }
    if s.len() - at < n {
        return None;
    }
    if all_hex(&s[at..at + n]) {
        Some(at + n)
    } else {
        None
    }
}

// Sixteen a step, then eight, then the rest: a block is only vector code where its length is a number.
fn all_hex(digits: &[u8]) -> bool
    ensures { result ≡ leb (length digits.now) (span is_hex digits.now) }
{
    let mut left = digits;
    while 16 <= left.len() {
        if !block(&left[..16]) {
            return false;
        }
        left = &left[16..];
    }
    if 8 <= left.len() {
        if !block(&left[..8]) {
            return false;
        }
        left = &left[8..];
    }
    block(left)
}

// No way out before the last byte, as the library's `all` has one: so that for sixteen and for eight it compiles to vector code.
fn block(digits: &[u8]) -> bool
    ensures { result ≡ leb (length digits.now) (span is_hex digits.now) }
{
    let mut all = true;
    for &b in digits {
        all &= class::is_hex_digit(b);
    }
    all
}
