// Texts put into lent bytes, as far as there is room. No place is too far, and no text too long. Each function gives the place behind its text,
// where the next one goes: where that is larger than any usize it is the largest one, which lies beyond all lent bytes as well.
// The output and the place stay two parameters of each: the clauses speak of the output before and after, and of the place as a number that is handed on.
#![tactic(auto)]

ghost use Rattle.std.specs.Prelude.{◌≡◌, ◌∷◌, [], length};
ghost use Rattle.hex_digits.specs.Hex.{hex_text};
ghost use Rattle.put.specs.Cr.{without_cr};
ghost use Rattle.put.specs.Put.{over, place_behind};

#[tactic(auto, using(crate::proofs::Laws::over_byte), unfolding(crate::specs::Put::place_behind))]
pub fn byte(out: &mut [u8], at: usize, b: u8) -> usize
    ensures { (out.new ≡ over out.old at (b ∷ [])) × (result ≡ place_behind at 1) }
{
    if at < out.len() {
        out[at] = b;
    }
    at.saturating_add(1)
}

#[tactic(auto, unfolding(crate::specs::Put::place_behind))]
pub fn bytes(out: &mut [u8], at: usize, src: &[u8]) -> usize
    ensures { (out.new ≡ over out.old at src.now) × (result ≡ place_behind at (length src.now)) }
{
    copy(out, at, src);
    at.saturating_add(src.len())
}

// The loop tests nothing else, so that it compiles to a block copy in its place. The library's `copy_from_slice` would be a call of `memmove`,
// which the archive for C would then need from outside.
fn copy(out: &mut [u8], at: usize, src: &[u8])
    ensures { out.new ≡ over out.old at src.now }
{
    if at < out.len() {
        let n = src.len().min(out.len() - at);
        for i in 0..n {
            out[at + i] = src[i];
        }
    }
}

// Raw bytes as hex digits.
pub fn hex(out: &mut [u8], at: usize, raw: &[u8]) -> usize
    ensures { (out.new ≡ over out.old at (hex_text raw.now)) × (result ≡ place_behind at (length (hex_text raw.now))) }
{
    digits(out, at, raw);
    at.saturating_add(2 * raw.len())
}

// Two digits a byte. The place is counted here and not taken from `byte`: each turn would wait for the sum of the one before it, and all takes half as long again.
fn digits(out: &mut [u8], at: usize, raw: &[u8])
    ensures { out.new ≡ over out.old at (hex_text raw.now) }
{
    let mut to = at;
    for &b in raw {
        if out.len() <= to {
            return;
        }
        byte(out, to, hex_digits::high(b));
        byte(out, to + 1, hex_digits::low(b));
        to += 2;
    }
}

// Bytes without any CR. Each piece between two CRs is copied as one. The library's `split` looks at one byte a step; this takes sixteen.
pub fn lf(out: &mut [u8], at: usize, src: &[u8]) -> usize
    ensures { (out.new ≡ over out.old at (without_cr src.now)) × (result ≡ place_behind at (length (without_cr src.now))) }
{
    let mut from = 0;
    let mut to = at;
    loop {
        let end = parse::scan::next_byte(src, from, b'\r');
        to = bytes(out, to, &src[from..end]);
        if src.len() <= end {
            return to;
        }
        from = end + 1;
    }
}
