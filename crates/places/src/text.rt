// The order of two texts, each of which runs up to the first CR or LF of its bytes, in one pass.
ghost use Rattle.std.specs.Prelude.{◌≡◌, true, ◌+◌, leb, length, drop};
ghost use Rattle.class.specs.Class.{is_line_end};
ghost use Rattle.compare.specs.Order.{order_of};
ghost use Rattle.places.specs.Name.{text_of};
ghost use Rattle.places.specs.Letter.{letter, Alike};

use std::cmp::Ordering;

// Sixteen bytes a step where both texts go on alike, then letter by letter. The library compares slices, and these end where a letter says so.
pub(crate) fn compare(x: &[u8], y: &[u8]) -> Ordering
    ensures { result ≡ order_of (text_of x.now) (text_of y.now) }
{
    let mut i = 0;
    while alike16(x, y, i) {
        i += 16;
    }
    by_letter(x, y, i)
}

// Whether both texts go on alike for the sixteen bytes from i on. The loop has no early way out, so that it compiles to
// vector code.
fn alike16(x: &[u8], y: &[u8], i: usize) -> bool
    ensures { result ≡ true → Alike x.now y.now i 16 }
{
    if !sixteen_left(x, i) || !sixteen_left(y, i) {
        return false;
    }
    let mut alike = true;
    for k in 0..16 {
        let b = x[i + k];
        alike = alike & (b == y[i + k]) & !class::is_cr_or_lf(b);
    }
    alike
}

fn sixteen_left(x: &[u8], i: usize) -> bool
    ensures { result ≡ leb (i + 16) (length x.now) }
{
    16 <= x.len() && i <= x.len() - 16
}

// The order of what follows a place.
fn by_letter(x: &[u8], y: &[u8], at: usize) -> Ordering
    ensures { result ≡ order_of (text_of (drop at x.now)) (text_of (drop at y.now)) }
{
    let mut i = at;
    // No range says where this ends: one of the two texts does.
    loop {
        let a = letter_at(x, i);
        let order = a.cmp(&letter_at(y, i));
        if order.is_ne() || a == 0 {
            return order;
        }
        i += 1;
    }
}

// One more than the byte at a place of a text, and 0 where the text has ended. A number and no Option: an ended text comes before any letter.
fn letter_at(x: &[u8], i: usize) -> u32
    ensures { result ≡ letter (text_of (drop i x.now)) }
{
    let Some(&b) = x.get(i) else {
        return 0;
    };
    if class::is_cr_or_lf(b) {
        return 0;
    }
    u32::from(b) + 1
}
