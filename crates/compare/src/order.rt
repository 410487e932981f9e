// The order of two byte strings: eight bytes a step, each eight read as one number; byte by byte where one of the strings has fewer.
ghost use Rattle.std.specs.Prelude.{◌≡◌};
ghost use Rattle.compare.specs.Order.{order_of, smaller};

use std::cmp::Ordering;

// Not by the library's `cmp`: that looks for the first bytes that differ in long runs, then in short ones and then one by one, so up to three times at a
// byte. Here no byte is looked at more than twice, and docs/COST.md counts on that where the check compares names.
pub fn compare(a: &[u8], b: &[u8]) -> Ordering
    ensures { result ≡ order_of a.now b.now }
{
    let m = a.len();
    let n = b.len();
    let l = m.min(n);
    if l < 8 {
        return by_one(a, b);
    }
    let mut i = 0;
    while 8 <= l - i {
        let u = word::number(a, i);
        let v = word::number(b, i);
        if u != v {
            return u.cmp(&v);
        }
        i += 8;
    }
    // The last eight that both have: some of them were looked at, and are alike.
    let p = word::number(a, l - 8);
    let q = word::number(b, l - 8);
    if p != q {
        return p.cmp(&q);
    }
    // Alike as far as both go: the shorter one is the smaller. By two tests, and not by the lengths' `cmp`: a test that is wrong by one letter is refused
    // for what it says then (must-fail/equal_strings_less.edit).
    if m < n {
        return Ordering::Less;
    }
    if n < m {
        return Ordering::Greater;
    }
    Ordering::Equal
}

// Whether the first is the smaller one.
pub fn is_less(a: &[u8], b: &[u8]) -> bool
    ensures { result ≡ smaller a.now b.now }
{
    compare(a, b).is_lt()
}

// The same order, byte by byte.
fn by_one(a: &[u8], b: &[u8]) -> Ordering
    ensures { result ≡ order_of a.now b.now }
{
    for i in 0..a.len().min(b.len()) {
        let x = a[i];
        let y = b[i];
        if x != y {
            return x.cmp(&y);
        }
    }
    a.len().cmp(&b.len())
}
