// The names that stand at places of the bytes, and the order of places by them.
ghost use Rattle.std.specs.Prelude.{◌≡◌, ◌+◌, drop};
ghost use Rattle.compare.specs.Order.{order_of};
ghost use Rattle.compare.specs.Prefix.{same};
ghost use Rattle.places.specs.Name.{standing_name};
ghost use Rattle.places.specs.Order.{comes_first};

use std::cmp::Ordering;

// How a name is found at a place of the bytes. Two ways and no closure: the definitions go by them (`standing_name`).
#[derive(Clone, Copy)]
pub enum Layout {
    // An edit: kind byte, name length, name (`parts`).
    Edit,
    // A record: an id of so many digits, one byte, then the name up to the first CR or LF (or the end).
    Record(usize),
}

// Whether the place p comes before the place q: by their names, and by place where these are the same.
pub fn comes_first(s: &[u8], layout: Layout, p: u32, q: u32) -> bool
    ensures { result ≡ comes_first layout s.now p q }
{
    compare(s, layout, p, q).then(p.cmp(&q)).is_lt()
}

// Whether the same name stands at two places.
pub fn same_name(s: &[u8], layout: Layout, p: u32, q: u32) -> bool
    ensures { result ≡ same (standing_name layout s.now p) (standing_name layout s.now q) }
{
    compare(s, layout, p, q).is_eq()
}

// The order of the names at two places.
pub(crate) fn compare(s: &[u8], layout: Layout, p: u32, q: u32) -> Ordering
    ensures { result ≡ order_of (standing_name layout s.now p) (standing_name layout s.now q) }
{
    match layout {
        Layout::Edit => compare::order::compare(parts::edit_name(s, p), parts::edit_name(s, q)),
        Layout::Record(digits) => crate::text::compare(
            behind_id(s, p, digits),
            behind_id(s, q, digits),
        ),
    }
}

// What stands behind the id of the record at a place and the one byte after it.
fn behind_id(s: &[u8], p: u32, digits: usize) -> &[u8]
    ensures { result.now ≡ drop (p + digits + 1) s.now }
{
    let at = p as usize;
    if s.len() <= at || s.len() - at <= digits {
        return &s[0..0];
    }
    let from = at + digits + 1;
    &s[from..]
}
