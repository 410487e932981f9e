// One record: id, space, name, line end, and the line with the peeled id if there is one.
ghost use Rattle.std.specs.Prelude.{◌≡◌, ◌+◌, take, drop};
ghost use Rattle.class.specs.Class.{paper};
ghost use Rattle.decode.specs.Record.{record_of};

use parse::line::Text;

// The first part of a record that can't be read, by its number.
#[derive(Clone, Copy)]
pub enum Fault {
    Id = 41,
    Space = 42,
    LineEnd = 43,
    Name = 44,
    Peeled = 45,
}

// A good record, by places counted from its start: the id stands at 0, the name behind the id and one space.
#[derive(Clone, Copy)]
pub struct Record {
    // The name's length.
    pub name_len: usize,
    // Where the peeled id stands, if there is one.
    pub peeled: Option<usize>,
    // The bytes that the record takes, line ends included.
    pub size: usize,
}

// The record at the front of the bytes, with ids of n digits.
pub fn reference(s: &[u8], n: usize) -> Result<Record, Fault>
    ensures { result ≡ record_of paper n s.now }
{
    let Some(id_end) = id::hex_hash(s, 0, n) else {
        return Err(Fault::Id);
    };
    let Some(from) = parse::part::past_byte(s, id_end, b' ') else {
        return Err(Fault::Space);
    };
    let Some(Text { end, next }) = parse::line::until_line_end(s, from) else {
        return Err(Fault::LineEnd);
    };
    let is_name = name::is_valid(parse::part::between(s, from, end));
    if !is_name {
        return Err(Fault::Name);
    }
    let name_len = end - from;
    let Some(peeled) = parse::part::past_byte(s, next, b'^') else {
        return Ok(Record {
            name_len,
            peeled: None,
            size: next,
        });
    };
    let Some(peeled_end) = id::hex_hash(s, peeled, n) else {
        return Err(Fault::Peeled);
    };
    let Some(size) = parse::line::newline(s, peeled_end) else {
        return Err(Fault::Peeled);
    };
    Ok(Record {
        name_len,
        peeled: Some(peeled),
        size,
    })
}

// The name of a record at the front of the bytes, as that part of them: behind n digits and one byte.
pub fn name_of(s: &[u8], n: usize, found: Record) -> &[u8]
    ensures { result.now ≡ take found.name_len (drop (n + 1) s.now) }
{
    let from = n.saturating_add(1);
    parse::part::between(s, from, from.saturating_add(found.name_len))
}
