// Printing an answer, part by part.
use std::io;

pub(crate) fn text(rt: &impl Print, t: &[u8]) -> io::Result<()> {
    rt.write_all(t)
}

// What stands beside the number of a refusal: beside 2 its text's length, beside these nothing, beside any other its place. So a number that is new
// here is told with its place.
pub(crate) fn refusal(rt: &impl Print, number: u32, at: usize, text_len: usize) -> io::Result<()> {
    match number {
        2 => print!(rt; " {text_len}"),
        1 | 3 | 4 | 5 | 10 | 12 | 13 | 14 | 15 | 16 | 17 => Ok(()),
        _ => print!(rt; " {at}"),
    }
}

// The same of a file that is checked: beside 41 to 45 the number of the line behind its place, and the length of its text.
pub(crate) fn file_refusal(
    rt: &impl Print,
    number: u32,
    at: usize,
    line: u64,
    text_len: usize,
) -> io::Result<()> {
    refusal(rt, number, at, text_len)?;
    match number {
        41..=45 => print!(rt; " {line} {text_len}"),
        _ => Ok(()),
    }
}
