// A merge: its answer, the index, the new file, and whether anything else was written.
use crate::question::Question;
use crate::telling;
use reply_merge::MergeReply;
use std::io;

// What the index and the output hold before.
const NO_PLACE: u32 = u32::MAX;

const UNTOUCHED: u8 = 165;

pub(crate) fn merge(
    rt: &impl Print,
    q: Question,
    index_len: usize,
    out_len: usize,
) -> io::Result<()> {
    // Fixed memory: nothing here allocates.
    let mut index = [NO_PLACE; 8192];
    let mut out = [UNTOUCHED; 65536];
    lend(rt, q, index_len, out_len, &mut index, &mut out)
}

// An array is lent as one before it is lent as a slice, since its owner's proof would go through all its elements otherwise.
fn lend(
    rt: &impl Print,
    q: Question,
    index_len: usize,
    out_len: usize,
    index: &mut [u32; 8192],
    out: &mut [u8; 65536],
) -> io::Result<()> {
    cut(rt, q, index_len, out_len, index, out)
}

// The index and the output have exactly the lengths that the question gives. Where there is no room for that, nothing is asked or answered.
fn cut(
    rt: &impl Print,
    q: Question,
    index_len: usize,
    out_len: usize,
    index: &mut [u32],
    out: &mut [u8],
) -> io::Result<()> {
    let (Some(index), Some(out)) = (index.get_mut(..index_len), out.get_mut(..out_len)) else {
        return Ok(());
    };
    write(rt, q, index, out)
}

// The bytes that are lent first are the old file, those that are lent second the edit list.
fn write(rt: &impl Print, q: Question, index: &mut [u32], out: &mut [u8]) -> io::Result<()> {
    let r = host::write::packed_refs_merge(q.kind, q.a, q.b, index, out);
    told(rt, r)?;
    entries(rt, index)?;
    written(rt, out, r.length)
}

fn told(rt: &impl Print, r: MergeReply) -> io::Result<()> {
    print!(rt; " {}", r.number)?;
    match r.number {
        0 => print!(rt; " {}", r.length),
        n => telling::file_refusal(rt, n, r.place, r.line, r.text_len),
    }
}

// The entries that were written.
fn entries(rt: &impl Print, index: &[u32]) -> io::Result<()> {
    telling::text(rt, b" x")?;
    let mut shown = 0;
    for (i, place) in index.iter().enumerate() {
        if *place == NO_PLACE {
            continue;
        }
        if shown < i {
            telling::text(rt, b" behind a gap")?;
        }
        print!(rt; " {place}")?;
        shown = i + 1;
    }
    Ok(())
}

// The new file as it stands, and whether the output holds what it held behind it.
fn written(rt: &impl Print, out: &[u8], n: usize) -> io::Result<()> {
    if !out.iter().skip(n).all(|b| *b == UNTOUCHED) {
        telling::text(rt, b" and more was written")?;
    }
    if 0 < n {
        telling::text(rt, b"\n")?;
        telling::text(rt, parse::part::between(out, 0, n))?;
    }
    Ok(())
}
