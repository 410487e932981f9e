// The new file put into an output: its header, old bytes between the runs, and the edits' lines in place of them.
ghost use Rattle.std.specs.Prelude.{◌≡◌, length};
ghost use Rattle.lines.specs.Lines.{lines_of_all};
ghost use Rattle.put.specs.Put.{over, place_behind};
ghost use Rattle.merge.specs.Override.{edit_at};
ghost use Rattle.merge.specs.Splice.{spliced_file};

// Writes as far as there is room. Gives the length of the whole new file even where it has no room, so that a call with an empty output measures it.
pub(crate) fn write(
    header: &[u8],
    n: usize,
    file: &[u8],
    body: usize,
    list: &[u8],
    index: &[u32],
    marks: &[usize],
    out: &mut [u8],
) -> usize
    ensures value { result ≡ place_behind 0 (length (spliced_file header.now n file.now list.now body index.now marks.now)) }
    ensures out_after { out.new ≡ over out.old 0 (spliced_file header.now n file.now list.now body index.now marks.now) }
{
    let mut at = put::bytes(out, 0, header);
    let mut from = body;
    for (j, place) in index.iter().enumerate() {
        at = put::lf(
            out,
            at,
            parse::part::between(file, from, runs::mark_at(marks, 2 * j)),
        );
        at = put_new(n, list, *place, out, at);
        from = runs::mark_at(marks, 2 * j + 1);
    }
    put::lf(out, at, parse::part::between(file, from, file.len()))
}

// The lines that an edit puts in the place of a record; gives the place behind them.
fn put_new(n: usize, list: &[u8], place: u32, out: &mut [u8], at: usize) -> usize
    ensures value { result ≡ place_behind at (length (lines_of_all (edit_at n list.now place).new)) }
    ensures out_after { out.new ≡ over out.old at (lines_of_all (edit_at n list.now place).new) }
{
    let kind = parts::edit_kind(list, place);
    if kind == 0 {
        return at;
    }
    let next = lines::put_record(
        out,
        at,
        parts::edit_id(n, list, place),
        parts::edit_name(list, place),
    );
    if kind == 1 {
        return next;
    }
    lines::put_peeled(out, next, parts::edit_peeled(n, list, place))
}
