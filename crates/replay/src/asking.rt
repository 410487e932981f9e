// A question to the library, and its answer. A field that says nothing beside a number is not printed.

use crate::question::{Asks, Question};
use crate::{merging, telling};
use reply_file::walk::StepReply;
use std::io;

pub(crate) fn ask(rt: &impl Print, q: Question) -> io::Result<()> {
    let kind = q.kind;
    match q.asks {
        Asks::Header => header(rt, q.a),
        Asks::Name => name(rt, q.a),
        Asks::Iteration => iteration(rt, kind, q.a),
        Asks::Step { place } => step(rt, kind, q.a, place),
        Asks::Walk { place, line } => walk(rt, kind, q.a, place, line),
        Asks::Check => check(rt, kind, q.a),
        Asks::RecordStart { place } => record_start(rt, q.a, place),
        Asks::Lookup => lookup(rt, kind, q.a, q.b),
        Asks::Prefix => prefix(rt, kind, q.a, q.b),
        Asks::Trusted => trusted(rt, kind, q.a, q.b),
        Asks::Loose => loose(rt, kind, q.a),
        Asks::Merge { index_len, out_len } => merging::merge(rt, q, index_len, out_len),
    }
}

fn header(rt: &impl Print, file: &[u8]) -> io::Result<()> {
    let r = host::read::packed_refs_header(file);
    print!(rt; " {}", r.number)?;
    match r.number {
        0 => print!(rt; " {} {} {}", r.peeled, r.sorted, r.place),
        2 => print!(rt; " {}", r.text_len),
        _ => Ok(()),
    }
}

fn name(rt: &impl Print, name: &[u8]) -> io::Result<()> {
    print!(rt; " {}", host::read::packed_refs_name(name))
}

// Where it begins, on which line, its items, and its end with the line that was handed on.
fn iteration(rt: &impl Print, kind: u32, file: &[u8]) -> io::Result<()> {
    let r = host::read::packed_refs_start(kind, file);
    print!(rt; " {}", r.number)?;
    match r.number {
        0 => {
            print!(rt; " {} {}", r.place, r.line)?;
            let end = items(rt, file.len(), r.place, r.line, |place, line| {
                host::read::packed_refs_walk(kind, file, place, line)
            })?;
            walked(rt, end)
        },
        2 => print!(rt; " {}", r.text_len),
        _ => Ok(()),
    }
}

// Where it begins, its items, and its end. Its step has its prefix, which may be empty, and hands on no line.
fn prefix(rt: &impl Print, kind: u32, body: &[u8], prefix: &[u8]) -> io::Result<()> {
    let r = host::read::packed_refs_prefix(kind, body, prefix);
    print!(rt; " {}", r.number)?;
    match r.number {
        0 => {
            print!(rt; " {}", r.place)?;
            let end = items(rt, body.len(), r.place, 0, |place, _line| {
                host::read::packed_refs_step_prefix(kind, body, prefix, place)
            })?;
            item(rt, end)
        },
        2 => print!(rt; " {} {}", r.text_at, r.text_len),
        _ => Ok(()),
    }
}

// The items of so many bytes from a place on, by the step that is given; the end is given back.
fn items<F: Fn(usize, u64) -> StepReply>(
    rt: &impl Print,
    len: usize,
    from: usize,
    first: u64,
    next: F,
) -> io::Result<StepReply>
    requires { F.IsAlwaysCallable next }
{
    let mut r = next(from, first);
    let mut place = from;
    while place < len && r.what != 0 {
        item(rt, r)?;
        // A step that stood still would be printed again and again.
        if r.next <= place {
            break;
        }
        place = r.next;
        r = next(place, r.next_line);
    }
    Ok(r)
}

fn step(rt: &impl Print, kind: u32, bytes: &[u8], place: usize) -> io::Result<()> {
    let r = host::read::packed_refs_step(kind, bytes, place);
    print!(rt; " {}", r.number)?;
    match r.number {
        0 => item(rt, r),
        _ => Ok(()),
    }
}

fn walk(rt: &impl Print, kind: u32, bytes: &[u8], place: usize, line: u64) -> io::Result<()> {
    let r = host::read::packed_refs_walk(kind, bytes, place, line);
    print!(rt; " {}", r.number)?;
    match r.number {
        0 => walked(rt, r),
        _ => Ok(()),
    }
}

// What a walk tells, and the line that it hands on.
fn walked(rt: &impl Print, r: StepReply) -> io::Result<()> {
    item(rt, r)?;
    print!(rt; " {}", r.next_line)
}

fn item(rt: &impl Print, r: StepReply) -> io::Result<()> {
    match r.what {
        0 => print!(rt; " . {}", r.next),
        1 => {
            telling::text(rt, b" r")?;
            record(rt, r.start, r.name_at, r.name_len, r.peeled_at)?;
            print!(rt; " {}", r.next)
        },
        _ => {
            print!(rt;
                " e {} {} {} {} {}",
                r.start, r.why, r.line, r.text_len, r.next
            )
        },
    }
}

fn record(
    rt: &impl Print,
    place: usize,
    name_at: usize,
    name_len: usize,
    peeled_at: usize,
) -> io::Result<()> {
    print!(rt; " {place} {name_at} {name_len} {peeled_at}")
}

fn check(rt: &impl Print, kind: u32, file: &[u8]) -> io::Result<()> {
    let r = host::read::packed_refs_check(kind, file);
    print!(rt; " {}", r.number)?;
    match r.number {
        0 => print!(rt; " {}", r.count),
        n => telling::file_refusal(rt, n, r.place, r.line, r.text_len),
    }
}

// Here the answer is the place alone.
fn record_start(rt: &impl Print, bytes: &[u8], place: usize) -> io::Result<()> {
    print!(rt; " {}", host::read::packed_refs_record_start(bytes, place))
}

fn lookup(rt: &impl Print, kind: u32, body: &[u8], name: &[u8]) -> io::Result<()> {
    let r = host::read::packed_refs_lookup(kind, body, name);
    print!(rt; " {}", r.number)?;
    match r.number {
        0 => record(rt, r.place, r.name_at, r.name_len, r.peeled_at),
        n => telling::refusal(rt, n, r.place, 0),
    }
}

fn trusted(rt: &impl Print, kind: u32, file: &[u8], name: &[u8]) -> io::Result<()> {
    let r = host::read::packed_refs_ask(kind, file, name);
    print!(rt; " {}", r.number)?;
    match r.number {
        0 => {
            record(rt, r.place, r.name_at, r.name_len, r.peeled_at)?;
            print!(rt; " {}", r.fault)
        },
        n => telling::file_refusal(rt, n, r.place, r.line, r.text_len),
    }
}

fn loose(rt: &impl Print, kind: u32, content: &[u8]) -> io::Result<()> {
    let r = host::read::packed_refs_loose(kind, content);
    print!(rt; " {}", r.number)?;
    match r.number {
        0 => print!(rt; " {} {} {}", r.what, r.at, r.len),
        _ => Ok(()),
    }
}
