// Asks the library each question of the file `questions` and prints its answer.
//
// rt holds what is printed to the file `stdout`, which has the answers that Git, the Rust and the model gave. vectors/README.md says how to read
// both. Each line that says what is asked, and each comment, is printed as it stands.
#![tactic(auto)]

mod asking;
mod merging;
mod question;
mod telling;

ghost use Rattle.std.specs.Prelude.{◌≤◌, length, IfOk};

use question::{Line, Lines, Said};
use std::fs::File;
use std::io;
use std::io::Read;

// Answers a question, or passes over a comment.
fn answer(rt: &impl Print, line: Line) -> io::Result<()> {
    telling::text(rt, line.text)?;
    match line.said {
        Said::Comment => Ok(()),
        Said::Question(q) => {
            telling::text(rt, b"=")?;
            asking::ask(rt, q)?;
            telling::text(rt, b"\n")
        },
        Said::Unreadable => telling::text(rt, b"= not a question\n"),
    }
}

fn replay(rt: &impl Print, file: &[u8]) -> io::Result<()> {
    for line in (Lines { file, rest: file }) {
        answer(rt, line)?;
    }
    Ok(())
}

// Reads until the array is full or the input ends, and gives how many bytes it put at the start of the array.
fn read_full(source: &mut impl Read, file: &mut [u8]) -> io::Result<usize>
    ensures { IfOk result (λ n. n ≤ length file.new) }
{
    let mut done = 0;
    while done < file.len() {
        match source.read(&mut file[done..])? {
            0 => break,
            n => done += n,
        }
    }
    Ok(done)
}

fn read_and_replay(rt: &impl Print, source: &mut impl Read, file: &mut [u8]) -> io::Result<()> {
    let n = read_full(source, file)?;
    // The file has to leave a byte free: a full array would not show whether all of the file was read.
    if n == file.len() {
        return telling::text(rt, b"questions: too long a file\n");
    }
    replay(rt, &file[..n])
}

// An array is lent as one before it is lent as a slice, since its owner's proof would go through all its bytes otherwise.
fn lend(rt: &impl Print, source: &mut impl Read, file: &mut [u8; 2097152]) -> io::Result<()> {
    read_and_replay(rt, source, file)
}

fn main(rt: HostRuntime) -> io::Result<()> {
    let path = "questions";
    match File::open(&rt, path) {
        Ok(mut source) => {
            // Fixed memory: nothing here allocates.
            let mut file = [0; 2097152];
            lend(&rt, &mut source, &mut file)
        },
        Err(e) => eprintln!(rt; "{path}: {e}"),
    }
}
