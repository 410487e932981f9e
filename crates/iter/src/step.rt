// The step of an iteration: bytes and a place in; what stands there, and the next place, out. An error tells the number of its line: the plain
// step counts it; with a prefix there is none, and 0 is told. The walk (crate `walker`) is given it.
ghost use Rattle.std.specs.Prelude.{◌≡◌, []};
ghost use Rattle.class.specs.Class.{paper};
ghost use Rattle.iter.specs.Step.{step_of, step_answer, plain_answer, prefix_answer};

use decode::reference::{Fault, Record};
use parse::limit::NotAdmitted;

// An enum of its own: of the three outcomes each has its next place, which an Option<Result<..>> would need beside it.
#[derive(Clone, Copy)]
pub enum Step {
    // There is no further item: the length as next place.
    End {
        next: usize,
    },
    // A good record that begins at the place.
    Good {
        found: Record,
        next: usize,
    },
    // No record can be read at the place: the line's number, and the length of its text, which begins at the place.
    Error {
        fault: Fault,
        line: u64,
        text: usize,
        next: usize,
    },
}

// The plain step. The line of an error is counted in the lent bytes, and only where there is an error to tell.
pub fn next(kind: u32, s: &[u8], place: usize) -> Result<Step, NotAdmitted>
    ensures { result ≡ plain_answer kind s.now place }
{
    let mut step = next_on_line(kind, s, &s[0..0], place, 0)?;
    if let Step::Error { line, .. } = &mut step {
        *line = line_number::line_number(s, place);
    }
    Ok(step)
}

// The step with a prefix: a good record whose name doesn't begin with it ends the iteration. It starts in the middle, and tells no line.
pub fn next_with_prefix(
    kind: u32,
    s: &[u8],
    prefix: &[u8],
    place: usize,
) -> Result<Step, NotAdmitted>
    ensures { result ≡ prefix_answer kind prefix.now s.now place }
{
    next_on_line(kind, s, prefix, place, 0)
}

// The step, where an error tells the line number that is given. Always inlined: a step is large, and would be copied on its way to the walk.
#[inline(always)]
pub fn next_on_line(
    kind: u32,
    s: &[u8],
    prefix: &[u8],
    place: usize,
    line: u64,
) -> Result<Step, NotAdmitted>
    ensures { result ≡ step_answer kind prefix.now s.now place line }
{
    let n = parse::limit::admit(kind, s.len(), prefix.len())?;
    Ok(next_with_digits(n, prefix, s, place, line))
}

// The same for ids of n digits. Always inlined, too: where it was not, a listing took a third more time for each short line.
#[inline(always)]
pub fn next_with_digits(n: usize, prefix: &[u8], s: &[u8], place: usize, line: u64) -> Step
    ensures { result ≡ step_of paper n prefix.now s.now place line }
{
    if s.len() <= place {
        return Step::End { next: s.len() };
    }
    let rest = &s[place..];
    match decode::reference::reference(rest, n) {
        Ok(found) => {
            let name = decode::reference::name_of(rest, n, found);
            if !compare::prefix::begins_with(name, prefix) {
                return Step::End { next: s.len() };
            }
            Step::Good {
                found,
                next: place + found.size,
            }
        }
        Err(fault) => {
            let text = line_number::text_len(s, place);
            Step::Error {
                fault,
                line,
                text,
                next: line_number::behind(s.len(), place + text),
            }
        }
    }
}
