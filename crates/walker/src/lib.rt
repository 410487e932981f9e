// The walk: a step that is given the line number of its place and hands on that of the next, so that a way through a whole file counts every line once.
#![tactic(auto)]

ghost use Rattle.std.specs.Prelude.{◌≡◌};
ghost use Rattle.walker.specs.Walk.{walk_answer, feeds_of};

use iter::step::Step;
use parse::limit::NotAdmitted;

// The line stands beside the answer and not in it: a refusal tells one, too, which is 0 (`handed_on`), and a reply takes it as it stands.
#[derive(Clone, Copy)]
pub struct Walked {
    // An error tells the line number that was given.
    pub answer: Result<Step, NotAdmitted>,
    // The line number of the next place; at an end the one that was given.
    pub line: u64,
}

pub fn walk(kind: u32, s: &[u8], place: usize, line: u64) -> Walked
    ensures { result ≡ walk_answer kind s.now place line }
{
    let answer = iter::step::next_on_line(kind, s, &s[0..0], place, line);
    match answer {
        Ok(step) => Walked {
            answer,
            line: line_number::more_lines(line, feeds_of(place, step)),
        },
        Err(_) => Walked { answer, line: 0 },
    }
}

// The line feeds of what a step from a place tells. A record has one, and one more with a peeled line; a line that is an error has one where it goes on behind
// its text.
fn feeds_of(place: usize, step: Step) -> u64
    ensures { result ≡ feeds_of place step }
{
    match step {
        Step::End { .. } => 0,
        Step::Good { found, .. } => { if found.peeled.is_some() { 2 } else { 1 } }
        Step::Error { text, next, .. } => {
            if text < next.saturating_sub(place) {
                1
            } else {
                0
            }
        }
    }
}
