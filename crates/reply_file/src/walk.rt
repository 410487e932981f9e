// Iteration: where it starts, and its steps.
ghost use Rattle.std.specs.Prelude.{◌≡◌};
ghost use Rattle.start.specs.Start.{start_answer};
ghost use Rattle.iter.specs.Step.{plain_answer, prefix_answer};
ghost use Rattle.walker.specs.Walk.{walk_answer};
ghost use Rattle.reply_file.specs.Walk.{start_reply, step_reply, walk_reply, step_told, StepNear};

use header::BadHeader;
use iter::step::Step;
use parse::limit::NotAdmitted;
use start::Start;

#[repr(C)]
#[derive(Clone, Copy, Default)]
pub struct StartReply {
    pub number: u32,
    // Behind the header.
    pub place: usize,
    // The number of the line that begins there: the first walk is given it.
    pub line: u64,
    // The length of number 2's text, which starts at 0.
    pub text_len: usize,
}

pub fn start_reply(kind: u32, file: &[u8]) -> StartReply
    ensures { result ≡ start_reply (start_answer kind file.now) }
{
    start_told(start::begin(kind, file))
}

fn start_told(answer: Result<Result<Start, BadHeader>, NotAdmitted>) -> StartReply
    ensures { result ≡ start_reply answer }
{
    match answer {
        Ok(Ok(Start { place, line })) => StartReply {
            place,
            line,
            ..StartReply::default()
        },
        Ok(Err(BadHeader { text })) => StartReply {
            number: 2,
            text_len: text,
            ..StartReply::default()
        },
        Err(why) => StartReply {
            number: why as u32,
            ..StartReply::default()
        },
    }
}

#[repr(C)]
#[derive(Clone, Copy, Default)]
pub struct StepReply {
    pub number: u32,
    // Beside number 0: 0 the end, 1 a record, 2 an error. A refusal has 0 here, too: look at the number first.
    pub what: u32,
    // Where the item starts: a record's id, or an error's text.
    pub start: usize,
    // The place that the next step is given.
    pub next: usize,
    // A record's name, and its peeled id, 0 where there is none.
    pub name_at: usize,
    pub name_len: usize,
    pub peeled_at: usize,
    // Of an error: 41 to 45, by the first of its parts that can't be read.
    pub why: u32,
    // Of an error: the number of its line, 0 with a prefix.
    pub line: u64,
    // The line number that the next walk is given; 0 from the other steps.
    pub next_line: u64,
    // Of an error: the length of its line from `start` on, without the LF that ends it.
    pub text_len: usize,
}

// The plain step: the line of an error is counted in the bytes.
pub fn step_reply(kind: u32, bytes: &[u8], place: usize) -> StepReply
    ensures { result ≡ step_reply kind place (plain_answer kind bytes.now place) }
{
    step_told(kind, place, 0, iter::step::next(kind, bytes, place))
}

// The walk: the line of an error is the one that is given, and the next one is handed on.
pub fn walk_reply(kind: u32, bytes: &[u8], place: usize, line: u64) -> StepReply
    ensures { result ≡ walk_reply kind place (walk_answer kind bytes.now place line) }
{
    let walked = walker::walk(kind, bytes, place, line);
    step_told(kind, place, walked.line, walked.answer)
}

// The step with a prefix: no line is told.
pub fn prefix_step_reply(kind: u32, bytes: &[u8], prefix: &[u8], place: usize) -> StepReply
    ensures { result ≡ step_reply kind place (prefix_answer kind prefix.now bytes.now place) }
{
    step_told(
        kind,
        place,
        0,
        iter::step::next_with_prefix(kind, bytes, prefix, place),
    )
}

// What an answer tells, with the line number that is handed on beside it. A refusal hands on nothing.
fn step_told(
    kind: u32,
    place: usize,
    next_line: u64,
    answer: Result<Step, NotAdmitted>,
) -> StepReply
    requires { StepNear place answer }
    ensures { result ≡ step_told kind place next_line answer }
{
    match answer {
        Ok(Step::End { next }) => StepReply {
            next,
            next_line,
            ..StepReply::default()
        },
        Ok(Step::Good { found, next }) => {
            let parts = tell::parts_at(kind, place, found);
            StepReply {
                what: 1,
                start: place,
                next,
                name_at: parts.name_at,
                name_len: parts.name_len,
                peeled_at: parts.peeled_at,
                next_line,
                ..StepReply::default()
            }
        }
        Ok(
            Step::Error {
                fault,
                line,
                text,
                next,
            },
        ) => StepReply {
            what: 2,
            start: place,
            next,
            why: tell::fault_number(fault),
            line,
            next_line,
            text_len: text,
            ..StepReply::default()
        },
        Err(why) => StepReply {
            number: why as u32,
            ..StepReply::default()
        },
    }
}
