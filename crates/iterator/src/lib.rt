// An iteration as one value that holds the lent bytes and its place, as `packed::Iter` does. Its step moves it on.
#![tactic(auto)]

ghost use Rattle.std.specs.Prelude.{◌≡◌};
ghost use Rattle.iterator.specs.Next.{step_with, answer_of, stepped_from, next_iter};

use iter::step::Step;
use parse::limit::NotAdmitted;
use walker::Walked;

// The kind of the ids, the lent bytes, the prefix that names must begin with (an empty one is none), the place reached, and the
// number of its line. With a prefix the line is not known: a step leaves 0, unless it is refused.
#[derive(Clone, Copy)]
pub struct Iter<'a> {
    pub kind: u32,
    pub s: &'a [u8],
    pub prefix: &'a [u8],
    pub place: usize,
    pub line: u64,
}

// What a step answers, and the place and the line number that it leaves an iteration at.
#[derive(Clone, Copy)]
pub struct Stepped {
    pub answer: Result<Step, NotAdmitted>,
    pub place: usize,
    pub line: u64,
}

impl<'a> Iter<'a> {
    // An iteration that goes on from a place.
    pub fn new(kind: u32, s: &'a [u8], prefix: &'a [u8], place: usize, line: u64) -> Iter<'a>
        ensures { result ≡ record { kind = kind; s = s.entry; prefix = prefix.entry; place = place; line = line } }
    {
        Iter {
            kind,
            s,
            prefix,
            place,
            line,
        }
    }

    // One step of it: the walk's answer, or with a prefix that of the step with one; and the iteration stands where that answer leaves it. A refusal
    // leaves it as it was. This is no `Iterator`: a step may be refused, and the end has a next place, too.
    pub fn next(&mut self) -> Result<Step, NotAdmitted>
        ensures { (result ≡ answer_of self.old) × (self.new ≡ next_iter self.old) }
    {
        let to = if self.prefix.is_empty() {
            walker::walk(self.kind, self.s, self.place, self.line)
        } else {
            Walked {
                answer: iter::step::next_with_prefix(self.kind, self.s, self.prefix, self.place),
                line: 0,
            }
        };
        self.place = match to.answer? {
            Step::End { next } | Step::Good { next, .. } | Step::Error { next, .. } => next,
        };
        self.line = to.line;
        to.answer
    }
}

// One step of an iteration that is made here, and where it stands then. Its parameters are plain, so whoever calls it needs no
// proof by hand.
pub fn first<'a>(kind: u32, s: &'a [u8], prefix: &'a [u8], place: usize, line: u64) -> Stepped
    ensures { result ≡ stepped_from place line (step_with kind prefix.now s.now place line) }
{
    let mut it = Iter::new(kind, s, prefix, place, line);
    let answer = it.next();
    Stepped {
        answer,
        place: it.place,
        line: it.line,
    }
}
