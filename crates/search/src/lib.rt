// The search: halving over the places of a body, each probe reading the name of the record that the place lies in.
#![tactic(auto)]

ghost use Rattle.std.specs.Prelude.{◌≡◌, ◌≤◌, ◌<◌, length};
ghost use Rattle.class.specs.Class.{paper};
ghost use Rattle.probe.specs.RecordStart.{record_start};
ghost use Rattle.search.specs.Search.{search_of, probed_of};

use std::cmp::Ordering;

// What is known where no probe hit.
#[derive(Clone, Copy)]
pub struct Miss {
    // Where the search ended.
    pub place: usize,
    // Whether a probe met a shape that fails.
    pub failed: bool,
}

// What a probe says: how the name stands to the wanted one, and whether the shape failed. A pair and no Option: a shape that fails has an order too, that of the
// empty name, and the search goes on by it.
#[derive(Clone, Copy)]
pub struct Probed {
    pub order: Ordering,
    pub failed: bool,
}

// The search for any bytes in a body, with ids of n digits: the start of the record whose name is the wanted one. What is halved are the places of the body, for
// which there is no slice that the library could search, and what failed on the way is told beside the answer.
pub fn search(n: usize, s: &[u8], wanted: &[u8]) -> Result<usize, Miss>
    ensures { result ≡ search_of paper n s.now wanted.now }
{
    let mut low = 0;
    let mut high = s.len();
    let mut failed = false;
    loop {
        if high <= low {
            break Err(Miss {
                place: probe::start::record_start(s, low),
                failed,
            });
        }
        let middle = low + (high - low) / 2;
        let start = start_of(s, low, middle, high);
        let probed = probe(n, parse::part::between(s, start, s.len()), wanted);
        failed |= probed.failed;
        match probed.order {
            Ordering::Less => low = middle + 1,
            Ordering::Equal => break Ok(start),
            Ordering::Greater => high = middle,
        }
    }
}

// The start of the record that the middle lies in.
fn start_of(s: &[u8], low: usize, middle: usize, high: usize) -> usize
    requires { (low ≤ middle) × (middle < high) × (high ≤ length s.now) }
    ensures { result ≡ record_start s.now middle }
{
    if is_far(s, low, middle, high) {
        return probe::start::record_start_far(s, middle);
    }
    probe::start::record_start(s, middle)
}

// Whether the line may begin far away: NUL stands at both places of which one is probed next (or right beside it), so the bytes are no text. Nothing hangs on it but the step.
// What it is for is the look itself: what stands there is then on its way from memory while this probe is read, and waiting for memory is most of a search in a
// large file. A short range is near already.
fn is_far(s: &[u8], low: usize, middle: usize, high: usize) -> bool
    requires { (low ≤ middle) × (middle < high) × (high ≤ length s.now) }
{
    if high - low < 8192 {
        return false;
    }
    (s[low + (middle - low) / 2] == 0) & (s[middle + (high - middle) / 2] == 0)
}

// The name at the front of the bytes, by shape only, against the wanted one. A shape that fails counts as an empty name.
pub(crate) fn probe(n: usize, s: &[u8], wanted: &[u8]) -> Probed
    ensures { result ≡ probed_of paper n s.now wanted.now }
{
    let (name, failed) = match probe::shape::name_at_record_start(s, n) {
        Some(len) => {
            let from = n + 1;
            (parse::part::between(s, from, from + len), false)
        }
        None => (&s[0..0], true),
    };
    Probed {
        order: compare::order::compare(name, wanted),
        failed,
    }
}
