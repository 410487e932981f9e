// A whole edit list: its edits' places, and the index of them in name order.
ghost use Rattle.std.specs.Prelude.{◌≡◌, true, ◌++◌, ◌≤◌, ◌<◌, length, take, drop};
ghost use Rattle.class.specs.Class.{paper};
ghost use Rattle.edits.specs.List.{edits_of, counted, is_whole, places_of, in_order, prepared_of, twins_of, index_after};

use edit::EditFault;
use places::name::Layout;

// The first fault of a list. The preparation and the merge hand on this value.
#[derive(Clone, Copy)]
pub enum ListFault {
    // The first edit that can't be taken: where it starts, and why.
    BadEdit { place: usize, fault: EditFault },
    // Where a 4,097th edit begins.
    TooMany(usize),
}

// Why an index can't hold all edits of a list in name order, no two of one name.
#[derive(Clone, Copy)]
pub enum NotPrepared {
    BadList(ListFault),
    ShortIndex,
    // Two edits of one name: the second place of the first equal pair.
    Twins(u32),
    TooLarge,
}

impl From<ListFault> for NotPrepared {
    ghost use Rattle.edits.specs.declared.list.NotPrepared.TheVariants.{BadList};

    ghost from_gives = { λ fault why. why ≡ BadList fault };

    fn from(fault: ListFault) -> NotPrepared {
        NotPrepared::BadList(fault)
    }
}

// The number of edits, or the first fault.
pub(crate) fn count(n: usize, list: &[u8]) -> Result<usize, ListFault>
    ensures { result ≡ counted 0 (edits_of paper n list.now) }
{
    let mut place = 0;
    let mut count = 0;
    // No range: a step is as long as the edit that stands there.
    while place < list.len() {
        if 4096 <= count {
            return Err(ListFault::TooMany(place));
        }
        let size = edit::read(n, &list[place..]).map_err(|fault| ListFault::BadEdit {
            place,
            fault,
        })?;
        place += size;
        count += 1;
    }
    Ok(count)
}

// So many edits, all of different names: their places go to the front of the index and are put in name order there; entries behind them stay. Before it is known that
// the list is whole and the index long enough, nothing is written.
pub fn prepare(n: usize, list: &[u8], index: &mut [u32]) -> Result<usize, NotPrepared>
    ensures value { result ≡ prepared_of paper n list.now (length index.old) }
    ensures index_after { index.new ≡ index_after paper n list.now index.old }
{
    if parse::limit::over_limit(list.len()) {
        return Err(NotPrepared::TooLarge);
    }
    let k = count(n, list)?;
    if index.len() < k {
        return Err(NotPrepared::ShortIndex);
    }
    fill(n, list, index);
    put_in_order(index, list, k)
}

// The first k entries in name order, and whether two of them are of one name.
fn put_in_order(index: &mut [u32], list: &[u8], k: usize) -> Result<usize, NotPrepared>
    requires { k ≤ length index.old }
    ensures value { result ≡ twins_of list.now k (in_order list.now (take k index.old)) }
    ensures index_after { index.new ≡ in_order list.now (take k index.old) ++ drop k index.old }
{
    sort::sort(&mut index[..k], list, Layout::Edit);
    twins(&index[..k], list, k)
}

// The answer once the index is in order.
fn twins(index: &[u32], list: &[u8], k: usize) -> Result<usize, NotPrepared>
    ensures { result ≡ twins_of list.now k index.now }
{
    match sort::twin::first_twin(index, list, Layout::Edit) {
        Some(place) => Err(NotPrepared::Twins(place)),
        None => Ok(k),
    }
}

// The edits' places, in list order.
fn fill(n: usize, list: &[u8], index: &mut [u32])
    requires { (length list.now < 4294967296) × (is_whole (edits_of paper n list.now) ≡ true)
        × (length (places_of (edits_of paper n list.now)) ≤ length index.old) }
    ensures { index.new ≡ places_of (edits_of paper n list.now)
        ++ drop (length (places_of (edits_of paper n list.now))) index.old }
{
    let mut place = 0;
    for entry in index.iter_mut() {
        // Where the list has ended there is no edit to read either.
        let Ok(size) = edit::read(n, &list[place..]) else {
            return;
        };
        *entry = place as u32;
        place += size;
    }
}
