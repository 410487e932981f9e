// A lent index of places is put in order of the names that stand there in lent bytes: in place, with no memory of its own.
// The index, the bytes and the layout stay three parameters of each function: the clauses speak of the index before and after and of the other two as they stand.
#![tactic(auto)]

ghost use Rattle.std.specs.Prelude.{◌≡◌, ◌+◌, ◌*◌, ◌≤◌, ◌<◌, length};
ghost use Rattle.sort.specs.Heap.{Heap, HeapBut, LargerChild, Moved, Down};
ghost use Rattle.places.specs.Order.{comes_first};
ghost use Rattle.sort.specs.Sorted.{sorted};

pub mod twin;

use places::name::Layout;

// Puts the places of an index in order of their names, and those of the same name in order of place: a heap sort.
//
// It takes O(n log n) comparisons for n places, whatever the names. `sink` is called n / 2 times to make the heap and
// n - 1 times to empty it. A call takes an entry down at most log2 n levels with one comparison a level, and up again
// no further, with one a level: at most 3 n log2 n comparisons in all. On the way down only the children are compared,
// since an entry that was a leaf mostly belongs near the leaves. So the way up is mostly short, and about n log2 n
// comparisons do. The library's `sort_unstable_by` takes O(n log n) too, but nothing says how many times n log2 n.
pub fn sort(index: &mut [u32], s: &[u8], layout: Layout)
    ensures { index.new ≡ sorted (comes_first layout s.now) index.old }
{
    make_heap(index, s, layout);
    for n in (1..index.len()).rev() {
        index.swap(0, n);
        sink(index, s, layout, 0, n);
    }
}

// The whole index becomes a heap, from the leaves up: the children of the entry k are the entries 2 k + 1 and 2 k + 2,
// and none comes after its parent.
fn make_heap(index: &mut [u32], s: &[u8], layout: Layout)
    ensures { Heap (comes_first layout s.now) index.new 0 (length index.new)
        × Moved index.old index.new (length index.old) }
{
    let n = index.len();
    for root in (0..n / 2).rev() {
        sink(index, s, layout, root, n);
    }
}

// The entry at root goes where it belongs among the first n, of which those behind root are a heap already.
fn sink(index: &mut [u32], s: &[u8], layout: Layout, root: usize, n: usize)
    requires { (root < n) × (n ≤ length index.old) × Heap (comes_first layout s.now) index.old (root + 1) n }
    ensures { Heap (comes_first layout s.now) index.new root n
        × Moved index.old index.new n }
{
    let leaf = descend(index, s, layout, root, n);
    rise(index, s, layout, root, leaf, n);
}

// The entry at root changes places with its larger child, down to a leaf. Gives that leaf.
fn descend(index: &mut [u32], s: &[u8], layout: Layout, root: usize, n: usize) -> usize
    requires { (root < n) × (n ≤ length index.old) × Heap (comes_first layout s.now) index.old (root + 1) n }
    ensures { Down (comes_first layout s.now) index.old index.new root n result
        × (n ≤ 2 * result + 1) }
{
    let mut k = root;
    while k < n / 2 {
        let child = larger_child(index, s, layout, k, n);
        index.swap(k, child);
        k = child;
    }
    k
}

// The entry at a leaf changes places with its parent while that comes before it, up to root at most.
fn rise(index: &mut [u32], s: &[u8], layout: Layout, root: usize, leaf: usize, n: usize)
    requires { (root ≤ leaf) × (leaf < n) × (n ≤ 2 * leaf + 1) × (n ≤ length index.old)
        × HeapBut (comes_first layout s.now) index.old root n leaf }
    ensures { Heap (comes_first layout s.now) index.new root n
        × Moved index.old index.new n }
{
    let mut k = leaf;
    // While the parent is not in front of root.
    while 2 * root < k {
        let parent = (k - 1) / 2;
        if !places::name::comes_first(s, layout, index[parent], index[k]) {
            return;
        }
        index.swap(parent, k);
        k = parent;
    }
}

// Of the children of the entry k, the one that comes after the other.
fn larger_child(index: &[u32], s: &[u8], layout: Layout, k: usize, n: usize) -> usize
    requires { (2 * k + 1 < n) × (n ≤ length index.now) }
    ensures { LargerChild (comes_first layout s.now) index.now k n result }
{
    let left = 2 * k + 1;
    let right = left + 1;
    if n <= right {
        return left;
    }
    if places::name::comes_first(s, layout, index[left], index[right]) {
        return right;
    }
    left
}
