// Neighbours in an index that have the same name.
ghost use Rattle.std.specs.Prelude.{◌≡◌};
ghost use Rattle.places.specs.Name.{standing_name};
ghost use Rattle.sort.specs.Twin.{first_twin};

use places::name::Layout;

// The first twin in an index: the place of the second of the two. In a sorted one there is a twin wherever two names are the same.
pub fn first_twin(index: &[u32], s: &[u8], layout: Layout) -> Option<u32>
    ensures { result ≡ first_twin (standing_name layout s.now) index.now }
{
    for pair in index.windows(2) {
        let (first, second) = (pair[0], pair[1]);
        if places::name::same_name(s, layout, first, second) {
            return Some(second);
        }
    }
    None
}
