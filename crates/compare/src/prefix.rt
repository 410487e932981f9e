// Whether bytes begin with others, or are the same.
ghost use Rattle.std.specs.Prelude.{◌≡◌};
ghost use Rattle.compare.specs.Prefix.{begins, same};

#[tactic(auto, using(crate::proofs::Prefixes::begins_by_library))]
pub fn begins_with(s: &[u8], front: &[u8]) -> bool
    ensures { result ≡ begins front.now s.now }
{
    s.starts_with(front)
}

#[tactic(auto, using(crate::proofs::Prefixes::same_by_library))]
pub fn is_same(s: &[u8], other: &[u8]) -> bool
    ensures { result ≡ same other.now s.now }
{
    s == other
}
