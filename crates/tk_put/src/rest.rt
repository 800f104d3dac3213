//! What is left of bytes behind their front: `rest_of`.

ghost use Rattle.std.specs.Prelude.{◌≡◌, ◌≤◌, length, drop};

/// Returns the bytes from an index on, which is at most their length.
#[tactic(auto, using(std::proofs::lemmas::List::take_rest))]
pub fn rest_of(bytes: &[u8], at: usize) -> &[u8]
    requires { at ≤ length bytes.now }
    ensures { result.now ≡ drop at bytes.now }
{
    &bytes[at..]
}
