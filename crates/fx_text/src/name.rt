ghost use Rattle.std.specs.Prelude.{◌≡◌, ◌<◌, length, IfSome};
ghost use Rattle.fx_text.specs.Names.{is_same_name, place_of};

use fx_base::{Bytes, Items};

/// Names in order, each in its first spelling.
pub type Names = Items<Bytes>;

/// Whether they are the same name, without regard to case.
pub fn is_same_name(a: &[u8], b: &[u8]) -> bool
    ensures { result ≡ is_same_name a.now b.now }
{
    a.eq_ignore_ascii_case(b)
}

/// The index from 0 of a name among others, without regard to case.
pub fn place_of(name: &[u8], names: &[Bytes]) -> Option<usize>
    ensures place { result ≡ place_of name.now names.now }
    ensures inside { IfSome result (λ i. i < length names.now) }
{
    names
        .iter()
        .position(|other| is_same_name(name, other.as_slice()))
}
