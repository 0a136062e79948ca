// Names that stand once.
ghost use Rattle.std.specs.Prelude.{◌≡◌};
ghost use Rattle.std.specs.List.{list_any};
ghost use Rattle.std.specs.Str.{bytes_eq};
ghost use Rattle.cg_text.specs.Distinct.{are_distinct};

use crate::list_vec::ListVec;

/// Whether a name is among others.
fn is_among(name: &[u8], names: &[ListVec<u8>]) -> bool
    ensures { result ≡ list_any (bytes_eq name.now) names.now }
{
    names.iter().any(|other| name == other.as_slice())
}

/// Whether no name stands twice.
pub fn are_distinct(names: &[ListVec<u8>]) -> bool
    ensures { result ≡ are_distinct names.now }
{
    let mut rest = names;
    while let Some((name, more)) = rest.split_first() {
        if is_among(name.as_slice(), more) {
            return false;
        }
        rest = more;
    }
    true
}
