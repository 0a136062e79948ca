// Subpositions of cost lines.
ghost use Rattle.std.specs.Prelude.{◌≡◌};
ghost use Rattle.cg_text.specs.Subpositions.{subpos_of};

use crate::faults::Fault;
use crate::numbers::number;
use crate::positions::SubPos;

/// The subposition that a field is, with the faults of `number`.
#[tactic(auto, unfolding(crate::specs::Subpositions::subpos_of))]
pub fn subpos(field: &[u8]) -> Result<SubPos, Fault>
    ensures { result ≡ subpos_of field.now }
{
    let Some((first, rest)) = field.split_first() else {
        return Ok(SubPos::Abs(number(field)?));
    };
    if *first == b'+' {
        return Ok(SubPos::Plus(number(rest)?));
    }
    if *first == b'-' {
        return Ok(SubPos::Minus(number(rest)?));
    }
    if *first == b'*' && rest.is_empty() {
        return Ok(SubPos::Same);
    }
    Ok(SubPos::Abs(number(field)?))
}
