// What has to hold in a test.
ghost use Rattle.std.specs.Prelude.{◌≡◌, true, IfOk};

use std::test::Fail;

/// Fails with a text where what has to hold does not.
pub(crate) fn holds(is_so: bool, otherwise: &'static str) -> Result<(), Fail>
    ensures { IfOk result (λ _. is_so ≡ true) }
{
    if !is_so {
        Err(otherwise)?;
    }
    Ok(())
}
