// Public calls that the program does not make, and what takes lines and refuses one.
use std::test::Fail;
use test_cases::{library, lines};

#[test]
fn public_calls(rt: HostRuntime) -> Result<(), Fail> {
    let alloc = rt.alloc();
    library::fields_stand_between_blanks()?;
    library::derived_events_have_a_value(alloc)?;
    library::rows_of_a_file_have_their_names(alloc)?;
    library::sums_may_be_fewer_than_events(alloc)?;
    lines::refused_from_then_on(alloc)
}
