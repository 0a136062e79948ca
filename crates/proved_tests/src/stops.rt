// A machine that stops at each change of the files of a store that is made, migrated or changed.
use std::test::Fail;
use test_cases::stops;

#[test]
fn a_machine_stops(rt: HostRuntime) -> Result<(), Fail> {
    let alloc = rt.alloc();
    stops::both_files_stop(alloc)?;
    stops::the_log_stops(alloc)?;
    stops::the_database_file_stops(alloc)
}
