// The worked rows, over the library, and reports of rows that are handed in: one test, since each costs a start of the prover.
use row_cases::{changes, exchanges, plain_rows, records, reports, totals};
use std::test::Fail;

#[test]
fn worked_rows(rt: HostRuntime) -> Result<(), Fail> {
    let alloc = rt.alloc();
    totals::totals_of_files(alloc)?;
    reports::rows_of_reports(alloc)?;
    changes::rows_of_changes(alloc)?;
    changes::rows_under_small_limits(alloc)?;
    changes::statuses_of_answers()?;
    changes::a_file_without_an_end(alloc)?;
    exchanges::a_stack_over_http(alloc)?;
    records::records_come_in_the_order_of_their_lines(alloc)?;
    records::a_record_comes_with_its_line(alloc)?;
    plain_rows::rows_of_one_key_are_added_up(alloc)?;
    plain_rows::a_difference_of_rows(alloc)?;
    plain_rows::callers_and_callees_of_rows(alloc)?;
    plain_rows::inclusive_costs_of_rows(alloc)
}
