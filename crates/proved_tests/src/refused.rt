// One allocation is refused: of a list of commands, and of changes of a store in pages.
use std::test::Fail;
use test_cases::{page_memory, refused};

#[test]
fn memory_refused_to_run(rt: HostRuntime) -> Result<(), Fail> {
    refused::memory_refused_to_run(rt.alloc())
}

#[test]
fn memory_refused_to_change_pages(rt: HostRuntime) -> Result<(), Fail> {
    page_memory::memory_refused_to_change_pages(rt.alloc())
}
