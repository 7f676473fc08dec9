//! Tables without tasks.
use pie_graph::TaskNo;
use pie_record::{Records, TaskNames};
use pie_tables::Tables;
use std::test::Fail;

#[test]
fn new_tables_have_no_record(rt: HostRuntime) -> Result<(), Fail> {
    let alloc = rt.alloc();
    let tables = Tables::new(alloc, TaskNames::new(alloc), Records::new(alloc))?;
    let outcome = tables.outcome(TaskNo(0))?;
    assert!(rt; outcome.is_none() && tables.ran.len() == 0);
    Ok(())
}
