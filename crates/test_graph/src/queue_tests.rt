//! A member is told, and a stranger isn't.

use pie_graph::TaskNo;
use pie_order::Candidates;
use std::test::Fail;

#[test]
fn a_task_that_joined_is_a_member(rt: HostRuntime) -> Result<(), Fail> {
    let alloc = rt.alloc();
    let mut candidates = Candidates::new(alloc);
    assert!(&rt; !candidates.contains(TaskNo(3)));
    candidates.add(TaskNo(3))?;
    candidates.add(TaskNo(3))?;
    assert!(&rt; candidates.contains(TaskNo(3)));
    assert!(&rt; !candidates.contains(TaskNo(0)));
    Ok(())
}
