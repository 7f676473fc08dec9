//! Staged contents.

use pie_base::Path;
use pie_graph::TaskNo;
use pie_view::Stage;
use std::alloc::Global;
use std::process::Abort;
use std::test::Fail;

fn content(alloc: Global, bytes: &[u8]) -> Result<Vec<u8>, Fail> {
    let mut content = Vec::new(alloc);
    for byte in bytes {
        content.push(*byte)?;
    }
    Ok(content)
}

fn put(alloc: Global, stage: &mut Stage, no: u32, path: &Path, bytes: &[u8]) -> Result<(), Fail> {
    let bytes = content(alloc, bytes)?;
    stage.put(TaskNo(no), path.copy()?, bytes)?;
    Ok(())
}

fn holds(stage: &Stage, no: u32, path: &Path, bytes: &[u8]) -> bool {
    stage.get(TaskNo(no), path) == Some(bytes)
}

// Two tasks stage at one path, and then one of them is dropped.
fn staged(rt: &impl Abort, alloc: Global, stage: &mut Stage, path: &Path) -> Result<(), Fail> {
    put(alloc, stage, 0, path, b"one")?;
    put(alloc, stage, 1, path, b"two")?;
    put(alloc, stage, 0, path, b"three")?;
    assert!(rt; holds(&*stage, 0, path, b"three") && holds(&*stage, 1, path, b"two"));
    stage.drop_task(TaskNo(0));
    assert!(rt; stage.get(TaskNo(0), path).is_none() && holds(&*stage, 1, path, b"two"));
    Ok(())
}

#[test]
fn tasks_stage_apart(rt: HostRuntime) -> Result<(), Fail> {
    let path = Path::read(rt.alloc(), "out/a")?;
    staged(&rt, rt.alloc(), &mut Stage::new(rt.alloc()), &path)
}
