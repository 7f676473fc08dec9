//! Rounds of a demo after the ten.
ghost use Rattle.std.specs.Prelude.{◌<◌, ◌≤◌};

use pie_base::Path;
use pie_demo::{Summary, demo, round};
use pie_files::SureFiles;
use pie_vm::Runs;
use std::alloc::Global;
use std::process::Abort;
use std::test::Fail;

// Round `k` of the demo of seed 7 and size 25 answers so, and starts so many tasks; the clean build of the copy starts 29.
fn goes(
    rt: &impl Abort,
    alloc: Global,
    files: &mut SureFiles,
    k: u32,
    wanted: (bool, usize),
) -> Result<(), Fail>
    requires first { 0 < k }
    requires last { k ≤ 1000 }
{
    let mut runs = Runs::new(alloc);
    let mut clean = Runs::new(alloc);
    let is_same = round(alloc, files, 7, 25, k, &mut runs, &mut clean)?;
    assert!(rt; (is_same, runs.count()) == wanted && clean.count() == 29);
    Ok(())
}

fn spoil(alloc: Global, files: &mut SureFiles) -> Result<(), Fail> {
    let path = Path::read(alloc, "out/all").map_err(|_| "path")?;
    files.put(&path, b"junk", 1)?;
    Ok(())
}

#[test]
fn a_round_tells_an_output_that_was_spoilt(rt: HostRuntime) -> Result<(), Fail> {
    let alloc = rt.alloc();
    let mut files = SureFiles::new(alloc);
    let mut runs = Runs::new(alloc);
    let mut clean = Runs::new(alloc);
    let summary = demo(alloc, &mut files, 7, 25, &mut runs, &mut clean)?;
    let wanted = Summary {
        tasks: 29,
        rounds: 10,
        ran: 20,
        same: 10,
    };
    assert!(rt; summary == wanted && runs.count() == 49 && clean.count() == 290);
    goes(&rt, alloc, &mut files, 11, (true, 3))?;
    spoil(alloc, &mut files)?;
    goes(&rt, alloc, &mut files, 12, (false, 1))?;
    goes(&rt, alloc, &mut files, 13, (true, 3))?;
    Ok(())
}
