//! Required tasks that are expected, and numbers that are looked for near another.
use pie_graph::TaskNo;
use pie_record::{Expected, Reader, TaskNames, encode_record};
use std::alloc::Global;
use std::test::Fail;

const ONE: &str = "000000036f6e6500000000";

const TWO: &str = "0000000374776f00000000";

// Adds the task with these canonical bytes, in hexadecimal digits.
fn add(alloc: Global, names: &mut TaskNames, digits: &str) -> Result<(), Fail> {
    let bytes = hex::decode(alloc, digits)?;
    let task = Reader::new(bytes.as_slice()).task(alloc)?;
    if names.as_slice().len() < 10 {
        if let None = names.number(&task)? {
            names.add(task)?;
        }
    }
    Ok(())
}

// The number of a task, looked for near another, or 9 where it has none.
fn near(alloc: Global, names: &TaskNames, digits: &str, near: u32) -> Result<u32, Fail> {
    let bytes = hex::decode(alloc, digits)?;
    let task = Reader::new(bytes.as_slice()).task(alloc)?;
    let mut bytes = Vec::new(alloc);
    let number = names.number_near(TaskNo(near), &mut bytes, &task)?;
    Ok(number.unwrap_or(TaskNo(9)).0)
}

#[test]
fn a_number_is_found_from_wherever_it_is_looked_for(rt: HostRuntime) -> Result<(), Fail> {
    let alloc = rt.alloc();
    let mut names = TaskNames::new(alloc);
    add(alloc, &mut names, ONE)?;
    for from in [0, 1, u32::MAX] {
        assert_eq!(rt; near(alloc, &names, ONE, from)?, 0, "at {from}");
        assert_eq!(rt; near(alloc, &names, TWO, from)?, 9, "at {from}");
    }
    add(alloc, &mut names, TWO)?;
    for from in [0, 1, u32::MAX] {
        assert_eq!(rt; near(alloc, &names, ONE, from)?, 0, "at {from}");
        assert_eq!(rt; near(alloc, &names, TWO, from)?, 1, "at {from}");
    }
    Ok(())
}

#[test]
fn a_record_is_the_same_whatever_is_expected(rt: HostRuntime) -> Result<(), Fail> {
    let alloc = rt.alloc();
    // `top`, which ran `one`, `two` and `one` again
    let digits = format!(in alloc;
        "00000003746f70000000000000000308{ONE}0508{TWO}0508{ONE}050000000000"
    )?;
    let bytes = hex::decode(alloc, digits.as_str())?;
    for known in [&[] as &[&str], &[ONE], &[TWO], &[ONE, TWO], &[TWO, ONE]] {
        let mut names = TaskNames::new(alloc);
        for digits in known {
            add(alloc, &mut names, digits)?;
        }
        for last in [0, 1, u32::MAX] {
            let mut expected = Expected::new(&names, TaskNo(last));
            let mut reader = Reader::new(bytes.as_slice());
            let rec = reader.record_among(alloc, &mut expected)?;
            assert_eq!(rt; reader.left(), 0);
            let written = encode_record(alloc, &rec)?;
            assert!(rt; written.as_slice() == bytes.as_slice(), "at {last}");
        }
    }
    Ok(())
}
