use pie_base::{OutOfMemory, Path, Text};
use pie_graph::TaskNo;
use pie_record::{RecordFault, Records, TaskNames, decode_record, encode_record};
use pie_value::{Items, Stamp, Task, Value};
use std::alloc::Global;
use std::test::Fail;

// The record of a task that reads the file `s` of the one byte `1` and writes the same to `out/one`.
const RECORD: &str = "000000036f6e6500000000\
    00000001020000000173026b86b273ff34fce19d6b804eff5a3f5747ada4eaa22f1d49c01e52ddb7875b4b\
    00000001000000076f75742f6f6e656b86b273ff34fce19d6b804eff5a3f5747ada4eaa22f1d49c01e52ddb7875b4b\
    00";

fn task(alloc: Global, func: &str) -> Result<Task, Fail> {
    let func = Text::new(alloc, func)?;
    Ok(Task {
        func,
        args: Items::new(),
    })
}

// What decoding answers, as text: how many bytes were read, or the fault.
fn decoded(alloc: Global, digits: &str) -> Result<String, Fail> {
    let bytes = hex::decode(alloc, digits)?;
    match decode_record(alloc, bytes.as_slice()) {
        Ok((_, len)) => Ok(format!(in alloc; "{len}")?),
        Err(fault) => Ok(format!(in alloc; "{fault:?}")?),
    }
}

#[test]
fn each_record_is_read_or_refused_at_its_first_fault(rt: HostRuntime) -> Result<(), Fail> {
    let cases = [
        ("00000001660000000000000000000000000000", "18"),
        ("", "Short"),
        ("000000016600000000ffffffff", "Short"),
        ("00000001ff000000000000000000000000", "BadValue"),
        ("00000001660000000109", "BadValue"),
        ("00000001660000000000000001000000000173", "BadTag"),
        ("00000001660000000000000001090000000173", "BadTag"),
        ("0000000166000000000000000101000000017301", "Short"),
        ("0000000166000000000000000101000000017302", "BadTag"),
        ("0000000166000000000000000103000000017303", "Short"),
        ("0000000166000000000000000103000000017302", "BadTag"),
        ("0000000166000000000000000105000000017300", "BadTag"),
        ("00000001660000000000000001010000000100", "BadPath"),
        ("00000001660000000000000000000000010000000173", "BadPath"),
        ("00000001660000000000000000ffffffff", "Short"),
        ("0000000166000000000000000000000000", "Short"),
        ("000000016600000000000000000000000009", "BadValue"),
    ];
    for (digits, wanted) in cases {
        let answer = decoded(rt.alloc(), digits)?;
        assert_eq!(rt; answer.as_str(), wanted, "at {digits}");
    }
    Ok(())
}

#[test]
fn an_output_file_is_read_by_mark_with_a_hash(rt: HostRuntime) -> Result<(), Fail> {
    let mut digits = String::new(rt.alloc());
    digits.push_str("0000000166000000000000000103000000056f75742f6102")?;
    for _ in 0..32 {
        digits.push_str("00")?;
    }
    digits.push_str("0000000000")?;
    let answer = decoded(rt.alloc(), digits.as_str())?;
    assert_eq!(rt; answer.as_str(), "61");
    Ok(())
}

#[test]
fn a_record_has_its_canonical_bytes(rt: HostRuntime) -> Result<(), Fail> {
    let alloc = rt.alloc();
    let bytes = hex::decode(alloc, RECORD)?;
    assert_eq!(rt; bytes.len(), 102);
    let (rec, len) = decode_record(alloc, bytes.as_slice())?;
    assert_eq!(rt; len, 102);
    let copy = rec.copy(alloc)?;
    let written = encode_record(alloc, &copy)?;
    assert!(rt; written.as_slice() == bytes.as_slice());
    Ok(())
}

#[test]
fn a_record_that_is_cut_is_short(rt: HostRuntime) -> Result<(), Fail> {
    let alloc = rt.alloc();
    let bytes = hex::decode(alloc, RECORD)?;
    for len in 0..bytes.len() {
        let answer = decode_record(alloc, &bytes[..len]);
        assert!(rt; matches!(answer, Err(RecordFault::Short)), "at {len}");
    }
    Ok(())
}

#[test]
fn a_task_keeps_its_number(rt: HostRuntime) -> Result<(), Fail> {
    let alloc = rt.alloc();
    let mut names = TaskNames::new(alloc);
    for func in ["one", "two"] {
        let task = task(alloc, func)?;
        let absent = task.is_small() && names.number(&task)?.is_none();
        assert!(rt; absent, "at {func}");
    }
    Ok(())
}

#[test]
fn a_second_record_takes_the_place_of_the_first(rt: HostRuntime) -> Result<(), Fail> {
    let alloc = rt.alloc();
    let mut records = Records::new(alloc);
    for digits in [RECORD, "0000000374776f00000000000000000000000000"] {
        let bytes = hex::decode(alloc, digits)?;
        let (rec, _) = decode_record(alloc, bytes.as_slice())?;
        records.put(TaskNo(3), rec)?;
    }
    assert!(rt; records.get(TaskNo(0)).is_none());
    let two = records
        .get(TaskNo(3))
        .is_some_and(|rec| rec.task.func.as_str() == "two");
    assert!(rt; two);
    Ok(())
}

#[test]
fn a_record_is_given_away_once(rt: HostRuntime) -> Result<(), Fail> {
    let alloc = rt.alloc();
    let mut records = Records::new(alloc);
    for no in 1..3 {
        let bytes = hex::decode(alloc, RECORD)?;
        let (rec, _) = decode_record(alloc, bytes.as_slice())?;
        records.put(TaskNo(no), rec)?;
    }
    assert!(rt; records.take(TaskNo(1)).is_some());
    assert!(rt; records.take(TaskNo(1)).is_none());
    assert!(rt; records.take(TaskNo(3)).is_none());
    assert!(rt; records.get(TaskNo(2)).is_some());
    Ok(())
}
