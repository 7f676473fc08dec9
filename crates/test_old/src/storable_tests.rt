//! Lists of records that may be stored together, and some that may not.
ghost use Rattle.std.specs.Prelude.{All, IfOk};
ghost use Rattle.pie_record.specs.Canonical.{IsStorable};

use pie_base::Text;
use pie_record::{TaskRecord, decode_record};
use pie_storable::may_be_stored;
use pie_value::{Items, Task};
use std::alloc::Global;
use std::test::Fail;

// The digits of a record by the name of its task: `a` and `b` require none, `c` runs `a`, and `d` runs `c`.
fn digits(name: u8) -> &'static str {
    match name {
        b'a' => "000000016100000000000000000000000000",
        b'b' => "000000016200000000000000000000000000",
        b'c' => "0000000163000000000000000108000000016100000000050000000000",
        _ => "0000000164000000000000000108000000016300000000050000000000",
    }
}

fn record(alloc: Global, name: u8) -> Result<TaskRecord, Fail>
    ensures { IfOk result IsStorable }
{
    let bytes = hex::decode(alloc, digits(name))?;
    let (rec, _) = decode_record(alloc, bytes.as_slice())?;
    Ok(rec)
}

fn records(alloc: Global, names: &str) -> Result<Vec<TaskRecord>, Fail>
    ensures { IfOk result (λ rows. All IsStorable rows.items) }
{
    let mut rows = Vec::new(alloc);
    for name in names.as_bytes() {
        let rec = record(alloc, *name)?;
        rows.push(rec)?;
    }
    Ok(rows)
}

// Whether the records of these tasks may be stored together, with functions `a` to `c` and one root.
fn stored(alloc: Global, names: &str, root: &str) -> Result<bool, Fail> {
    let mut funcs = Vec::new(alloc);
    for name in ["a", "b", "c"] {
        funcs.push((Text::new(alloc, name)?, [0; 32]))?;
    }
    let roots = [Task {
        func: Text::new(alloc, root)?,
        args: Items::new(),
    }];
    let rows = records(alloc, names)?;
    Ok(roots[0].is_small() && may_be_stored(alloc, funcs.as_slice(), &roots, rows.as_slice())?)
}

#[test]
fn records_stand_by_height_and_bytes(rt: HostRuntime) -> Result<(), Fail> {
    let cases = [
        ("a", "a", true),
        ("ab", "a", true),
        ("abc", "c", true),
        ("ba", "a", false),
        ("aa", "a", false),
        ("acb", "c", false),
        ("cab", "c", false),
        ("c", "c", false),
        ("ab", "c", false),
        ("acd", "c", false),
        ("", "a", false),
    ];
    for (names, root, wanted) in cases {
        let answer = stored(rt.alloc(), names, root)?;
        assert!(rt; answer == wanted, "at {names} with {root}");
    }
    Ok(())
}

#[test]
fn nothing_may_be_stored(rt: HostRuntime) -> Result<(), Fail> {
    let answer = may_be_stored(rt.alloc(), &[], &[], &[])?;
    assert!(rt; answer);
    Ok(())
}
