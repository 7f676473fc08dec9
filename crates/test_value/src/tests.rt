use pie_base::{FaultKind, Path, Text};
use pie_value::{
    Blob, Fault, Items, Part, Parts, Stamp, Task, Ty, Value, decode, decode_front,
    decode_task_front, depth, encode, encode_task, show, show_task, size,
};
use std::alloc::Global;
use std::cmp::Ordering;
use std::process::Abort;
use std::test::Fail;

fn list(alloc: Global, values: Vec<Value>) -> Result<Items, Fail> {
    let mut items = Items::new();
    for value in values {
        items.push(alloc, value)?;
    }
    Ok(items)
}

fn text(alloc: Global, text: &str) -> Result<Value, Fail> {
    Ok(Value::Text(Text::new(alloc, text)?))
}

fn path(alloc: Global, text: &str) -> Result<Value, Fail> {
    Ok(Value::Path(Path::read(alloc, text)?))
}

fn task(alloc: Global, func: &str, args: Vec<Value>) -> Result<Task, Fail> {
    let func = Text::new(alloc, func)?;
    let args = list(alloc, args)?;
    Ok(Task { func, args })
}

// What decoding answers, as text: the value as it is shown, or the fault.
fn decoded(alloc: Global, digits: &str) -> Result<String, Fail> {
    let bytes = hex::decode(alloc, digits)?;
    match decode(alloc, bytes.as_slice()) {
        Ok(value) => Ok(show(alloc, &value)?),
        Err(fault) => Ok(format!(in alloc; "{fault:?}")?),
    }
}

#[test]
fn each_value_is_read_or_refused_at_its_first_fault(rt: HostRuntime) -> Result<(), Fail> {
    let cases = [
        ("00", "unit"),
        ("0100", "false"),
        ("0101", "true"),
        ("020000000000000005", "5"),
        ("02ffffffffffffffff", "-1"),
        ("030000000161", "\"a\""),
        ("04000000057372632f61", "path(\"src/a\")"),
        ("0500000002010107", "[true, null]"),
        ("0500000000", "[]"),
        ("06000000010500000000", "([])"),
        ("080000000200ff", "bytes(\"00ff\")"),
        ("", "Short"),
        ("0200", "Short"),
        ("03000000", "Short"),
        ("0500000001", "Short"),
        ("09", "BadTag"),
        ("0102", "BadTag"),
        ("050000000209", "BadTag"),
        ("0300000001ff", "BadText"),
        ("0300000002ff", "Short"),
        ("0400000000", "BadText"),
        ("04000000012f", "BadText"),
        ("0000", "Rest"),
    ];
    for (digits, wanted) in cases {
        let answer = decoded(rt.alloc(), digits)?;
        assert_eq!(rt; answer.as_str(), wanted, "at {digits}");
    }
    Ok(())
}

#[test]
fn a_value_inside_64_others_is_too_deep(rt: HostRuntime) -> Result<(), Fail> {
    for (lists, wanted) in [(63, true), (64, false), (65, false)] {
        let mut digits = String::new(rt.alloc());
        for _ in 0..lists {
            digits.push_str("0500000001")?;
        }
        digits.push_str("00")?;
        let answer = decoded(rt.alloc(), digits.as_str())?;
        assert_eq!(rt;
            answer.as_str() != "TooDeep",
            wanted,
            "inside {lists} lists"
        );
    }
    Ok(())
}

// A task is read back from its canonical bytes, and from all of them.
fn task_is_read_back(alloc: Global, task: &Task, bytes: &[u8]) -> Result<bool, Fail> {
    let (read, len) = decode_task_front(alloc, bytes)?;
    Ok(len == bytes.len() && read.cmp(task) == Ordering::Equal)
}

fn task_is_shown(alloc: Global, task: &Task, wanted: &str) -> Result<bool, Fail> {
    Ok(show_task(alloc, task)?.as_str() == wanted)
}

// The canonical bytes of a task begin with these digits, and it is shown as this text.
fn task_is(
    rt: &impl Abort,
    alloc: Global,
    task: &Task,
    digits: &str,
    wanted: &str,
) -> Result<(), Fail> {
    assert!(rt; task.is_small());
    let bytes = encode_task(alloc, task)?;
    let found = hex::encode(alloc, bytes.as_slice())?;
    assert!(rt; found.as_str().starts_with(digits), "at {wanted}");
    assert!(rt; task_is_shown(alloc, task, wanted)?, "at {wanted}");
    assert!(rt;
        task_is_read_back(alloc, task, bytes.as_slice())?,
        "at {wanted}"
    );
    Ok(())
}

#[test]
fn a_task_without_arguments_has_its_canonical_bytes_and_text(rt: HostRuntime) -> Result<(), Fail> {
    let site = task(rt.alloc(), "site", Vec::new(rt.alloc()))?;
    task_is(&rt, rt.alloc(), &site, "000000047369746500000000", "site()")
}

#[test]
fn a_task_of_a_path_has_its_canonical_bytes_and_text(rt: HostRuntime) -> Result<(), Fail> {
    let alloc = rt.alloc();
    let page = task(alloc, "page", vec![in alloc; path(alloc, "src/a")?]?)?;
    let digits = "00000004706167650000000104000000057372632f61";
    task_is(&rt, alloc, &page, digits, "page(path(\"src/a\"))")
}

// A number, and a text with each kind of character that is written with a backslash.
fn escaped(alloc: Global) -> Result<Vec<Value>, Fail> {
    let mut args = Vec::new(alloc);
    args.push(Value::Int(-1))?;
    args.push(text(alloc, "a\"b\\\n\t")?)?;
    Ok(args)
}

#[test]
fn a_task_of_two_arguments_has_its_canonical_bytes_and_text(rt: HostRuntime) -> Result<(), Fail> {
    let alloc = rt.alloc();
    let f = task(alloc, "f", escaped(alloc)?)?;
    let digits = "00000001660000000202ffffffffffffffff0300000006612262";
    let wanted = "f(-1, \"a\\\"b\\\\\\n\\t\")";
    task_is(&rt, alloc, &f, digits, wanted)
}

fn push_task(
    tasks: &mut Vec<Task>,
    alloc: Global,
    func: &str,
    args: Vec<Value>,
) -> Result<(), Fail> {
    tasks.push(task(alloc, func, args)?)?;
    Ok(())
}

// Four tasks in their order.
fn ascending(alloc: Global) -> Result<Vec<Task>, Fail> {
    let mut tasks = Vec::new(alloc);
    push_task(&mut tasks, alloc, "z", Vec::new(alloc))?;
    push_task(&mut tasks, alloc, "aa", Vec::new(alloc))?;
    push_task(&mut tasks, alloc, "aa", vec![in alloc; Value::Int(1)]?)?;
    push_task(&mut tasks, alloc, "aa", vec![in alloc; Value::Int(2)]?)?;
    Ok(tasks)
}

#[test]
fn a_shorter_name_comes_first(rt: HostRuntime) -> Result<(), Fail> {
    let tasks = ascending(rt.alloc())?;
    for (i, one) in tasks.iter().enumerate() {
        for (j, other) in tasks.iter().enumerate() {
            assert_eq!(rt; one.cmp(other), i.cmp(&j), "at {i} and {j}");
        }
    }
    Ok(())
}

fn is_shown(alloc: Global, value: &Value, wanted: &str) -> Result<bool, Fail> {
    Ok(show(alloc, value)?.as_str() == wanted)
}

#[test]
fn a_push_leaves_copies_as_they_were(rt: HostRuntime) -> Result<(), Fail> {
    let alloc = rt.alloc();
    let mut items = list(alloc, vec![in alloc; Value::Int(1)]?)?;
    let copy = items.copy()?;
    items.push(alloc, Value::List(copy.copy()?))?;
    assert!(rt; is_shown(alloc, &Value::List(items), "[1, [1]]")?);
    assert!(rt; is_shown(alloc, &Value::List(copy), "[1]")?);
    Ok(())
}

// A tuple of a text, a blob with one owner and null.
fn three(alloc: Global) -> Result<Value, Fail> {
    let mut items = Items::new();
    push_three(alloc, &mut items)?;
    Ok(Value::Tuple(items))
}

fn push_three(alloc: Global, items: &mut Items) -> Result<(), Fail> {
    items.push(alloc, text(alloc, "a")?)?;
    let blob = Blob::new(b"ab".as_slice().to_vec(alloc)?);
    items.push(alloc, Value::Bytes(blob))?;
    items.push(alloc, Value::Null)?;
    Ok(())
}

// A value is read back from its canonical bytes, and from all of them.
fn is_read_back(rt: &impl Abort, alloc: Global, value: &Value) -> Result<bool, Fail> {
    assert!(rt; value.is_small());
    let bytes = encode(alloc, value)?;
    let (read, len) = decode_front(alloc, bytes.as_slice())?;
    Ok(read.same(value) && len == bytes.len())
}

#[test]
fn a_value_is_measured_and_read_back(rt: HostRuntime) -> Result<(), Fail> {
    let value = three(rt.alloc())?;
    assert!(rt; size(&value) == 5 + 6 + 7 + 1 && depth(&value) == 2);
    assert!(rt; is_read_back(&rt, rt.alloc(), &value)?);
    Ok(())
}

fn is_copied(value: &Value) -> Result<bool, Fail> {
    Ok(value.copy()?.same(value))
}

fn stamp_is_copied(whole: &Stamp) -> Result<bool, Fail> {
    Ok(whole.copy()?.same(whole) && !whole.same(&Stamp::Done))
}

#[test]
fn a_copy_is_equal(rt: HostRuntime) -> Result<(), Fail> {
    let value = three(rt.alloc())?;
    assert!(rt; is_copied(&value)?);
    assert!(rt; stamp_is_copied(&Stamp::Whole(value))?);
    Ok(())
}

fn fault_is_copied(fault: &Fault) -> Result<bool, Fail> {
    let copy = fault.copy()?;
    Ok(copy.task.cmp(&fault.task) == Ordering::Equal)
}

#[test]
fn a_copied_fault_has_its_task(rt: HostRuntime) -> Result<(), Fail> {
    let said = Text::new(rt.alloc(), "no")?;
    let task = task(rt.alloc(), "f", Vec::new(rt.alloc()))?;
    let kind = FaultKind::Said(said);
    assert!(rt; fault_is_copied(&Fault { task, kind })?);
    Ok(())
}

#[test]
fn a_copied_tuple_type_has_its_parts(rt: HostRuntime) -> Result<(), Fail> {
    let part = Part::new(rt.alloc(), Ty::Text)?;
    let parts = Parts::new(rt.alloc(), vec![in rt.alloc(); Ty::Int, Ty::List(part)]?)?;
    let copy = parts.copy()?;
    assert!(rt; Ty::Tuple(copy).same(&Ty::Tuple(parts)));
    Ok(())
}

#[test]
fn null_has_a_type_that_can_be_null(rt: HostRuntime) -> Result<(), Fail> {
    let ty = Ty::Nullable(Part::new(rt.alloc(), Ty::Int)?);
    for (value, wanted) in [
        (Value::Null, true),
        (Value::Int(1), true),
        (Value::Unit, false),
    ] {
        assert_eq!(rt; value.has_type(&ty), wanted);
    }
    Ok(())
}
