//! The built-in functions on lists, on worked cases.
use crate::tests::{Sample, add, answer, of, values};
use pie_value::{Builtin, Items, Value};
use std::alloc::Global;
use std::test::Fail;

// A list of these values, and further arguments.
fn list_and(alloc: Global, list: &[Sample], more: &[Sample]) -> Result<Items, Fail> {
    let mut args = Items::new();
    args.push(alloc, Value::List(values(alloc, list)?))?;
    add(alloc, &mut args, more)?;
    Ok(args)
}

// The answer to one list of these values, and further arguments.
fn of_list(
    alloc: Global,
    which: Builtin,
    list: &[Sample],
    more: &[Sample],
) -> Result<String, Fail> {
    answer(alloc, which, &list_and(alloc, list, more)?)
}

// Whether a built-in function answers this to one list of these values.
fn gives(alloc: Global, which: Builtin, list: &[Sample], wanted: &str) -> Result<bool, Fail> {
    Ok(of_list(alloc, which, list, &[])?.as_str() == wanted)
}

#[test]
fn lists_are_counted_read_and_turned(rt: HostRuntime) -> Result<(), Fail> {
    let list = [Sample::Int(5), Sample::Null];
    for (which, wanted) in [(Builtin::Len, "2"), (Builtin::Reverse, "[null, 5]")] {
        let found = of_list(rt.alloc(), which, list.as_slice(), &[])?;
        assert!(rt; found.as_str() == wanted, "{found}, not {wanted}");
    }
    Ok(())
}

#[test]
fn an_item_is_counted_from_0(rt: HostRuntime) -> Result<(), Fail> {
    let list = [Sample::Int(5), Sample::Null];
    for (place, wanted) in [(0, "5"), (1, "null"), (2, "Range"), (-1, "Range")] {
        let found = of_list(
            rt.alloc(),
            Builtin::At,
            list.as_slice(),
            &[Sample::Int(place)],
        )?;
        assert!(rt; found.as_str() == wanted, "at {place}: {found}");
    }
    Ok(())
}

#[test]
fn a_range_ends_before_its_last(rt: HostRuntime) -> Result<(), Fail> {
    let cases = [
        (-1, 2, "[-1, 0, 1]"),
        (2, 2, "[]"),
        (3, 2, "[]"),
        (-9223372036854775807, 9223372036854775807, "Big"),
        (
            9223372036854775806,
            9223372036854775807,
            "[9223372036854775806]",
        ),
    ];
    for (from, to, wanted) in cases {
        let args = [Sample::Int(from), Sample::Int(to)];
        let found = of(rt.alloc(), Builtin::Range, args.as_slice())?;
        assert!(rt; found.as_str() == wanted, "from {from} to {to}: {found}");
    }
    Ok(())
}

#[test]
fn items_are_joined(rt: HostRuntime) -> Result<(), Fail> {
    let alloc = rt.alloc();
    let texts = [Sample::Text("b"), Sample::Text("ab")];
    let joined = of_list(
        alloc,
        Builtin::JoinText,
        texts.as_slice(),
        &[Sample::Text(", ")],
    )?;
    assert!(rt; joined.as_str() == "\"b, ab\"", "{joined}");
    let mixed = [Sample::NoItems, Sample::Text("a")];
    let refused = of_list(alloc, Builtin::Flatten, mixed.as_slice(), &[])?;
    assert!(rt; refused.as_str() == "Unknown", "{refused}");
    Ok(())
}

#[test]
fn items_of_one_kind_are_sorted(rt: HostRuntime) -> Result<(), Fail> {
    let alloc = rt.alloc();
    let ints = [Sample::Int(2), Sample::Int(-1), Sample::Int(2)];
    let ints = gives(alloc, Builtin::Sort, ints.as_slice(), "[-1, 2, 2]")?;
    let texts = [Sample::Text("b"), Sample::Text("ab"), Sample::Text("a")];
    let texts = gives(
        alloc,
        Builtin::Sort,
        texts.as_slice(),
        "[\"a\", \"ab\", \"b\"]",
    )?;
    let paths = [Sample::Path("a/b"), Sample::Path("a-b")];
    let told = "[path(\"a-b\"), path(\"a/b\")]";
    let paths = gives(alloc, Builtin::Sort, paths.as_slice(), told)?;
    let none = gives(alloc, Builtin::Sort, &[], "[]")?;
    assert!(rt;
        ints && texts && paths && none,
        "{ints} {texts} {paths} {none}"
    );
    let mixed = [Sample::Int(2), Sample::Text("a")];
    let refused = of_list(alloc, Builtin::Sort, mixed.as_slice(), &[])?;
    assert!(rt; refused.as_str() == "Unknown", "{refused}");
    Ok(())
}
