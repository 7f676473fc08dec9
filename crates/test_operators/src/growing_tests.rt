//! Texts, bytes, lists and tuples that grow, up to the limits.
use crate::tests::{MOST, Sample, many, of_two, told, told_length, value};
use pie_base::Text;
use pie_operators::{Binary, binary, item_of, push_to_list, push_to_tuple};
use pie_value::{Blob, Items, Value, show};
use std::alloc::Global;
use std::process::Abort;
use std::test::Fail;

// A list of this value.
fn list_of(alloc: Global, value: Value) -> Result<Value, Fail> {
    let mut items = Items::new();
    items.push(alloc, value)?;
    Ok(Value::List(items))
}

// A text of so many characters.
fn long(alloc: Global, count: usize) -> Result<Value, Fail> {
    let mut all = String::new(alloc);
    for _ in 0..count {
        all.push('a')?;
    }
    Ok(Value::Text(Text::new(alloc, all.as_str())?))
}

// Bytes, so many.
fn blob(alloc: Global, count: usize) -> Result<Value, Fail> {
    Ok(Value::Bytes(Blob::new(many(alloc, count)?)))
}

const JOINED: &[(Sample, Sample, &str)] = &[
    (Sample::Text("a"), Sample::Text("é"), "\"aé\""),
    (Sample::Text(""), Sample::Text(""), "\"\""),
    (
        Sample::Bytes(&[255]),
        Sample::Bytes(&[0, 1]),
        "bytes(\"ff0001\")",
    ),
    (Sample::List(&[1]), Sample::List(&[2, 3]), "[1, 2, 3]"),
    (Sample::List(&[]), Sample::List(&[]), "[]"),
];

#[test]
fn texts_bytes_and_lists_are_joined(rt: HostRuntime) -> Result<(), Fail> {
    for (number, (a, b, wanted)) in JOINED.iter().enumerate() {
        let found = of_two(rt.alloc(), Binary::Add, *a, *b)?;
        assert!(rt; found.as_str() == *wanted, "case {number}: {found}");
    }
    Ok(())
}

pub(crate) type Length = Result<usize, &'static str>;

// The length of a sum.
fn sum(alloc: Global, a: Value, b: Value) -> Length {
    told_length(&binary(alloc, Binary::Add, a, b))
}

fn texts(alloc: Global, most: usize, more: usize) -> Result<Length, Fail> {
    Ok(sum(alloc, long(alloc, most)?, long(alloc, more)?))
}

fn blobs(alloc: Global, most: usize, more: usize) -> Result<Length, Fail> {
    Ok(sum(alloc, blob(alloc, most)?, blob(alloc, more)?))
}

fn lists(alloc: Global, most: usize, more: usize) -> Result<Length, Fail> {
    let a = Box::new(alloc, list_of(alloc, long(alloc, most)?)?)?;
    let b = list_of(alloc, long(alloc, more)?)?;
    Ok(sum(alloc, Box::into_inner(a), b))
}

// Values that have so many bytes more than those of one byte below the limit have sums of these lengths.
fn sums_are(
    rt: &impl Abort,
    alloc: Global,
    more: usize,
    wanted: Length,
    wanted_items: Length,
) -> Result<(), Fail> {
    let texts = texts(alloc, MOST - 1, more)? == wanted;
    let blobs = blobs(alloc, MOST - 1, more)? == wanted;
    let lists = lists(alloc, MOST - 11, more)? == wanted_items;
    assert!(rt; texts && blobs && lists, "{more}: {texts} {blobs} {lists}");
    Ok(())
}

#[test]
fn a_sum_keeps_the_limit(rt: HostRuntime) -> Result<(), Fail> {
    sums_are(&rt, rt.alloc(), 1, Ok(MOST), Ok(2))?;
    sums_are(&rt, rt.alloc(), 2, Err("Big"), Err("Big"))
}

// A list in a list, so many deep; none is null.
fn nested(alloc: Global, depth: usize) -> Result<Value, Fail> {
    let mut value = Value::Null;
    for _ in 1..depth {
        value = list_of(alloc, value)?;
    }
    Ok(value)
}

fn pushed_to_list(alloc: Global, list: Value, item: Value) -> Result<String, Fail> {
    told(alloc, &push_to_list(alloc, list, item))
}

fn pushed_to_tuple(alloc: Global, tuple: Value, item: Value) -> Result<String, Fail> {
    told(alloc, &push_to_tuple(alloc, tuple, item))
}

fn grown(alloc: Global) -> Result<String, Fail> {
    let list = pushed_to_list(alloc, value(alloc, Sample::List(&[1]))?, Value::Null)?;
    let tuple = pushed_to_tuple(alloc, Value::Tuple(Items::new()), Value::Unit)?;
    Ok(format!(in alloc; "{list} {tuple}")?)
}

fn refused(alloc: Global) -> Result<String, Fail> {
    let list = pushed_to_list(alloc, Value::Tuple(Items::new()), Value::Unit)?;
    let tuple = pushed_to_tuple(alloc, Value::List(Items::new()), Value::Unit)?;
    Ok(format!(in alloc; "{list} {tuple}")?)
}

#[test]
fn a_list_and_a_tuple_grow_by_an_item(rt: HostRuntime) -> Result<(), Fail> {
    let grown = grown(rt.alloc())?;
    let refused = refused(rt.alloc())?;
    let holds = grown.as_str() == "[1, null] (unit)" && refused.as_str() == "Unknown Unknown";
    assert!(rt; holds, "grown {grown}, refused {refused}");
    Ok(())
}

// The length of a list of this value alone.
fn length_with(alloc: Global, item: Value) -> Length {
    told_length(&push_to_list(alloc, Value::List(Items::new()), item))
}

// A list of a value of this depth, and one of a text of so many bytes, have this length.
fn lists_are(
    rt: &impl Abort,
    alloc: Global,
    depth: usize,
    len: usize,
    wanted: Length,
) -> Result<(), Fail> {
    let deep = length_with(alloc, nested(alloc, depth)?) == wanted;
    let wide = length_with(alloc, long(alloc, len)?) == wanted;
    assert!(rt; deep && wide, "depth {depth}: {deep}, {len} bytes: {wide}");
    Ok(())
}

#[test]
fn a_list_that_grows_keeps_the_limits(rt: HostRuntime) -> Result<(), Fail> {
    lists_are(&rt, rt.alloc(), 63, MOST - 5, Ok(1))?;
    lists_are(&rt, rt.alloc(), 64, MOST - 4, Err("Big"))
}

fn sum_with_a_copy(alloc: Global, list: &Value) -> Result<String, Fail> {
    let more = value(alloc, Sample::List(&[2]))?;
    told(alloc, &binary(alloc, Binary::Add, list.copy()?, more))
}

fn pushed_to_a_copy(alloc: Global, list: &Value) -> Result<String, Fail> {
    pushed_to_list(alloc, list.copy()?, Value::Int(3))
}

fn shared(alloc: Global, list: &Value) -> Result<String, Fail> {
    let sum = sum_with_a_copy(alloc, list)?;
    let more = pushed_to_a_copy(alloc, list)?;
    let kept = show(alloc, list)?;
    Ok(format!(in alloc; "{sum} {more} {kept}")?)
}

#[test]
fn a_list_that_is_shared_stays_as_it_was(rt: HostRuntime) -> Result<(), Fail> {
    let found = shared(rt.alloc(), &value(rt.alloc(), Sample::List(&[1]))?)?;
    assert!(rt; found.as_str() == "[1, 2] [1, 3] [1]", "{found}");
    Ok(())
}

// A tuple of 7 and the text `a`.
fn pair(alloc: Global) -> Result<Value, Fail> {
    let mut items = Items::new();
    items.push(alloc, Value::Int(7))?;
    items.push(alloc, value(alloc, Sample::Text("a"))?)?;
    Ok(Value::Tuple(items))
}

fn item_text(alloc: Global, number: u32) -> Result<String, Fail> {
    told(alloc, &item_of(&pair(alloc)?, number))
}

fn item_is(rt: &impl Abort, alloc: Global, number: u32, wanted: &str) -> Result<(), Fail> {
    let found = item_text(alloc, number)?;
    assert!(rt; found.as_str() == wanted, "item {number}: {found}");
    Ok(())
}

fn item_of_a_list(alloc: Global) -> Result<String, Fail> {
    told(alloc, &item_of(&value(alloc, Sample::List(&[1]))?, 0))
}

#[test]
fn an_item_of_a_tuple_is_counted_from_0(rt: HostRuntime) -> Result<(), Fail> {
    let alloc = rt.alloc();
    item_is(&rt, alloc, 0, "7")?;
    item_is(&rt, alloc, 1, "\"a\"")?;
    item_is(&rt, alloc, 2, "Unknown")?;
    item_is(&rt, alloc, 4_294_967_295, "Unknown")?;
    let found = item_of_a_list(alloc)?;
    assert!(rt; found.as_str() == "Unknown", "of a list: {found}");
    Ok(())
}
