//! Each built-in function on worked cases.
//! The tables hold what values are made of, and what a function answers is told as a text.
use pie_base::{FaultKind, Path, Text};
use pie_builtins::{BuiltinFault, apply};
use pie_value::{Blob, Builtin, Items, Value, show};
use std::alloc::Global;
use std::test::Fail;

/// A value as a case writes it.
#[derive(Clone, Copy)]
pub(crate) enum Sample<'a> {
    Null,
    Bool(bool),
    Int(i64),
    Text(&'a str),
    Path(&'a str),
    Bytes(&'a [u8]),
    NoItems,
}

// The value that a case writes.
fn value(alloc: Global, sample: Sample) -> Result<Value, Fail> {
    match sample {
        Sample::Null => Ok(Value::Null),
        Sample::Bool(b) => Ok(Value::Bool(b)),
        Sample::Int(n) => Ok(Value::Int(n)),
        Sample::Text(text) => Ok(Value::Text(Text::new(alloc, text)?)),
        Sample::Path(text) => Ok(Value::Path(Path::read(alloc, text)?)),
        Sample::Bytes(bytes) => Ok(Value::Bytes(Blob::new(bytes.to_vec(alloc)?))),
        Sample::NoItems => Ok(Value::List(Items::new())),
    }
}

// The values that a case writes.
pub(crate) fn values(alloc: Global, samples: &[Sample]) -> Result<Items, Fail> {
    let mut items = Items::new();
    add(alloc, &mut items, samples)?;
    Ok(items)
}

pub(crate) fn add(alloc: Global, items: &mut Items, samples: &[Sample]) -> Result<(), Fail> {
    for sample in samples {
        items.push(alloc, value(alloc, *sample)?)?;
    }
    Ok(())
}

fn fault_name(fault: &BuiltinFault) -> &'static str {
    match fault {
        BuiltinFault::OutOfMemory => "OutOfMemory",
        BuiltinFault::Fault(FaultKind::BadPath) => "BadPath",
        BuiltinFault::Fault(FaultKind::Big) => "Big",
        BuiltinFault::Fault(FaultKind::Null) => "Null",
        BuiltinFault::Fault(FaultKind::Range) => "Range",
        BuiltinFault::Fault(FaultKind::Unknown) => "Unknown",
        BuiltinFault::Fault(_) => "another",
    }
}

fn told(alloc: Global, answer: &Result<Value, BuiltinFault>) -> Result<String, Fail> {
    match answer {
        Ok(value) => Ok(show(alloc, value)?),
        Err(fault) => Ok(String::from_str(alloc, fault_name(fault))?),
    }
}

// What a built-in function answers, as text: the value as it is shown, or the fault.
pub(crate) fn answer(alloc: Global, which: Builtin, args: &Items) -> Result<String, Fail> {
    told(alloc, &apply(alloc, which, args.as_slice()))
}

// The answer to these arguments.
pub(crate) fn of(alloc: Global, which: Builtin, args: &[Sample]) -> Result<String, Fail> {
    answer(alloc, which, &values(alloc, args)?)
}

#[test]
fn a_text_becomes_a_path_bytes_or_a_text_without_spaces(rt: HostRuntime) -> Result<(), Fail> {
    let cases = [
        (Builtin::Path, "src/a", "path(\"src/a\")"),
        (Builtin::Path, "src//a", "BadPath"),
        (Builtin::Path, "", "BadPath"),
        (Builtin::Trim, " \t a b\r\n ", "\"a b\""),
        (Builtin::Trim, " \n", "\"\""),
        (Builtin::Trim, "\u{a0}a", "\"\u{a0}a\""),
        (Builtin::ToBytes, "ab", "bytes(\"6162\")"),
        (Builtin::Lines, "a\n\n", "[\"a\", \"\"]"),
        (Builtin::Lines, "", "[]"),
        (Builtin::Lines, "a\nb", "[\"a\", \"b\"]"),
        (Builtin::Len, "é", "2"),
        (Builtin::Some, "a", "\"a\""),
        (Builtin::IsNull, "a", "false"),
        (
            Builtin::Sha256,
            "abc",
            "\"ba7816bf8f01cfea414140de5dae2223b00361a396177a9cb410ff61f20015ad\"",
        ),
    ];
    for (which, s, wanted) in cases {
        let found = of(rt.alloc(), which, &[Sample::Text(s)])?;
        assert!(rt; found.as_str() == wanted, "at {s}: {found}");
    }
    Ok(())
}

#[test]
fn an_integer_is_an_optional_minus_sign_and_digits(rt: HostRuntime) -> Result<(), Fail> {
    let cases = [
        ("-0", "0"),
        ("-", "null"),
        ("+1", "null"),
        ("", "null"),
        ("--1", "null"),
        (" 1", "null"),
        ("1_0", "null"),
        ("000000000000000000000000007", "7"),
        ("-000000000000000000000000007", "-7"),
        ("9223372036854775807", "9223372036854775807"),
        ("9223372036854775808", "null"),
        ("-9223372036854775808", "-9223372036854775808"),
        ("-9223372036854775809", "null"),
    ];
    for (s, wanted) in cases {
        let found = of(rt.alloc(), Builtin::ParseInt, &[Sample::Text(s)])?;
        assert!(rt; found.as_str() == wanted, "at {s}: {found}");
    }
    Ok(())
}

#[test]
fn one_text_is_looked_for_in_another(rt: HostRuntime) -> Result<(), Fail> {
    let cases = [
        (Builtin::Find, "abab", "ba", "1"),
        (Builtin::Find, "ab", "", "0"),
        (Builtin::Find, "ab", "c", "null"),
        (Builtin::Find, "a–b–c", "–", "1"),
        (
            Builtin::Find,
            "abababababababababababababababababababac",
            "ababababababababababababababababac",
            "6",
        ),
        (Builtin::Contains, "abab", "ba", "true"),
        (Builtin::Contains, "ab", "abc", "false"),
        (Builtin::Starts, "abc", "ab", "true"),
        (Builtin::Starts, "abc", "bc", "false"),
        (Builtin::Ends, "abc", "bc", "true"),
        (Builtin::Ends, "abc", "ab", "false"),
        (Builtin::Ends, "c", "bc", "false"),
        (Builtin::Split, "a,,b", ",", "[\"a\", \"\", \"b\"]"),
        (Builtin::Split, "", ",", "[\"\"]"),
        (Builtin::Split, "–a–", "–", "[\"\", \"a\", \"\"]"),
        (
            Builtin::Split,
            "x0123456789abcdef0123456789abcdef0y",
            "0123456789abcdef0123456789abcdef0",
            "[\"x\", \"y\"]",
        ),
        (Builtin::Split, "a", "", "Range"),
    ];
    for (which, s, t, wanted) in cases {
        let found = of(rt.alloc(), which, &[Sample::Text(s), Sample::Text(t)])?;
        assert!(rt; found.as_str() == wanted, "at {s} and {t}: {found}");
    }
    Ok(())
}

#[test]
fn a_part_is_cut_between_characters_in_the_text(rt: HostRuntime) -> Result<(), Fail> {
    let cases = [
        ("abc", 1, 3, "\"bc\""),
        ("abc", 3, 3, "\"\""),
        ("abc", 2, 1, "Range"),
        ("abc", 0, 4, "Range"),
        ("abc", -1, 2, "Range"),
        ("é", 0, 1, "Range"),
        ("é", 0, 2, "\"é\""),
    ];
    for (s, from, to, wanted) in cases {
        let args = [Sample::Text(s), Sample::Int(from), Sample::Int(to)];
        let found = of(rt.alloc(), Builtin::Slice, args.as_slice())?;
        assert!(rt;
            found.as_str() == wanted,
            "at {s} from {from} to {to}: {found}"
        );
    }
    Ok(())
}

// Whether a built-in function answers this to these arguments.
fn gives(alloc: Global, which: Builtin, args: &[Sample], wanted: &str) -> Result<bool, Fail> {
    Ok(of(alloc, which, args)?.as_str() == wanted)
}

#[test]
fn bytes_are_cut_anywhere_and_read_as_text(rt: HostRuntime) -> Result<(), Fail> {
    let alloc = rt.alloc();
    let args = [
        Sample::Bytes(&[195, 169, 97]),
        Sample::Int(1),
        Sample::Int(3),
    ];
    let cut = gives(
        alloc,
        Builtin::SliceBytes,
        args.as_slice(),
        "bytes(\"a961\")",
    )?;
    let read = gives(
        alloc,
        Builtin::FromBytes,
        &[Sample::Bytes(&[195, 169])],
        "\"é\"",
    )?;
    let broken = gives(alloc, Builtin::FromBytes, &[Sample::Bytes(&[169])], "null")?;
    assert!(rt;
        cut && read && broken,
        "cut {cut}, read {read}, broken {broken}"
    );
    Ok(())
}

#[test]
fn paths_are_joined(rt: HostRuntime) -> Result<(), Fail> {
    for (rest, wanted) in [("a/b", "path(\"out/a/b\")"), ("", "BadPath")] {
        let args = [Sample::Path("out"), Sample::Text(rest)];
        let found = of(rt.alloc(), Builtin::Join, args.as_slice())?;
        assert!(rt; found.as_str() == wanted, "out and {rest}: {found}");
    }
    Ok(())
}

#[test]
fn a_path_is_taken_apart(rt: HostRuntime) -> Result<(), Fail> {
    for (which, wanted) in [
        (Builtin::Parent, "path(\"src\")"),
        (Builtin::Name, "\"a\""),
        (Builtin::ToText, "\"src/a\""),
    ] {
        let found = of(rt.alloc(), which, &[Sample::Path("src/a")])?;
        assert!(rt; found.as_str() == wanted, "{found}, not {wanted}");
    }
    Ok(())
}

#[test]
fn null_has_no_value(rt: HostRuntime) -> Result<(), Fail> {
    let cases = [
        (Builtin::Get, "Null"),
        (Builtin::Some, "Unknown"),
        (Builtin::IsNull, "true"),
        (Builtin::Trim, "Unknown"),
        (Builtin::Len, "Unknown"),
    ];
    for (number, (which, wanted)) in cases.iter().enumerate() {
        let found = of(rt.alloc(), *which, &[Sample::Null])?;
        assert!(rt; found.as_str() == *wanted, "case {number}: {found}");
    }
    Ok(())
}

#[test]
fn numbers_are_spelt_in_digits(rt: HostRuntime) -> Result<(), Fail> {
    for (sample, wanted) in [
        (Sample::Int(-12), "\"-12\""),
        (Sample::Bool(true), "\"true\""),
    ] {
        let found = of(rt.alloc(), Builtin::ToText, &[sample])?;
        assert!(rt; found.as_str() == wanted, "{found}, not {wanted}");
    }
    Ok(())
}

#[test]
fn occurrences_are_replaced_from_the_left(rt: HostRuntime) -> Result<(), Fail> {
    let cases = [
        ("aaa", "aa", "b", "\"ba\""),
        ("ab", "", "x", "\"ab\""),
        ("a,b", ",", "", "\"ab\""),
        ("abcabab", "ab", "–", "\"–c––\""),
    ];
    for (s, part, by, wanted) in cases {
        let args = [Sample::Text(s), Sample::Text(part), Sample::Text(by)];
        let found = of(rt.alloc(), Builtin::Replace, args.as_slice())?;
        assert!(rt; found.as_str() == wanted, "at {s}: {found}");
    }
    Ok(())
}
