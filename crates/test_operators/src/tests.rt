//! Each operator on worked cases.
//! What an operator answers is told as a text by functions that borrow, and the tables hold what values are made of.
use pie_base::{FaultKind, Path, Text};
use pie_operators::{Binary, OperatorFault, Unary, binary, unary};
use pie_value::{Blob, Items, Value, show};
use std::alloc::Global;
use std::process::Abort;
use std::test::Fail;

const LEAST: i64 = -9_223_372_036_854_775_808;

const GREATEST: i64 = 9_223_372_036_854_775_807;

// The most bytes of a text or of a blob: a value has 1,048,576 canonical bytes, five of them before the contents.
pub(crate) const MOST: usize = 1_048_571;

/// A value as a case writes it.
#[derive(Clone, Copy)]
pub(crate) enum Sample<'a> {
    Unit,
    Null,
    Bool(bool),
    Int(i64),
    Text(&'a str),
    Path(&'a str),
    Bytes(&'a [u8]),
    List(&'a [i64]),
    NoItems,
}

// The value that a case writes.
pub(crate) fn value(alloc: Global, sample: Sample) -> Result<Value, Fail> {
    match sample {
        Sample::Unit => Ok(Value::Unit),
        Sample::Null => Ok(Value::Null),
        Sample::Bool(b) => Ok(Value::Bool(b)),
        Sample::Int(n) => Ok(Value::Int(n)),
        Sample::Text(text) => Ok(Value::Text(Text::new(alloc, text)?)),
        Sample::Path(text) => Ok(Value::Path(Path::read(alloc, text)?)),
        Sample::Bytes(bytes) => Ok(Value::Bytes(Blob::new(bytes.to_vec(alloc)?))),
        Sample::List(ints) => Ok(Value::List(items(alloc, ints)?)),
        Sample::NoItems => Ok(Value::Tuple(Items::new())),
    }
}

// These integers.
fn items(alloc: Global, ints: &[i64]) -> Result<Items, Fail> {
    let mut items = Items::new();
    for n in ints {
        items.push(alloc, Value::Int(*n))?;
    }
    Ok(items)
}

// So many bytes `a`.
pub(crate) fn many(alloc: Global, count: usize) -> Result<Vec<u8>, Fail> {
    let mut bytes = Vec::new(alloc);
    for _ in 0..count {
        bytes.push(b'a')?;
    }
    Ok(bytes)
}

fn fault_name(fault: &OperatorFault) -> &'static str {
    match fault {
        OperatorFault::OutOfMemory => "OutOfMemory",
        OperatorFault::Fault(FaultKind::Big) => "Big",
        OperatorFault::Fault(FaultKind::Clash) => "Clash",
        OperatorFault::Fault(FaultKind::NotText) => "NotText",
        OperatorFault::Fault(FaultKind::Overflow) => "Overflow",
        OperatorFault::Fault(FaultKind::Unknown) => "Unknown",
        OperatorFault::Fault(FaultKind::Zero) => "Zero",
        OperatorFault::Fault(_) => "another",
    }
}

// An answer as text: the value as it is shown, or the fault.
pub(crate) fn told(alloc: Global, answer: &Result<Value, OperatorFault>) -> Result<String, Fail> {
    match answer {
        Ok(value) => Ok(show(alloc, value)?),
        Err(fault) => Ok(String::from_str(alloc, fault_name(fault))?),
    }
}

// The length of an answer: of a text, of bytes or of a list; or the fault.
pub(crate) fn told_length(answer: &Result<Value, OperatorFault>) -> Result<usize, &'static str> {
    match answer {
        Ok(Value::Text(text)) => Ok(text.as_str().len()),
        Ok(Value::Bytes(bytes)) => Ok(bytes.as_slice().len()),
        Ok(Value::List(items)) => Ok(items.as_slice().len()),
        Ok(_) => Err("another"),
        Err(fault) => Err(fault_name(fault)),
    }
}

// What an operator answers to two values, as text.
pub(crate) fn of_two(
    alloc: Global,
    operator: Binary,
    a: Sample,
    b: Sample,
) -> Result<String, Fail> {
    let answer = binary(alloc, operator, value(alloc, a)?, value(alloc, b)?);
    told(alloc, &answer)
}

const COMPUTED: &[(Binary, i64, i64, &str)] = &[
    (Binary::Add, 2, 3, "5"),
    (Binary::Add, LEAST, GREATEST, "-1"),
    (Binary::Add, GREATEST, 1, "Overflow"),
    (Binary::Add, LEAST, -1, "Overflow"),
    (Binary::Sub, 2, 3, "-1"),
    (Binary::Sub, -1, LEAST, "9223372036854775807"),
    (Binary::Sub, 0, LEAST, "Overflow"),
    (Binary::Sub, LEAST, 1, "Overflow"),
    (Binary::Mul, 3, -4, "-12"),
    (Binary::Mul, LEAST, 1, "-9223372036854775808"),
    (Binary::Mul, LEAST, -1, "Overflow"),
    (Binary::Mul, 3_037_000_500, 3_037_000_500, "Overflow"),
];

#[test]
fn integers_are_computed_within_64_bits(rt: HostRuntime) -> Result<(), Fail> {
    for (operator, a, b, wanted) in COMPUTED {
        let found = of_two(rt.alloc(), *operator, Sample::Int(*a), Sample::Int(*b))?;
        assert!(rt; found.as_str() == *wanted, "{operator:?} of {a} and {b}");
    }
    Ok(())
}

const DIVIDED: &[(i64, i64, &str, &str)] = &[
    (7, 2, "3", "1"),
    (-7, 2, "-3", "-1"),
    (7, -2, "-3", "1"),
    (-7, -2, "3", "-1"),
    (0, 5, "0", "0"),
    (LEAST, 1, "-9223372036854775808", "0"),
    (LEAST, GREATEST, "-1", "-1"),
    (LEAST, -1, "Overflow", "Overflow"),
    (1, 0, "Zero", "Zero"),
    (LEAST, 0, "Zero", "Zero"),
];

// The quotient and the remainder of two integers.
fn divided(alloc: Global, a: i64, b: i64) -> Result<(String, String), Fail> {
    let quotient = of_two(alloc, Binary::Div, Sample::Int(a), Sample::Int(b))?;
    let remainder = of_two(alloc, Binary::Rem, Sample::Int(a), Sample::Int(b))?;
    Ok((quotient, remainder))
}

#[test]
fn division_truncates_and_the_remainder_has_the_sign_of_the_dividend(
    rt: HostRuntime,
) -> Result<(), Fail> {
    for (a, b, quotient, remainder) in DIVIDED {
        let (divided, left) = divided(rt.alloc(), *a, *b)?;
        let holds = divided.as_str() == *quotient && left.as_str() == *remainder;
        assert!(rt; holds, "{a} by {b}: {divided} and {left}");
    }
    Ok(())
}

// What an operator answers to one value, as text.
fn of_one(alloc: Global, operator: Unary, operand: Sample) -> Result<String, Fail> {
    let operand = value(alloc, operand)?;
    told(alloc, &unary(operator, &operand))
}

const PREFIXED: &[(Unary, Sample, &str)] = &[
    (Unary::Neg, Sample::Int(5), "-5"),
    (Unary::Neg, Sample::Int(0), "0"),
    (Unary::Neg, Sample::Int(GREATEST), "-9223372036854775807"),
    (Unary::Neg, Sample::Int(LEAST), "Overflow"),
    (Unary::Neg, Sample::Bool(true), "Unknown"),
    (Unary::Neg, Sample::Text("1"), "Unknown"),
    (Unary::Not, Sample::Bool(true), "false"),
    (Unary::Not, Sample::Bool(false), "true"),
    (Unary::Not, Sample::Int(0), "Unknown"),
    (Unary::Not, Sample::Null, "Unknown"),
];

#[test]
fn a_prefix_takes_an_integer_or_a_truth_value(rt: HostRuntime) -> Result<(), Fail> {
    for (operator, operand, wanted) in PREFIXED {
        let found = of_one(rt.alloc(), *operator, *operand)?;
        assert!(rt;
            found.as_str() == *wanted,
            "{operator:?}: {wanted}: {found}"
        );
    }
    Ok(())
}

// A mark for what an operator answers to copies of two values: `.` for the fault Unknown.
fn mark_of(alloc: Global, operator: Binary, a: &Value, b: &Value) -> Result<char, Fail> {
    Ok(mark(&binary(alloc, operator, a.copy()?, b.copy()?)))
}

fn mark(answer: &Result<Value, OperatorFault>) -> char {
    match answer {
        Err(OperatorFault::Fault(FaultKind::Unknown)) => '.',
        Ok(Value::Bool(false)) => 'f',
        Ok(Value::Bool(true)) => 't',
        Ok(_) => 'v',
        Err(_) => 'e',
    }
}

const COMPARING: &[(Binary, &str)] = &[
    (Binary::Eq, "=="),
    (Binary::Ne, "!="),
    (Binary::Lt, "<"),
    (Binary::Le, "<="),
    (Binary::Gt, ">"),
    (Binary::Ge, ">="),
];

// The sign of an operator that answers true; `?` where it has no answer.
fn sign_of<'a>(mark: char, sign: &'a str) -> &'a str {
    match mark {
        't' => sign,
        'f' => "",
        _ => "?",
    }
}

// The operators between two operands that answer true, in their order.
fn that_hold(alloc: Global, a: &Value, b: &Value) -> Result<String, Fail> {
    let mut all = String::new(alloc);
    for (operator, sign) in COMPARING {
        let mark = mark_of(alloc, *operator, a, b)?;
        all.push_str(sign_of(mark, sign))?;
    }
    Ok(all)
}

fn comparison(alloc: Global, a: Sample, b: Sample) -> Result<String, Fail> {
    let a = Box::new(alloc, value(alloc, a)?)?;
    that_hold(alloc, &a, &value(alloc, b)?)
}

const COMPARED: &[(Sample, Sample, &str)] = &[
    (Sample::Int(2), Sample::Int(2), "==<=>="),
    (Sample::Int(-1), Sample::Int(0), "!=<<="),
    (Sample::Int(GREATEST), Sample::Int(LEAST), "!=>>="),
    (Sample::Text("a"), Sample::Text("a"), "==<=>="),
    (Sample::Text(""), Sample::Text("a"), "!=<<="),
    (Sample::Text("a"), Sample::Text("aa"), "!=<<="),
    (Sample::Text("b"), Sample::Text("aa"), "!=>>="),
    (Sample::Text("é"), Sample::Text("z"), "!=>>="),
    (Sample::Path("a/b"), Sample::Path("a/b"), "==<=>="),
    (Sample::Path("a/b"), Sample::Path("a-b"), "!=>>="),
    (Sample::Text("a"), Sample::Path("a"), "!=????"),
    (Sample::Bool(false), Sample::Bool(true), "!=????"),
    (Sample::List(&[1, 2]), Sample::List(&[1, 2]), "==????"),
    (Sample::List(&[1, 2]), Sample::List(&[1]), "!=????"),
];

#[test]
fn integers_texts_and_paths_are_ordered(rt: HostRuntime) -> Result<(), Fail> {
    for (number, (a, b, wanted)) in COMPARED.iter().enumerate() {
        let found = comparison(rt.alloc(), *a, *b)?;
        assert!(rt; found.as_str() == *wanted, "case {number}: {found}");
    }
    Ok(())
}

const KINDS: &[Sample] = &[
    Sample::Unit,
    Sample::Null,
    Sample::Bool(true),
    Sample::NoItems,
    Sample::Path("a"),
    Sample::Text("a"),
    Sample::Int(1),
    Sample::Bytes(b"a"),
    Sample::List(&[]),
];

// One value of each kind.
fn kinds(alloc: Global) -> Result<Items, Fail> {
    let mut kinds = Items::new();
    for sample in KINDS {
        kinds.push(alloc, value(alloc, *sample)?)?;
    }
    Ok(kinds)
}

// What an operator answers to a value and each of some values.
fn row(alloc: Global, operator: Binary, a: &Value, kinds: &[Value]) -> Result<String, Fail> {
    let mut row = String::new(alloc);
    for b in kinds {
        row.push(mark_of(alloc, operator, a, b)?)?;
    }
    Ok(row)
}

// What an operator answers to each two of some values, a row for each.
fn answered(alloc: Global, operator: Binary, kinds: &[Value]) -> Result<String, Fail> {
    let mut rows = String::new(alloc);
    for a in kinds {
        let row = row(alloc, operator, a, kinds)?;
        rows.push_str(row.as_str())?;
        rows.push(' ')?;
    }
    Ok(rows)
}

const INTS: &str =
    "......... ......... ......... ......... ......... ......... ......v.. ......... ......... ";

const SUMS: &str =
    "......... ......... ......... ......... ......... .....v... ......v.. .......v. ........v ";

const SAME: &str =
    "tffffffff ftfffffff fftffffff ffftfffff fffftffff ffffftfff fffffftff ffffffftf fffffffft ";

const ORDERED: &str =
    "......... ......... ......... ......... ....t.... .....t... ......t.. ......... ......... ";

// An operator, and what it answers to each two kinds.
const ANSWERED: &[(Binary, &str)] = &[
    (Binary::Add, SUMS),
    (Binary::Sub, INTS),
    (Binary::Mul, INTS),
    (Binary::Div, INTS),
    (Binary::Rem, INTS),
    (Binary::Eq, SAME),
    (Binary::Le, ORDERED),
    (Binary::Ge, ORDERED),
];

fn answers(rt: &impl Abort, alloc: Global, kinds: &[Value]) -> Result<(), Fail> {
    for (operator, wanted) in ANSWERED {
        let found = answered(alloc, *operator, kinds)?;
        assert!(rt; found.as_str() == *wanted, "{operator:?}: {found}");
    }
    Ok(())
}

#[test]
fn operands_of_other_kinds_are_unknown(rt: HostRuntime) -> Result<(), Fail> {
    answers(&rt, rt.alloc(), kinds(rt.alloc())?.as_slice())
}
