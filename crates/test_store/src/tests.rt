ghost use Rattle.std.specs.Prelude.{◌≡◌, None, []};
ghost use Rattle.pie_store.specs.Canonical.{IsStorableStore};

use pie_base::OutOfMemory;
use pie_stamp::hash_of;
use pie_store::{Funcs, Rows, StoreImage, decode_store, encode_store, encode_store_after};
use pie_value::Tasks;
use std::alloc::Global;
use std::test::Fail;

// The stores of a build of `one()` and `two()`, which each read `s` and write a file, without their digests.
const STORE: &str =
    "504945530200000003000000036f6e657150ee8940561e4fbf7b8439bd8272e6dfae46054185939de0e785f82470d44c0000\
    000374776f4948a38d3bb24f8704f5c9f1e5e82a4ac9fc1b5d226507ff7ed573344be525be0000000574687265659a7879fa\
    db611a0008f470c0078ffee6784f84b761c233bf810d93e16db24af600000002000000036f6e65000000000000000374776f\
    0000000000000002000000036f6e650000000000000001020000000173026b86b273ff34fce19d6b804eff5a3f5747ada4ea\
    a22f1d49c01e52ddb7875b4b00000001000000076f75742f6f6e656b86b273ff34fce19d6b804eff5a3f5747ada4eaa22f1d\
    49c01e52ddb7875b4b000000000374776f0000000000000001020000000173026b86b273ff34fce19d6b804eff5a3f5747ad\
    a4eaa22f1d49c01e52ddb7875b4b00000001000000076f75742f74776f6b86b273ff34fce19d6b804eff5a3f5747ada4eaa2\
    2f1d49c01e52ddb7875b4b00";

const STORE_1: &str =
    "504945530123bf0d244a4cb62c85fc3aa0e8ebf8eb7eb970522a51326adf1ac015fc738c7c00000002000000036f6e650000\
    00000000000374776f0000000000000002000000036f6e650000000000000001020000000173026b86b273ff34fce19d6b80\
    4eff5a3f5747ada4eaa22f1d49c01e52ddb7875b4b00000001000000076f75742f6f6e656b86b273ff34fce19d6b804eff5a\
    3f5747ada4eaa22f1d49c01e52ddb7875b4b000000000374776f0000000000000001020000000173026b86b273ff34fce19d\
    6b804eff5a3f5747ada4eaa22f1d49c01e52ddb7875b4b00000001000000076f75742f74776f6b86b273ff34fce19d6b804e\
    ff5a3f5747ada4eaa22f1d49c01e52ddb7875b4b00";

// The bytes of a store whose body these digits are.
fn sealed(alloc: Global, digits: &str) -> Result<Vec<u8>, Fail> {
    let mut bytes = hex::decode(alloc, digits)?;
    let digest = hash_of(bytes.as_slice());
    bytes.extend_from_slice(digest.as_slice())?;
    Ok(bytes)
}

// What decoding answers, as text: the number of records, or the fault.
fn decoded(alloc: Global, bytes: &[u8]) -> Result<String, Fail> {
    match decode_store(alloc, bytes) {
        Ok(image) => Ok(format!(in alloc; "{}", image.rows.as_slice().len())?),
        Err(fault) => Ok(format!(in alloc; "{fault:?}")?),
    }
}

#[test]
fn each_body_is_read_or_refused_at_its_first_fault(rt: HostRuntime) -> Result<(), Fail> {
    let cases = [
        ("5049455302000000000000000000000000", "0"),
        ("5049455402000000000000000000000000", "Magic"),
        ("5049455303000000000000000000000000", "Version"),
        ("5049455301000000000000000000000000", "Short"),
        ("504945530200000000000000000000000000", "Rest"),
        ("50494553020000000000000000ffffffff", "Row(17)"),
        (
            "50494553020000000000000001000000000000000000000000",
            "Order(13)",
        ),
        ("5049455302ffffffff0000000000000000", "Row(9)"),
        ("504945530200000000ffffffff00000000", "Row(13)"),
        (
            "504945530200000000000000010000000166000000000000000000",
            "Order(13)",
        ),
        (
            "5049455302000000000000000000000001000000016600000000000000000000000000",
            "Order(17)",
        ),
    ];
    for (digits, wanted) in cases {
        let bytes = sealed(rt.alloc(), digits)?;
        let answer = decoded(rt.alloc(), bytes.as_slice())?;
        assert_eq!(rt; answer.as_str(), wanted, "at {digits}");
    }
    Ok(())
}

// A body in version 1 without roots, of so many records with these digits.
fn of_records(alloc: Global, count: u32, digits: &str) -> Result<Vec<u8>, Fail> {
    let front =
        "5049455301000000000000000000000000000000000000000000000000000000000000000000000000";
    let body = format!(in alloc; "{front}{count:08x}{digits}")?;
    sealed(alloc, body.as_str())
}

#[test]
fn a_required_task_has_an_earlier_record(rt: HostRuntime) -> Result<(), Fail> {
    let g = "000000016700000000000000000000000000";
    let f = "0000000166000000000000000108000000016700000000050000000000";
    let required = format!(in rt.alloc(); "{g}{f}")?;
    let backwards = format!(in rt.alloc(); "{f}{g}")?;
    let itself = "0000000166000000000000000108000000016600000000050000000000";
    let cases = [
        (2, required.as_str(), "2"),
        (1, f, "Order(45)"),
        (2, backwards.as_str(), "Order(45)"),
        (1, itself, "Order(45)"),
    ];
    for (count, digits, wanted) in cases {
        let bytes = of_records(rt.alloc(), count, digits)?;
        let answer = decoded(rt.alloc(), bytes.as_slice())?;
        assert_eq!(rt; answer.as_str(), wanted, "at {digits}");
    }
    Ok(())
}

#[test]
fn a_forged_number_of_observations_or_writes_is_refused(rt: HostRuntime) -> Result<(), Fail> {
    let cases = [
        "000000016600000000ffffffff0000000000",
        "00000001660000000000000000ffffffff00",
        "0000000166ffffffff000000000000000000",
        "ffffffff6600000000000000000000000000",
    ];
    for digits in cases {
        let bytes = of_records(rt.alloc(), 1, digits)?;
        let answer = decoded(rt.alloc(), bytes.as_slice())?;
        assert_eq!(rt; answer.as_str(), "Row(45)", "at {digits}");
    }
    Ok(())
}

fn nothing(alloc: Global) -> StoreImage
    ensures version { result.version ≡ 2 }
    ensures table { result.pipeline ≡ None }
    ensures funcs { result.funcs ≡ [] }
    ensures roots { result.roots ≡ [] }
    ensures rows { result.rows ≡ [] }
{
    StoreImage {
        version: 2,
        pipeline: None,
        funcs: Funcs::new(Vec::new(alloc)),
        roots: Tasks::new(Vec::new(alloc)),
        rows: Rows::new(Vec::new(alloc)),
    }
}

fn nothing_written(alloc: Global) -> Result<Vec<u8>, OutOfMemory> {
    let image = nothing(alloc);
    let bytes = encode_store(alloc, &image)?;
    Ok(bytes)
}

#[test]
fn the_store_of_nothing_has_49_bytes(rt: HostRuntime) -> Result<(), Fail> {
    let bytes = nothing_written(rt.alloc())?;
    let wanted = sealed(rt.alloc(), "5049455302000000000000000000000000")?;
    assert_eq!(rt; bytes.len(), 49);
    assert!(rt; bytes.as_slice() == wanted.as_slice());
    Ok(())
}

#[test]
fn a_store_is_read(rt: HostRuntime) -> Result<(), Fail> {
    let alloc = rt.alloc();
    let bytes = sealed(alloc, STORE)?;
    assert_eq!(rt; bytes.len(), 394);
    let image = decode_store(alloc, bytes.as_slice())?;
    assert_eq!(rt; image.rows.as_slice().len(), 2);
    assert_eq!(rt; image.funcs.as_slice().len(), 3);
    Ok(())
}

#[test]
fn a_store_that_was_read_is_written_again(rt: HostRuntime) -> Result<(), Fail> {
    let alloc = rt.alloc();
    let bytes = sealed(alloc, STORE)?;
    let image = decode_store(alloc, bytes.as_slice())?;
    assert!(rt; image.version == 2);
    let again = encode_store(alloc, &image)?;
    assert!(rt; again.as_slice() == bytes.as_slice());
    Ok(())
}

// What is written after this text of a store.
fn written_after(alloc: Global, image: &StoreImage, before: &[u8]) -> Result<Vec<u8>, Fail>
    requires { IsStorableStore image.now }
{
    let _said = decode_store(alloc, before)?;
    let bytes = encode_store_after(alloc, image, before)?;
    Ok(bytes)
}

#[test]
fn a_store_is_written_alike_after_its_own_text_and_another(rt: HostRuntime) -> Result<(), Fail> {
    let alloc = rt.alloc();
    let bytes = sealed(alloc, STORE)?;
    let other = sealed(alloc, "5049455302000000000000000000000000")?;
    let image = decode_store(alloc, bytes.as_slice())?;
    assert!(rt; image.version == 2);
    let again = written_after(alloc, &image, bytes.as_slice())?;
    assert!(rt; again.as_slice() == bytes.as_slice());
    let after = written_after(alloc, &image, other.as_slice())?;
    assert!(rt; after.as_slice() == bytes.as_slice());
    Ok(())
}

#[test]
fn a_store_of_version_1_is_read(rt: HostRuntime) -> Result<(), Fail> {
    let bytes = sealed(rt.alloc(), STORE_1)?;
    assert_eq!(rt; bytes.len(), 303);
    let answer = decoded(rt.alloc(), bytes.as_slice())?;
    assert_eq!(rt; answer.as_str(), "2");
    Ok(())
}

#[test]
fn a_store_that_is_cut_is_refused(rt: HostRuntime) -> Result<(), Fail> {
    let bytes = sealed(rt.alloc(), STORE)?;
    for len in 0..bytes.len() {
        let answer = decoded(rt.alloc(), &bytes[..len])?;
        let wanted = if len < 49 { "Short" } else { "Digest" };
        assert_eq!(rt; answer.as_str(), wanted, "at {len}");
    }
    Ok(())
}

#[test]
fn a_body_that_is_cut_is_refused_at_the_part_that_is_cut(rt: HostRuntime) -> Result<(), Fail> {
    let body = hex::decode(rt.alloc(), STORE)?;
    let parts = [5, 9, 48, 87, 128, 132, 143, 154, 158, 260];
    for len in 17..body.len() {
        let mut bytes = Vec::from_slice(rt.alloc(), &body[..len])?;
        let digest = hash_of(bytes.as_slice());
        bytes.extend_from_slice(digest.as_slice())?;
        let answer = decoded(rt.alloc(), bytes.as_slice())?;
        let part = parts
            .iter()
            .filter(|part| **part <= len)
            .max()
            .unwrap_or(&0);
        let wanted = format!(in rt.alloc(); "Row({part})")?;
        assert_eq!(rt; answer.as_str(), wanted.as_str(), "at {len}");
    }
    Ok(())
}

// The body of the store with its two records exchanged.
fn exchanged(alloc: Global) -> Result<Vec<u8>, Fail> {
    let body = hex::decode(alloc, STORE)?;
    let mut bytes = Vec::new(alloc);
    for (from, to) in [(0, 158), (260, 362), (158, 260)] {
        if let Some(part) = body.as_slice().get(from..to) {
            bytes.extend_from_slice(part)?;
        }
    }
    let digest = hash_of(bytes.as_slice());
    bytes.extend_from_slice(digest.as_slice())?;
    Ok(bytes)
}

#[test]
fn exchanged_records_are_out_of_order(rt: HostRuntime) -> Result<(), Fail> {
    let bytes = exchanged(rt.alloc())?;
    let answer = decoded(rt.alloc(), bytes.as_slice())?;
    assert_eq!(rt; answer.as_str(), "Order(260)");
    Ok(())
}
