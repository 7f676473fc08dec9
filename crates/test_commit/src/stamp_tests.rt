//! Each stamper on the observations that it takes.
ghost use Rattle.pie_stamp.specs.Observations.{IsFile, IsOutput, IsEncodableSight};

use pie_base::OutOfMemory;
use pie_files::Found;
use pie_stamp::{ByDone, ByHash, ByMark, ByPresence, ByWhole, Observed, Stamper};
use pie_value::{Items, Stamp, Value};
use std::alloc::Global;
use std::test::Fail;

const HASH_OF_ABC: [u8; 32] = [
    0xba, 0x78, 0x16, 0xbf, 0x8f, 0x01, 0xcf, 0xea, 0x41, 0x41, 0x40, 0xde, 0x5d, 0xae, 0x22, 0x23,
    0xb0, 0x03, 0x61, 0xa3, 0x96, 0x17, 0x7a, 0x9c, 0xb4, 0x10, 0xff, 0x61, 0xf2, 0x00, 0x15, 0xad,
];

// Whether a stamper gives an observation this stamp.
fn stamps<S: Stamper>(
    stamper: &S,
    alloc: Global,
    seen: &Observed,
    wanted: &Stamp,
) -> Result<bool, OutOfMemory>
    requires { S.takes seen.now }
{
    let stamp = stamper.stamp(alloc, seen)?;
    Ok(stamp.same(wanted))
}

// Whether a file is stamped so by its bytes, its presence and its mark.
fn file_stamps(
    alloc: Global,
    seen: &Observed,
    hash: &Stamp,
    presence: &Stamp,
    mark: &Stamp,
) -> Result<bool, OutOfMemory>
    requires file { IsFile seen.now }
    requires encodable { IsEncodableSight seen.now }
{
    Ok(
        stamps(&ByHash, alloc, seen, hash)?
            && stamps(&ByPresence, alloc, seen, presence)?
            && stamps(&ByMark, alloc, seen, mark)?,
    )
}

#[test]
fn a_file_is_stamped_by_its_presence_its_bytes_or_its_mark(rt: HostRuntime) -> Result<(), Fail> {
    let alloc = rt.alloc();
    let bytes = b"abc".to_vec(alloc)?;
    let abc = Observed::File(Some(Found { bytes, mark: 7 }));
    let hash = Stamp::Hash(HASH_OF_ABC);
    assert!(rt; file_stamps(alloc, &abc, &hash, &Stamp::Present, &Stamp::Mark(7))?);
    Ok(())
}

#[test]
fn what_is_not_there_is_absent(rt: HostRuntime) -> Result<(), Fail> {
    let alloc = rt.alloc();
    let none = Observed::File(None);
    let absent = Stamp::Absent;
    assert!(rt; file_stamps(alloc, &none, &absent, &absent, &absent)?);
    Ok(())
}

// Whether both observations have one stamp by their hash.
fn stamped_alike(alloc: Global, a: &Observed, b: &Observed) -> Result<bool, OutOfMemory>
    requires a { IsEncodableSight a.now }
    requires b { IsEncodableSight b.now }
{
    let one = ByHash.stamp(alloc, a)?;
    stamps(&ByHash, alloc, b, &one)
}

// Whether an output is stamped so as a whole, and else as done.
fn output_stamps(alloc: Global, seen: &Observed, whole: &Stamp) -> Result<bool, OutOfMemory>
    requires { IsOutput seen.now }
{
    Ok(stamps(&ByWhole, alloc, seen, whole)? && stamps(&ByDone, alloc, seen, &Stamp::Done)?)
}

#[test]
fn an_output_is_stamped_whole_by_hash_or_as_done(rt: HostRuntime) -> Result<(), Fail> {
    let alloc = rt.alloc();
    let five = Observed::Output(Value::Int(5));
    let six = Observed::Output(Value::Int(6));
    assert!(rt; output_stamps(alloc, &five, &Stamp::Whole(Value::Int(5)))?);
    assert!(rt; !stamped_alike(alloc, &five, &six)?);
    Ok(())
}

#[test]
fn entries_are_stamped_as_the_list_of_them(rt: HostRuntime) -> Result<(), Fail> {
    let alloc = rt.alloc();
    let mut entries = Items::new();
    entries.push(alloc, Value::Null)?;
    let list = Observed::Output(Value::List(entries.copy()?));
    let seen = Observed::Entries(entries);
    assert!(rt; stamped_alike(alloc, &seen, &list)?);
    Ok(())
}
