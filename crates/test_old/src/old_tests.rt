//! A small store, and which of its functions stayed the same.
use pie_base::Text;
use pie_graph::{TaskNo, TaskRows};
use pie_old::{Loaded, Old, load, same_code};
use pie_store::{Funcs, decode_store};
use pie_value::{Items, Task};
use sha2::{Digest, Sha256};
use std::alloc::Global;
use std::test::Fail;

// A store without its digest: `a()` wrote `out/x`, and `b()` ran `a()`, looked for that file and ran `a()` again.
const STORE: &str =
    "504945530200000002000000016100000000000000000000000000000000000000000000000000000000000000000000\
    000162111111111111111111111111111111111111111111111111111111111111111100000001000000016200000000\
    000000020000000161000000000000000000000001000000056f75742f78000102030405060708090a0b0c0d0e0f1011\
    12131415161718191a1b1c1d1e1f0000000001620000000000000003080000000161000000000501000000056f75742f\
    780108000000016100000000050000000000";

fn bytes(alloc: Global) -> Result<Vec<u8>, Fail> {
    let mut bytes = hex::decode(alloc, STORE)?;
    let mut hasher = Sha256::new();
    hasher.update(bytes.as_slice());
    let digest = hasher.finalize();
    bytes.extend_from_slice(digest.as_slice())?;
    Ok(bytes)
}

fn loaded(alloc: Global) -> Result<Loaded, Fail> {
    let bytes = bytes(alloc)?;
    let image = decode_store(alloc, bytes.as_slice())?;
    let loaded = load(alloc, image.rows)?;
    Ok(loaded)
}

// Of each task which ones it requires, and whether it looked under `out/`.
fn tell(old: &Old, said: &mut String) -> Result<(), Fail> {
    for no in 0..old.rows.count() {
        for need in old.rows.callees(TaskNo(no)) {
            said.push_str(if need.0 == 0 { "a" } else { "b" })?;
        }
        let looks = old.looks_out.get(no as usize).copied().unwrap_or(false);
        said.push_str(if looks { "+" } else { "-" })?;
    }
    Ok(())
}

fn told(alloc: Global) -> Result<String, Fail> {
    let loaded = Box::new(alloc, loaded(alloc)?)?;
    let mut said = String::new(alloc);
    match &*loaded {
        Loaded::Whole(old) => tell(old, &mut said)?,
        Loaded::Many(_) => said.push_str("many")?,
    }
    Ok(said)
}

#[test]
fn a_store_is_numbered_in_its_order(rt: HostRuntime) -> Result<(), Fail> {
    let said = told(rt.alloc())?;
    assert!(rt; said.as_str() == "-aa+");
    Ok(())
}

fn funcs(alloc: Global, names: &[&str]) -> Result<Vec<(Text, [u8; 32])>, Fail> {
    let mut funcs = Vec::new(alloc);
    for name in names {
        let name = Text::new(alloc, *name)?;
        funcs.push((name, [0; 32]))?;
    }
    Ok(funcs)
}

fn tasks(alloc: Global, names: &[&str]) -> Result<Vec<Task>, Fail> {
    let mut tasks = Vec::new(alloc);
    for name in names {
        let func = Text::new(alloc, *name)?;
        tasks.push(Task {
            func,
            args: Items::new(),
        })?;
    }
    Ok(tasks)
}

// Which tasks of these functions have the same code in both lists.
fn same_of(
    alloc: Global,
    names: &[&str],
    old: &[(Text, [u8; 32])],
    now: &[(Text, [u8; 32])],
) -> Result<Vec<bool>, Fail> {
    let tasks = tasks(alloc, names)?;
    Ok(same_code(alloc, tasks.as_slice(), old, now)?)
}

// The functions of the store.
fn stored_funcs(alloc: Global) -> Result<Funcs, Fail> {
    let bytes = bytes(alloc)?;
    Ok(decode_store(alloc, bytes.as_slice())?.funcs)
}

#[test]
fn code_is_the_same_where_both_lists_have_its_digest(rt: HostRuntime) -> Result<(), Fail> {
    let alloc = rt.alloc();
    let old = stored_funcs(alloc)?;
    let now = funcs(alloc, &["a", "b", "c"])?;
    let names = ["b", "a", "c", "a"];
    let same = same_of(alloc, &names, old.as_slice(), now.as_slice())?;
    assert!(rt; same.as_slice() == [false, true, false, true].as_slice());
    Ok(())
}
