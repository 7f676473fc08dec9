//! What a crash leaves of a directory in memory: the things that happened to it, done as they are picked.
ghost use Rattle.std.specs.Prelude.{◌≡◌, ◌+◌, ◌≤◌, ◌<◌, ◌^◌, cond, length, OnOk, IfOk};
ghost use Rattle.pie_files.specs.Directory.{with_file};
ghost use Rattle.pie_files.specs.inner.Story.{picked, picked_all, picked_write, picked_removal, picked_image, is_sync, synced};

use crate::held::Held;
use crate::{Found, Logged, Pick};
use pie_base::{OutOfMemory, Path};
use std::alloc::Global;

/// The directory that a crash leaves, of one that began with these files and that this happened to.
pub(crate) fn crashed(
    alloc: Global,
    began: &Held,
    log: &[Logged],
    pick: Pick,
) -> Result<Held, OutOfMemory>
    ensures { IfOk result (λ left. left ≡ picked_image pick began.now log.now) }
{
    let end = synced_end(log);
    let mut left = began.copy(alloc)?;
    replay(alloc, &mut left, &log[..end], Pick::All)?;
    replay(alloc, &mut left, &log[end..], pick)?;
    Ok(left)
}

// How many things happened up to the last sync that succeeded, it included.
fn synced_end(log: &[Logged]) -> usize
    ensures end { result ≡ synced log.now }
    ensures inside { result ≤ length log.now }
{
    let mut end = 0;
    for i in 0..log.len() {
        end = end_after(end, i, &log[i]);
    }
    end
}

// The end after one thing more, which is the i-th from 0.
fn end_after(end: usize, i: usize, logged: &Logged) -> usize
    requires { i < 2 ^ 63 }
    ensures { result ≡ cond (is_sync logged.now) (i + 1) end }
{
    match logged {
        Logged::Synced => i + 1,
        _ => end,
    }
}

// Does what happened, as it is picked.
fn replay(alloc: Global, held: &mut Held, log: &[Logged], pick: Pick) -> Result<(), OutOfMemory>
    ensures { OnOk result (held.new ≡ picked_all pick held.old log.now) }
{
    for logged in log {
        replay_one(alloc, held, logged, pick)?;
    }
    Ok(())
}

fn replay_one(
    alloc: Global,
    held: &mut Held,
    logged: &Logged,
    pick: Pick,
) -> Result<(), OutOfMemory>
    ensures { OnOk result (held.new ≡ picked pick held.old logged.now) }
{
    match logged {
        Logged::Put(path, bytes, mark) => set(alloc, held, path, bytes.as_slice(), *mark),
        Logged::Wrote(path, bytes, mark) => write(alloc, held, path, bytes.as_slice(), *mark, pick),
        Logged::Removed(path) => {
            remove(held, path, pick);
            Ok(())
        }
        Logged::FailsAt(_) | Logged::Asked(_) | Logged::Failed(_) | Logged::Synced => Ok(()),
    }
}

fn write(
    alloc: Global,
    held: &mut Held,
    path: &Path,
    bytes: &[u8],
    mark: u64,
    pick: Pick,
) -> Result<(), OutOfMemory>
    ensures { OnOk result (held.new ≡ picked_write pick held.old path.now bytes.now mark) }
{
    match pick {
        Pick::All => set(alloc, held, path, bytes, mark),
        Pick::Nothing => Ok(()),
        Pick::Torn => set(alloc, held, path, &bytes[..bytes.len() / 2], mark),
    }
}

fn remove(held: &mut Held, path: &Path, pick: Pick)
    ensures { held.new ≡ picked_removal pick held.old path.now }
{
    match pick {
        Pick::All | Pick::Torn => held.remove(path),
        Pick::Nothing => {}
    }
}

fn set(
    alloc: Global,
    held: &mut Held,
    path: &Path,
    bytes: &[u8],
    mark: u64,
) -> Result<(), OutOfMemory>
    ensures { OnOk result (held.new ≡ with_file held.old path.now bytes.now mark) }
{
    let found = Found {
        bytes: bytes.to_vec(alloc)?,
        mark,
    };
    held.insert(path.copy()?, found)
}
