//! Where a task's cache file is. Rule: docs/FORMATS.md, "The cache".
ghost use Rattle.std.specs.Prelude.{◌≡◌, ◌++◌, IfOk};
ghost use Rattle.sha2.specs.Sha256.{sha256};
ghost use Rattle.pie_value.specs.Canonical.{enc_task, IsEncodableTask};
ghost use Rattle.pie_cache.specs.inner.Places.{cache_path as specs_cache_path, path_of_hash, IsCachePath};

use pie_base::{OutOfMemory, Path};
use pie_stamp::hash_of;
use pie_value::{Task, encode_task};
use std::alloc::Global;

/// The path of the cache file of a task whose function has this digest.
pub fn cache_path(alloc: Global, task: &Task, digest: &[u8; 32]) -> Result<Path, OutOfMemory>
    requires { IsEncodableTask task.now }
    ensures path { IfOk result (λ path. path ≡ specs_cache_path task.now digest.now) }
    ensures place { IfOk result IsCachePath }
{
    let hash = key(alloc, task, digest)?;
    let path = at_hash(alloc, &hash)?;
    Ok(path)
}

// What tells tasks and digests apart.
fn key(alloc: Global, task: &Task, digest: &[u8; 32]) -> Result<[u8; 32], OutOfMemory>
    requires { IsEncodableTask task.now }
    ensures { IfOk result (λ hash. hash ≡ sha256 (digest.now ++ enc_task task.now)) }
{
    let mut bytes = Vec::new(alloc);
    bytes.extend_from_slice(digest.as_slice())?;
    let task = encode_task(alloc, task)?;
    bytes.extend_from_slice(task.as_slice())?;
    Ok(hash_of(bytes.as_slice()))
}

fn at_hash(alloc: Global, hash: &[u8; 32]) -> Result<Path, OutOfMemory>
    ensures { IfOk result (λ path. path ≡ path_of_hash hash.now) }
{
    let digits = hex::encode(alloc, hash.as_slice())?;
    let text = format!(in alloc; ".pie/cache/{digits}")?;
    Path::known(alloc, text.as_str())
}
