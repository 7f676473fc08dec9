//! What stands around the contents of a store: four fixed bytes, the version, and the SHA-256 of all before it.
ghost use Rattle.std.specs.Prelude.{◌≡◌, ◌+◌, ◌≤◌, length, IfOk};
ghost use Rattle.sha2.specs.Sha256.{sha256};
ghost use Rattle.pie_store.specs.Frame.{FrameAgrees, IsSealed, framed, sealed};

use crate::StoreFault;
use sha2::{Digest, Sha256};

pub(crate) const MAGIC: &[u8; 4] = b"PIES";

/// The fewest bytes of a store, and of one in version 1.
const LEAST: usize = 49;

const LEAST_1: usize = 77;

const DIGEST: usize = 32;

// The bytes before the digest, where they have a good frame.
pub(crate) fn body_of(bytes: &[u8]) -> Result<&[u8], StoreFault>
    ensures body { FrameAgrees result (framed bytes.now) }
    ensures long { IfOk result (λ body. 17 ≤ length body.now) }
{
    if bytes.len() < LEAST {
        return Err(StoreFault::Short);
    }
    if &bytes[..4] != MAGIC.as_slice() {
        return Err(StoreFault::Magic);
    }
    match bytes[4] {
        1 if bytes.len() < LEAST_1 => Err(StoreFault::Short),
        1 | 2 => sealed_body(bytes),
        _ => Err(StoreFault::Version),
    }
}

// The bytes before the digest, where it is theirs.
fn sealed_body(bytes: &[u8]) -> Result<&[u8], StoreFault>
    requires { 32 ≤ length bytes.now }
    ensures body { FrameAgrees result (sealed bytes.now) }
    ensures long { IfOk result (λ body. length body.now + 32 ≡ length bytes.now) }
{
    let (body, digest) = bytes.split_at(bytes.len() - DIGEST);
    if hash_of(body).as_slice() != digest {
        return Err(StoreFault::Digest);
    }
    Ok(body)
}

// The SHA-256 of a body, taken over from the text before where it is the body of that.
pub(crate) fn digest_of(body: &[u8], before: &[u8]) -> [u8; 32]
    requires { IsSealed before.now }
    ensures { result ≡ sha256 body.now }
{
    match before.split_last_chunk::<DIGEST>() {
        Some((same, digest)) if same == body => *digest,
        _ => hash_of(body),
    }
}

fn hash_of(bytes: &[u8]) -> [u8; 32]
    ensures { result ≡ sha256 bytes.now }
{
    let mut hasher = Sha256::new();
    hasher.update(bytes);
    hasher.finalize()
}
