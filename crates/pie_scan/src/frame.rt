//! What stands around the contents of a manifest: four fixed bytes, the version, and the SHA-256 of all before it.
ghost use Rattle.std.specs.Prelude.{◌≡◌, ◌+◌, ◌≤◌, length, IfOk};
ghost use Rattle.pie_scan.specs.Frame.{FrameAgrees, framed, sealed};

use crate::ManifestFault;
use pie_stamp::hash_of;

pub(crate) const MAGIC: &[u8; 4] = b"PIEM";

/// The fewest bytes of a manifest.
const LEAST: usize = 81;

const DIGEST: usize = 32;

// The bytes before the digest, where they have a good frame.
pub(crate) fn body_of(bytes: &[u8]) -> Result<&[u8], ManifestFault>
    ensures body { FrameAgrees result (framed bytes.now) }
    ensures long { IfOk result (λ body. 49 ≤ length body.now) }
{
    if bytes.len() < LEAST {
        return Err(ManifestFault::Short);
    }
    if &bytes[..4] != MAGIC.as_slice() {
        return Err(ManifestFault::Magic);
    }
    if bytes[4] != 1 {
        return Err(ManifestFault::Version);
    }
    sealed_body(bytes)
}

// The bytes before the digest, where it is theirs.
fn sealed_body(bytes: &[u8]) -> Result<&[u8], ManifestFault>
    requires { 32 ≤ length bytes.now }
    ensures body { FrameAgrees result (sealed bytes.now) }
    ensures long { IfOk result (λ body. length body.now + 32 ≡ length bytes.now) }
{
    let (body, digest) = bytes.split_at(bytes.len() - DIGEST);
    if hash_of(body).as_slice() != digest {
        return Err(ManifestFault::Digest);
    }
    Ok(body)
}
