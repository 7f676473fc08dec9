//! The laws on digests of functions.
ghost use Rattle.pie_digest_laws.specs.Digests.{EachHasItsDigest, OneDigestIsOneMeaning};

/// Among the digests of a pipeline's text stands that of each of its functions, the SHA-256 of its joined spellings,
/// with its name. Functions of two pipelines with one digest mean the same, unless two different spellings have one
/// SHA-256. Rule: docs/FORMATS.md, "The store".
pub fn digests_tell_functions()
    ensures each { EachHasItsDigest }
    ensures meaning { OneDigestIsOneMeaning }
{}
