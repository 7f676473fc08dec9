//! What the digests of functions tell of tasks.
ghost use Rattle.pie_earlier_laws.specs.Functions.{OneDigestIsOneNext, MetSpellingsSeparate, OneTextHasOneTable};

/// A task whose function has one digest in two pipelines means the same in both, unless two different spellings have one SHA-256. Where two builds
/// separate what they meet, no two have; and where a store keeps the digest of a text alone, the digests of that text serve.
/// Rule: docs/FORMATS.md, "The store".
pub fn one_digest_is_one_next()
    ensures next { OneDigestIsOneNext }
    ensures separate { MetSpellingsSeparate }
    ensures text { OneTextHasOneTable }
{}
