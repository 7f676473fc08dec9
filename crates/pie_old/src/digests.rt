//! The digests of functions by their names.
ghost use Rattle.std.specs.Prelude.{◌≡◌, ℕ, List, Some, None, cond, bytes_eq, option_copied, IfOk, OnOk};
ghost use Rattle.std.specs.BTreeMap.{get_by_text};
ghost use Rattle.pie_old.specs.inner.Code.{digest_in, kept};

use pie_base::{OutOfMemory, Text};
use std::alloc::Global;
use std::collections::BTreeMap;

/// The digests of functions by their names. Where a name comes twice, the first counts.
pub fn digests_of(
    alloc: Global,
    funcs: &[(Text, [u8; 32])],
) -> Result<BTreeMap<String, [u8; 32]>, OutOfMemory>
    ensures { IfOk result (λ digests. (q : List ℕ) → get_by_text digests q ≡ digest_in funcs.now q) }
{
    let mut digests = BTreeMap::new(alloc);
    for (name, digest) in funcs {
        note(alloc, &mut digests, name.as_str(), *digest)?;
    }
    Ok(digests)
}

// Notes the digest of a name, unless it has one.
#[tactic(auto, using(crate::proofs::Noting::kept_so))]
fn note(
    alloc: Global,
    digests: &mut BTreeMap<String, [u8; 32]>,
    name: &str,
    digest: [u8; 32],
) -> Result<(), OutOfMemory>
    ensures { OnOk result ((q : List ℕ) → get_by_text digests.new q ≡ kept (get_by_text digests.old q) (cond (bytes_eq q name.now) (Some digest) None)) }
{
    match digests.get(name).copied() {
        Some(_) => Ok(()),
        None => {
            let name = String::from_str(alloc, name)?;
            let _old = digests.insert(name, digest)?;
            Ok(())
        }
    }
}
