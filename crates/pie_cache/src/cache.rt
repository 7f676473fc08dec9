//! The record cache of a project.
ghost use Rattle.std.specs.Prelude.{◌≡◌};

use crate::cache_path;
use crate::stored::stored;
use pie_files::{Files, FilesError};
use pie_store::{Offer, Offers};
use pie_value::Task;
use std::alloc::Global;

/// The record cache of a project: files below `.pie/cache`, each with up to four entries of one task and one function. It is made by `open`; what tasks gave joins it by `keep`.
/// Rule: docs/FORMATS.md, "The cache".
#[derive(Drop)]
pub struct Cache {
    pub(crate) opened: (),
}

impl Offers for Cache {
    ghost use Rattle.std.specs.Prelude.{[], ◌∷◌};
    ghost use Rattle.pie_cache.specs.inner.Places.{cache_path as specs_cache_path};
    ghost use Rattle.pie_cache.specs.inner.Stored.{offers_in};

    ghost told = { λ _ d task digest. offers_in d task digest };

    ghost looks = { λ _ task digest. specs_cache_path task digest ∷ [] };

    fn offers<F: Files>(
        &mut self,
        alloc: Global,
        files: &mut F,
        task: &Task,
        digest: &[u8; 32],
    ) -> Result<Vec<Offer>, FilesError> {
        let path = cache_path(alloc, task, digest)?;
        let entries = stored(alloc, files, &path)?;
        Ok(entries)
    }
}
