//! What a build by what changed begins with.
ghost use Rattle.std.specs.Prelude.{◌≡◌, IfOk, IfSome};
ghost use Rattle.pie_files.specs.Reading.{ReadsOnly};
ghost use Rattle.pie_named.specs.Asking.{AsksFor};
ghost use Rattle.pie_store.specs.Frame.{IsSealed};
ghost use Rattle.pie_incremental.specs.inner.Asked.{IsAtFirst};
ghost use Rattle.pie_incremental.specs.inner.Cleaned.{KnowsWhere};
ghost use Rattle.pie_incremental.specs.inner.Digested.{digested};
ghost use Rattle.pie_incremental.specs.inner.Joined.{IsBase, IsEndingOf, IsImage};

use crate::ending::Ending;
use crate::{Base, joined_names, put_digests};
use pie_base::Path;
use pie_diff::held_by;
use pie_files::{Files, FilesError};
use pie_project::Project;
use pie_store::StoreImage;
use std::alloc::Global;

/// What the store says, and what the end of the build needs.
#[derive(Drop)]
pub(crate) struct Begun {
    pub(crate) image: Box<StoreImage>,
    pub(crate) ending: Box<Ending>,
}

/// The names are joined, what is held under `out/` is asked for at named paths, and a store of version 1 gets the digests of the functions where it is of
/// this pipeline.
#[tactic(auto, using(pie_files::proofs::Reading::reads))]
pub(crate) fn begin<F: Files>(
    alloc: Global,
    files: &mut F,
    base: Box<Base>,
    project: &Project,
    changes: &[Path],
) -> Result<Begun, FilesError>
    requires { IsBase base.value }
    ensures image { IfOk result (λ b. IsImage b.image.value) }
    ensures ending { IfOk result (λ b. IsEndingOf base.value changes.now b.ending.value) }
    ensures sealed { IfOk result (λ b. IsSealed b.ending.value.own.store.items) }
    ensures digested { IfSome (F.holds files.old) (λ d. IfOk result (λ b. b.image.value ≡ digested d project.now.digests.items base.value.image)) }
    ensures known { IfSome (F.holds files.old) (λ d. IfOk result (λ b. KnowsWhere base.value d b.ending.value)) }
    ensures asks { AsksFor (IsAtFirst changes.now base.value.names.items) (F.asked files.old) (F.asked files.new) }
    ensures reads { ReadsOnly F.holds F.moment F.left_since F.images F.faults files.old files.new result }
{
    let Base { image, names, own } = Box::into_inner(base);
    let mut image = Box::new(alloc, image)?;
    let names = joined_names(alloc, changes, names.as_slice())?;
    let held = held_by(alloc, files, image.rows.as_slice(), names.as_slice())?;
    let ending = Box::new(alloc, Ending { own, held, names })?;
    put_digests(alloc, files, &mut image, project.digests.as_slice())?;
    Ok(Begun { image, ending })
}
