//! How a build by what changed begins.
ghost use Rattle.std.specs.Prelude.{◌≡◌, ◌≤◌, All, IfOk};
ghost use Rattle.pie_value.specs.Canonical.{IsEncodableTask};
ghost use Rattle.pie_record.specs.Canonical.{IsStorable, IsTrueRecord};
ghost use Rattle.pie_store.specs.Canonical.{AreInOrder};
ghost use Rattle.pie_files.specs.Directory.{Directory};
ghost use Rattle.pie_named.specs.inner.Known.{IsTrueOf};
ghost use Rattle.pie_old.specs.inner.Loaded.{IsOld};
ghost use Rattle.pie_core_laws.specs.Joins.{HasNames};
ghost use Rattle.pie_bottomup.specs.declared.state.First.TheVariants.{Tests, Done};
ghost use Rattle.pie_bottomup.specs.inner.States.{IsCore, MayBegin, room};
ghost use Rattle.pie_bottomup.specs.inner.Begun.{BeginsRight, HasPlan};
ghost use Rattle.pie_bottomup.specs.inner.Loaded.{IsPastLimit};

use crate::plan::Plan;
use crate::state::{Core, First};
use pie_base::{MAX_TASKS, OutOfMemory, Path, Text};
use pie_code::Checked;
use pie_frames::Frames;
use pie_named::Named;
use pie_old::{Loaded, Old, load, same_code};
use pie_record::{Records, TaskNames};
use pie_store::{Rows, StoreImage};
use pie_tables::Tables;
use pie_types::Typed;
use pie_union::UnionRows;
use pie_value::Task;
use pie_view::Stage;
use pie_walk::Walk;
use std::alloc::Global;

impl<'a> Core<'a> {
    /// A build of these roots, from the records of an earlier one, where these paths may have changed since. The digests are those of the
    /// pipeline's functions. Nothing is asked of the files yet.
    pub fn new(
        alloc: Global,
        typed: &'a Typed,
        code: &'a [Checked],
        digests: &'a [(Text, [u8; 32])],
        image: StoreImage,
        roots: &[Task],
        changes: &[Path],
    ) -> Result<Core<'a>, OutOfMemory>
        requires storable { All IsStorable image.rows }
        requires parts { All IsTrueRecord image.rows }
        requires order { AreInOrder image.rows }
        requires roots { All IsEncodableTask roots.now }
        ensures core { IfOk result IsCore }
        ensures plan { IfOk result (HasPlan typed.now code.now digests.now roots.now) }
        ensures room { IfOk result (λ c. room c ≤ MAX_TASKS) }
        ensures begins { IfOk result (BeginsRight image.funcs digests.now image.rows changes.now) }
    {
        let named = names_of(alloc, changes)?;
        let roots = copies(alloc, roots)?;
        let StoreImage { funcs, rows, .. } = image;
        let (old, first) = loaded(alloc, rows)?;
        let same = same_code(
            alloc,
            old.tables.names.as_slice(),
            funcs.as_slice(),
            digests,
        )?;
        let Old {
            tables,
            rows,
            looks_out,
        } = old;
        let walk = Walk::new(alloc, rows, looks_out)?;
        let earlier = walk.count();
        Ok(Core {
            alloc,
            plan: Plan {
                typed,
                code,
                digests,
                roots,
                same,
            },
            tables,
            earlier,
            frames: Frames::new(alloc, walk),
            stage: Stage::new(alloc),
            named,
            at: 0,
            hand: None,
            first,
        })
    }
}

// The old tasks, or none where there are too many.
#[tactic(auto, using(crate::proofs::Beginning::old_begins))]
fn loaded(alloc: Global, rows: Rows) -> Result<(Old, First), OutOfMemory>
    requires storable { All IsStorable rows }
    requires parts { All IsTrueRecord rows }
    requires order { AreInOrder rows }
    ensures begins { IfOk result (λ o. MayBegin o.0) }
    ensures first { IfOk result (λ o. o.1 ≡ Done → ⊥) }
    ensures loaded { IfOk result (λ o. o.1 ≡ Tests → IsOld rows o.0) }
    ensures many { IfOk result (λ o. IsPastLimit rows o.1) }
{
    match load(alloc, rows)? {
        Loaded::Whole(old) => Ok((old, First::Tests)),
        Loaded::Many(task) => {
            let old = none(alloc)?;
            Ok((old, First::TooMany(task)))
        }
    }
}

// No old tasks.
#[tactic(auto, using(crate::proofs::Beginning::none_begins))]
fn none(alloc: Global) -> Result<Old, OutOfMemory>
    ensures { IfOk result MayBegin }
{
    let tables = Tables::new(alloc, TaskNames::new(alloc), Records::new(alloc))?;
    Ok(Old {
        tables,
        rows: UnionRows::new(alloc),
        looks_out: Vec::new(alloc),
    })
}

// These names, of which nothing is known yet.
fn names_of(alloc: Global, changes: &[Path]) -> Result<Named, OutOfMemory>
    ensures names { IfOk result (λ n. HasNames n changes.now) }
    ensures known { IfOk result (λ n. (d : Directory) → IsTrueOf d n) }
{
    let mut named = Named::new(alloc);
    for path in changes {
        named.name(path)?;
    }
    Ok(named)
}

fn copies(alloc: Global, tasks: &[Task]) -> Result<Vec<Task>, OutOfMemory>
    ensures { IfOk result (λ copied. copied.items ≡ tasks.now) }
{
    let mut copied = Vec::new(alloc);
    for task in tasks {
        copied.push(task.copy()?)?;
    }
    Ok(copied)
}
