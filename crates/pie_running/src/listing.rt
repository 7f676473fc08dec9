//! What a running task lists.
ghost use Rattle.std.specs.Prelude.{◌≡◌, map, IfOk, Some};
ghost use Rattle.std.specs.Option.{option_map};
ghost use Rattle.pie_base.specs.Path.{is_source};
ghost use Rattle.pie_value.specs.Tree.{TPath};
ghost use Rattle.pie_files.specs.Directory.{Directory};
ghost use Rattle.pie_files.specs.Reading.{ReadsOnly};
ghost use Rattle.pie_files.specs.declared.files.Call.TheVariants as calls;
ghost use Rattle.pie_running.specs.inner.Asking.{AsksOnly};
ghost use Rattle.pie_running.specs.inner.Frames.{IsWaiting};
ghost use Rattle.pie_running.specs.inner.Steps.{Answered};
ghost use Rattle.pie_running.specs.inner.Sights.{listing_in};
ghost use Rattle.pie_running.specs.inner.Told.{IsToldList, IsToldEntries};
ghost use Rattle.pie_running.specs.inner.Looks.{TellsEntries};

use crate::frame::{Told, Waiting};
use crate::observing::{Noted, missed, told};
use pie_base::{FaultKind, OutOfMemory, Path};
use pie_files::{Files, FilesError};
use pie_record::DepKind;
use pie_stamp::{ByHash, Observed, Stamper};
use pie_value::{Answer, Items, Value};
use std::alloc::Global;

impl<'a> Waiting<'a> {
    /// Tells the task what lies in a directory.
    #[tactic(auto, using(pie_files::proofs::Reading::reads))]
    pub fn list<F: Files>(
        self,
        alloc: Global,
        dir: Path,
        files: &mut F,
    ) -> Result<Told<'a>, FilesError>
        requires { IsWaiting self }
        ensures answered { IfOk result (λ t. Answered self.entry.notes t) }
        ensures asks { AsksOnly F.asked (is_source dir) (calls.Names dir) files.old files.new }
        ensures reads { ReadsOnly F.holds F.moment F.left_since F.images F.faults files.old files.new result }
        ensures tells { IfOk result (λ t. TellsEntries (F.holds files.old) self.entry dir t) }
    {
        let paths = names(&dir, files)?;
        let told = listed(alloc, self, dir, paths)?;
        Ok(told)
    }
}

// The entries of a directory, or `None` where it is no source.
#[tactic(auto, using(pie_files::proofs::Reading::reads, crate::proofs::Asking::asks))]
fn names<F: Files>(dir: &Path, files: &mut F) -> Result<Option<Vec<Path>>, FilesError>
    ensures asks { AsksOnly F.asked (is_source dir.now) (calls.Names dir.now) files.old files.new }
    ensures reads { ReadsOnly F.holds F.moment F.left_since F.images F.faults files.old files.new result }
    ensures means { IfOk result (λ names. (d : Directory) → F.holds files.old ≡ Some d → option_map (λ v. v.items) names ≡ listing_in d dir.now) }
{
    if !dir.is_source() {
        return Ok(None);
    }
    let paths = files.names(dir)?;
    Ok(Some(paths))
}

// Paths as values.
fn entries_of(alloc: Global, paths: Vec<Path>) -> Result<Items, OutOfMemory>
    ensures { IfOk result (λ entries. entries ≡ map TPath paths.items) }
{
    let mut entries = Items::new();
    for path in paths {
        entries.push(alloc, Value::Path(path))?;
    }
    Ok(entries)
}

// A task that is told the entries of a directory, if it is a source.
fn listed<'a>(
    alloc: Global,
    waiting: Waiting<'a>,
    dir: Path,
    paths: Option<Vec<Path>>,
) -> Result<Told<'a>, OutOfMemory>
    requires { IsWaiting waiting }
    ensures answered { IfOk result (λ t. Answered waiting.entry.notes t) }
    ensures told { IfOk result (λ t. IsToldList waiting.entry dir (option_map (λ v. v.items) paths) t) }
{
    match paths {
        Some(paths) => told_entries(alloc, waiting, dir, paths),
        None => Ok(Told::Fails(waiting.into_notes(), FaultKind::BadList)),
    }
}

// A task that is told entries. Where these are too many, it fails.
fn told_entries<'a>(
    alloc: Global,
    waiting: Waiting<'a>,
    dir: Path,
    paths: Vec<Path>,
) -> Result<Told<'a>, OutOfMemory>
    requires { IsWaiting waiting }
    ensures answered { IfOk result (λ t. Answered waiting.entry.notes t) }
    ensures told { IfOk result (λ t. IsToldEntries waiting.entry dir paths.items t) }
{
    let entries = entries_of(alloc, paths)?;
    let list = Value::List(entries.copy()?);
    if !list.is_small() {
        let notes = missed(waiting, DepKind::List, dir)?;
        return Ok(Told::Fails(notes, FaultKind::Big));
    }
    let stamp = ByHash.stamp(alloc, &Observed::Output(list))?;
    let noted = Noted {
        stamp,
        answer: Answer::Entries(entries),
    };
    let frame = told(waiting, DepKind::List, dir, noted)?;
    Ok(Told::Goes(frame))
}
