//! Looks of a running task.
ghost use Rattle.std.specs.Prelude.{◌≡◌, ◌<◌, IfOk};
ghost use Rattle.std.specs.Option.{option_map};
ghost use Rattle.pie_base.specs.Path.{is_source};
ghost use Rattle.pie_builder_laws.specs.Looks.{reading_stamp, reading_answer};
ghost use Rattle.pie_files.specs.Reading.{ReadsOnly};
ghost use Rattle.pie_files.specs.declared.files.Call.TheVariants as calls;
ghost use Rattle.pie_record.specs.Canonical.{IsStorableDep};
ghost use Rattle.pie_running.specs.declared.frame.Told.TheVariants.{Fails};
ghost use Rattle.pie_running.specs.inner.Asking.{AsksOnly, AsksTwice};
ghost use Rattle.pie_running.specs.inner.Noted.{absent_dep, file_dep, observed as with_dep, read_kind};
ghost use Rattle.pie_running.specs.inner.Frames.{IsReady, IsWaiting};
ghost use Rattle.pie_running.specs.inner.Steps.{Advanced, Answered};
ghost use Rattle.pie_running.specs.inner.Sights.{found_in};
ghost use Rattle.pie_running.specs.inner.Told.{IsTold, IsToldOrFails, IsToldReading, flag_stamp, hash_stamp, told_flag, told_hash, too_much};
ghost use Rattle.pie_running.specs.inner.Looks.{TellsDigest, TellsPresence, TellsReading};

use crate::frame::{RunningTask, Told, Waiting};
use crate::looking::{Shows, Sight, digest, presence, reading};
use crate::notes::Notes;
use pie_base::{FaultKind, OutOfMemory, Path};
use pie_files::{Files, FilesError, Found};
use pie_record::DepKind;
use pie_stamp::hash_of;
use pie_value::{Answer, Blob, By, Stamp};
use std::alloc::Global;

impl<'a> Waiting<'a> {
    /// Tells the task whether a file is there.
    #[tactic(auto, using(pie_files::proofs::Reading::reads))]
    pub fn exists<S: Shows, F: Files>(
        self,
        shows: &S,
        path: Path,
        files: &mut F,
    ) -> Result<Told<'a>, FilesError>
        requires waits { IsWaiting self }
        requires knows { S.knows shows.now self.notes }
        ensures answered { IfOk result (λ t. Answered self.entry.notes t) }
        ensures asks { AsksOnly F.asked (is_source path) (calls.Read path) files.old files.new }
        ensures reads { ReadsOnly F.holds F.moment F.left_since F.images F.faults files.old files.new result }
        ensures tells { IfOk result (λ t. TellsPresence (F.holds files.old) (S.sees shows.now self.entry.notes path) self.entry path t) }
    {
        let there = presence(shows, &self.notes, &path, files)?;
        let told = told_presence(self, path, there)?;
        Ok(told)
    }

    /// Tells the task the bytes of a file. Of one that is too long its stamp is noted, and the task fails.
    #[tactic(auto, using(pie_files::proofs::Reading::reads))]
    pub fn read<S: Shows, F: Files>(
        self,
        alloc: Global,
        shows: &S,
        path: Path,
        by: By,
        files: &mut F,
    ) -> Result<Told<'a>, FilesError>
        requires waits { IsWaiting self }
        requires knows { S.knows shows.now self.notes }
        ensures answered { IfOk result (λ t. Answered self.entry.notes t) }
        ensures asks { AsksTwice F.asked (is_source path) (calls.Read path) files.old files.new }
        ensures reads { ReadsOnly F.holds F.moment F.left_since F.images F.faults files.old files.new result }
        ensures tells { IfOk result (λ t. TellsReading (F.holds files.old) (S.sees shows.now self.entry.notes path) self.entry path by t) }
    {
        let seen = reading(alloc, shows, &self.notes, &path, by, files)?;
        let told = told_contents(alloc, self, path, by, seen)?;
        Ok(told)
    }

    /// Tells the task the SHA-256 of a file.
    #[tactic(auto, using(pie_files::proofs::Reading::reads))]
    pub fn digest<S: Shows, F: Files>(
        self,
        shows: &S,
        path: Path,
        files: &mut F,
    ) -> Result<Told<'a>, FilesError>
        requires waits { IsWaiting self }
        requires knows { S.knows shows.now self.notes }
        ensures answered { IfOk result (λ t. Answered self.entry.notes t) }
        ensures asks { AsksOnly F.asked (is_source path) (calls.Read path) files.old files.new }
        ensures reads { ReadsOnly F.holds F.moment F.left_since F.images F.faults files.old files.new result }
        ensures tells { IfOk result (λ t. TellsDigest (F.holds files.old) (S.sees shows.now self.entry.notes path) self.entry path t) }
    {
        let hash = digest(shows, &self.notes, &path, files)?;
        let told = told_digest(self, path, hash)?;
        Ok(told)
    }
}

/// An observation as it is kept, and as the task is told.
#[derive(Drop)]
pub(crate) struct Noted {
    pub(crate) stamp: Stamp,
    pub(crate) answer: Answer,
}

// A task that is told whether a file is there. Where two tasks wrote it, it fails.
fn told_presence<'a>(
    waiting: Waiting<'a>,
    path: Path,
    presence: Option<bool>,
) -> Result<Told<'a>, OutOfMemory>
    requires { IsWaiting waiting }
    ensures answered { IfOk result (λ t. Answered waiting.entry.notes t) }
    ensures told { IfOk result (λ t. IsToldOrFails waiting.entry (absent_dep DepKind.Exists path) (option_map (told_flag path) presence) t) }
{
    match presence {
        Some(there) => {
            let noted = by_presence(&path, there);
            let frame = told(waiting, DepKind::Exists, path, noted)?;
            Ok(Told::Goes(frame))
        }
        None => clashed(waiting, DepKind::Exists, path),
    }
}

fn by_presence(_path: &Path, there: bool) -> Noted
    ensures storable { IsStorableDep (file_dep DepKind.Exists _path.now result.stamp) }
    ensures stamp { result.stamp ≡ flag_stamp there }
    ensures answer { result.answer ≡ Answer.Flag there }
{
    if there {
        return Noted {
            stamp: Stamp::Present,
            answer: Answer::Flag(true),
        };
    }
    Noted {
        stamp: Stamp::Absent,
        answer: Answer::Flag(false),
    }
}

// The kind of an observation of a file's bytes.
fn kind_of(by: By) -> DepKind
    ensures { result ≡ read_kind by }
{
    match by {
        By::Mark => DepKind::ReadMark,
        By::Hash | By::Raw => DepKind::ReadHash,
    }
}

// The stamp of the bytes that are seen.
fn stamp_of(by: By, path: &Path, seen: &Option<Found>) -> Stamp
    ensures storable { IsStorableDep (file_dep (read_kind by) path.now result) }
    ensures stamp { result ≡ reading_stamp by path.now (found_in seen.now) }
{
    match seen {
        None => Stamp::Absent,
        Some(found) => {
            if by == By::Mark && !path.under_out() {
                Stamp::Mark(found.mark)
            } else {
                Stamp::Hash(hash_of(found.bytes.as_slice()))
            }
        }
    }
}

// The bytes that are seen, in a blob that answers can share.
fn blob_of(alloc: Global, seen: Option<Found>) -> Result<Option<Blob>, OutOfMemory>
    ensures { IfOk result (λ blob. Answer.Bytes blob ≡ reading_answer (found_in seen)) }
{
    match seen {
        None => Ok(None),
        Some(found) => Ok(Some(Blob::shared(alloc, found.bytes)?)),
    }
}

// A task that is told the bytes that are seen. Where two tasks wrote them, or they are too many, it fails.
fn told_contents<'a>(
    alloc: Global,
    waiting: Waiting<'a>,
    path: Path,
    by: By,
    sight: Sight,
) -> Result<Told<'a>, OutOfMemory>
    requires { IsWaiting waiting }
    ensures answered { IfOk result (λ t. Answered waiting.entry.notes t) }
    ensures told { IfOk result (λ t. IsToldReading waiting.entry by path sight t) }
{
    match sight {
        Sight::File(seen) => {
            let noted = contents(alloc, by, &path, seen)?;
            let frame = told(waiting, kind_of(by), path, noted)?;
            Ok(Told::Goes(frame))
        }
        Sight::Long(stamp) => told_too_much(waiting, kind_of(by), path, stamp),
        Sight::Clash => clashed(waiting, kind_of(by), path),
    }
}

// A task that was told more bytes than a value may hold: it fails for them, or for having no answer left.
fn told_too_much<'a>(
    waiting: Waiting<'a>,
    kind: DepKind,
    path: Path,
    stamp: Stamp,
) -> Result<Told<'a>, OutOfMemory>
    requires { 0 < waiting.notes.left }
    ensures { IfOk result (λ t. t ≡ Fails (with_dep (file_dep kind path stamp) waiting.entry.notes) (too_much waiting.entry.notes.left)) }
{
    let fault = if waiting.notes.left() == 1 {
        FaultKind::Budget
    } else {
        FaultKind::Big
    };
    let mut notes = waiting.into_notes();
    notes.saw(kind, path, stamp)?;
    Ok(Told::Fails(notes, fault))
}

fn contents(alloc: Global, by: By, path: &Path, seen: Option<Found>) -> Result<Noted, OutOfMemory>
    ensures storable { IfOk result (λ n. IsStorableDep (file_dep (read_kind by) path.now n.stamp)) }
    ensures stamp { IfOk result (λ n. n.stamp ≡ reading_stamp by path.now (found_in seen)) }
    ensures answer { IfOk result (λ n. n.answer ≡ reading_answer (found_in seen)) }
{
    let stamp = stamp_of(by, path, &seen);
    let blob = blob_of(alloc, seen)?;
    Ok(Noted {
        stamp,
        answer: Answer::Bytes(blob),
    })
}

// A task that is told the SHA-256 of a file. Where two tasks wrote it, it fails.
fn told_digest<'a>(
    waiting: Waiting<'a>,
    path: Path,
    hash: Option<Option<[u8; 32]>>,
) -> Result<Told<'a>, OutOfMemory>
    requires { IsWaiting waiting }
    ensures answered { IfOk result (λ t. Answered waiting.entry.notes t) }
    ensures told { IfOk result (λ t. IsToldOrFails waiting.entry (absent_dep DepKind.Digest path) (option_map (told_hash path) hash) t) }
{
    match hash {
        Some(hash) => {
            let noted = by_digest(&path, hash);
            let frame = told(waiting, DepKind::Digest, path, noted)?;
            Ok(Told::Goes(frame))
        }
        None => clashed(waiting, DepKind::Digest, path),
    }
}

fn by_digest(_path: &Path, hash: Option<[u8; 32]>) -> Noted
    ensures storable { IsStorableDep (file_dep DepKind.Digest _path.now result.stamp) }
    ensures stamp { result.stamp ≡ hash_stamp hash }
    ensures answer { result.answer ≡ Answer.Digest hash }
{
    match hash {
        None => Noted {
            stamp: Stamp::Absent,
            answer: Answer::Digest(None),
        },
        Some(hash) => Noted {
            stamp: Stamp::Hash(hash),
            answer: Answer::Digest(Some(hash)),
        },
    }
}

// A task that fails at a path that two tasks wrote.
fn clashed<'a>(waiting: Waiting<'a>, kind: DepKind, path: Path) -> Result<Told<'a>, OutOfMemory>
    requires { 0 < waiting.notes.left }
    ensures { IfOk result (λ t. t ≡ Fails (with_dep (absent_dep kind path) waiting.entry.notes) FaultKind.Clash) }
{
    let notes = missed(waiting, kind, path)?;
    Ok(Told::Fails(notes, FaultKind::Clash))
}

/// What a task has done that looked and fails for what it saw.
pub(crate) fn missed(waiting: Waiting, kind: DepKind, path: Path) -> Result<Notes, OutOfMemory>
    requires { 0 < waiting.notes.left }
    ensures { IfOk result (λ n. n ≡ with_dep (absent_dep kind path) waiting.entry.notes) }
{
    let mut notes = waiting.into_notes();
    notes.saw(kind, path, Stamp::Absent)?;
    Ok(notes)
}

/// A task that is told what it observed.
#[tactic(auto, using(crate::proofs::Noting::observed_sound, crate::proofs::Noting::observed_advanced))]
pub(crate) fn told<'a>(
    waiting: Waiting<'a>,
    kind: DepKind,
    path: Path,
    noted: Noted,
) -> Result<RunningTask<'a>, OutOfMemory>
    requires waits { IsWaiting waiting }
    requires dep { IsStorableDep (file_dep kind path noted.stamp) }
    ensures ready { IfOk result (λ f. IsReady f × Advanced waiting.entry.notes f.notes) }
    ensures told { IfOk result (λ f. IsTold waiting.entry f (with_dep (file_dep kind path noted.stamp) waiting.entry.notes) noted.answer) }
{
    let mut waiting = waiting;
    let Noted { stamp, answer } = noted;
    waiting.notes.saw(kind, path, stamp)?;
    Ok(waiting.answered(answer))
}
