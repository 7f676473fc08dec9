//! Whether something that a record observed of a named source, or wrote at a named path, isn't there now as it was recorded.
ghost use Rattle.std.specs.Prelude.{◌≡◌, true, IfOk};
ghost use Rattle.pie_files.specs.Reading.{ReadsOnly};
ghost use Rattle.pie_compare.specs.inner.Touching.{may_differ as specs_may_differ, is_asked as specs_is_asked};
ghost use Rattle.pie_compare.specs.inner.Touching.{sight_differs, dep_differs, write_differs, AnswersBy};
ghost use Rattle.pie_compare.specs.inner.Touching.{SomeSightDiffers, SomeWriteDiffers, IsTouched, FindsBy};
ghost use Rattle.pie_compare.specs.inner.Touching.{sight_known, dep_known, write_known, SomeSightKnown, SomeWriteKnown, IsKnownTouched, Shows};
ghost use Rattle.pie_compare.specs.inner.Asked.{IsObservedIn, IsOfRecord, IsWrittenIn, MayAskOf};
ghost use Rattle.pie_named.specs.inner.Names.{SameNames};
ghost use Rattle.pie_named.specs.Asking.{AsksFor};
ghost use Rattle.pie_record.specs.declared.dep.DepOn.TheVariants.{File};

use pie_base::Path;
use pie_files::{Files, FilesError};
use pie_named::Named;
use pie_record::{Dep, DepKind, DepOn, TaskRecord};
use pie_value::Stamp;

/// Whether something that the record observed of a named source, or wrote at a named path, isn't there now as it was recorded.
/// The files are asked of named paths and the directories above them alone, each question once.
#[tactic(auto, using(pie_files::proofs::Reading::reads))]
pub fn is_touched<F: Files>(
    named: &mut Named,
    rec: &TaskRecord,
    files: &mut F,
) -> Result<bool, FilesError>
    ensures reads { ReadsOnly F.holds F.moment F.left_since F.images F.faults files.old files.new result }
    ensures names { SameNames named.old named.new }
    ensures asks { AsksFor (MayAskOf named.old (IsOfRecord rec.now)) (F.asked files.old) (F.asked files.new) }
    ensures found { IfOk result (FindsBy (F.holds files.old) named.old named.new (λ d n. IsTouched d n rec.now)) }
    ensures shows { IfOk result (Shows named.old named.new (IsKnownTouched named.new rec.now)) }
{
    if is_any_sight_touched(named, rec.deps.as_slice(), files)? {
        return Ok(true);
    }
    let touched = is_any_write_touched(named, rec.writes.as_slice(), files)?;
    Ok(touched)
}

// Whether one of these observations would have another stamp now.
#[tactic(auto, using(pie_files::proofs::Reading::reads))]
fn is_any_sight_touched<F: Files>(
    named: &mut Named,
    deps: &[Dep],
    files: &mut F,
) -> Result<bool, FilesError>
    ensures reads { ReadsOnly F.holds F.moment F.left_since F.images F.faults files.old files.new result }
    ensures names { SameNames named.old named.new }
    ensures asks { AsksFor (MayAskOf named.old (IsObservedIn deps.now)) (F.asked files.old) (F.asked files.new) }
    ensures found { IfOk result (FindsBy (F.holds files.old) named.old named.new (λ d n. SomeSightDiffers d n deps.now)) }
    ensures shows { IfOk result (Shows named.old named.new (SomeSightKnown named.new deps.now)) }
{
    for dep in deps {
        if is_dep_touched(named, dep, files)? {
            return Ok(true);
        }
    }
    Ok(false)
}

// Whether one of these writes isn't there.
#[tactic(auto, using(pie_files::proofs::Reading::reads))]
fn is_any_write_touched<F: Files>(
    named: &mut Named,
    writes: &[(Path, [u8; 32])],
    files: &mut F,
) -> Result<bool, FilesError>
    ensures reads { ReadsOnly F.holds F.moment F.left_since F.images F.faults files.old files.new result }
    ensures names { SameNames named.old named.new }
    ensures asks { AsksFor (MayAskOf named.old (IsWrittenIn writes.now)) (F.asked files.old) (F.asked files.new) }
    ensures found { IfOk result (FindsBy (F.holds files.old) named.old named.new (λ d n. SomeWriteDiffers d n writes.now)) }
    ensures shows { IfOk result (Shows named.old named.new (SomeWriteKnown named.new writes.now)) }
{
    for (path, hash) in writes {
        if is_write_touched(named, path, *hash, files)? {
            return Ok(true);
        }
    }
    Ok(false)
}

// A required task isn't looked at.
#[tactic(auto, using(pie_files::proofs::Reading::reads))]
fn is_dep_touched<F: Files>(named: &mut Named, dep: &Dep, files: &mut F) -> Result<bool, FilesError>
    ensures reads { ReadsOnly F.holds F.moment F.left_since F.images F.faults files.old files.new result }
    ensures names { SameNames named.old named.new }
    ensures asks { AsksFor (MayAskOf named.old (λ p. dep.now.what ≡ File p)) (F.asked files.old) (F.asked files.new) }
    ensures answer { IfOk result (AnswersBy (F.holds files.old) named.old named.new (λ d n. dep_differs d n dep.now)) }
    ensures shows { IfOk result (Shows named.old named.new (dep_known named.new dep.now ≡ true)) }
{
    match &dep.what {
        DepOn::File(path) => {
            let touched = is_sight_touched(named, dep.kind, path, &dep.stamp, files)?;
            Ok(touched)
        }
        DepOn::Called(_) => Ok(false),
    }
}

#[tactic(auto, using(pie_files::proofs::Reading::reads))]
fn is_sight_touched<F: Files>(
    named: &mut Named,
    kind: DepKind,
    path: &Path,
    stamp: &Stamp,
    files: &mut F,
) -> Result<bool, FilesError>
    ensures reads { ReadsOnly F.holds F.moment F.left_since F.images F.faults files.old files.new result }
    ensures names { SameNames named.old named.new }
    ensures asks { AsksFor (MayAskOf named.old (λ p. p ≡ path.now)) (F.asked files.old) (F.asked files.new) }
    ensures answer { IfOk result (AnswersBy (F.holds files.old) named.old named.new (λ d n. sight_differs d n kind path.now stamp.now)) }
    ensures shows { IfOk result (Shows named.old named.new (sight_known named.new kind path.now stamp.now ≡ true)) }
{
    if !is_asked(named, kind, path) {
        return Ok(false);
    }
    let differs = named.differs(kind, path, stamp, files)?;
    Ok(differs)
}

#[tactic(auto, using(pie_files::proofs::Reading::reads))]
fn is_write_touched<F: Files>(
    named: &mut Named,
    path: &Path,
    hash: [u8; 32],
    files: &mut F,
) -> Result<bool, FilesError>
    ensures reads { ReadsOnly F.holds F.moment F.left_since F.images F.faults files.old files.new result }
    ensures names { SameNames named.old named.new }
    ensures asks { AsksFor (MayAskOf named.old (λ p. p ≡ path.now)) (F.asked files.old) (F.asked files.new) }
    ensures answer { IfOk result (AnswersBy (F.holds files.old) named.old named.new (λ d n. write_differs d n path.now hash)) }
    ensures shows { IfOk result (Shows named.old named.new (write_known named.new path.now hash ≡ true)) }
{
    if !named.is_named(path) {
        return Ok(false);
    }
    let differs = named.write_differs(path, hash, files)?;
    Ok(differs)
}

// Whether the files are asked of an observation.
fn is_asked(named: &Named, kind: DepKind, path: &Path) -> bool
    ensures { result ≡ specs_is_asked named.now kind path.now }
{
    path.is_source() && may_differ(named, kind, path)
}

// Whether the names say that what was observed in this way may have changed.
fn may_differ(named: &Named, kind: DepKind, path: &Path) -> bool
    ensures { result ≡ specs_may_differ named.now kind path.now }
{
    match kind {
        DepKind::Exists | DepKind::ReadHash | DepKind::ReadMark | DepKind::Digest => {
            named.is_named(path)
        }
        DepKind::List => named.is_above(path),
        DepKind::Require | DepKind::RequireHash | DepKind::Run => false,
    }
}
