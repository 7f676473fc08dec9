//! The reasons of one record.
ghost use Rattle.std.specs.Prelude.{◌≡◌};

use crate::names::below;
use crate::reason::Reason;
use pie_base::{OutOfMemory, Path};
use pie_files::{Files, FilesError};
use pie_named::Named;
use pie_record::{Dep, DepKind, DepOn};
use std::alloc::Global;

/// Adds what was observed of named sources, or of directories above them, and isn't now as it was.
pub(crate) fn put_observed<F: Files>(
    files: &mut F,
    named: &mut Named,
    names: &[Path],
    deps: &[Dep],
    reasons: &mut Vec<Reason>,
) -> Result<(), FilesError>
    ensures same { F.holds files.new ≡ F.holds files.old }
{
    for dep in deps {
        if differs(files, named, dep)? {
            put_reason(names, dep, reasons)?;
        }
    }
    Ok(())
}

// Whether an observation of a named source, or of a directory above one, isn't now as it was.
fn differs<F: Files>(files: &mut F, named: &mut Named, dep: &Dep) -> Result<bool, FilesError>
    ensures same { F.holds files.new ≡ F.holds files.old }
{
    match &dep.what {
        DepOn::File(path) if path.is_source() && may_differ(named, dep.kind, path) => {
            let differs = named.differs(dep.kind, path, &dep.stamp, files)?;
            Ok(differs)
        }
        _ => Ok(false),
    }
}

// Whether the names say that what was observed in this way may have changed.
fn may_differ(named: &Named, kind: DepKind, path: &Path) -> bool {
    match kind {
        DepKind::Exists | DepKind::ReadHash | DepKind::ReadMark | DepKind::Digest => {
            named.is_named(path)
        }
        DepKind::List => named.is_above(path),
        DepKind::Require | DepKind::RequireHash | DepKind::Run => false,
    }
}

fn put_reason(names: &[Path], dep: &Dep, reasons: &mut Vec<Reason>) -> Result<(), OutOfMemory> {
    let DepOn::File(path) = &dep.what else {
        return Ok(());
    };
    let reason = reason_of(names, dep.kind, path)?;
    reasons.push(reason)?;
    Ok(())
}

fn reason_of(names: &[Path], kind: DepKind, path: &Path) -> Result<Reason, OutOfMemory> {
    match kind {
        DepKind::List => {
            let (found, more) = below(names, path);
            let name = copy_of(found)?;
            Ok(Reason::Listed(path.copy()?, name, more))
        }
        _ => Ok(Reason::Observed(kind, path.copy()?)),
    }
}

fn copy_of(path: Option<&Path>) -> Result<Option<Path>, OutOfMemory> {
    match path {
        Some(path) => Ok(Some(path.copy()?)),
        None => Ok(None),
    }
}

/// Adds the named files that were written and aren't there as they were.
pub(crate) fn put_written<F: Files>(
    files: &mut F,
    named: &mut Named,
    writes: &[(Path, [u8; 32])],
    reasons: &mut Vec<Reason>,
) -> Result<(), FilesError>
    ensures same { F.holds files.new ≡ F.holds files.old }
{
    for (path, hash) in writes {
        if named.is_named(path) && named.write_differs(path, *hash, files)? {
            reasons.push(Reason::Wrote(path.copy()?))?;
        }
    }
    Ok(())
}
