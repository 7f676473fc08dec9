//! Whether what a record wrote is there.
ghost use Rattle.std.specs.Prelude.{[], ◌∷◌, All, IfOk};
ghost use Rattle.pie_files.specs.Reading.{ReadsOnly};
ghost use Rattle.pie_topdown.specs.inner.Written.{IsThereIn, IsOneGone, FindsThere, FindsGone};

use pie_base::Path;
use pie_files::{Files, FilesError};
use pie_named::Named;

/// Whether each of these contents is at its path.
#[tactic(auto, using(pie_files::proofs::Reading::reads))]
pub(crate) fn writes_stand<F: Files>(
    named: &mut Named,
    writes: &[(Path, [u8; 32])],
    files: &mut F,
) -> Result<bool, FilesError>
    ensures there { IfOk result (FindsThere (F.holds files.old) named.old named.new (λ d. All (IsThereIn d) writes.now)) }
    ensures gone { IfOk result (FindsGone (F.holds files.old) named.old (λ d. IsOneGone d writes.now)) }
    ensures reads { ReadsOnly F.holds F.moment F.left_since F.images F.faults files.old files.new result }
{
    for write in writes {
        if !write_stands(named, write, files)? {
            return Ok(false);
        }
    }
    Ok(true)
}

// Whether what was written is at its path.
#[tactic(auto, using(pie_files::proofs::Reading::reads))]
fn write_stands<F: Files>(
    named: &mut Named,
    write: &(Path, [u8; 32]),
    files: &mut F,
) -> Result<bool, FilesError>
    ensures there { IfOk result (FindsThere (F.holds files.old) named.old named.new (λ d. IsThereIn d write.now)) }
    ensures gone { IfOk result (FindsGone (F.holds files.old) named.old (λ d. IsOneGone d (write.now ∷ []))) }
    ensures reads { ReadsOnly F.holds F.moment F.left_since F.images F.faults files.old files.new result }
{
    let differs = named.write_differs(&write.0, write.1, files)?;
    Ok(!differs)
}
