//! Whether what is recorded is what is there now.
ghost use Rattle.std.specs.Prelude.{◌≡◌, IfOk};
ghost use Rattle.pie_files.specs.Reading.{ReadsOnly};
ghost use Rattle.pie_named.specs.inner.Names.{SameNames};
ghost use Rattle.pie_record.specs.declared.dep.DepKind.TheVariants as kinds;
ghost use Rattle.pie_value.specs.declared.stamp.Stamp.TheVariants as stamps;
ghost use Rattle.pie_named.specs.inner.Stamped.{differs_from};
ghost use Rattle.pie_named.specs.Asking.{AsksOnce, call_for};
ghost use Rattle.pie_named.specs.inner.Known.{Asked, Compares, Learns, Tells, known_differs, known_stamp};

use crate::named::Named;
use crate::stamps::FileStamp;
use pie_base::Path;
use pie_files::{Files, FilesError};
use pie_record::DepKind;
use pie_value::Stamp;

impl Named {
    /// Whether an observation of a file or a directory would get another stamp now than the recorded one. The files are asked, unless they were asked before.
    #[tactic(auto, using(pie_files::proofs::Reading::reads))]
    pub fn differs<F: Files>(
        &mut self,
        kind: DepKind,
        path: &Path,
        recorded: &Stamp,
        files: &mut F,
    ) -> Result<bool, FilesError>
        ensures reads { ReadsOnly F.holds F.moment F.left_since F.images F.faults files.old files.new result }
        ensures names { SameNames self.old self.new }
        ensures asks { AsksOnce (known_stamp self.old kind path.now) (call_for kind path.now) (F.asked files.old) (F.asked files.new) }
        ensures compares { IfOk result (Compares (F.holds files.old) self.old self.new kind path.now recorded.now) }
        ensures tells { IfOk result (Tells self.old self.new kind path.now recorded.now) }
    {
        let now = self.stamp(kind, path, files)?;
        Ok(is_another(now, recorded))
    }

    /// Whether another content than the recorded one, or none, is at a path now. The files are asked, unless they were asked before.
    #[tactic(auto, using(pie_files::proofs::Reading::reads))]
    pub fn write_differs<F: Files>(
        &mut self,
        path: &Path,
        recorded: [u8; 32],
        files: &mut F,
    ) -> Result<bool, FilesError>
        ensures reads { ReadsOnly F.holds F.moment F.left_since F.images F.faults files.old files.new result }
        ensures names { SameNames self.old self.new }
        ensures asks { AsksOnce (known_stamp self.old kinds.ReadHash path.now) (call_for kinds.ReadHash path.now) (F.asked files.old) (F.asked files.new) }
        ensures compares { IfOk result (Compares (F.holds files.old) self.old self.new kinds.ReadHash path.now (stamps.Hash recorded)) }
        ensures tells { IfOk result (Tells self.old self.new kinds.ReadHash path.now (stamps.Hash recorded)) }
    {
        let now = self.hash(path, files)?;
        Ok(is_another(now, &Stamp::Hash(recorded)))
    }

    /// Whether an answer that was asked for before says that an observation would get another stamp now than the recorded one. Nothing is asked.
    pub fn is_known_to_differ(&self, kind: DepKind, path: &Path, recorded: &Stamp) -> bool
        ensures { result ≡ known_differs (known_stamp self.now kind path.now) recorded.now }
    {
        match self.known(kind, path) {
            Some(now) => is_another(now, recorded),
            None => false,
        }
    }

    // The stamp that an observation would get now.
    #[tactic(auto, using(pie_files::proofs::Reading::reads))]
    fn stamp<F: Files>(
        &mut self,
        kind: DepKind,
        path: &Path,
        files: &mut F,
    ) -> Result<Option<FileStamp>, FilesError>
        ensures reads { ReadsOnly F.holds F.moment F.left_since F.images F.faults files.old files.new result }
        ensures names { SameNames self.old self.new }
        ensures learns { IfOk result (Learns (F.holds files.old) self.old self.new kind path.now) }
        ensures asks { AsksOnce (known_stamp self.old kind path.now) (call_for kind path.now) (F.asked files.old) (F.asked files.new) }
        ensures asked { IfOk result (Asked self.old self.new kind path.now) }
    {
        match kind {
            DepKind::Exists => self.presence(path, files),
            DepKind::ReadMark => self.mark(path, files),
            DepKind::List => self.listing(path, files),
            _ => self.hash(path, files),
        }
    }

    // The stamp that is known.
    fn known(&self, kind: DepKind, path: &Path) -> Option<Option<FileStamp>>
        ensures { result ≡ known_stamp self.now kind path.now }
    {
        match kind {
            DepKind::Exists => self.there.get(path),
            DepKind::ReadMark => self.marks.get(path),
            DepKind::List => self.lists.get(path),
            _ => self.hashes.get(path),
        }
    }
}

// Whether the stamp now isn't the recorded one.
fn is_another(now: Option<FileStamp>, recorded: &Stamp) -> bool
    ensures { result ≡ differs_from now recorded.now }
{
    match now {
        Some(now) => !now.is(recorded),
        None => true,
    }
}
