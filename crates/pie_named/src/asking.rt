//! What is asked of the files, each question once.
ghost use Rattle.std.specs.Prelude.{IfOk};
ghost use Rattle.pie_files.specs.Reading.{ReadsOnly};
ghost use Rattle.pie_named.specs.inner.Names.{SameNames};
ghost use Rattle.pie_record.specs.declared.dep.DepKind.TheVariants as kinds;
ghost use Rattle.pie_files.specs.declared.files.Call.TheVariants as calls;
ghost use Rattle.pie_named.specs.Asking.{AsksOnce};
ghost use Rattle.pie_named.specs.inner.Known.{Asked, Learns, known_stamp};

use crate::named::Named;
use crate::now::{hash_now, listing_now, mark_now, presence_now};
use crate::stamps::FileStamp;
use pie_base::Path;
use pie_files::{Files, FilesError};

impl Named {
    /// By the presence of a file.
    #[tactic(auto, using(pie_files::proofs::Reading::reads, crate::proofs::Calls::asks))]
    pub(crate) fn presence<F: Files>(
        &mut self,
        path: &Path,
        files: &mut F,
    ) -> Result<Option<FileStamp>, FilesError>
        ensures reads { ReadsOnly F.holds F.moment F.left_since F.images F.faults files.old files.new result }
        ensures names { SameNames self.old self.new }
        ensures learns { IfOk result (Learns (F.holds files.old) self.old self.new kinds.Exists path.now) }
        ensures asks { AsksOnce (known_stamp self.old kinds.Exists path.now) (calls.Read path.now) (F.asked files.old) (F.asked files.new) }
        ensures asked { IfOk result (Asked self.old self.new kinds.Exists path.now) }
    {
        if let Some(stamp) = self.there.get(path) {
            return Ok(stamp);
        }
        let stamp = presence_now(path, files)?;
        self.there.put(path.copy()?, stamp)?;
        Ok(stamp)
    }

    /// By the SHA-256 of a file.
    #[tactic(auto, using(pie_files::proofs::Reading::reads, crate::proofs::Calls::asks))]
    pub(crate) fn hash<F: Files>(
        &mut self,
        path: &Path,
        files: &mut F,
    ) -> Result<Option<FileStamp>, FilesError>
        ensures reads { ReadsOnly F.holds F.moment F.left_since F.images F.faults files.old files.new result }
        ensures names { SameNames self.old self.new }
        ensures learns { IfOk result (Learns (F.holds files.old) self.old self.new kinds.ReadHash path.now) }
        ensures asks { AsksOnce (known_stamp self.old kinds.ReadHash path.now) (calls.Read path.now) (F.asked files.old) (F.asked files.new) }
        ensures asked { IfOk result (Asked self.old self.new kinds.ReadHash path.now) }
    {
        if let Some(stamp) = self.hashes.get(path) {
            return Ok(stamp);
        }
        let stamp = hash_now(path, files)?;
        self.hashes.put(path.copy()?, stamp)?;
        Ok(stamp)
    }

    /// By the mark of a file.
    #[tactic(auto, using(pie_files::proofs::Reading::reads, crate::proofs::Calls::asks))]
    pub(crate) fn mark<F: Files>(
        &mut self,
        path: &Path,
        files: &mut F,
    ) -> Result<Option<FileStamp>, FilesError>
        ensures reads { ReadsOnly F.holds F.moment F.left_since F.images F.faults files.old files.new result }
        ensures names { SameNames self.old self.new }
        ensures learns { IfOk result (Learns (F.holds files.old) self.old self.new kinds.ReadMark path.now) }
        ensures asks { AsksOnce (known_stamp self.old kinds.ReadMark path.now) (calls.Read path.now) (F.asked files.old) (F.asked files.new) }
        ensures asked { IfOk result (Asked self.old self.new kinds.ReadMark path.now) }
    {
        if let Some(stamp) = self.marks.get(path) {
            return Ok(stamp);
        }
        let stamp = mark_now(path, files)?;
        self.marks.put(path.copy()?, stamp)?;
        Ok(stamp)
    }

    /// By the entries of a directory.
    #[tactic(auto, using(pie_files::proofs::Reading::reads, crate::proofs::Calls::asks))]
    pub(crate) fn listing<F: Files>(
        &mut self,
        dir: &Path,
        files: &mut F,
    ) -> Result<Option<FileStamp>, FilesError>
        ensures reads { ReadsOnly F.holds F.moment F.left_since F.images F.faults files.old files.new result }
        ensures names { SameNames self.old self.new }
        ensures learns { IfOk result (Learns (F.holds files.old) self.old self.new kinds.List dir.now) }
        ensures asks { AsksOnce (known_stamp self.old kinds.List dir.now) (calls.Names dir.now) (F.asked files.old) (F.asked files.new) }
        ensures asked { IfOk result (Asked self.old self.new kinds.List dir.now) }
    {
        if let Some(stamp) = self.lists.get(dir) {
            return Ok(stamp);
        }
        let stamp = listing_now(self.alloc, dir, files)?;
        self.lists.put(dir.copy()?, stamp)?;
        Ok(stamp)
    }
}
