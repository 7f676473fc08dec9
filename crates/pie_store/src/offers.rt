//! Records that are offered for a task, beside the one that the store keeps.
ghost use Rattle.std.specs.Prelude.{◌≡◌, [], All, map, IfSome, IfOk};
ghost use Rattle.pie_value.specs.Canonical.{IsEncodableTask};
ghost use Rattle.pie_files.specs.Streams.{Counted};
ghost use Rattle.pie_files.specs.Images.{MayLeave, Stays};
ghost use Rattle.pie_store.specs.inner.Offers.{offered, IsOffer, LooksAtOnly};

use pie_files::{Files, FilesError};
use pie_record::TaskRecord;
use pie_value::Task;
use std::alloc::Global;

/// A record that a task may have, with what it wrote.
#[derive(Drop)]
pub struct Offer {
    pub row: TaskRecord,
    /// The bytes that each write left, in the order of the writes.
    pub contents: Vec<Vec<u8>>,
}

/// Who offers records.
pub trait Offers {
    ghost use Rattle.std.specs.Prelude.{List, ℕ};
    ghost use Rattle.pie_value.specs.declared.task.Task.{Task};
    ghost use Rattle.pie_files.specs.Directory.{Directory};
    ghost use Rattle.pie_store.specs.inner.Offers.{Offered};

    /// The offers for a task whose function has a digest, over files that hold a directory, in order.
    ghost told: { Self → Directory → Task → List ℕ → List Offered };

    /// The paths of the files at which it may look for a task whose function has a digest.
    ghost looks: { Self → Task → List ℕ → List (List ℕ) };

    /// The offers for a task whose function has this digest, the first to be tried first. It looks at files that it tells, and makes no other call.
    /// `Failed` comes only where the count of faults rose.
    fn offers<F: Files>(
        &mut self,
        alloc: Global,
        files: &mut F,
        task: &Task,
        digest: &[u8; 32],
    ) -> Result<Vec<Offer>, FilesError>
        requires { IsEncodableTask task.now }
        ensures offers { IfSome (F.holds files.old) (λ d. IfOk result (λ offers. map offered offers.items ≡ told self.old d task.now digest.now)) }
        ensures rows { IfOk result (λ offers. All IsOffer offers.items) }
        ensures looks { LooksAtOnly (looks self.old task.now digest.now) (F.asked files.old) (F.asked files.new) }
        ensures keeps { (told self.new ≡ told self.old) × (looks self.new ≡ looks self.old) }
        ensures same { F.holds files.new ≡ F.holds files.old }
        ensures crash { MayLeave F.holds F.moment F.left_since F.images Stays files.old files.new }
        ensures counted { Counted F.faults FilesError.Failed files.old files.new result };
}

/// Nobody, who offers nothing.
#[derive(Drop)]
pub struct NoOffers;

impl Offers for NoOffers {
    ghost use Rattle.std.specs.Prelude.{[]};

    ghost told = { λ _ _ _ _. [] };

    ghost looks = { λ _ _ _. [] };

    fn offers<F: Files>(
        &mut self,
        alloc: Global,
        _files: &mut F,
        _task: &Task,
        _digest: &[u8; 32],
    ) -> Result<Vec<Offer>, FilesError> {
        Ok(Vec::new(alloc))
    }
}
