//! Reading records.
ghost use Rattle.std.specs.Prelude.{◌≡◌};
ghost use Rattle.pie_record.specs.Kinds.{calls as specs_calls};
ghost use Rattle.pie_record.specs.inner.Agreement.{RowAgrees};
ghost use Rattle.pie_record.specs.Reading.{kind_at, on_at, any_tag_at, tag_at, stamped, dep_at, out_path_at, write_at, list_at, record_at};

use crate::reader::Reader;
use crate::tag::{Tag, allows, calls, known_kind, known_tag};
use crate::{Dep, DepKind, DepOn, Deps, Expected, Outcome, RecordFault, TaskRecord, Writes};
use pie_base::Path;
use pie_value::Stamp;
use std::alloc::Global;

// For so many observations or writes there is room from the first one on, and for no more: a forged number can't ask for much.
const AT_ONCE: usize = 16;

impl<'a> Reader<'a> {
    fn kind(&mut self) -> Result<DepKind, RecordFault>
        ensures { RowAgrees (λ k. k) result self.new (kind_at self.old) }
    {
        let byte = self.byte()?;
        known_kind(byte).ok_or(RecordFault::BadTag)
    }

    // What was observed: a task, or a path.
    fn what(
        &mut self,
        alloc: Global,
        known: &mut Expected<'_>,
        call: bool,
    ) -> Result<DepOn, RecordFault>
        ensures { RowAgrees (λ w. w) result self.new (on_at call self.old) }
    {
        if call {
            let task = self.expected_task(alloc, known)?;
            return Ok(DepOn::Called(task));
        }
        let path = self.path(alloc)?;
        Ok(DepOn::File(path))
    }

    fn any_tag(&mut self) -> Result<Tag, RecordFault>
        ensures { RowAgrees (λ t. t) result self.new (any_tag_at self.old) }
    {
        let byte = self.byte()?;
        known_tag(byte).ok_or(RecordFault::BadTag)
    }

    // The tag of a stamp that the observation may have.
    fn tag(&mut self, kind: DepKind, what: &DepOn) -> Result<Tag, RecordFault>
        ensures { RowAgrees (λ t. t) result self.new (tag_at kind what.now self.old) }
    {
        let tag = self.any_tag()?;
        if !allows(kind, what, tag) {
            return Err(RecordFault::BadTag);
        }
        Ok(tag)
    }

    // A stamp after its tag.
    fn stamp(&mut self, alloc: Global, tag: Tag) -> Result<Stamp, RecordFault>
        ensures { RowAgrees (λ s. s) result self.new (stamped tag self.old) }
    {
        match tag {
            Tag::Absent => Ok(Stamp::Absent),
            Tag::Present => Ok(Stamp::Present),
            Tag::Hash => {
                let hash = self.hash()?;
                Ok(Stamp::Hash(hash))
            }
            Tag::Mark => {
                let mark = self.mark()?;
                Ok(Stamp::Mark(mark))
            }
            Tag::Whole => {
                let value = self.value(alloc)?;
                Ok(Stamp::Whole(value))
            }
            Tag::Done => Ok(Stamp::Done),
        }
    }

    #[tactic(auto, unfolding(crate::specs::Reading::dep_at))]
    fn dep(&mut self, alloc: Global, known: &mut Expected<'_>) -> Result<Dep, RecordFault>
        ensures { RowAgrees (λ d. d) result self.new (dep_at self.old) }
    {
        let kind = self.kind()?;
        let what = self.what(alloc, known, calls(kind))?;
        let tag = self.tag(kind, &what)?;
        let stamp = self.stamp(alloc, tag)?;
        Ok(Dep { kind, what, stamp })
    }

    #[tactic(auto, using(crate::proofs::Turns::one_more, crate::proofs::Turns::one_fails))]
    fn deps(&mut self, alloc: Global, known: &mut Expected<'_>) -> Result<Deps, RecordFault>
        ensures { RowAgrees (λ ds. ds) result self.new (list_at dep_at self.old) }
    {
        let count = self.number()?;
        let mut deps = Vec::with_capacity(alloc, count.min(AT_ONCE))?;
        for _ in 0..count {
            match self.dep(alloc, known) {
                Ok(dep) => deps.push(dep)?,
                Err(fault) => return Err(fault),
            }
        }
        Ok(Deps::new(deps))
    }

    fn out_path(&mut self, alloc: Global) -> Result<Path, RecordFault>
        ensures { RowAgrees (λ p. p) result self.new (out_path_at self.old) }
    {
        let path = self.path(alloc)?;
        if !path.under_out() {
            return Err(RecordFault::BadPath);
        }
        Ok(path)
    }

    #[tactic(auto, unfolding(crate::specs::Reading::write_at))]
    fn write(&mut self, alloc: Global) -> Result<(Path, [u8; 32]), RecordFault>
        ensures { RowAgrees (λ w. w) result self.new (write_at self.old) }
    {
        let path = self.out_path(alloc)?;
        let hash = self.hash()?;
        Ok((path, hash))
    }

    #[tactic(auto, using(crate::proofs::Turns::one_more, crate::proofs::Turns::one_fails))]
    fn writes(&mut self, alloc: Global) -> Result<Writes, RecordFault>
        ensures { RowAgrees (λ ws. ws) result self.new (list_at write_at self.old) }
    {
        let count = self.number()?;
        let mut writes = Vec::with_capacity(alloc, count.min(AT_ONCE))?;
        for _ in 0..count {
            match self.write(alloc) {
                Ok(write) => writes.push(write)?,
                Err(fault) => return Err(fault),
            }
        }
        Ok(Writes::new(writes))
    }

    // A record, part by part.
    pub(crate) fn parts(
        &mut self,
        alloc: Global,
        known: &mut Expected<'_>,
    ) -> Result<TaskRecord, RecordFault>
        ensures { RowAgrees (λ r. r) result self.new (record_at self.old) }
    {
        let task = self.task(alloc)?;
        let deps = self.deps(alloc, known)?;
        let writes = self.writes(alloc)?;
        let output = self.value(alloc)?;
        Ok(TaskRecord {
            task,
            deps,
            writes,
            outcome: Outcome::Done(output),
        })
    }
}
