//! A reader of canonical parts, which goes once from the left.
ghost use Rattle.std.specs.Prelude.{◌≡◌, ◌-◌, ◌<◌, ◌^◌, List, length, IfOk, MatchOption, true, false};
ghost use Rattle.std.specs.Str.{is_utf8};
ghost use Rattle.pie_value.specs.Reading.{is_path_text};
ghost use Rattle.pie_value.specs.Canonical.{enc_task, IsCanonicalTask};
ghost use Rattle.pie_record.specs.Canonical.{enc_record, IsCanonicalRecord};
ghost use Rattle.pie_record.specs.inner.Agreement.{RowAgrees, Meets};
ghost use Rattle.pie_record.specs.Reading.{told_fault, byte_at, bytes_at, number_at, mark_at, counted_at, path_at, text_at, task_at, value_at, record_at};

use crate::decoding::decode_among;
use crate::{Expected, RecordFault, TaskNames, TaskRecord};
use pie_base::{OutOfMemory, Path, PathError, Text};
use pie_graph::TaskNo;
use pie_value::{Task, Value, ValueFault, decode_front, decode_task_front};
use std::alloc::Global;
use std::marker::Model;

/// Bytes that are still to be read. Contracts see the list of them. Each method takes its part from the
/// front, or answers the fault at the least place; after a fault it isn't said what is left.
#[derive(Drop)]
pub struct Reader<'a> {
    rest: &'a [u8],
}

impl<'a> Model for Reader<'a> {
    ghost use Rattle.std.specs.Prelude.{List, ℕ};

    ghost Value = { List ℕ };

    ghost view = { λ r. r.rest.now };
}

impl<'a> Reader<'a> {
    pub fn new(bytes: &'a [u8]) -> Reader<'a>
        ensures { result ≡ bytes.now }
    {
        Reader { rest: bytes }
    }

    /// How many bytes are left.
    pub fn left(&self) -> usize
        ensures { result ≡ length self.now }
    {
        self.rest.len()
    }

    pub(crate) fn byte(&mut self) -> Result<u8, RecordFault>
        ensures { RowAgrees (λ b. b) result self.new (byte_at self.old) }
    {
        let Some((byte, rest)) = self.rest.split_first() else {
            return Err(RecordFault::Short);
        };
        self.rest = rest;
        Ok(*byte)
    }

    /// So many bytes.
    pub fn bytes(&mut self, len: usize) -> Result<&'a [u8], RecordFault>
        ensures { RowAgrees (λ b. b.now) result self.new (bytes_at len self.old) }
    {
        if self.rest.len() < len {
            return Err(RecordFault::Short);
        }
        let (front, rest) = self.rest.split_at(len);
        self.rest = rest;
        Ok(front)
    }

    /// A SHA-256.
    pub fn hash(&mut self) -> Result<[u8; 32], RecordFault>
        ensures { RowAgrees (λ b. b) result self.new (bytes_at 32 self.old) }
    {
        let Some((hash, rest)) = self.rest.split_first_chunk::<32>() else {
            return Err(RecordFault::Short);
        };
        self.rest = rest;
        Ok(*hash)
    }

    /// A number in four bytes.
    #[tactic(auto, unfolding(pie_value::specs::Reading::number_of))]
    pub fn number(&mut self) -> Result<usize, RecordFault>
        ensures read { RowAgrees (λ n. n) result self.new (number_at self.old) }
        ensures small { IfOk result (λ n. n < 2 ^ 32) }
    {
        let Some((digits, rest)) = self.rest.split_first_chunk::<4>() else {
            return Err(RecordFault::Short);
        };
        self.rest = rest;
        Ok(u32::from_be_bytes(*digits) as usize)
    }

    /// A number in eight bytes.
    #[tactic(auto, unfolding(crate::specs::Reading::mark_at))]
    pub fn mark(&mut self) -> Result<u64, RecordFault>
        ensures { RowAgrees (λ n. n) result self.new (mark_at self.old) }
    {
        let Some((digits, rest)) = self.rest.split_first_chunk::<8>() else {
            return Err(RecordFault::Short);
        };
        self.rest = rest;
        Ok(u64::from_be_bytes(*digits))
    }

    /// Bytes behind their length.
    pub fn counted(&mut self) -> Result<&'a [u8], RecordFault>
        ensures { RowAgrees (λ b. b.now) result self.new (counted_at self.old) }
    {
        let len = self.number()?;
        self.bytes(len)
    }

    /// A path behind its length.
    pub fn path(&mut self, alloc: Global) -> Result<Path, RecordFault>
        ensures { RowAgrees (λ p. p) result self.new (path_at self.old) }
    {
        let bytes = self.counted()?;
        let Some(text) = as_text(bytes) else {
            return Err(RecordFault::BadPath);
        };
        match Path::read(alloc, text) {
            Ok(path) => Ok(path),
            Err(PathError::OutOfMemory) => Err(RecordFault::OutOfMemory),
            Err(_) => Err(RecordFault::BadPath),
        }
    }

    /// A text behind its length.
    #[tactic(auto, using(pie_value::proofs::TextTests::not_utf8, pie_value::proofs::TextTests::utf8))]
    pub fn text(&mut self, alloc: Global) -> Result<Text, RecordFault>
        ensures { RowAgrees (λ t. t) result self.new (text_at self.old) }
    {
        let bytes = self.counted()?;
        let Some(text) = as_text(bytes) else {
            return Err(RecordFault::BadValue);
        };
        let text = Text::new(alloc, text)?;
        Ok(text)
    }

    /// A task.
    pub fn task(&mut self, alloc: Global) -> Result<Task, RecordFault>
        ensures read { RowAgrees (λ t. t) result self.new (task_at self.old) }
        ensures canonical { IfOk result (λ t. IsCanonicalTask t (enc_task t)) }
    {
        match decode_task_front(alloc, self.rest) {
            Ok((task, len)) => {
                self.rest = &self.rest[len..];
                Ok(task)
            }
            Err(fault) => Err(told(fault)),
        }
    }

    /// A task, which is shared where it is expected.
    pub(crate) fn expected_task(
        &mut self,
        alloc: Global,
        known: &mut Expected<'_>,
    ) -> Result<Task, RecordFault>
        ensures { RowAgrees (λ t. t) result self.new (task_at self.old) }
    {
        let last = known.last;
        if let Some(next) = last.0.checked_add(1) {
            if let Some(task) = self.met(known.names, TaskNo(next))? {
                known.last = TaskNo(next);
                return Ok(task);
            }
        }
        if let Some(task) = self.met(known.names, last)? {
            return Ok(task);
        }
        self.other_task(alloc, known)
    }

    // A task that isn't expected.
    fn other_task(&mut self, alloc: Global, known: &mut Expected<'_>) -> Result<Task, RecordFault>
        ensures { RowAgrees (λ t. t) result self.new (task_at self.old) }
    {
        let before = self.rest;
        let task = self.task(alloc)?;
        let len = before.len().saturating_sub(self.rest.len());
        known.note(&before[..len]);
        Ok(task)
    }

    // The task with this number, if its canonical bytes come.
    fn met(&mut self, names: &TaskNames, no: TaskNo) -> Result<Option<Task>, OutOfMemory>
        ensures { IfOk result (λ met. Meets met self.old self.new) }
    {
        if no.0 as usize >= names.as_slice().len() {
            return Ok(None);
        }
        match self.rest.strip_prefix(names.bytes(no)) {
            Some(rest) => {
                self.rest = rest;
                Ok(Some(names.task(no).copy()?))
            }
            None => Ok(None),
        }
    }

    /// A record.
    pub fn record(&mut self, alloc: Global) -> Result<TaskRecord, RecordFault>
        ensures read { RowAgrees (λ r. r) result self.new (record_at self.old) }
        ensures canonical { IfOk result (λ r. IsCanonicalRecord r (enc_record r)) }
    {
        let none = TaskNames::new(alloc);
        self.record_among(alloc, &mut Expected::new(&none, TaskNo(0)))
    }

    /// A record, whose required tasks are shared where they are expected.
    pub fn record_among(
        &mut self,
        alloc: Global,
        known: &mut Expected<'_>,
    ) -> Result<TaskRecord, RecordFault>
        ensures read { RowAgrees (λ r. r) result self.new (record_at self.old) }
        ensures canonical { IfOk result (λ r. IsCanonicalRecord r (enc_record r)) }
    {
        match decode_among(alloc, self.rest, known) {
            Ok((rec, len)) => {
                self.rest = &self.rest[len..];
                Ok(rec)
            }
            Err(fault) => Err(fault),
        }
    }

    /// A value.
    pub fn value(&mut self, alloc: Global) -> Result<Value, RecordFault>
        ensures { RowAgrees (λ v. v) result self.new (value_at self.old) }
    {
        match decode_front(alloc, self.rest) {
            Ok((value, len)) => {
                self.rest = &self.rest[len..];
                Ok(value)
            }
            Err(fault) => Err(told(fault)),
        }
    }
}

fn told(fault: ValueFault) -> RecordFault
    ensures { result ≡ told_fault fault }
{
    match fault {
        ValueFault::Short => RecordFault::Short,
        ValueFault::OutOfMemory => RecordFault::OutOfMemory,
        _ => RecordFault::BadValue,
    }
}

// The bytes as a text, where they are UTF-8.
#[tactic(auto, using(pie_value::proofs::TextTests::not_utf8, pie_value::proofs::TextTests::utf8))]
fn as_text(bytes: &[u8]) -> Option<&str>
    ensures { MatchOption result (is_utf8 bytes.now ≡ false) (λ text. (text.now ≡ bytes.now) × (is_utf8 bytes.now ≡ true)) }
{
    match str::from_utf8(bytes) {
        Ok(text) => Some(text),
        Err(_) => None,
    }
}
