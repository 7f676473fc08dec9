//! A reader of canonical bytes, which goes once from the left.
ghost use Rattle.std.specs.Prelude.{◌≡◌, ◌-◌, ◌==◌, [], length, MatchOption, true, false};
ghost use Rattle.std.specs.Str.{is_utf8};
ghost use Rattle.pie_value.specs.Values.{tree_of};
ghost use Rattle.pie_value.specs.inner.Agreement.{ValueAgrees, ValueAgreesOnPrefix};
ghost use Rattle.pie_value.specs.Reading.{byte_of, bytes_of, number_of, int_of, counted_of, tested_of, is_path_text, tag_at, tag_of};
ghost use Rattle.pie_value.specs.Reading.{flag_of, tagged, items_prefix, value_within, value_prefix, value_whole, task_prefix};

use crate::{Blob, Items, Task, Value, ValueFault};
use pie_base::{MAX_DEPTH, Path, PathError, Text};
use std::alloc::Global;
use std::marker::Model;

// The kinds of value, in the order of their tags.
#[derive(Clone, Copy)]
enum Tag {
    Unit,
    Bool,
    Int,
    Text,
    Path,
    List,
    Tuple,
    Null,
    Bytes,
}

// Bytes that are still to be read. Contracts see the list of them.
#[derive(Drop)]
pub(crate) struct Reader<'a> {
    rest: &'a [u8],
}

impl<'a> Model for Reader<'a> {
    ghost use Rattle.std.specs.Prelude.{List, ℕ};

    ghost Value = { List ℕ };

    ghost view = { λ r. r.rest.now };
}

impl<'a> Reader<'a> {
    pub(crate) fn whole(alloc: Global, bytes: &'a [u8]) -> Result<Value, ValueFault>
        ensures { ValueAgrees tree_of result [] (value_whole bytes.now) }
    {
        let mut reader = Reader { rest: bytes };
        let value = reader.front(alloc)?;
        if reader.is_done() {
            Ok(value)
        } else {
            Err(ValueFault::Rest)
        }
    }

    pub(crate) fn value_in_front(
        alloc: Global,
        bytes: &'a [u8],
    ) -> Result<(Value, usize), ValueFault>
        ensures { ValueAgreesOnPrefix tree_of result bytes.now (value_prefix bytes.now) }
    {
        let mut reader = Reader { rest: bytes };
        let value = reader.front(alloc)?;
        let len = reader.taken_of(bytes);
        Ok((value, len))
    }

    pub(crate) fn task_in_front(alloc: Global, bytes: &'a [u8]) -> Result<(Task, usize), ValueFault>
        ensures { ValueAgreesOnPrefix (λ t. t) result bytes.now (task_prefix bytes.now) }
    {
        let mut reader = Reader { rest: bytes };
        let func = reader.text(alloc)?;
        let args = reader.front_items(alloc)?;
        let len = reader.taken_of(bytes);
        Ok((Task { func, args }, len))
    }

    fn byte(&mut self) -> Result<u8, ValueFault>
        ensures { ValueAgrees (λ b. b) result self.new (byte_of self.old) }
    {
        let Some((byte, rest)) = self.rest.split_first() else {
            return Err(ValueFault::Short);
        };
        self.rest = rest;
        Ok(*byte)
    }

    fn bytes(&mut self, len: usize) -> Result<&'a [u8], ValueFault>
        ensures { ValueAgrees (λ b. b.now) result self.new (bytes_of len self.old) }
    {
        if self.rest.len() < len {
            return Err(ValueFault::Short);
        }
        let (front, rest) = self.rest.split_at(len);
        self.rest = rest;
        Ok(front)
    }

    #[tactic(auto, unfolding(crate::specs::Reading::number_of))]
    fn number(&mut self) -> Result<usize, ValueFault>
        ensures { ValueAgrees (λ n. n) result self.new (number_of self.old) }
    {
        let Some((digits, rest)) = self.rest.split_first_chunk::<4>() else {
            return Err(ValueFault::Short);
        };
        self.rest = rest;
        Ok(u32::from_be_bytes(*digits) as usize)
    }

    #[tactic(auto, unfolding(crate::specs::Reading::int_of))]
    fn int(&mut self) -> Result<i64, ValueFault>
        ensures { ValueAgrees (λ n. n) result self.new (int_of self.old) }
    {
        let Some((digits, rest)) = self.rest.split_first_chunk::<8>() else {
            return Err(ValueFault::Short);
        };
        self.rest = rest;
        Ok(i64::from_be_bytes(*digits))
    }

    fn counted(&mut self) -> Result<&'a [u8], ValueFault>
        ensures { ValueAgrees (λ b. b.now) result self.new (counted_of self.old) }
    {
        let len = self.number()?;
        self.bytes(len)
    }

    fn tag(&mut self) -> Result<Tag, ValueFault>
        ensures { ValueAgrees (λ t. t) result self.new (tag_of self.old) }
    {
        let byte = self.byte()?;
        known_tag(byte).ok_or(ValueFault::BadTag)
    }

    fn flag(&mut self) -> Result<bool, ValueFault>
        ensures { ValueAgrees (λ b. b) result self.new (flag_of self.old) }
    {
        match self.byte()? {
            0 => Ok(false),
            1 => Ok(true),
            _ => Err(ValueFault::BadTag),
        }
    }

    fn text(&mut self, alloc: Global) -> Result<Text, ValueFault>
        ensures { ValueAgrees (λ t. t) result self.new (tested_of is_utf8 self.old) }
    {
        let bytes = self.counted()?;
        let Some(text) = as_text(bytes) else {
            return Err(ValueFault::BadText);
        };
        let text = Text::new(alloc, text)?;
        Ok(text)
    }

    #[tactic(auto, using(crate::proofs::TextTests::path_taken, crate::proofs::TextTests::path_refused))]
    fn path(&mut self, alloc: Global) -> Result<Path, ValueFault>
        ensures { ValueAgrees (λ p. p) result self.new (tested_of is_path_text self.old) }
    {
        let bytes = self.counted()?;
        let Some(text) = as_text(bytes) else {
            return Err(ValueFault::BadText);
        };
        match Path::read(alloc, text) {
            Ok(path) => Ok(path),
            Err(PathError::OutOfMemory) => Err(ValueFault::OutOfMemory),
            Err(_) => Err(ValueFault::BadText),
        }
    }

    // A value that nests at most so deep.
    #[cycle(reading)]
    #[tactic(auto, using(crate::proofs::Turns::value_goes))]
    fn value(&mut self, alloc: Global, depth: u32) -> Result<Value, ValueFault>
        ensures { ValueAgrees tree_of result self.new (value_within depth self.old) }
    {
        let tag = self.tag()?;
        if depth == 0 {
            return Err(ValueFault::TooDeep);
        }
        self.tagged(alloc, tag, depth - 1)
    }

    #[cycle(reading)]
    fn tagged(&mut self, alloc: Global, tag: Tag, depth: u32) -> Result<Value, ValueFault>
        ensures { ValueAgrees tree_of result self.new (tagged (value_within depth) tag self.old) }
    {
        match tag {
            Tag::Unit => Ok(Value::Unit),
            Tag::Bool => {
                let b = self.flag()?;
                Ok(Value::Bool(b))
            }
            Tag::Int => {
                let n = self.int()?;
                Ok(Value::Int(n))
            }
            Tag::Text => {
                let text = self.text(alloc)?;
                Ok(Value::Text(text))
            }
            Tag::Path => {
                let path = self.path(alloc)?;
                Ok(Value::Path(path))
            }
            Tag::List => {
                let items = self.items(alloc, depth)?;
                Ok(Value::List(items))
            }
            Tag::Tuple => {
                let items = self.items(alloc, depth)?;
                Ok(Value::Tuple(items))
            }
            Tag::Null => Ok(Value::Null),
            Tag::Bytes => {
                let bytes = self.counted()?;
                let bytes = Vec::from_slice(alloc, bytes)?;
                let blob = Blob::shared(alloc, bytes)?;
                Ok(Value::Bytes(blob))
            }
        }
    }

    // Items that nest at most so deep, behind their number.
    #[cycle(reading)]
    #[tactic(auto, using(crate::proofs::Turns::one_more, crate::proofs::Turns::one_fails))]
    fn items(&mut self, alloc: Global, depth: u32) -> Result<Items, ValueFault>
        ensures { ValueAgrees (λ ts. ts) result self.new (items_prefix (value_within depth) self.old) }
    {
        let count = self.number()?;
        let mut items = Items::new();
        for _ in 0..count {
            let value = self.value(alloc, depth)?;
            items.push(alloc, value)?;
        }
        Ok(items)
    }

    #[tactic(auto, unfolding(crate::specs::Reading::value_prefix))]
    fn front(&mut self, alloc: Global) -> Result<Value, ValueFault>
        ensures { ValueAgrees tree_of result self.new (value_prefix self.old) }
    {
        let value = self.value(alloc, MAX_DEPTH)?;
        Ok(value)
    }

    #[tactic(auto, unfolding(crate::specs::Reading::value_prefix))]
    fn front_items(&mut self, alloc: Global) -> Result<Items, ValueFault>
        ensures { ValueAgrees (λ ts. ts) result self.new (items_prefix value_prefix self.old) }
    {
        let items = self.items(alloc, MAX_DEPTH)?;
        Ok(items)
    }

    fn is_done(&self) -> bool
        ensures { result ≡ (length self.now == 0) }
    {
        self.rest.is_empty()
    }

    // How many of these bytes were read.
    fn taken_of(&self, bytes: &[u8]) -> usize
        ensures { result ≡ length bytes.now - length self.now }
    {
        bytes.len().saturating_sub(self.rest.len())
    }
}

fn known_tag(byte: u8) -> Option<Tag>
    ensures { result ≡ tag_at byte }
{
    match byte {
        0 => Some(Tag::Unit),
        1 => Some(Tag::Bool),
        2 => Some(Tag::Int),
        3 => Some(Tag::Text),
        4 => Some(Tag::Path),
        5 => Some(Tag::List),
        6 => Some(Tag::Tuple),
        7 => Some(Tag::Null),
        8 => Some(Tag::Bytes),
        _ => None,
    }
}

// The bytes as a text, where they are UTF-8.
#[tactic(auto, using(crate::proofs::TextTests::not_utf8, crate::proofs::TextTests::utf8))]
fn as_text(bytes: &[u8]) -> Option<&str>
    ensures { MatchOption result (is_utf8 bytes.now ≡ false) (λ text. (text.now ≡ bytes.now) × (is_utf8 bytes.now ≡ true)) }
{
    match str::from_utf8(bytes) {
        Ok(text) => Some(text),
        Err(_) => None,
    }
}
