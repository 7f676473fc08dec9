//! Scripts: files that are put and removed, names, and builds.
ghost use Rattle.std.specs.Prelude.{◌≡◌, ◌∷◌, ◌++◌, [], Some, length, map, drop, is_some, OnOk, List, ℕ};
ghost use Rattle.pie_script.specs.Line.{script_line};
ghost use Rattle.pie_script.specs.Steps.{plain, steps};
ghost use Rattle.pie_script.specs.Reading.{Reads, ReadsOne, script_lines};
ghost use Rattle.pie_script.specs.inner.Taking.{nothing, closed, settled, taken, placed_one, content_of};

use crate::line::{Read, read_line};
use crate::lines::Lines;
use crate::{InputFault, Step};
use pie_base::{MAX_INPUT_BYTES, OutOfMemory, Path};
use std::alloc::Global;
use std::marker::Model;
use std::mem;

/// The steps of a script, in their order. Rule: docs/FORMATS.md, "Scripts".
pub fn read_script(alloc: Global, bytes: &[u8]) -> Result<Vec<Step>, InputFault>
    ensures { Reads (λ found. map plain found.items) steps result (script_lines bytes.now) (length bytes.now) }
{
    if bytes.len() > MAX_INPUT_BYTES {
        return Err(InputFault::TooLong);
    }
    let mut lines = Lines::new(bytes);
    let mut script = Script::new(alloc);
    let mut line = 1;
    while let Some(text) = lines.next_line() {
        script.take(alloc, text, line)?;
        line += 1;
    }
    script.close(alloc)?;
    Ok(script.into_steps())
}

/// The steps so far, and the `put` whose content goes on.
#[derive(Drop)]
pub(crate) struct Script {
    steps: Vec<Step>,
    path: Option<Path>,
    content: Vec<u8>,
}

impl Model for Script {
    ghost use Rattle.std.specs.Prelude.{map};
    ghost use Rattle.pie_script.specs.inner.Taking.{Taken};

    ghost Value = { Taken };

    ghost use Rattle.pie_script.specs.Steps.{plain};
    ghost use Rattle.pie_script.specs.inner.Under.{under_of};

    ghost view = { λ s. record { done = map plain s.steps.items; under = under_of s.path s.content.items } };
}

impl Script {
    fn new(alloc: Global) -> Script
        ensures { result ≡ nothing }
    {
        Script {
            steps: Vec::new(alloc),
            path: None,
            content: Vec::new(alloc),
        }
    }

    fn into_steps(self) -> Vec<Step>
        ensures { map plain result.items ≡ self.done }
    {
        let Script {
            steps,
            path,
            content,
        } = self;
        drop(path);
        drop(content);
        steps
    }

    // One more line is taken.
    fn take(&mut self, alloc: Global, text: &[u8], line: u32) -> Result<(), InputFault>
        ensures { ReadsOne result (placed_one (is_some self.old.under) (script_line text.now)) line (self.new ≡ taken (script_line text.now) self.old) }
    {
        match read_line(alloc, text, line) {
            Ok(Read::Blank) => Ok(()),
            Ok(Read::Content(newline)) => {
                self.add(text, newline, line)?;
                Ok(())
            }
            Ok(Read::Put(path)) => {
                self.open(alloc, path)?;
                Ok(())
            }
            Ok(Read::Del(path)) => {
                self.push(alloc, Step::Del(path))?;
                Ok(())
            }
            Ok(Read::Change(path)) => {
                self.push(alloc, Step::Change(path))?;
                Ok(())
            }
            Ok(Read::Build) => {
                self.push(alloc, Step::Build)?;
                Ok(())
            }
            Err(fault) => Err(fault),
        }
    }

    // The put that goes on gets more content.
    fn add(&mut self, text: &[u8], newline: bool, line: u32) -> Result<(), InputFault>
        ensures { ReadsOne result (placed_one (is_some self.old.under) (content_of text.now newline)) line
            (self.new ≡ taken (content_of text.now newline) self.old) }
    {
        if self.path.is_none() {
            return Err(InputFault::BadWord(line));
        }
        self.content.extend_from_slice(after_first(text))?;
        if newline {
            self.content.push(b'\n')?;
        }
        Ok(())
    }

    // A put begins.
    fn open(&mut self, alloc: Global, path: Path) -> Result<(), OutOfMemory>
        ensures { OnOk result (self.new ≡ record { done = closed self.old; under = Some (path, []) }) }
    {
        self.close(alloc)?;
        self.path = Some(path);
        self.content = Vec::new(alloc);
        Ok(())
    }

    // One more step, after which no put goes on.
    fn push(&mut self, alloc: Global, step: Step) -> Result<(), OutOfMemory>
        ensures { OnOk result (self.new ≡ settled (closed self.old ++ plain step ∷ [])) }
    {
        self.close(alloc)?;
        self.steps.push(step)?;
        Ok(())
    }

    // The put that goes on has all its content.
    fn close(&mut self, alloc: Global) -> Result<(), OutOfMemory>
        ensures { OnOk result (self.new ≡ settled (closed self.old)) }
    {
        if let Some(path) = self.path.take() {
            let content = mem::replace(&mut self.content, Vec::new(alloc));
            self.steps.push(Step::Put(path, content))?;
        }
        Ok(())
    }
}

fn after_first(text: &[u8]) -> &[u8]
    ensures { result.now ≡ drop 1 text.now }
{
    if text.is_empty() { text } else { &text[1..] }
}
