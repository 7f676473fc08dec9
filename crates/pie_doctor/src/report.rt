//! What was found.

use pie_base::OutOfMemory;
use std::alloc::Global;

// The most lines of each kind that are kept.
const MOST: usize = 200;

/// What was found, and what couldn't be judged.
#[derive(Drop)]
pub struct Report {
    alloc: Global,
    found: Lines,
    unjudged: Lines,
}

#[derive(Drop)]
struct Lines {
    text: String,
    count: usize,
}

impl Lines {
    fn new(alloc: Global) -> Lines {
        Lines {
            text: String::new(alloc),
            count: 0,
        }
    }

    // One line more, which isn't kept where there are enough.
    fn add(&mut self, alloc: Global, place: &str, said: &str) -> Result<(), OutOfMemory> {
        if self.count < MOST {
            let place = shown(alloc, place)?;
            let line = format!(in alloc; "{place}: {said}\n")?;
            self.text.push_str(line.as_str())?;
        }
        self.count = self.count.saturating_add(1);
        Ok(())
    }

    fn put(&self, alloc: Global, out: &mut String, more: &str) -> Result<(), OutOfMemory> {
        out.push_str(self.text.as_str())?;
        if self.count > MOST {
            let left = self.count - MOST;
            let line = format!(in alloc; "and {left} more {more}\n")?;
            out.push_str(line.as_str())?;
        }
        Ok(())
    }
}

impl Report {
    pub(crate) fn new(alloc: Global) -> Report {
        Report {
            alloc,
            found: Lines::new(alloc),
            unjudged: Lines::new(alloc),
        }
    }

    /// Whether nothing was found.
    pub fn is_ok(&self) -> bool {
        self.found.count == 0
    }

    /// A line for each finding, the place and what is said of it, or `ok`; and then a line for each place that couldn't be judged. At most 200 of each are told one
    /// by one. Rule: docs/INSPECT.md.
    pub fn told(&self) -> Result<String, OutOfMemory> {
        let mut out = String::new(self.alloc);
        if self.is_ok() {
            out.push_str("ok\n")?;
        }
        self.found.put(self.alloc, &mut out, "places like these")?;
        self.unjudged
            .put(self.alloc, &mut out, "places that couldn't be judged")?;
        Ok(out)
    }

    pub(crate) fn alloc(&self) -> Global {
        self.alloc
    }

    /// Something is found at a place.
    pub(crate) fn find(&mut self, place: &str, said: &str) -> Result<(), OutOfMemory> {
        self.found.add(self.alloc, place, said)
    }

    /// Something can't be judged at a place.
    pub(crate) fn leave(&mut self, place: &str, said: &str) -> Result<(), OutOfMemory> {
        self.unjudged.add(self.alloc, place, said)
    }
}

// A place with `?` for each control character.
fn shown(alloc: Global, place: &str) -> Result<String, OutOfMemory> {
    let mut shown = String::new(alloc);
    for c in place.chars() {
        shown.push(if c.is_control() { '?' } else { c })?;
    }
    Ok(shown)
}
