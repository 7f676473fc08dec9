//! Contents for each task and path.
ghost use Rattle.std.specs.Prelude.{◌≡◌, [], OnOk, OnErr};
ghost use Rattle.std.specs.Option.{option_map};
ghost use Rattle.pie_view.specs.Content.{content, Puts, Drops};

use pie_base::{OutOfMemory, Path};
use pie_graph::TaskNo;
use std::alloc::Global;
use std::collections::BTreeMap;
use std::marker::Model;

/// Contents for each task and path. Contracts see them by `content`.
#[derive(Drop)]
pub struct Stage {
    alloc: Global,
    tasks: BTreeMap<u32, BTreeMap<Path, Vec<u8>>>,
}

impl Model for Stage {
    ghost use Rattle.pie_view.specs.Content.{Staged};

    ghost Value = { Staged };

    ghost use Rattle.pie_view.specs.Shown.{staged_of};

    ghost view = { λ s. staged_of s.tasks };
}

impl Stage {
    /// Nothing is staged.
    pub fn new(alloc: Global) -> Stage
        ensures { result ≡ [] }
    {
        Stage {
            alloc,
            tasks: BTreeMap::new(alloc),
        }
    }

    /// Stages a content, in the place of an earlier one of the same task and path.
    pub fn put(&mut self, no: TaskNo, path: Path, bytes: Vec<u8>) -> Result<(), OutOfMemory>
        ensures puts { OnOk result (Puts self.old self.new no.0 path bytes.items) }
        ensures unchanged { OnErr result (self.new ≡ self.old) }
    {
        if let Some(files) = self.tasks.get_mut(&no.0) {
            files.insert(path, bytes)?;
            return Ok(());
        }
        let mut files = BTreeMap::new(self.alloc);
        files.insert(path, bytes)?;
        self.tasks.insert(no.0, files)?;
        Ok(())
    }

    /// The content that a task staged at a path.
    pub fn get(&self, no: TaskNo, path: &Path) -> Option<&[u8]>
        ensures { option_map (λ bytes. bytes.now) result ≡ content self.now no.0 path.now }
    {
        let files = self.tasks.get(&no.0)?;
        let bytes = files.get(path)?;
        Some(bytes.as_slice())
    }

    /// Forgets all that a task staged.
    pub fn drop_task(&mut self, no: TaskNo)
        ensures { Drops self.old self.new no.0 }
    {
        let _files = self.tasks.remove(&no.0);
    }
}
