//! Tasks that are expected before they are read.
ghost use Rattle.std.specs.Prelude.{◌≡◌};

use crate::TaskNames;
use pie_graph::TaskNo;

/// Known tasks, of which a reader expects the one that it met last and the one behind that: what a record requires
/// mostly stands in the order of records. An expected task is met by its canonical bytes, made of no values, and
/// shared. What is read is the same whatever is expected.
#[derive(Drop)]
pub struct Expected<'a> {
    pub(crate) names: &'a TaskNames,
    pub(crate) last: TaskNo,
}

impl<'a> Expected<'a> {
    /// The task with this number is taken for the last one that was met. There need be none.
    pub fn new(names: &'a TaskNames, last: TaskNo) -> Expected<'a> {
        Expected { names, last }
    }

    // The task with these canonical bytes was met, if it is known.
    pub(crate) fn note(&mut self, bytes: &[u8])
        ensures { self.new.names ≡ self.old.names }
    {
        if let Some(no) = self.names.number_of(bytes) {
            self.last = no;
        }
    }
}
