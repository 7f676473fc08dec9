//! A folder in memory that is looked at.

use pie_doctor::{Entry, Judged, Kind, Look, LookError, Names};
use std::alloc::Global;

/// What stands at a place.
#[derive(Clone, Copy)]
pub(crate) enum Thing {
    File,
    /// A file that the user may not read.
    Hidden,
    /// A file that the system can't read.
    Broken,
    Pipe,
    Dir,
    /// A folder that may not be listed.
    Closed,
    /// A folder in which nothing can be made.
    Fixed,
    /// A folder of which that can't be judged.
    Unclear,
    /// A folder of another file system.
    Far,
    ToFile,
    ToHidden,
    ToDir,
    ToPipe,
    ToNothing,
    /// A link to what the user may not look at.
    ToClosed,
}

/// A folder with these things. Names in `.` that aren't UTF-8 are counted alone.
#[derive(Drop)]
pub(crate) struct MemLook<'a> {
    pub(crate) alloc: Global,
    pub(crate) things: &'a [(&'static str, Thing)],
    pub(crate) odd: u64,
}

fn entry(kind: Kind, is_usable: Judged, system: u64) -> Entry {
    Entry {
        kind,
        is_usable,
        system,
    }
}

fn entry_of(thing: Thing) -> Entry {
    match thing {
        Thing::File | Thing::Hidden | Thing::Broken => entry(Kind::File, Judged::No, 1),
        Thing::Pipe => entry(Kind::Other, Judged::No, 1),
        Thing::Dir | Thing::Closed => entry(Kind::Dir, Judged::Yes, 1),
        Thing::Fixed => entry(Kind::Dir, Judged::No, 1),
        Thing::Unclear => entry(Kind::Dir, Judged::Unknown, 1),
        Thing::Far => entry(Kind::Dir, Judged::Yes, 2),
        _ => entry(Kind::Link, Judged::Yes, 1),
    }
}

impl<'a> MemLook<'a> {
    fn thing(&self, place: &str) -> Option<Thing> {
        for (at, thing) in self.things {
            if *at == place {
                return Some(*thing);
            }
        }
        if place == "." { Some(Thing::Dir) } else { None }
    }
}

impl<'a> Look for MemLook<'a> {
    fn entry(&self, place: &str) -> Result<Entry, LookError> {
        match self.thing(place) {
            Some(thing) => Ok(entry_of(thing)),
            None => Err(LookError::Absent),
        }
    }

    fn beyond(&self, place: &str) -> Result<Entry, LookError> {
        match self.thing(place) {
            Some(Thing::ToFile) | Some(Thing::ToHidden) => Ok(entry_of(Thing::File)),
            Some(Thing::ToDir) => Ok(entry_of(Thing::Dir)),
            Some(Thing::ToPipe) => Ok(entry_of(Thing::Pipe)),
            Some(Thing::ToClosed) => Err(LookError::Denied),
            _ => Err(LookError::Absent),
        }
    }

    fn names(&self, place: &str) -> Result<Names, LookError> {
        match self.thing(place) {
            Some(Thing::Closed) => return Err(LookError::Denied),
            Some(_) => {}
            None => return Err(LookError::Absent),
        }
        let mut names = Vec::new(self.alloc);
        for (at, _) in self.things {
            if let Some(name) = name_in(place, at) {
                names.push(String::from_str(self.alloc, name)?)?;
            }
        }
        let odd = if place == "." { self.odd } else { 0 };
        Ok(Names { names, odd })
    }

    fn open(&self, place: &str) -> Result<(), LookError> {
        match self.thing(place) {
            Some(Thing::File) | Some(Thing::ToFile) => Ok(()),
            Some(Thing::Broken) => Err(LookError::Failed),
            _ => Err(LookError::Denied),
        }
    }
}

// The name of an entry of a folder.
fn name_in<'b>(dir: &str, place: &'b str) -> Option<&'b str> {
    match place.rsplit_once('/') {
        Some((above, name)) if above == dir => Some(name),
        None if dir == "." && place != "." => Some(place),
        _ => None,
    }
}
