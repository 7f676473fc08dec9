//! What a manifest says.
ghost use Rattle.std.specs.Prelude.{◌≡◌};

use crate::Entry;
use pie_base::Path;
use std::marker::Model;

/// What a manifest says: the store that it was written with, and the files that were scanned then.
/// Rule: docs/FORMATS.md, "The manifest".
#[derive(Drop)]
pub struct Manifest {
    /// The SHA-256 of the bytes of the store.
    pub store: [u8; 32],
    /// The paths at or below which sources were scanned, in path order.
    pub tops: Tops,
    /// The files that were scanned, in path order.
    pub entries: Entries,
}

/// Paths at or below which sources are scanned. Contracts see the list of them.
#[derive(Drop)]
pub struct Tops {
    tops: Vec<Path>,
}

impl Model for Tops {
    ghost use Rattle.std.specs.Prelude.{List, ℕ};

    ghost Value = { List (List ℕ) };

    ghost view = { λ t. t.tops.items };
}

impl Tops {
    pub fn new(tops: Vec<Path>) -> Tops
        ensures { result ≡ tops.items }
    {
        Tops { tops }
    }

    pub fn as_slice(&self) -> &[Path]
        ensures { result.now ≡ self.now }
    {
        self.tops.as_slice()
    }

    pub fn into_vec(self) -> Vec<Path>
        ensures { result.items ≡ self }
    {
        let Tops { tops } = self;
        tops
    }
}

/// Entries of scanned files. Contracts see the list of them.
#[derive(Drop)]
pub struct Entries {
    entries: Vec<Entry>,
}

impl Model for Entries {
    ghost use Rattle.std.specs.Prelude.{List};
    ghost use Rattle.pie_scan.specs.declared.entry.Entry.{Entry};
    ghost use Rattle.pie_scan.specs.inner.Codes.{coded_entries};

    ghost Value = { List Entry };

    ghost coded = { coded_entries };

    ghost view = { λ e. e.entries.items };
}

impl Entries {
    pub fn new(entries: Vec<Entry>) -> Entries
        ensures { result ≡ entries.items }
    {
        Entries { entries }
    }

    pub fn as_slice(&self) -> &[Entry]
        ensures { result.now ≡ self.now }
    {
        self.entries.as_slice()
    }

    pub fn into_vec(self) -> Vec<Entry>
        ensures { result.items ≡ self }
    {
        let Entries { entries } = self;
        entries
    }
}
