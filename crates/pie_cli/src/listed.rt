//! Commands that read a list of paths.
ghost use Rattle.std.specs.Prelude.{◌≡◌, true, IfOk, OnOk, string_bytes};
ghost use Rattle.pie_files.specs.Streams.{Counted};
ghost use Rattle.pie_cli.specs.Run.{is_answer};
ghost use Rattle.pie_cli.specs.inner.ByList.{says_of, ChangesNone, EndsWith, KeepsBy, LeavesWith, RestsBy};

use crate::finding::auto;
use crate::incremental::build;
use crate::scan::scan;
use crate::told::CommandResult;
use pie_base::Path;
use pie_files::{Files, FilesError};
use std::alloc::Global;

/// A command that reads a list of paths.
#[derive(Clone, Copy)]
pub(crate) enum ByList {
    /// `build`, true with `--json`: the paths may have changed since the last build.
    Build(bool),
    /// `scan`: sources at or below the paths are scanned.
    Scan,
    /// `auto`: what scanning them finds is built.
    Auto,
}

/// Does what a command asks for with these paths, and tells what came of it.
#[tactic(auto, using(crate::proofs::Rest::keeps_same))]
pub(crate) fn with_list<F: Files>(
    alloc: Global,
    files: &mut F,
    paths: &[Path],
    which: ByList,
) -> Result<CommandResult, FilesError>
    ensures says { IfOk result (λ told. says_of which (F.asked files.old) (F.asked files.new) paths.now (F.holds files.old) (F.holds files.new) (string_bytes told.text) told.status) }
    ensures answer { IfOk result (λ told. is_answer told.status ≡ true) }
    ensures rest { KeepsBy which (F.holds files.old) (F.holds files.new) }
    ensures none { ChangesNone F.holds F.moment F.left_since F.images which files.old files.new }
    ensures crash { LeavesWith F.holds F.moment F.left_since F.images which paths.now files.old files.new }
    ensures marked { EndsWith F.holds F.images which paths.now files.old files.new }
    ensures durable { OnOk result (RestsBy F.holds F.images which files.old files.new) }
    ensures counted { Counted F.faults FilesError.Failed files.old files.new result }
{
    match which {
        ByList::Build(json) => build(alloc, files, paths, json),
        ByList::Scan => scan(alloc, files, paths),
        ByList::Auto => auto(alloc, files, paths),
    }
}
