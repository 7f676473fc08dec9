//! What a command line asks for.

/// What the arguments of a command line ask for. Rule: docs/BUILDING.md, "Commands".
#[derive(Clone, Copy, Debug, PartialEq, Eq)]
pub enum Command {
    /// `check`: read and check the project.
    Check,
    /// `fresh`, true with `--json`: build as from an empty store.
    Fresh(bool),
    /// `build`, true with `--json`: build what the change list of the input and the last build leave to do.
    Build(bool),
    /// `replay`, true with `--json`: do the steps of the script of the input.
    Replay(bool),
    /// `demo SEED SIZE`: make a project of SIZE files, 1 to 1,000, from SEED in memory, and build it after each of ten changes.
    Demo(u64, u32),
    /// `topdown`, true with `--json`: build what differs from the records of the last build, with no change list.
    Topdown(bool),
    /// `scan`: tell the change list that scanning below the tops of the input finds.
    Scan,
    /// `auto`: build by the change list that scanning below the tops of the input finds.
    Auto,
    /// `cached`: build as `topdown`, with records of earlier builds from the cache.
    Cached,
}
