//! The limits of a build; docs/LANGUAGE.md and docs/BUILDING.md say what comes beyond each.

/// The most tasks that one build enters, and the most old and entered tasks together.
pub const MAX_TASKS: u32 = 50_000;

/// The most ticks of one task run; the tick after the last is the fault Budget.
pub const MAX_TICKS: u32 = 1_000_000;

/// The most canonical bytes of a value or of a required task; more is the fault Big.
pub const MAX_VALUE_BYTES: u64 = 1_048_576;

/// How deep a value nests at the most; deeper is the fault Big.
pub const MAX_DEPTH: u32 = 64;

/// The most bytes of a path.
pub const MAX_PATH_BYTES: usize = 255;

/// The most bytes of `pie.pipeline` and of `pie.roots`.
pub const MAX_PIPELINE_BYTES: usize = 1_048_576;

/// The most bytes of a change list or of a script.
pub const MAX_INPUT_BYTES: usize = 16_777_216;

/// The most bytes of `.pie/pending`.
pub const MAX_PENDING_BYTES: usize = 16_777_216;

/// The most bytes of one file of the cache.
pub const MAX_CACHE_BYTES: usize = 16_777_216;

/// How many brackets are open around a token at the most.
pub const MAX_BRACKETS: usize = 64;

/// The most parameters and values in scope together.
pub const MAX_NAMES: usize = 255;
