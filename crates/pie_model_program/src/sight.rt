//! What a task sees at a path, by its own writes and all writes of the tasks that it required.

ghost use Rattle.std.specs.Prelude.{◌≡◌, ℕ, IfOk};
ghost use Rattle.pie_model.specs.Seen.{first_write, all_by, by_writers, own_first, seen_file};
ghost use Rattle.pie_model.specs.Paths.{kind_of};
ghost use Rattle.pie_model_program.specs.Written.{at_path, seen_by};

use crate::setting::Setting;
use pie_model::bytes::Bytes;
use pie_model::words::{Kind, Seen};
use std::alloc::{AllocError, Global};

/// What was written first at the path.
pub fn first(
    alloc: Global,
    writes: &[(Bytes, Bytes)],
    path: &Bytes,
) -> Result<Option<Bytes>, AllocError>
    ensures { IfOk result (λ o. o ≡ first_write path.now writes.now) }
{
    match writes {
        [] => Ok(None),
        [write, rest @ ..] => {
            if path.same(&write.0) {
                return Ok(Some(write.1.copy(alloc)?));
            }
            first(alloc, rest, path)
        }
    }
}

/// Whether all writes at the path are the task's.
pub fn all_of(task: &Bytes, all: &[(Bytes, Bytes, Bytes)], path: &Bytes) -> bool
    ensures { result ≡ all_by task.now (at_path path.now all.now) }
{
    match all {
        [] => true,
        [write, rest @ ..] => {
            if path.same(&write.1) && !task.same(&write.0) {
                return false;
            }
            all_of(task, rest, path)
        }
    }
}

/// What these writes show at the path.
pub fn shown(alloc: Global, all: &[(Bytes, Bytes, Bytes)], path: &Bytes) -> Result<Seen, AllocError>
    ensures { IfOk result (λ s. s ≡ by_writers (at_path path.now all.now)) }
{
    match all {
        [] => Ok(Seen::Nothing),
        [write, rest @ ..] => {
            if !path.same(&write.1) {
                return shown(alloc, rest, path);
            }
            if all_of(&write.0, rest, path) {
                return Ok(Seen::Holds(write.2.copy(alloc)?, 0));
            }
            Ok(Seen::Clashing)
        }
    }
}

/// What stands at a path under `out`.
fn provided(
    alloc: Global,
    own: &[(Bytes, Bytes)],
    below: &[(Bytes, Bytes, Bytes)],
    path: &Bytes,
) -> Result<Seen, AllocError>
    ensures { IfOk result (λ s. s ≡ own_first (first_write path.now own.now) (by_writers (at_path path.now below.now))) }
{
    match first(alloc, own, path)? {
        Some(bytes) => Ok(Seen::Holds(bytes, 0)),
        None => shown(alloc, below, path),
    }
}

/// What stands at a source path.
fn source<S: Setting>(setting: &S, path: &Bytes) -> Result<Seen, AllocError>
    ensures { IfOk result (λ s. s ≡ seen_file ((S.project setting.now).file path.now)) }
{
    match setting.file(path)? {
        Some(file) => Ok(Seen::Holds(file.bytes, file.mark)),
        None => Ok(Seen::Nothing),
    }
}

/// What a task sees at a path, after these own writes and all these writes of what it required.
pub fn visible<S: Setting>(
    setting: &S,
    alloc: Global,
    own: &[(Bytes, Bytes)],
    below: &[(Bytes, Bytes, Bytes)],
    path: &Bytes,
) -> Result<Seen, AllocError>
    ensures { IfOk result (λ s. s ≡ seen_by (S.project setting.now).file own.now below.now path.now (kind_of path.now)) }
{
    match setting.kind(path) {
        Kind::Out => provided(alloc, own, below, path),
        Kind::Kept => Ok(Seen::Nothing),
        Kind::Source => source(setting, path),
    }
}
