//! The built-in functions on paths.
ghost use Rattle.std.specs.Prelude.{◌++◌, codes};
ghost use Rattle.std.specs.List.{after_last};
ghost use Rattle.pie_base.specs.Path.{is_slash};
ghost use Rattle.pie_value.specs.Tree.{TText};
ghost use Rattle.pie_value.specs.declared.builtin.Builtin.TheVariants.{Join, Name, Parent, Path as PathOf};
ghost use Rattle.pie_value.specs.Values.{trees_of};
ghost use Rattle.pie_value.specs.BuiltinForms.{made as spec_made};
ghost use Rattle.pie_value.specs.Builtins.{answer_of, path_or_fault};
ghost use Rattle.pie_builtins.specs.Agreement.{AnswerAgrees};

use crate::BuiltinFault;
use crate::fault::{made, made_text, refused};
use pie_base::{FaultKind, MAX_PATH_BYTES, Path, PathError};
use pie_value::Value;
use std::alloc::Global;

/// The path that the text spells.
pub fn path(alloc: Global, args: &[Value]) -> Result<Value, BuiltinFault>
    ensures { AnswerAgrees result (answer_of PathOf (trees_of args.now)) }
{
    match args {
        [Value::Text(text)] => path_spelt(alloc, text.as_str()),
        _ => refused(FaultKind::Unknown),
    }
}

/// The path, a slash and the text.
pub fn join(alloc: Global, args: &[Value]) -> Result<Value, BuiltinFault>
    ensures { AnswerAgrees result (answer_of Join (trees_of args.now)) }
{
    match args {
        [Value::Path(path), Value::Text(text)] => joined(alloc, path.as_str(), text.as_str()),
        _ => refused(FaultKind::Unknown),
    }
}

/// The path without its last segment, or null for one segment.
pub fn parent(alloc: Global, args: &[Value]) -> Result<Value, BuiltinFault>
    ensures { AnswerAgrees result (answer_of Parent (trees_of args.now)) }
{
    match args {
        [Value::Path(path)] => match path.parent(alloc)? {
            Some(parent) => made(Value::Path(parent)),
            None => made(Value::Null),
        },
        _ => refused(FaultKind::Unknown),
    }
}

// The path that the text spells.
#[tactic(auto, using(pie_value::proofs::TextTests::path_taken, pie_value::proofs::TextTests::path_refused))]
fn path_spelt(alloc: Global, text: &str) -> Result<Value, BuiltinFault>
    ensures { AnswerAgrees result (path_or_fault text.now) }
{
    match Path::read(alloc, text) {
        Ok(path) => made(Value::Path(path)),
        Err(PathError::OutOfMemory) => Err(BuiltinFault::OutOfMemory),
        Err(_) => refused(FaultKind::BadPath),
    }
}

// The path, a slash and the text. No memory is taken for a text that is too long for any path.
#[tactic(auto, using(crate::proofs::Joined::long_is_no_path))]
fn joined(alloc: Global, path: &str, text: &str) -> Result<Value, BuiltinFault>
    ensures { AnswerAgrees result (path_or_fault (path.now ++ (codes "/" ++ text.now))) }
{
    if text.len() > MAX_PATH_BYTES {
        return refused(FaultKind::BadPath);
    }
    let text = format!(in alloc; "{path}/{text}")?;
    path_spelt(alloc, text.as_str())
}
