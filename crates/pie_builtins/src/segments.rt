//! The last segment of a path.
ghost use Rattle.std.specs.Prelude.{◌≡◌};
ghost use Rattle.std.specs.List.{after_last};
ghost use Rattle.pie_base.specs.Path.{is_slash};
ghost use Rattle.pie_value.specs.declared.builtin.Builtin.TheVariants.{Name};
ghost use Rattle.pie_value.specs.Values.{trees_of};
ghost use Rattle.pie_value.specs.Builtins.{answer_of};
ghost use Rattle.pie_builtins.specs.Agreement.{AnswerAgrees};

use crate::BuiltinFault;
use crate::fault::{made_text, refused};
use memchr::memrchr;
use pie_base::FaultKind;
use pie_value::Value;
use std::alloc::Global;

/// The last segment of a path.
pub fn name(alloc: Global, args: &[Value]) -> Result<Value, BuiltinFault>
    ensures { AnswerAgrees result (answer_of Name (trees_of args.now)) }
{
    match args {
        [Value::Path(path)] => made_text(alloc, last_segment(path.as_str())),
        _ => refused(FaultKind::Unknown),
    }
}

// What stands after the last slash, or all where there is none.
#[tactic(auto, using(crate::proofs::LastSegments::after_it, crate::proofs::LastSegments::all_of_it, crate::proofs::LastSegments::cut_after_it))]
fn last_segment(path: &str) -> &str
    ensures { result.now ≡ after_last is_slash path.now }
{
    match memrchr(b'/', path.as_bytes()) {
        Some(at) => &path[at + 1..],
        None => path,
    }
}
