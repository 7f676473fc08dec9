//! The built-in functions that look for one text in another.
ghost use Rattle.std.specs.Prelude.{◌≡◌};
ghost use Rattle.pie_value.specs.declared.builtin.Builtin.TheVariants.{Contains, Ends, Find, Starts};
ghost use Rattle.pie_value.specs.Values.{trees_of};
ghost use Rattle.pie_value.specs.BuiltinTexts.{first_place};
ghost use Rattle.pie_value.specs.Builtins.{answer_of};
ghost use Rattle.pie_builtins.specs.Agreement.{AnswerAgrees};

use crate::BuiltinFault;
use crate::fault::{made, made_length, refused};
use memchr::memmem;
use pie_base::FaultKind;
use pie_value::Value;

/// Where the second text first occurs in the first, in bytes from 0, or null.
pub fn find(args: &[Value]) -> Result<Value, BuiltinFault>
    ensures { AnswerAgrees result (answer_of Find (trees_of args.now)) }
{
    match args {
        [Value::Text(text), Value::Text(part)] => match place_of(text.as_str(), part.as_str()) {
            Some(at) => made_length(at),
            None => made(Value::Null),
        },
        _ => refused(FaultKind::Unknown),
    }
}

/// Whether the second text occurs in the first.
pub fn contains(args: &[Value]) -> Result<Value, BuiltinFault>
    ensures { AnswerAgrees result (answer_of Contains (trees_of args.now)) }
{
    match args {
        [Value::Text(text), Value::Text(part)] => {
            made(Value::Bool(place_of(text.as_str(), part.as_str()).is_some()))
        }
        _ => refused(FaultKind::Unknown),
    }
}

/// Whether the second text is a prefix of the first.
pub fn starts(args: &[Value]) -> Result<Value, BuiltinFault>
    ensures { AnswerAgrees result (answer_of Starts (trees_of args.now)) }
{
    match args {
        [Value::Text(text), Value::Text(front)] => {
            let text = text.as_str().as_bytes();
            made(Value::Bool(text.starts_with(front.as_str().as_bytes())))
        }
        _ => refused(FaultKind::Unknown),
    }
}

/// Whether the second text is a suffix of the first.
pub fn ends(args: &[Value]) -> Result<Value, BuiltinFault>
    ensures { AnswerAgrees result (answer_of Ends (trees_of args.now)) }
{
    match args {
        [Value::Text(text), Value::Text(end)] => {
            let text = text.as_str().as_bytes();
            made(Value::Bool(text.ends_with(end.as_str().as_bytes())))
        }
        _ => refused(FaultKind::Unknown),
    }
}

// Where the second text first occurs in the first, in bytes from 0.
#[tactic(auto, using(crate::proofs::Searches::found_first))]
fn place_of(text: &str, part: &str) -> Option<usize>
    ensures { result ≡ first_place text.now part.now }
{
    memmem::find(text.as_bytes(), part.as_bytes())
}
