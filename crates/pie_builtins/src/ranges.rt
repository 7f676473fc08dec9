//! The list of the integers between two.
ghost use Rattle.std.specs.Prelude.{◌≡◌, ◌<◌, ◌^◌, ◌++◌, ◌∷◌, [], ◌+ℤ◌, pos, FitsSigned, OnOk};
ghost use Rattle.std.specs.Int.{int_gap, w64};
ghost use Rattle.pie_value.specs.Tree.{TInt, TList};
ghost use Rattle.pie_value.specs.declared.builtin.Builtin.TheVariants.{Range as RangeOf};
ghost use Rattle.pie_value.specs.Values.{trees_of};
ghost use Rattle.pie_value.specs.BuiltinItems.{ints_from};
ghost use Rattle.pie_value.specs.BuiltinForms.{made as spec_made};
ghost use Rattle.pie_value.specs.Builtins.{answer_of};
ghost use Rattle.pie_builtins.specs.Agreement.{AnswerAgrees};

use crate::BuiltinFault;
use crate::fault::{made, refused};
use pie_base::{FaultKind, MAX_VALUE_BYTES, OutOfMemory};
use pie_value::{Items, Value};
use std::alloc::Global;

/// The integers from the first up to before the second, none where it isn't less.
pub fn range(alloc: Global, args: &[Value]) -> Result<Value, BuiltinFault>
    ensures { AnswerAgrees result (answer_of RangeOf (trees_of args.now)) }
{
    match args {
        [Value::Int(from), Value::Int(to)] => between(alloc, *from, *to),
        _ => refused(FaultKind::Unknown),
    }
}

// The integers from the first up to before the second.
#[tactic(auto, using(crate::proofs::Counted::gap_above, crate::proofs::Counted::gap_ends, crate::proofs::Counted::gap_reaches))]
fn between(alloc: Global, from: i64, to: i64) -> Result<Value, BuiltinFault>
    ensures { AnswerAgrees result (spec_made (TList (ints_from from (int_gap from to)))) }
{
    if from < to {
        counted(alloc, from, to.abs_diff(from))
    } else {
        made(Value::List(Items::new()))
    }
}

// So many integers from the first on. Where they are more than a value may have, no memory is taken.
#[tactic(auto, using(crate::proofs::Counted::too_many_ints))]
fn counted(alloc: Global, from: i64, count: u64) -> Result<Value, BuiltinFault>
    requires { FitsSigned w64 (from +ℤ pos count) }
    ensures { AnswerAgrees result (spec_made (TList (ints_from from count))) }
{
    if count > MAX_VALUE_BYTES / 9 {
        return refused(FaultKind::Big);
    }
    let mut items = Items::new();
    for k in 0..count {
        push_int(&mut items, alloc, from, k)?;
    }
    made(Value::List(items))
}

// The integer that is so much greater.
fn push_int(items: &mut Items, alloc: Global, from: i64, k: u64) -> Result<(), OutOfMemory>
    requires small { k < 2 ^ 63 }
    requires fits { FitsSigned w64 (from +ℤ pos k) }
    ensures { OnOk result (items.new ≡ items.old ++ TInt (from +ℤ pos k) ∷ []) }
{
    items.push(alloc, Value::Int(from + k as i64))
}
