//! Operators and built-in functions, as parts of an evaluation.
ghost use Rattle.std.specs.Prelude.{◌≡◌, pos, negsuc};
ghost use Rattle.pie_value.specs.Builtins.{answer_of};
ghost use Rattle.pie_value.specs.Values.{tree_of};
ghost use Rattle.pie_operators.specs.inner.Agreement.{ResultAgrees};
ghost use Rattle.pie_operators.specs.Domain.{by_answer};
ghost use Rattle.pie_operators.specs.Operators.{binary_answer, unary_answer};
ghost use Rattle.pie_semantics.specs.Words.{item_numbered};
ghost use Rattle.pie_semantics_program.specs.Coming.{Comes, IsTruth};
ghost use Rattle.pie_semantics_program.specs.Grown.{empty_of, grow_of};

use crate::Evaluator;
use crate::stop::{Stop, stopped};
use pie_base::FaultKind;
use pie_builtins::{BuiltinFault, apply};
use pie_operators::{
    Binary, OperatorFault, Unary, binary, item_of, push_to_list, push_to_tuple, unary,
};
use pie_value::{Builtin, Items, Value};
use std::alloc::Global;

// What grows item by item.
#[derive(Clone, Copy)]
pub enum Shape {
    List,
    Tuple,
}

impl Evaluator {
    // What an operator before an operand answers.
    #[tactic(auto, using(crate::proofs::Settling::settled))]
    pub(crate) fn unary(&mut self, operator: Unary, a: &Value) -> Result<Value, Stop>
        ensures { Comes tree_of result self.new (by_answer (unary_answer operator (tree_of a.now)) self.old) }
    {
        let answer = unary(operator, a);
        stopped(answer)
    }

    // What an operator between two operands answers.
    #[tactic(auto, using(crate::proofs::Settling::settled))]
    pub(crate) fn binary(&mut self, operator: Binary, a: Value, b: Value) -> Result<Value, Stop>
        ensures { Comes tree_of result self.new (by_answer (binary_answer operator (tree_of a) (tree_of b)) self.old) }
    {
        let answer = binary(self.alloc, operator, a, b);
        stopped(answer)
    }

    // A list or a tuple with one more item.
    #[tactic(auto, using(crate::proofs::Settling::settled))]
    pub(crate) fn pushed(&mut self, shape: Shape, all: Value, item: Value) -> Result<Value, Stop>
        ensures { Comes tree_of result self.new (by_answer (grow_of shape (tree_of all) (tree_of item)) self.old) }
    {
        let answer = grown(self.alloc, shape, all, item);
        stopped(answer)
    }

    // An item of a tuple.
    #[tactic(auto, using(crate::proofs::Settling::settled))]
    pub(crate) fn item(&mut self, number: i64, tuple: &Value) -> Result<Value, Stop>
        ensures { Comes tree_of result self.new (by_answer (item_numbered number (tree_of tuple.now)) self.old) }
    {
        let answer = numbered(number, tuple);
        stopped(answer)
    }

    // What a built-in function answers.
    #[tactic(auto, using(crate::proofs::Settling::settled))]
    pub(crate) fn built_in(&mut self, which: Builtin, args: &Items) -> Result<Value, Stop>
        ensures { Comes tree_of result self.new (by_answer (answer_of which args.now) self.old) }
    {
        let answer = answered(self.alloc, which, args);
        stopped(answer)
    }
}

// A truth value.
pub fn truth(value: &Value) -> Result<bool, Stop>
    ensures { IsTruth result (tree_of value.now) }
{
    match value {
        Value::Bool(b) => Ok(*b),
        _ => Err(Stop::Fault(FaultKind::Unknown)),
    }
}

// A list or a tuple without items.
pub fn empty(shape: Shape) -> Value
    ensures { tree_of result ≡ empty_of shape }
{
    match shape {
        Shape::List => Value::List(Items::new()),
        Shape::Tuple => Value::Tuple(Items::new()),
    }
}

fn grown(alloc: Global, shape: Shape, all: Value, item: Value) -> Result<Value, OperatorFault>
    ensures { ResultAgrees result (grow_of shape (tree_of all) (tree_of item)) }
{
    match shape {
        Shape::List => push_to_list(alloc, all, item),
        Shape::Tuple => push_to_tuple(alloc, all, item),
    }
}

// An item of a tuple. A number past the last one of `u32` finds no memory.
fn numbered(number: i64, tuple: &Value) -> Result<Value, OperatorFault>
    ensures { ResultAgrees result (item_numbered number (tree_of tuple.now)) }
{
    if number < 0 {
        return Err(OperatorFault::Fault(FaultKind::Unknown));
    }
    match u32::try_from(number) {
        Ok(number) => item_of(tuple, number),
        Err(_) => Err(OperatorFault::OutOfMemory),
    }
}

fn answered(alloc: Global, which: Builtin, args: &Items) -> Result<Value, OperatorFault>
    ensures { ResultAgrees result (answer_of which args.now) }
{
    match apply(alloc, which, args.as_slice()) {
        Ok(value) => Ok(value),
        Err(BuiltinFault::Fault(kind)) => Err(OperatorFault::Fault(kind)),
        Err(BuiltinFault::OutOfMemory) => Err(OperatorFault::OutOfMemory),
    }
}
