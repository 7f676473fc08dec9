//! The instructions that work on the stack alone.
ghost use Rattle.std.specs.Prelude.{◌≡◌};
ghost use Rattle.pie_value.specs.Values.{tree_of};
ghost use Rattle.pie_operators.specs.Operators.{binary_answer, item_at, list_with, tuple_with, unary_answer};
ghost use Rattle.pie_operators.specs.Domain.{by_answer};
ghost use Rattle.pie_code.specs.Running.{act_on, onward, pop, pop_two, value_of as spec_value_of, push};
ghost use Rattle.pie_vm.specs.Steps.{Moved};

use crate::Frame;
use crate::ending::Ending;
use pie_base::OutOfMemory;
use pie_code::Constant;
use pie_operators::{Binary, Unary, binary, item_of, push_to_list, push_to_tuple, unary};
use pie_value::{Items, Value};

impl Frame {
    pub(crate) fn constant(&mut self, constant: Constant) -> Result<Option<Ending>, OutOfMemory>
        ensures { Moved result self.new (push (spec_value_of constant) self.old) }
    {
        self.push(value_of(constant))
    }

    pub(crate) fn drop_value(&mut self) -> Result<Option<Ending>, OutOfMemory>
        ensures { Moved result self.new (pop self.old (λ t d. onward d)) }
    {
        match self.stack.pop() {
            Some(_) => self.onward(),
            None => self.misfit(),
        }
    }

    #[tactic(auto, using(crate::proofs::Settling::settled))]
    pub(crate) fn unary(&mut self, operator: Unary) -> Result<Option<Ending>, OutOfMemory>
        ensures { Moved result self.new (pop self.old (λ a d. act_on (by_answer (unary_answer operator a)) d)) }
    {
        let Some(a) = self.stack.pop() else {
            return self.misfit();
        };
        self.settle(unary(operator, &a))
    }

    #[tactic(auto, using(crate::proofs::Settling::settled))]
    pub(crate) fn binary(&mut self, operator: Binary) -> Result<Option<Ending>, OutOfMemory>
        ensures { Moved result self.new (pop_two self.old (λ a b d. act_on (by_answer (binary_answer operator a b)) d)) }
    {
        let Some(b) = self.stack.pop() else {
            return self.misfit();
        };
        let Some(a) = self.stack.pop() else {
            return self.misfit();
        };
        self.settle(binary(self.alloc, operator, a, b))
    }

    #[tactic(auto, using(crate::proofs::Settling::settled))]
    pub(crate) fn list_push(&mut self) -> Result<Option<Ending>, OutOfMemory>
        ensures { Moved result self.new (pop_two self.old (λ a b d. act_on (by_answer (list_with a b)) d)) }
    {
        let Some(item) = self.stack.pop() else {
            return self.misfit();
        };
        let Some(list) = self.stack.pop() else {
            return self.misfit();
        };
        self.settle(push_to_list(self.alloc, list, item))
    }

    #[tactic(auto, using(crate::proofs::Settling::settled))]
    pub(crate) fn tuple_push(&mut self) -> Result<Option<Ending>, OutOfMemory>
        ensures { Moved result self.new (pop_two self.old (λ a b d. act_on (by_answer (tuple_with a b)) d)) }
    {
        let Some(item) = self.stack.pop() else {
            return self.misfit();
        };
        let Some(tuple) = self.stack.pop() else {
            return self.misfit();
        };
        self.settle(push_to_tuple(self.alloc, tuple, item))
    }

    #[tactic(auto, using(crate::proofs::Settling::settled))]
    pub(crate) fn project(&mut self, number: u32) -> Result<Option<Ending>, OutOfMemory>
        ensures { Moved result self.new (pop self.old (λ a d. act_on (by_answer (item_at number a)) d)) }
    {
        let Some(tuple) = self.stack.pop() else {
            return self.misfit();
        };
        self.settle(item_of(&tuple, number))
    }
}

// A value that an instruction brings along.
fn value_of(constant: Constant) -> Value
    ensures { tree_of result ≡ spec_value_of constant }
{
    match constant {
        Constant::Unit => Value::Unit,
        Constant::Bool(b) => Value::Bool(b),
        Constant::Int(n) => Value::Int(n),
        Constant::Null => Value::Null,
        Constant::EmptyList => Value::List(Items::new()),
        Constant::EmptyTuple => Value::Tuple(Items::new()),
    }
}
