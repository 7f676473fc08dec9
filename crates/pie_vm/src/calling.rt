//! The call of a built-in function.
ghost use Rattle.std.specs.Prelude.{◌≡◌, List, length, ◌≤◌, take, drop, reverse};
ghost use Rattle.pie_value.specs.Builtins.{answer_of};
ghost use Rattle.pie_signature.specs.Signatures.{arity_of};
ghost use Rattle.pie_operators.specs.inner.Agreement.{ResultAgrees};
ghost use Rattle.pie_operators.specs.Domain.{by_answer};
ghost use Rattle.pie_code.specs.Running.{act_on, pop_many};
ghost use Rattle.pie_vm.specs.Steps.{Moved};

use crate::Frame;
use crate::ending::Ending;
use pie_base::OutOfMemory;
use pie_builtins::{BuiltinFault, apply};
use pie_operators::OperatorFault;
use pie_signature::arity;
use pie_value::{Builtin, Items, Value};
use std::alloc::Global;

impl Frame {
    /// Calls a built-in function with its arguments from the stack.
    pub(crate) fn call(&mut self, which: Builtin) -> Result<Option<Ending>, OutOfMemory>
        ensures { Moved result self.new (pop_many (arity_of which) self.old (λ ts d. act_on (by_answer (answer_of which ts)) d)) }
    {
        let count = arity(which);
        if self.stack.len() < count {
            return self.misfit();
        }
        let args = self.stack.top_copies(self.alloc, count)?;
        self.stack.drop_top(count);
        self.applied(which, args)
    }

    // Puts the answer to these arguments on the stack.
    #[tactic(auto, using(crate::proofs::Settling::settled))]
    fn applied(&mut self, which: Builtin, args: Items) -> Result<Option<Ending>, OutOfMemory>
        ensures { Moved result self.new (act_on (by_answer (answer_of which args)) self.old) }
    {
        let answer = answered(self.alloc, which, &args);
        self.settle(answer)
    }
}

// What a built-in function answers.
fn answered(alloc: Global, which: Builtin, args: &Items) -> Result<Value, OperatorFault>
    ensures { ResultAgrees result (answer_of which args.now) }
{
    match apply(alloc, which, args.as_slice()) {
        Ok(value) => Ok(value),
        Err(BuiltinFault::Fault(kind)) => Err(OperatorFault::Fault(kind)),
        Err(BuiltinFault::OutOfMemory) => Err(OperatorFault::OutOfMemory),
    }
}
