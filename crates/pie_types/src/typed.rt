//! A pipeline whose types are known to be right.
ghost use Rattle.std.specs.Prelude.{◌≡◌, Ok};
ghost use Rattle.pie_value.specs.HasType.{have_types};
ghost use Rattle.pie_value.specs.Tree.{items_of};
ghost use Rattle.pie_value.specs.Types.{parts_of};
ghost use Rattle.pie_value.specs.Values.{trees_of};
ghost use Rattle.pie_types.specs.inner.Shown.{entries_of, heading_tree};
ghost use Rattle.pie_types.specs.Whole as spec;
ghost use Rattle.pie_types.specs.inner.WholeRules.{IsTyped};

use crate::headings::{Heading, Headings};
use crate::scope::Bound;
use pie_parser::Pipeline;
use pie_value::{Task, Value};
use std::marker::Model;

/// A pipeline that was checked. Contracts see the list of its functions' trees.
#[derive(Drop)]
pub struct Typed {
    pub(crate) pipeline: Pipeline,
    pub(crate) headings: Headings,
}

impl Model for Typed {
    ghost use Rattle.std.specs.Prelude.{List};
    ghost use Rattle.pie_parser.specs.FunctionTrees.{FunctionTree};
    ghost use Rattle.pie_types.specs.inner.Stored.{coded_functions};

    ghost Value = { List FunctionTree };

    ghost coded = { coded_functions };

    ghost use Rattle.pie_types.specs.Whole.{IsCheckedWith};

    ghost view = { λ t. t.pipeline.functions.items };

    ghost invariant = { λ t. IsCheckedWith t.pipeline.functions.items t.headings };
}

impl Typed {
    /// The tree that was checked.
    pub fn pipeline(&self) -> &Pipeline
        ensures tree { result.now.functions.items ≡ self.now }
        ensures typed { IsTyped self.now }
    {
        &self.pipeline
    }

    /// The number of the task's function, in text order from 0. None where no function has the name,
    /// or the arguments haven't the types of its parameters.
    pub fn find(&self, task: &Task) -> Option<u32>
        ensures { result ≡ spec.number_from 0 self.now task.now }
    {
        let name = task.func.as_str();
        let heading = self.headings.get(name)?;
        if !takes(heading, task) {
            return None;
        }
        self.headings.number(name)
    }
}

// Whether a task has arguments of the types of a function's parameters.
fn takes(heading: &Heading, task: &Task) -> bool
    ensures { result ≡ spec.takes (Ok (heading_tree heading.now)) task.now }
{
    have_types(task.args.as_slice(), heading.params.as_slice())
}

// Whether there are as many values as parameters, each of its type.
#[tactic(auto, using(crate::proofs::Params::fit_turn, crate::proofs::Params::other_lengths))]
fn have_types(values: &[Value], params: &[Bound]) -> bool
    ensures { result ≡ have_types (parts_of (spec.types_in (entries_of params.now))) (items_of (trees_of values.now)) }
{
    if params.len() != values.len() {
        return false;
    }
    for i in 0..params.len() {
        if !values[i].has_type(&params[i].ty) {
            return false;
        }
    }
    true
}
