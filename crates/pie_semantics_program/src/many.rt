//! The values of lists, tuples and comprehensions.
ghost use Rattle.std.specs.Prelude.{◌∷◌};
ghost use Rattle.pie_value.specs.Tree.{items_of};
ghost use Rattle.pie_value.specs.Values.{tree_of, trees_of as values_of};
ghost use Rattle.pie_operators.specs.Domain.{ticked};
ghost use Rattle.pie_parser.specs.Plain.{TEach};
ghost use Rattle.pie_parser.specs.TreeView.{trees_of};
ghost use Rattle.pie_semantics.specs.Meaning.{items_onto, value_of};
ghost use Rattle.pie_semantics_program.specs.Coming.{Comes};
ghost use Rattle.pie_semantics_program.specs.Grown.{empty_of, grow_of, turns_of};

use crate::Evaluator;
use crate::names::Names;
use crate::operating::{Shape, empty};
use crate::stop::Stop;
use pie_base::{FaultKind, Text};
use pie_parser::{Expr, Name};
use pie_value::Value;

impl Evaluator {
    // `[a, b]` or `(a, b)`
    #[cycle(value)]
    pub(crate) fn items(
        &mut self,
        shape: Shape,
        items: &[Expr],
        names: &Names,
    ) -> Result<Value, Stop>
        ensures { Comes tree_of result self.new (ticked (items_onto (grow_of shape) (trees_of items.now) names.now (empty_of shape)) self.old) }
    {
        self.tick()?;
        self.items_onto(shape, items, names)
    }

    // Items, put onto a list or a tuple one after another.
    #[cycle(value)]
    #[tactic(auto, using(pie_types::proofs::Left::tree_mass_at))]
    fn items_onto(&mut self, shape: Shape, items: &[Expr], names: &Names) -> Result<Value, Stop>
        ensures { Comes tree_of result self.new (items_onto (grow_of shape) (trees_of items.now) names.now (empty_of shape) self.old) }
    {
        let mut all = empty(shape);
        for item in items {
            let value = self.value(item, names)?;
            all = self.pushed(shape, all, value)?;
        }
        Ok(all)
    }

    // `[item for name in list]`
    #[cycle(value)]
    pub(crate) fn each(
        &mut self,
        item: &Expr,
        name: &Name,
        list: &Expr,
        names: &Names,
    ) -> Result<Value, Stop>
        ensures { Comes tree_of result self.new (value_of (TEach 0 0 item.now name.now list.now) names.now self.old) }
    {
        self.tick()?;
        match self.value(list, names)? {
            Value::List(values) => self.turns(item, &name.text, values.as_slice(), names),
            _ => Err(Stop::Fault(FaultKind::Unknown)),
        }
    }

    // A value for each item, put onto a list one after another.
    #[cycle(value)]
    fn turns(
        &mut self,
        item: &Expr,
        name: &Text,
        values: &[Value],
        names: &Names,
    ) -> Result<Value, Stop>
        ensures { Comes tree_of result self.new (turns_of item.now name.now names.now (items_of (values_of values.now)) self.old) }
    {
        let mut all = empty(Shape::List);
        for value in values {
            let one = self.within(item, name, value, names)?;
            all = self.pushed(Shape::List, all, one)?;
        }
        Ok(all)
    }

    // The value of an expression where one more name is in scope.
    #[cycle(value)]
    fn within(&mut self, e: &Expr, name: &Text, value: &Value, names: &Names) -> Result<Value, Stop>
        ensures { Comes tree_of result self.new (value_of e.now ((name.now, tree_of value.now) ∷ names.now) self.old) }
    {
        let names = names.with(self.alloc, name, value.copy()?)?;
        self.value(e, &names)
    }
}
