//! The value of a call.
ghost use Rattle.std.specs.Prelude.{[], reverse, None};
ghost use Rattle.pie_value.specs.Values.{tree_of, trees_of as all_of};
ghost use Rattle.pie_parser.specs.Plain.{TCall};
ghost use Rattle.pie_parser.specs.TreeView.{trees_of};
ghost use Rattle.pie_semantics.specs.Meaning.{value_of, values_of};
ghost use Rattle.pie_semantics.specs.Words.{ABuiltin, ReadBytes, called as spec_called, callee_by, callee_of, called_plainly};
ghost use Rattle.pie_semantics_program.specs.Coming.{Comes};

use crate::Evaluator;
use crate::names::Names;
use crate::stop::Stop;
use pie_base::{FaultKind, Text};
use pie_operators::Observation;
use pie_parser::{CallKind, Expr, Name};
use pie_signature::{arity, builtin_named};
use pie_value::{Builtin, By, How, Items, Value};

impl Evaluator {
    // A call.
    #[cycle(value)]
    #[tactic(auto, using(crate::proofs::Turning::reverse_twice))]
    pub(crate) fn call(
        &mut self,
        kind: CallKind,
        name: &Name,
        items: &[Expr],
        names: &Names,
    ) -> Result<Value, Stop>
        ensures { Comes tree_of result self.new (value_of (TCall 0 0 kind name.now (trees_of items.now)) names.now self.old) }
    {
        self.tick()?;
        let args = self.arguments(items, names)?;
        self.called(kind, &name.text, args)
    }

    // The values of arguments, one after another.
    #[cycle(value)]
    #[tactic(auto, using(pie_types::proofs::Left::tree_mass_at))]
    fn arguments(&mut self, items: &[Expr], names: &Names) -> Result<Items, Stop>
        ensures { Comes reverse result self.new (values_of (trees_of items.now) names.now [] self.old) }
    {
        let mut args = Items::new();
        for item in items {
            let value = self.value(item, names)?;
            args.push(self.alloc, value)?;
        }
        Ok(args)
    }

    // What a call with these arguments gives.
    fn called(&mut self, kind: CallKind, name: &Text, args: Items) -> Result<Value, Stop>
        ensures { Comes tree_of result self.new (spec_called kind name.now args self.old) }
    {
        match kind {
            CallKind::Plain => self.called_plainly(name.as_str(), &args),
            CallKind::Require => self.require(How::Whole, name, args),
            CallKind::RequireByHash => self.require(How::Hashed, name, args),
            CallKind::Run => self.require(How::Ran, name, args),
        }
    }

    // A call by a plain name.
    fn called_plainly(&mut self, name: &str, args: &Items) -> Result<Value, Stop>
        ensures { Comes tree_of result self.new (called_plainly (callee_of name.now) args.now self.old) }
    {
        match builtin_named(name) {
            Some(which) => self.called_builtin(which, args),
            None => self.called_other(name, args),
        }
    }

    // A call of a built-in function, which takes so many arguments.
    fn called_builtin(&mut self, which: Builtin, args: &Items) -> Result<Value, Stop>
        ensures { Comes tree_of result self.new (called_plainly (ABuiltin which) args.now self.old) }
    {
        if args.as_slice().len() != arity(which) {
            return Err(Stop::Fault(FaultKind::Unknown));
        }
        self.built_in(which, args)
    }

    // A call by a name that is no built-in function's.
    fn called_other(&mut self, name: &str, args: &Items) -> Result<Value, Stop>
        ensures { Comes tree_of result self.new (called_plainly (callee_by None name.now) args.now self.old) }
    {
        if name == "read_bytes" {
            self.bytes_read(args.as_slice())
        } else {
            Err(Stop::Fault(FaultKind::Unknown))
        }
    }

    // The bytes of a file.
    fn bytes_read(&mut self, args: &[Value]) -> Result<Value, Stop>
        ensures { Comes tree_of result self.new (called_plainly ReadBytes (all_of args.now) self.old) }
    {
        match args {
            [path] => self.observe(Observation::Read(By::Raw), path),
            _ => Err(Stop::Fault(FaultKind::Unknown)),
        }
    }
}
