//! The value of an expression.
ghost use Rattle.pie_value.specs.BuiltinForms.{made};
ghost use Rattle.pie_value.specs.Tree.{TText};
ghost use Rattle.pie_value.specs.Values.{tree_of};
ghost use Rattle.pie_operators.specs.Domain.{by_answer, give, ticked};
ghost use Rattle.pie_parser.specs.Plain.{TCompare, TName, TPrefix, TProject};
ghost use Rattle.pie_semantics.specs.Meaning.{value_of};
ghost use Rattle.pie_semantics.specs.Words.{literal_value, projected as spec_projected};
ghost use Rattle.pie_semantics_program.specs.Coming.{Comes};

use crate::Evaluator;
use crate::names::Names;
use crate::operating::Shape;
use crate::stop::Stop;
use crate::words::{comparison, prefix};
use pie_base::{FaultKind, Text};
use pie_parser::{Comparison, Expr, Form, Index, Literal, Prefix};
use pie_value::{Items, Value};

impl Evaluator {
    // The value of an expression.
    #[cycle(value)]
    pub(crate) fn value(&mut self, e: &Expr, names: &Names) -> Result<Value, Stop>
        ensures { Comes tree_of result self.new (value_of e.now names.now self.old) }
    {
        match &e.form {
            Form::Literal(literal) => self.literal(literal),
            Form::Name(name) => self.name(name, names),
            Form::Null(_) => self.constant(Value::Null),
            Form::Empty(_) => self.constant(Value::List(Items::new())),
            Form::Chain(first, steps) => self.chain(first, steps.as_slice(), names),
            Form::Compare(kind, a, b) => self.compare(*kind, a, b, names),
            Form::Prefix(kind, a) => self.prefixed(*kind, a, names),
            Form::Project(a, indices) => self.project(a, indices.as_slice(), names),
            Form::Tuple(items) => self.items(Shape::Tuple, items.as_slice(), names),
            Form::List(items) => self.items(Shape::List, items.as_slice(), names),
            Form::Each(item, name, list) => self.each(item, name, list, names),
            Form::If(test, then, otherwise) => match otherwise {
                None => self.alone(test, then, names),
                Some(other) => self.choice(test, then, other, names),
            },
            Form::Call(kind, name, items) => self.call(*kind, name, items.as_slice(), names),
            Form::Effect(kind, a) => self.effect(*kind, a, names),
            Form::Write(path, content) => self.write(path, content, names),
            Form::Fail(_, text) => self.fail(text, names),
        }
    }

    // A value that stands in the text.
    fn constant(&mut self, value: Value) -> Result<Value, Stop>
        ensures { Comes tree_of result self.new (ticked (give (tree_of value)) self.old) }
    {
        self.tick()?;
        Ok(value)
    }

    // A literal.
    fn literal(&mut self, literal: &Literal) -> Result<Value, Stop>
        ensures { Comes tree_of result self.new (ticked (by_answer (literal_value literal.now)) self.old) }
    {
        match literal {
            Literal::Int(n) => self.constant(Value::Int(*n)),
            Literal::Text(text) => self.text(text),
            Literal::Bool(b) => self.constant(Value::Bool(*b)),
            Literal::Unit => self.constant(Value::Unit),
        }
    }

    // A text, which has to keep the limits.
    fn text(&mut self, text: &Text) -> Result<Value, Stop>
        ensures { Comes tree_of result self.new (ticked (by_answer (made (TText text.now))) self.old) }
    {
        self.tick()?;
        let value = Value::Text(text.copy()?);
        if !value.is_small() {
            return Err(Stop::Fault(FaultKind::Big));
        }
        Ok(value)
    }

    // The value of a name.
    fn name(&mut self, name: &Text, names: &Names) -> Result<Value, Stop>
        ensures { Comes tree_of result self.new (value_of (TName 0 0 name.now) names.now self.old) }
    {
        self.tick()?;
        match names.get(name.as_str()) {
            Some(value) => Ok(value.copy()?),
            None => Err(Stop::Fault(FaultKind::Unknown)),
        }
    }

    // A comparison.
    #[cycle(value)]
    fn compare(
        &mut self,
        kind: Comparison,
        a: &Expr,
        b: &Expr,
        names: &Names,
    ) -> Result<Value, Stop>
        ensures { Comes tree_of result self.new (value_of (TCompare 0 0 kind a.now b.now) names.now self.old) }
    {
        self.tick()?;
        let a = self.value(a, names)?;
        let b = self.value(b, names)?;
        self.binary(comparison(kind), a, b)
    }

    // A prefix operator.
    #[cycle(value)]
    fn prefixed(&mut self, kind: Prefix, a: &Expr, names: &Names) -> Result<Value, Stop>
        ensures { Comes tree_of result self.new (value_of (TPrefix 0 0 kind a.now) names.now self.old) }
    {
        self.tick()?;
        let a = self.value(a, names)?;
        self.unary(prefix(kind), &a)
    }

    // A chain of projections.
    #[cycle(value)]
    fn project(&mut self, a: &Expr, indices: &[Index], names: &Names) -> Result<Value, Stop>
        ensures { Comes tree_of result self.new (value_of (TProject 0 0 a.now indices.now) names.now self.old) }
    {
        self.tick()?;
        let a = self.value(a, names)?;
        self.projected(a, indices)
    }

    // Projections, one after another.
    fn projected(&mut self, value: Value, indices: &[Index]) -> Result<Value, Stop>
        ensures { Comes tree_of result self.new (spec_projected indices.now (tree_of value) self.old) }
    {
        let mut value = value;
        for one in indices {
            value = self.item(one.number, &value)?;
        }
        Ok(value)
    }
}
