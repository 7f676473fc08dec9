//! The value of a block, and of a choice between two.
ghost use Rattle.pie_value.specs.Values.{tree_of};
ghost use Rattle.pie_parser.specs.Plain.{AnElse, NoElse, TIf};
ghost use Rattle.pie_parser.specs.TreeView.{block_of, last_of, lines_of};
ghost use Rattle.pie_semantics.specs.Meaning.{block_value, last_value, value_of};
ghost use Rattle.pie_semantics_program.specs.Coming.{Comes, same};
ghost use Rattle.pie_semantics_program.specs.Lines.{behind_line, behind_lines};

use crate::Evaluator;
use crate::names::Names;
use crate::operating::truth;
use crate::stop::Stop;
use pie_parser::{Block, Expr, Line};
use pie_value::Value;

impl Evaluator {
    // `if c {..}`
    #[cycle(value)]
    pub(crate) fn alone(&mut self, test: &Expr, then: &Block, names: &Names) -> Result<Value, Stop>
        ensures { Comes tree_of result self.new (value_of (TIf 0 0 test.now (block_of then.now) NoElse) names.now self.old) }
    {
        self.tick()?;
        let test = self.value(test, names)?;
        if truth(&test)? {
            self.block(then, names)
        } else {
            Ok(Value::Unit)
        }
    }

    // `if c {..} else {..}`
    #[cycle(value)]
    pub(crate) fn choice(
        &mut self,
        test: &Expr,
        then: &Block,
        other: &Block,
        names: &Names,
    ) -> Result<Value, Stop>
        ensures { Comes tree_of result self.new (value_of (TIf 0 0 test.now (block_of then.now) (AnElse (block_of other.now))) names.now self.old) }
    {
        self.tick()?;
        let test = self.value(test, names)?;
        if truth(&test)? {
            self.block(then, names)
        } else {
            self.block(other, names)
        }
    }

    // A block.
    #[cycle(value)]
    #[tactic(auto, using(crate::proofs::Turning::block_is))]
    pub(crate) fn block(&mut self, block: &Block, names: &Names) -> Result<Value, Stop>
        ensures { Comes tree_of result self.new (block_value (block_of block.now) names.now self.old) }
    {
        let inner = self.lines(block.lines.as_slice(), names)?;
        self.last(&block.last, &inner)
    }

    // The names in scope behind the lines of a block.
    #[cycle(value)]
    #[tactic(auto, using(pie_types::proofs::Left::line_mass_at))]
    fn lines(&mut self, lines: &[Line], names: &Names) -> Result<Names, Stop>
        ensures { Comes same result self.new (behind_lines (lines_of lines.now) names.now self.old) }
    {
        let mut inner = names.copy(self.alloc)?;
        for line in lines {
            inner = self.line(line, inner)?;
        }
        Ok(inner)
    }

    // The names in scope behind a line.
    #[cycle(value)]
    fn line(&mut self, line: &Line, names: Names) -> Result<Names, Stop>
        ensures { Comes same result self.new (behind_line line.now names self.old) }
    {
        match line {
            Line::Val(_, _, name, value) => {
                let value = self.value(value, &names)?;
                Ok(names.with(self.alloc, &name.text, value)?)
            }
            Line::Expr(value) => {
                let _value = self.value(value, &names)?;
                Ok(names)
            }
        }
    }

    // What ends a block.
    #[cycle(value)]
    fn last(&mut self, last: &Option<Expr>, names: &Names) -> Result<Value, Stop>
        ensures { Comes tree_of result self.new (last_value (last_of last.now) names.now self.old) }
    {
        match last {
            Some(e) => self.value(e, names),
            None => Ok(Value::Unit),
        }
    }
}
