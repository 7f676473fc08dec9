//! Reading chains of operators, comparisons, prefixes and projections.
ghost use Rattle.std.specs.Prelude.{◌≡◌, ◌<◌, [], ◌∷◌};
ghost use Rattle.pie_parser.specs.Places.{ParseAgrees};
ghost use Rattle.pie_parser.specs.ExprReading as reads;
ghost use Rattle.pie_parser.specs.ExprReading.{around};
ghost use Rattle.pie_parser.specs.Tests.{operator_at, comparison_at, prefix_at};
ghost use Rattle.pie_parser.specs.inner.Turns.{Turns, all_behind};

use crate::error::ParseFault;
use crate::kind::{Kind, is};
use crate::reader::{Reader, Room};
use crate::{Comparison, Expr, Form, Index, Operator, Prefix, Step};
use std::alloc::Global;

// The levels of operators, the loosest first.
#[derive(Clone, Copy, Debug, PartialEq, Eq)]
pub enum Level {
    Or,
    And,
    Sum,
    Product,
}

impl<'a> Reader<'a> {
    // expr = and { "||" and }
    #[cycle(expr)]
    pub fn expr(&mut self, alloc: Global, room: Room) -> Result<Expr, ParseFault>
        ensures { ParseAgrees (λ t. t) result self.new (reads.expr (around room) self.old) }
    {
        self.chain(alloc, room, Level::Or)
    }

    // An expression inside a bracket; a `read` may stand around it.
    #[cycle(expr)]
    pub fn inner(&mut self, alloc: Global, room: Room, in_read: bool) -> Result<Expr, ParseFault>
        requires { 0 < room.brackets }
        ensures { ParseAgrees (λ t. t) result self.new (reads.inner_at room.brackets room.conditions in_read self.old) }
    {
        let brackets = room.brackets - 1;
        let conditions = room.conditions;
        self.expr(
            alloc,
            Room {
                brackets,
                conditions,
                in_read,
            },
        )
    }

    // The test of a condition.
    #[cycle(expr)]
    pub fn test(&mut self, alloc: Global, room: Room) -> Result<Expr, ParseFault>
        requires { 0 < room.conditions }
        ensures { ParseAgrees (λ t. t) result self.new (reads.test_at room.brackets room.conditions self.old) }
    {
        let brackets = room.brackets;
        let conditions = room.conditions - 1;
        self.expr(
            alloc,
            Room {
                brackets,
                conditions,
                in_read: false,
            },
        )
    }

    // operand { operator operand }
    #[cycle(expr)]
    fn chain(&mut self, alloc: Global, room: Room, level: Level) -> Result<Expr, ParseFault>
        ensures { ParseAgrees (λ t. t) result self.new (reads.chain_of (reads.operand (around room) level) level self.old) }
    {
        let at = self.start();
        let first = Box::new(alloc, self.operand(alloc, room, level)?)?;
        let steps = self.steps(alloc, room, level)?;
        if steps.is_empty() {
            return Ok(Box::into_inner(first));
        }
        let end = self.past();
        let form = Form::Chain(first, steps);
        Ok(Expr { at, end, form })
    }

    // { operator operand }
    #[cycle(expr)]
    #[tactic(auto, using(crate::proofs::Turning::goes_on, crate::proofs::Turning::stops, crate::proofs::Turning::fails, crate::proofs::Turning::runs_out))]
    fn steps(&mut self, alloc: Global, room: Room, level: Level) -> Result<Vec<Step>, ParseFault>
        ensures { ParseAgrees (λ v. v.items) result self.new (all_behind [] (reads.another_step (reads.operand (around room) level) level) self.old) }
    {
        let mut steps = Vec::new(alloc);
        for _ in 0..self.left() {
            let Some(step) = self.another_step(alloc, room, level)? else {
                return Ok(steps);
            };
            steps.push(step)?;
        }
        Ok(steps)
    }

    // operator operand
    #[cycle(expr)]
    fn another_step(
        &mut self,
        alloc: Global,
        room: Room,
        level: Level,
    ) -> Result<Option<Step>, ParseFault>
        ensures { Turns result self.old self.new (reads.another_step (reads.operand (around room) level) level self.old) }
    {
        let Some(operator) = operator_of(level, self.peek()) else {
            return Ok(None);
        };
        self.pass();
        let operand = self.operand(alloc, room, level)?;
        Ok(Some(Step { operator, operand }))
    }

    // What the operators of a level stand between.
    #[cycle(expr)]
    fn operand(&mut self, alloc: Global, room: Room, level: Level) -> Result<Expr, ParseFault>
        ensures { ParseAgrees (λ t. t) result self.new (reads.operand (around room) level self.old) }
    {
        match level {
            Level::Or => self.chain(alloc, room, Level::And),
            Level::And => self.comparison(alloc, room),
            Level::Sum => self.chain(alloc, room, Level::Product),
            Level::Product => self.prefixed(alloc, room),
        }
    }

    // cmp = add [ ("==" | "!=" | "<" | "<=" | ">" | ">=") add ]
    #[cycle(expr)]
    fn comparison(&mut self, alloc: Global, room: Room) -> Result<Expr, ParseFault>
        ensures { ParseAgrees (λ t. t) result self.new (reads.comparison (around room) self.old) }
    {
        let at = self.start();
        let left = Box::new(alloc, self.chain(alloc, room, Level::Sum)?)?;
        let Some(comparison) = comparison_of(self.peek()) else {
            return Ok(Box::into_inner(left));
        };
        self.pass();
        let right = Box::new(alloc, self.chain(alloc, room, Level::Sum)?)?;
        let end = self.past();
        let form = Form::Compare(comparison, left, right);
        Ok(Expr { at, end, form })
    }

    // prefix = [ "!" | "-" ] proj
    #[cycle(expr)]
    fn prefixed(&mut self, alloc: Global, room: Room) -> Result<Expr, ParseFault>
        ensures { ParseAgrees (λ t. t) result self.new (reads.prefixed (around room) self.old) }
    {
        let Some(prefix) = prefix_of(self.peek()) else {
            return self.projected(alloc, room);
        };
        let at = self.start();
        self.pass();
        let operand = Box::new(alloc, self.projected(alloc, room)?)?;
        let end = self.past();
        let form = Form::Prefix(prefix, operand);
        Ok(Expr { at, end, form })
    }

    // proj = prim { "." int }
    #[cycle(expr)]
    fn projected(&mut self, alloc: Global, room: Room) -> Result<Expr, ParseFault>
        ensures { ParseAgrees (λ t. t) result self.new (reads.projected (around room) self.old) }
    {
        let at = self.start();
        let tuple = Box::new(alloc, self.primary(alloc, room)?)?;
        let indices = self.indices(alloc)?;
        if indices.is_empty() {
            return Ok(Box::into_inner(tuple));
        }
        let end = self.past();
        let form = Form::Project(tuple, indices);
        Ok(Expr { at, end, form })
    }

    // { "." int }
    #[tactic(auto, using(crate::proofs::Turning::goes_on, crate::proofs::Turning::stops, crate::proofs::Turning::fails, crate::proofs::Turning::runs_out))]
    fn indices(&mut self, alloc: Global) -> Result<Vec<Index>, ParseFault>
        ensures { ParseAgrees (λ v. v.items) result self.new (reads.indices self.old) }
    {
        let mut indices = Vec::new(alloc);
        for _ in 0..self.left() {
            let Some(index) = self.another_index()? else {
                return Ok(indices);
            };
            indices.push(index)?;
        }
        Ok(indices)
    }

    // "." int
    fn another_index(&mut self) -> Result<Option<Index>, ParseFault>
        ensures { Turns result self.old self.new (reads.another_index self.old) }
    {
        if !is(self.peek(), Kind::Dot) {
            return Ok(None);
        }
        self.pass();
        let index = self.index()?;
        Ok(Some(index))
    }
}

// The operator of a level that is this token.
fn operator_of(level: Level, kind: Kind) -> Option<Operator>
    ensures { result ≡ operator_at level kind }
{
    match (level, kind) {
        (Level::Or, Kind::Or) => Some(Operator::Or),
        (Level::And, Kind::And) => Some(Operator::And),
        (Level::Sum, Kind::Plus) => Some(Operator::Plus),
        (Level::Sum, Kind::Minus) => Some(Operator::Minus),
        (Level::Product, Kind::Star) => Some(Operator::Times),
        (Level::Product, Kind::Slash) => Some(Operator::Divide),
        (Level::Product, Kind::Percent) => Some(Operator::Remainder),
        _ => None,
    }
}

// The comparison that is this token.
fn comparison_of(kind: Kind) -> Option<Comparison>
    ensures { result ≡ comparison_at kind }
{
    match kind {
        Kind::Equal => Some(Comparison::Equal),
        Kind::NotEqual => Some(Comparison::NotEqual),
        Kind::Less => Some(Comparison::Less),
        Kind::LessEqual => Some(Comparison::LessEqual),
        Kind::Greater => Some(Comparison::Greater),
        Kind::GreaterEqual => Some(Comparison::GreaterEqual),
        _ => None,
    }
}

// The prefix operator that is this token.
fn prefix_of(kind: Kind) -> Option<Prefix>
    ensures { result ≡ prefix_at kind }
{
    match kind {
        Kind::Not => Some(Prefix::Not),
        Kind::Minus => Some(Prefix::Minus),
        _ => None,
    }
}
