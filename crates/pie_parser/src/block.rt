//! Reading blocks.
ghost use Rattle.std.specs.Prelude.{◌≡◌, ◌<◌, [], ◌∷◌};
ghost use Rattle.pie_parser.specs.Places.{ParseAgrees};
ghost use Rattle.pie_parser.specs.ExprReading as reads;
ghost use Rattle.pie_parser.specs.ExprReading.{around};
ghost use Rattle.pie_parser.specs.TreeView.{block_of};
ghost use Rattle.pie_parser.specs.inner.Pieces.{PieceTurns, pieces_of};

use crate::error::ParseFault;
use crate::kind::{Kind, is};
use crate::reader::{Reader, Room};
use crate::{Block, Expr, Line};
use std::alloc::Global;

// A piece of a block: a line, or the expression that ends it.
#[derive(Drop)]
pub enum Piece {
    Line(Line),
    Last(Expr),
}

// The lines of a block, and the expression that ends it.
#[derive(Drop)]
pub struct Pieces {
    pub lines: Vec<Line>,
    pub last: Option<Expr>,
}

impl<'a> Reader<'a> {
    // block = "{" { "val" name "=" expr ";" | expr ";" } [ expr ] "}"
    #[cycle(expr)]
    pub fn block(&mut self, alloc: Global, room: Room) -> Result<Block, ParseFault>
        ensures { ParseAgrees block_of result self.new (reads.block (around room) self.old) }
    {
        let at = self.start();
        self.open(Kind::OpenBrace, room.brackets)?;
        let pieces = Box::new(alloc, self.pieces(alloc, room)?)?;
        self.want(Kind::CloseBrace)?;
        let end = self.past();
        let pieces = Box::into_inner(pieces);
        let lines = pieces.lines;
        let last = pieces.last;
        Ok(Block {
            at,
            end,
            lines,
            last,
        })
    }

    // { "val" name "=" expr ";" | expr ";" } [ expr ]
    #[cycle(expr)]
    #[tactic(auto, using(crate::proofs::Walks::lines_walk))]
    fn pieces(&mut self, alloc: Global, room: Room) -> Result<Pieces, ParseFault>
        requires { 0 < room.brackets }
        ensures { ParseAgrees pieces_of result self.new (reads.all_pieces (around room) self.old) }
    {
        let mut lines = Vec::new(alloc);
        for _ in 0..self.left() {
            match self.piece(alloc, room)? {
                Some(Piece::Line(line)) => lines.push(line)?,
                Some(Piece::Last(value)) => {
                    let last = Some(value);
                    return Ok(Pieces { lines, last });
                }
                None => {
                    let last = None;
                    return Ok(Pieces { lines, last });
                }
            }
        }
        let last = None;
        Ok(Pieces { lines, last })
    }

    // A line of a block, or the expression that ends it; nothing at its closing brace.
    #[cycle(expr)]
    fn piece(&mut self, alloc: Global, room: Room) -> Result<Option<Piece>, ParseFault>
        requires { 0 < room.brackets }
        ensures { PieceTurns result self.old self.new (reads.piece (around room) self.old) }
    {
        match self.peek() {
            Kind::CloseBrace => Ok(None),
            Kind::Val => {
                let line = self.val(alloc, room)?;
                Ok(Some(Piece::Line(line)))
            }
            _ => {
                let value = self.inner(alloc, room, false)?;
                if is(self.peek(), Kind::Semicolon) {
                    self.pass();
                    return Ok(Some(Piece::Line(Line::Expr(value))));
                }
                Ok(Some(Piece::Last(value)))
            }
        }
    }

    // "val" name "=" expr ";"
    #[cycle(expr)]
    fn val(&mut self, alloc: Global, room: Room) -> Result<Line, ParseFault>
        requires { 0 < room.brackets }
        ensures { ParseAgrees (λ l. l) result self.new (reads.val (around room) self.old) }
    {
        let at = self.start();
        self.want(Kind::Val)?;
        let name = self.name()?;
        self.want(Kind::Assign)?;
        let value = Box::new(alloc, self.inner(alloc, room, false)?)?;
        self.want(Kind::Semicolon)?;
        let end = self.past();
        Ok(Line::Val(at, end, name, Box::into_inner(value)))
    }
}
