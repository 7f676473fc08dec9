//! A reader over the tokens that are left.
ghost use Rattle.std.specs.Prelude.{◌≡◌, ◌<◌, length, OnOk};
ghost use Rattle.pie_parser.specs.Places as places;
ghost use Rattle.pie_parser.specs.Places.{ParseAgrees};

use crate::error::ParseFault;
use crate::kind::{Kind, is, kind_of};
use crate::{Index, Name};
use pie_lexer::{Token, TokenKind};
use std::marker::Model;

// How much may still be opened, and whether a `by mark` here belongs to a `read` around.
#[derive(Clone, Copy)]
pub struct Room {
    pub brackets: u32,
    pub conditions: u32,
    pub in_read: bool,
}

// The tokens that are left, and the end of the one before. After an error it stands where the error is.
#[derive(Drop)]
pub struct Reader<'a> {
    pub rest: &'a [Token],
    pub past: usize,
    // A `by mark` was passed that belongs to the `read` around.
    pub marked: bool,
}

impl<'a> Model for Reader<'a> {
    ghost use Rattle.pie_parser.specs.At.{At};

    ghost Value = { At };

    ghost view = { λ r. record { past = r.past; rest = r.rest.now; marked = r.marked } };
}

impl<'a> Reader<'a> {
    // The kind of the next token.
    pub fn peek(&self) -> Kind
        ensures { result ≡ places.next self.now }
    {
        if self.marked {
            return Kind::Marked;
        }
        match self.rest {
            [token, ..] => kind_of(&token.kind),
            [] => Kind::End,
        }
    }

    // Where the next token begins; behind the last token, where that one ends.
    pub fn start(&self) -> usize
        ensures { result ≡ places.start self.now }
    {
        match self.rest {
            [token, ..] => token.at,
            [] => self.past,
        }
    }

    // The end of the token before.
    pub fn past(&self) -> usize
        ensures { result ≡ self.now.past }
    {
        self.past
    }

    // How many tokens are left.
    pub fn left(&self) -> usize
        ensures { result ≡ length self.now.rest }
    {
        self.rest.len()
    }

    // Goes past the next token.
    pub fn pass(&mut self)
        ensures { self.new ≡ places.passed self.old }
    {
        if let [token, rest @ ..] = self.rest {
            self.past = token.end;
            self.rest = rest;
        }
    }

    // Goes past a token of this kind.
    pub fn want(&mut self, kind: Kind) -> Result<(), ParseFault>
        ensures { ParseAgrees (λ _. places.done) result self.new (places.want kind self.old) }
    {
        if !is(self.peek(), kind) {
            return Err(ParseFault::Expected);
        }
        self.pass();
        Ok(())
    }

    // Goes past an opening bracket of this kind, inside which there is less room.
    pub fn open(&mut self, kind: Kind, room: u32) -> Result<(), ParseFault>
        ensures opened { ParseAgrees (λ _. places.done) result self.new (places.open_bracket kind room self.old) }
        ensures room { OnOk result (0 < room) }
    {
        if !is(self.peek(), kind) {
            return Err(ParseFault::Expected);
        }
        if room == 0 {
            return Err(ParseFault::TooDeep);
        }
        self.pass();
        Ok(())
    }

    // A name.
    pub fn name(&mut self) -> Result<Name, ParseFault>
        ensures { ParseAgrees (λ n. n) result self.new (places.name self.old) }
    {
        if self.marked {
            return Err(ParseFault::Expected);
        }
        let [token, rest @ ..] = self.rest else {
            return Err(ParseFault::Expected);
        };
        let TokenKind::Name(text) = &token.kind else {
            return Err(ParseFault::Expected);
        };
        let text = text.copy()?;
        self.past = token.end;
        self.rest = rest;
        Ok(Name {
            at: token.at,
            end: token.end,
            text,
        })
    }

    // The number of a projection.
    pub fn index(&mut self) -> Result<Index, ParseFault>
        ensures { ParseAgrees (λ n. n) result self.new (places.index self.old) }
    {
        if self.marked {
            return Err(ParseFault::Expected);
        }
        let [token, rest @ ..] = self.rest else {
            return Err(ParseFault::Expected);
        };
        let TokenKind::Int(number) = &token.kind else {
            return Err(ParseFault::Expected);
        };
        self.past = token.end;
        self.rest = rest;
        Ok(Index {
            at: token.at,
            end: token.end,
            number: *number,
        })
    }
}
