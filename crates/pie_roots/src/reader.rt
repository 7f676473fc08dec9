//! A reader of values and tasks over the tokens of a line, which goes once from the left.
ghost use Rattle.std.specs.Prelude.{◌≡◌, ◌<◌, ◌-◌, ◌∷◌, [], length, drop};
ghost use Rattle.pie_value.specs.Values.{tree_of};
ghost use Rattle.pie_roots.specs.inner.Agreement.{RootsAgree, Says};
ghost use Rattle.pie_roots.specs.Kinds.{kinds_of};
ghost use Rattle.pie_roots.specs.inner.Leads.{starts};
ghost use Rattle.pie_roots.specs.inner.Reading as reads;
ghost use Rattle.pie_roots.specs.inner.Reading.{value_within};

use crate::fault::RootFault;
use crate::lead::{Lead, Sign, is, lead_in};
use hex::FromHexError;
use pie_base::{MAX_DEPTH, Path, PathError, Text};
use pie_lexer::{Token, TokenKind};
use pie_value::{Blob, Items, Task, Value};
use std::alloc::Global;
use std::marker::Model;

// The tokens that are left. Contracts see the list of their kinds.
#[derive(Drop)]
pub struct Reader<'a> {
    rest: &'a [Token],
}

impl<'a> Model for Reader<'a> {
    ghost use Rattle.std.specs.Prelude.{List};
    ghost use Rattle.pie_lexer.specs.declared.token.TokenKind.{TokenKind};

    ghost Value = { List TokenKind };

    ghost use Rattle.pie_roots.specs.Kinds.{kinds_of};

    ghost view = { λ r. kinds_of r.rest.now };
}

impl<'a> Reader<'a> {
    // The task that the tokens are, all of them.
    pub fn task(alloc: Global, tokens: &'a [Token]) -> Result<Task, RootFault>
        ensures { RootsAgree (λ t. t) result [] (reads.task_of (kinds_of tokens.now)) }
    {
        let mut reader = Reader { rest: tokens };
        let func = reader.name()?;
        reader.want(Sign::OpenRound)?;
        let args = reader.items(alloc, MAX_DEPTH, Sign::CloseRound)?;
        if reader.left() > 0 {
            return Err(RootFault::Bad);
        }
        Ok(Task { func, args })
    }

    // How many tokens are left.
    fn left(&self) -> usize
        ensures { result ≡ length self.now }
    {
        self.rest.len()
    }

    // Whether this token is next.
    fn at(&self, sign: Sign) -> bool
        ensures { result ≡ starts sign self.now }
    {
        match self.rest {
            [token, ..] => is(sign, &token.kind),
            [] => false,
        }
    }

    // Goes past the next token.
    fn pass(&mut self)
        ensures { self.new ≡ drop 1 self.old }
    {
        if let [_, rest @ ..] = self.rest {
            self.rest = rest;
        }
    }

    // Goes past this token.
    fn want(&mut self, sign: Sign) -> Result<(), RootFault>
        ensures { RootsAgree (λ _. reads.done) result self.new (reads.want sign self.old) }
    {
        if !self.at(sign) {
            return Err(RootFault::Bad);
        }
        self.pass();
        Ok(())
    }

    // A name.
    fn name(&mut self) -> Result<Text, RootFault>
        ensures { RootsAgree (λ w. w) result self.new (reads.name self.old) }
    {
        let [token, rest @ ..] = self.rest else {
            return Err(RootFault::Bad);
        };
        let TokenKind::Name(text) = &token.kind else {
            return Err(RootFault::Bad);
        };
        let text = text.copy()?;
        self.rest = rest;
        Ok(text)
    }

    // A text in quotes.
    fn text(&mut self) -> Result<Text, RootFault>
        ensures { RootsAgree (λ w. w) result self.new (reads.text self.old) }
    {
        let [token, rest @ ..] = self.rest else {
            return Err(RootFault::Bad);
        };
        let TokenKind::Text(text) = &token.kind else {
            return Err(RootFault::Bad);
        };
        let text = text.copy()?;
        self.rest = rest;
        Ok(text)
    }

    // Digits that say a number above zero.
    fn above_zero(&mut self) -> Result<i64, RootFault>
        ensures { RootsAgree (λ n. n) result self.new (reads.below_zero self.old) }
    {
        let [token, rest @ ..] = self.rest else {
            return Err(RootFault::Bad);
        };
        let TokenKind::Int(n) = &token.kind else {
            return Err(RootFault::Bad);
        };
        let n = negated(*n)?;
        self.rest = rest;
        Ok(n)
    }

    // A text in round brackets.
    fn text_inside(&mut self) -> Result<Text, RootFault>
        ensures { RootsAgree (λ w. w) result self.new (reads.text_inside self.old) }
    {
        self.want(Sign::OpenRound)?;
        let text = self.text()?;
        self.want(Sign::CloseRound)?;
        Ok(text)
    }

    // What the next token says of the value that begins with it.
    fn lead(&mut self) -> Result<Lead, RootFault>
        ensures { RootsAgree (λ l. l) result self.new (reads.lead self.old) }
    {
        let [token, rest @ ..] = self.rest else {
            return Err(RootFault::Bad);
        };
        let lead = lead_in(&token.kind)?;
        self.rest = rest;
        Ok(lead)
    }

    // A value that nests at most so deep.
    #[cycle(reading)]
    #[tactic(auto, using(crate::proofs::Turns::value_goes, crate::proofs::Turns::value_stops))]
    fn value(&mut self, alloc: Global, depth: u32) -> Result<Value, RootFault>
        ensures { RootsAgree tree_of result self.new (value_within depth self.old) }
    {
        if depth == 0 {
            return Err(RootFault::Bad);
        }
        let lead = self.lead()?;
        self.led(alloc, lead, depth - 1)
    }

    // The rest of a value that begins so, with items that nest at most so deep.
    #[cycle(reading)]
    fn led(&mut self, alloc: Global, lead: Lead, depth: u32) -> Result<Value, RootFault>
        ensures { RootsAgree tree_of result self.new (reads.value_by (value_within depth) lead self.old) }
    {
        match lead {
            Lead::Unit => Ok(Value::Unit),
            Lead::Bool(b) => Ok(Value::Bool(b)),
            Lead::Int(n) => Ok(Value::Int(n)),
            Lead::Minus => {
                let n = self.above_zero()?;
                Ok(Value::Int(n))
            }
            Lead::Text(text) => Ok(Value::Text(text)),
            Lead::Path => {
                let path = self.path(alloc)?;
                Ok(Value::Path(path))
            }
            Lead::List => {
                let items = self.items(alloc, depth, Sign::CloseSquare)?;
                Ok(Value::List(items))
            }
            Lead::Tuple => {
                let items = self.items(alloc, depth, Sign::CloseRound)?;
                let value = tuple(items)?;
                Ok(value)
            }
            Lead::Null => Ok(Value::Null),
            Lead::Bytes => {
                let blob = self.blob(alloc)?;
                Ok(Value::Bytes(blob))
            }
        }
    }

    // The path that a text in round brackets spells.
    fn path(&mut self, alloc: Global) -> Result<Path, RootFault>
        ensures { RootsAgree (λ p. p) result self.new (reads.path self.old) }
    {
        let text = self.text_inside()?;
        let path = spelled_path(alloc, text.as_str())?;
        Ok(path)
    }

    // The bytes that the digits in round brackets say.
    fn blob(&mut self, alloc: Global) -> Result<Blob, RootFault>
        ensures { RootsAgree (λ b. b) result self.new (reads.blob self.old) }
    {
        let text = self.text_inside()?;
        let blob = spelled_bytes(alloc, text.as_str())?;
        Ok(blob)
    }

    // Items that nest at most so deep, up to the bracket that closes them.
    #[cycle(reading)]
    fn items(&mut self, alloc: Global, depth: u32, close: Sign) -> Result<Items, RootFault>
        ensures { RootsAgree (λ ts. ts) result self.new (reads.items (value_within depth) close self.old) }
    {
        if self.at(close) {
            self.pass();
            return Ok(Items::new());
        }
        let items = self.listed(alloc, depth)?;
        self.want(close)?;
        Ok(items)
    }

    // value { "," value }
    #[cycle(reading)]
    #[tactic(auto, using(crate::proofs::Turns::one_more, crate::proofs::Turns::one_fails, crate::proofs::Turns::one_stops, crate::proofs::Turns::none_left))]
    fn listed(&mut self, alloc: Global, depth: u32) -> Result<Items, RootFault>
        ensures { RootsAgree (λ ts. ts) result self.new (reads.listed (value_within depth) self.old) }
    {
        let mut items = Items::new();
        let first = self.value(alloc, depth)?;
        items.push(alloc, first)?;
        for _ in 0..self.left() {
            if !self.at(Sign::Comma) {
                return Ok(items);
            }
            self.pass();
            let value = self.value(alloc, depth)?;
            items.push(alloc, value)?;
        }
        Ok(items)
    }
}

// A number above zero, below zero.
fn negated(n: i64) -> Result<i64, RootFault>
    ensures { Says (λ m. m) result (reads.negated n) }
{
    if n <= 0 {
        return Err(RootFault::Bad);
    }
    Ok(-n)
}

// A tuple has two items or more.
fn tuple(items: Items) -> Result<Value, RootFault>
    ensures { Says tree_of result (reads.tuple items) }
{
    if items.as_slice().len() < 2 {
        return Err(RootFault::Bad);
    }
    Ok(Value::Tuple(items))
}

// The path that a text spells.
fn spelled_path(alloc: Global, text: &str) -> Result<Path, RootFault>
    ensures { Says (λ p. p) result (reads.spelled_path text.now) }
{
    match Path::read(alloc, text) {
        Ok(path) => Ok(path),
        Err(PathError::OutOfMemory) => Err(RootFault::OutOfMemory),
        Err(_) => Err(RootFault::Bad),
    }
}

// The bytes that lower-case hexadecimal digits say, two digits each.
fn spelled_bytes(alloc: Global, text: &str) -> Result<Blob, RootFault>
    ensures { Says (λ b. b) result (reads.spelled_bytes text.now) }
{
    let bytes = match hex::decode(alloc, text) {
        Ok(bytes) => bytes,
        Err(FromHexError::OutOfMemory) => return Err(RootFault::OutOfMemory),
        Err(_) => return Err(RootFault::Bad),
    };
    let digits = hex::encode(alloc, bytes.as_slice())?;
    if digits.as_str() != text {
        return Err(RootFault::Bad);
    }
    let blob = Blob::shared(alloc, bytes)?;
    Ok(blob)
}
