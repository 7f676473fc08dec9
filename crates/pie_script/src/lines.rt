//! The lines of an input, one after another.
ghost use Rattle.std.specs.Prelude.{◌≡◌, ◌∷◌, [], MatchOption};
ghost use Rattle.std.specs.List.{position};
ghost use Rattle.pie_script.specs.Line.{is_newline, texts};

use std::marker::Model;

/// The lines that are left. Contracts see the list of their texts.
pub(crate) struct Lines<'a> {
    rest: Option<&'a [u8]>,
}

impl<'a> Model for Lines<'a> {
    ghost use Rattle.std.specs.Prelude.{List, ℕ};

    ghost Value = { List (List ℕ) };

    ghost use Rattle.pie_script.specs.Line.{texts_left};

    ghost view = { λ l. texts_left l.rest };
}

impl Drop for Lines<'_> {
    fn drop(self) {
        let Lines { rest: _ } = self;
    }
}

impl<'a> Lines<'a> {
    pub(crate) fn new(bytes: &'a [u8]) -> Lines<'a>
        ensures { result ≡ texts bytes.now }
    {
        Lines { rest: Some(bytes) }
    }

    /// The text of the next line.
    pub(crate) fn next_line(&mut self) -> Option<&'a [u8]>
        ensures { MatchOption result (self.old ≡ []) (λ text. self.old ≡ text.now ∷ self.new) }
    {
        let rest = self.rest?;
        match newline_in(rest) {
            Some(end) => {
                self.rest = Some(&rest[end + 1..]);
                Some(&rest[..end])
            }
            None => {
                self.rest = None;
                Some(rest)
            }
        }
    }
}

fn newline_in(bytes: &[u8]) -> Option<usize>
    ensures { result ≡ position is_newline bytes.now }
{
    bytes.iter().position(|b| *b == 10)
}
