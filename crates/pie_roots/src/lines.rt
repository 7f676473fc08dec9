//! The lines of a text, one after another.
ghost use Rattle.std.specs.Prelude.{◌≡◌, ◌∷◌, [], MatchOption};
ghost use Rattle.pie_roots.specs.Lines.{texts};

use std::marker::Model;

/// The lines that are left. Contracts see the list of their texts.
pub(crate) struct Lines<'a> {
    rest: Option<&'a str>,
}

impl<'a> Model for Lines<'a> {
    ghost use Rattle.std.specs.Prelude.{List, ℕ};

    ghost Value = { List (List ℕ) };

    ghost use Rattle.pie_roots.specs.Lines.{texts_left};

    ghost view = { λ l. texts_left l.rest };
}

impl Drop for Lines<'_> {
    fn drop(self) {
        let Lines { rest: _ } = self;
    }
}

impl<'a> Lines<'a> {
    pub(crate) fn new(text: &'a str) -> Lines<'a>
        ensures { result ≡ texts text.now }
    {
        Lines { rest: Some(text) }
    }

    /// The text of the next line.
    pub(crate) fn next_line(&mut self) -> Option<&'a str>
        ensures { MatchOption result (self.old ≡ []) (λ text. self.old ≡ text.now ∷ self.new) }
    {
        let rest = self.rest?;
        match rest.split_once('\n') {
            Some((line, after)) => {
                self.rest = Some(after);
                Some(line)
            }
            None => {
                self.rest = None;
                Some(rest)
            }
        }
    }
}
