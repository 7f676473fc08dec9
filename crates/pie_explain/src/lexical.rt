//! Characters that begin no token.

/// The usual cause where the character at a place of a text begins no token.
pub(crate) fn hint_of_char(text: &str, place: usize) -> &'static str {
    match text.get(place..) {
        Some(rest) => hint_of(rest.chars().next()),
        None => OTHER,
    }
}

const OTHER: &str =
    "names have ASCII letters, digits and `_`, and texts stand between double quotes; docs/LANGUAGE.md has all tokens";

fn hint_of(c: Option<char>) -> &'static str {
    match c {
        Some('\'') => "texts stand between double quotes",
        Some('\u{201c}') | Some('\u{201d}') | Some('\u{201e}') | Some('\u{ab}') | Some('\u{bb}') =>
            { "texts stand between plain double quotes, `\"`" }
        Some('&') => "and is `&&`",
        Some('|') => "or is `||`",
        Some('#') => "a comment begins with `//`",
        Some('\u{feff}') => "it is a byte order mark: store the file as UTF-8 without one",
        Some('\u{a0}') => "it is a space that doesn't break: write a plain one",
        Some('_') => "a name begins with a letter",
        Some(c) if c.is_alphabetic() => "names have ASCII letters, digits and `_`",
        _ => OTHER,
    }
}
