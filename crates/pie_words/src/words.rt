//! Reading the arguments of a command line.
ghost use Rattle.std.specs.Prelude.{◌≡◌, ◌≢◌, List, ℕ, [], ◌∷◌, codes, true, false, length, Err, IfOk};
ghost use Rattle.clap.specs.Words.{kind_of};
ghost use Rattle.pie_words.specs.Commands.{words_of, texts_of, usage_text, is_allowed};
ghost use Rattle.pie_words.specs.inner.Commands.{IsCommand, IsPlain, is_plain};
ghost use Rattle.pie_words.specs.declared.command.Command.{Command};

use crate::Command;
use crate::demo::demo;
use crate::grammar::take_apart;
use clap::error::ErrorKind;
use std::alloc::Global;
use thiserror::Error;

/// Why words are refused.
#[derive(Clone, Copy, Debug, PartialEq, Eq, Error)]
pub enum WordsFault {
    /// They are no command.
    #[error("the words are no command")]
    Usage,
    /// They are a command, and there was no memory to take them apart.
    #[error("out of memory")]
    OutOfMemory,
}

impl From<clap::Error> for WordsFault {
    ghost use Rattle.clap.specs.declared.error.kind.ErrorKind.TheVariants as kinds;
    ghost use Rattle.pie_words.specs.declared.words.WordsFault.TheVariants as faults;

    ghost from_gives = { λ error fault. kind_of error ≡ kinds.OutOfMemory → fault ≡ faults.OutOfMemory };

    fn from(error: clap::Error) -> WordsFault {
        match error.kind() {
            ErrorKind::OutOfMemory => WordsFault::OutOfMemory,
            _ => WordsFault::Usage,
        }
    }
}

/// What is printed where the words are no command: the commands.
pub const USAGE: &str =
    "usage: pie check, fresh [--json], build [--json], replay [--json], demo SEED SIZE, topdown [--json], scan, auto, cached\n";

/// What the arguments of a command line, without the program's name, ask for.
pub fn read_words(alloc: Global, words: &[String]) -> Result<Command, WordsFault>
    ensures accepted { IfOk result (λ command. texts_of words.now ≡ words_of command) }
    ensures allowed { IfOk result (λ command. is_allowed command ≡ true) }
    ensures refused { result ≡ Err WordsFault.Usage → (command : Command) → is_allowed command ≡ true → texts_of words.now ≢ words_of command }
    ensures memory { result ≡ Err WordsFault.OutOfMemory → IsCommand (texts_of words.now) }
{
    match words {
        [first, seed, size] => demo(first.as_str(), seed.as_str(), size.as_str()),
        _ => at_most_two(alloc, words),
    }
}

// What words ask for that aren't three.
fn at_most_two(alloc: Global, words: &[String]) -> Result<Command, WordsFault>
    requires { length words.now ≢ 3 }
    ensures accepted { IfOk result (λ command. texts_of words.now ≡ words_of command) }
    ensures allowed { IfOk result (λ command. is_allowed command ≡ true) }
    ensures refused { result ≡ Err WordsFault.Usage → (command : Command) → is_allowed command ≡ true → texts_of words.now ≢ words_of command }
    ensures memory { result ≡ Err WordsFault.OutOfMemory → IsCommand (texts_of words.now) }
{
    if is_command(words) {
        take_apart(alloc, words)
    } else {
        Err(WordsFault::Usage)
    }
}

// Whether these are the words of a command without numbers.
fn is_command(words: &[String]) -> bool
    ensures accepted { result ≡ true → IsPlain (texts_of words.now) }
    ensures refused { result ≡ false → (command : Command) → is_plain command ≡ true → texts_of words.now ≢ words_of command }
{
    match words {
        [word] => one_word(word.as_str()),
        [first, second] => two_words(first.as_str(), second.as_str()),
        _ => false,
    }
}

fn one_word(word: &str) -> bool
    ensures accepted { result ≡ true → IsPlain (word.now ∷ []) }
    ensures refused { result ≡ false → (command : Command) → is_plain command ≡ true → (word.now ∷ []) ≢ words_of command }
{
    match word {
        "check" => true,
        "fresh" => true,
        "build" => true,
        "replay" => true,
        "topdown" => true,
        "scan" => true,
        "auto" => true,
        "cached" => true,
        _ => false,
    }
}

fn two_words(first: &str, second: &str) -> bool
    ensures accepted { result ≡ true → IsPlain (first.now ∷ second.now ∷ []) }
    ensures refused { result ≡ false → (command : Command) → is_plain command ≡ true → (first.now ∷ second.now ∷ []) ≢ words_of command }
{
    match (first, second) {
        ("fresh", "--json") => true,
        ("build", "--json") => true,
        ("replay", "--json") => true,
        ("topdown", "--json") => true,
        _ => false,
    }
}
