//! The words of a demo.
ghost use Rattle.std.specs.Prelude.{◌≡◌, ◌≢◌, ◌<◌, ℕ, ◌^◌, ◌∷◌, [], decimal, true, None, IfSome, IfOk, IfErr, Err};
ghost use Rattle.pie_words.specs.Commands.{words_of, is_allowed};
ghost use Rattle.pie_words.specs.declared.command.Command.{Command};

use crate::{Command, WordsFault};
use itoa::Buffer;

// The most files that a demo has.
const MAX_SIZE: u64 = 1000;

/// The demo that these three words ask for.
pub(crate) fn demo(first: &str, seed: &str, size: &str) -> Result<Command, WordsFault>
    ensures accepted { IfOk result (λ command. (first.now ∷ seed.now ∷ size.now ∷ []) ≡ words_of command) }
    ensures allowed { IfOk result (λ command. is_allowed command ≡ true) }
    ensures refused { IfErr result (λ fault. (command : Command) → is_allowed command ≡ true → (first.now ∷ seed.now ∷ size.now ∷ []) ≢ words_of command) }
    ensures usage { IfErr result (λ fault. fault ≡ WordsFault.Usage) }
{
    if first != "demo" {
        return Err(WordsFault::Usage);
    }
    match (number(seed), number(size)) {
        (Some(seed), Some(size)) => of_numbers(seed, size),
        _ => Err(WordsFault::Usage),
    }
}

// The demo of these numbers.
fn of_numbers(seed: u64, size: u64) -> Result<Command, WordsFault>
    ensures accepted { IfOk result (λ command. command ≡ Command.Demo seed size) }
    ensures allowed { IfOk result (λ command. is_allowed command ≡ true) }
    ensures refused { IfErr result (λ fault. is_allowed (Command.Demo seed size) ≢ true) }
    ensures usage { IfErr result (λ fault. fault ≡ WordsFault.Usage) }
{
    if size == 0 {
        return Err(WordsFault::Usage);
    }
    if size > MAX_SIZE {
        return Err(WordsFault::Usage);
    }
    Ok(Command::Demo(seed, size as u32))
}

// The number that a word says in decimal digits, without a sign and without a zero before others.
fn number(word: &str) -> Option<u64>
    ensures said { IfSome result (λ n. word.now ≡ decimal n) }
    ensures small { IfSome result (λ n. n < 2 ^ 64) }
    ensures none { result ≡ None → (n : ℕ) → n < 2 ^ 64 → word.now ≢ decimal n }
{
    match word.parse::<u64>() {
        Ok(n) => as_written(word, n),
        Err(_) => None,
    }
}

// This number, if the word is what is written of it.
fn as_written(word: &str, n: u64) -> Option<u64>
    ensures said { IfSome result (λ m. (m ≡ n)) }
    ensures is { IfSome result (λ m. word.now ≡ decimal n) }
    ensures none { result ≡ None → word.now ≢ decimal n }
{
    let mut buffer = Buffer::new();
    let digits = buffer.format(n);
    if digits == word { Some(n) } else { None }
}
