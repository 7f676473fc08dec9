//! Arguments and answers by their words.
use pie_base::{OutOfMemory, Path, Text};
use pie_value::{Answer, Blob, Items, Task, Value};
use std::alloc::Global;
use std::test::Fail;

// A list of numbers up to 3.
fn numbers(alloc: Global) -> Result<Items, OutOfMemory> {
    let mut items = Items::new();
    items.push(alloc, Value::Int(1))?;
    items.push(alloc, Value::Int(2))?;
    items.push(alloc, Value::Int(3))?;
    Ok(items)
}

// A number and a text.
fn pair(alloc: Global) -> Result<Items, OutOfMemory> {
    let mut items = Items::new();
    items.push(alloc, Value::Int(1))?;
    items.push(alloc, Value::Text(Text::new(alloc, "a")?))?;
    Ok(items)
}

// An argument by its word.
fn argument(alloc: Global, word: &str) -> Result<Value, Fail> {
    match word {
        "true" => Ok(Value::Bool(true)),
        "null" => Ok(Value::Null),
        "numbers" => Ok(Value::List(numbers(alloc)?)),
        "pair" => Ok(Value::Tuple(pair(alloc)?)),
        "path" => Ok(Value::Path(Path::read(alloc, "src/a")?)),
        "text" => Ok(Value::Text(Text::new(alloc, "text")?)),
        _ => Ok(Value::Int(word.parse::<i64>().unwrap_or(0))),
    }
}

// An argument by its word, behind others.
fn add_argument(alloc: Global, word: &str, args: &mut Items) -> Result<(), Fail> {
    let value = argument(alloc, word)?;
    args.push(alloc, value)?;
    Ok(())
}

// Arguments by their words.
fn add_arguments(alloc: Global, words: &str, args: &mut Items) -> Result<(), Fail> {
    for word in words.split_whitespace() {
        add_argument(alloc, word, args)?;
    }
    Ok(())
}

// The task `main` with these arguments.
pub(crate) fn main_task(alloc: Global, words: &str) -> Result<Task, Fail> {
    let mut args = Items::new();
    add_arguments(alloc, words, &mut args)?;
    let func = Text::new(alloc, "main")?;
    Ok(Task { func, args })
}

// A file of these bytes.
fn file(alloc: Global, bytes: &[u8]) -> Result<Answer, OutOfMemory> {
    let bytes = Vec::from_slice(alloc, bytes)?;
    Ok(Answer::Bytes(Some(Blob::new(bytes))))
}

// Two entries of a directory.
fn entries(alloc: Global) -> Result<Answer, Fail> {
    let mut entries = Items::new();
    entries.push(alloc, Value::Path(Path::read(alloc, "src/a")?))?;
    entries.push(alloc, Value::Path(Path::read(alloc, "src/b")?))?;
    Ok(Answer::Entries(entries))
}

// An answer by its word.
pub(crate) fn answer(alloc: Global, word: &str) -> Result<Answer, Fail> {
    match word {
        "there" => Ok(Answer::Flag(true)),
        "missing" => Ok(Answer::Flag(false)),
        "file" => Ok(file(alloc, b"1".as_slice())?),
        "broken" => Ok(file(alloc, b"\xff".as_slice())?),
        "absent" => Ok(Answer::Bytes(None)),
        "digest" => Ok(Answer::Digest(Some([0; 32]))),
        "undigested" => Ok(Answer::Digest(None)),
        "entries" => entries(alloc),
        "wrote" => Ok(Answer::Wrote),
        "output" => Ok(Answer::Output(Value::Int(5))),
        "ran" => Ok(Answer::Ran),
        _ => Ok(Answer::Clash),
    }
}

// An answer by its word, behind others.
fn add_answer(alloc: Global, word: &str, answers: &mut Vec<Answer>) -> Result<(), Fail> {
    let answer = answer(alloc, word)?;
    answers.push(answer)?;
    Ok(())
}

// So many answers, by their words.
pub(crate) fn add_answers(
    alloc: Global,
    words: &str,
    count: usize,
    answers: &mut Vec<Answer>,
) -> Result<(), Fail> {
    for word in words.split_whitespace() {
        if answers.len() >= count {
            return Ok(());
        }
        add_answer(alloc, word, answers)?;
    }
    Ok(())
}
