//! What the words ask for.
ghost use Rattle.std.specs.Prelude.{◌≡◌, Some, codes, map, string_bytes};
ghost use Rattle.pie_inspect_cli.specs.Checked.{check_words};
ghost use Rattle.pie_inspect_cli.specs.declared.request.Request.TheVariants.{Check};

use crate::help::help_of;

/// What a command line asks for.
#[derive(Clone, Copy)]
pub(crate) enum Request<'a> {
    /// `check`: the first refusal of the project, as a person wants it.
    Check,
    /// `tasks [PREFIX]`: the tasks of the last build whose printed form begins so.
    Tasks(&'a str),
    /// `who PATH`: the tasks of the last build that write, read or list a path.
    Who(&'a str),
    /// `graph`, `graph --dot`: the last build as a graph for Graphviz. `graph --json`: as JSON.
    Graph(bool),
    /// `why`, `why --json`: what a build would run where the paths that its input lists may have changed, as lines or as JSON.
    Why(bool),
    /// `why TASK`: what a task of the last build rests on.
    WhyTask(&'a str),
    /// `store`: how large the store is.
    Store,
    /// `doctor`: what in the folder a build would fail at.
    Doctor,
    /// `help`, `--help`
    Help,
    /// `help COMMAND`, `COMMAND --help`: this text.
    HelpOf(&'static str),
    /// `--version`
    Version,
}

/// What these words ask for, if they ask for something.
pub(crate) fn request_of(words: &[String]) -> Option<Request<'_>>
    ensures check { map string_bytes words.now ≡ check_words → result ≡ Some Check }
{
    match words.len() {
        1 => of_word(words[0].as_str()),
        2 => of_words(words[0].as_str(), words[1].as_str()),
        _ => None,
    }
}

fn of_word<'a>(word: &str) -> Option<Request<'a>>
    ensures check { word.now ≡ codes "check" → result ≡ Some Check }
{
    match word {
        "check" => Some(Request::Check),
        "tasks" => Some(Request::Tasks("")),
        "graph" => Some(Request::Graph(false)),
        "why" => Some(Request::Why(false)),
        "store" => Some(Request::Store),
        "doctor" => Some(Request::Doctor),
        "help" => Some(Request::Help),
        "--help" => Some(Request::Help),
        "--version" => Some(Request::Version),
        _ => None,
    }
}

fn of_words<'a>(word: &str, what: &'a str) -> Option<Request<'a>> {
    if what == "--help" {
        return help_with(word);
    }
    match word {
        "help" => help_with(what),
        "tasks" => Some(Request::Tasks(what)),
        "who" => Some(Request::Who(what)),
        "graph" => of_form(what),
        "why" => Some(why_of(what)),
        _ => None,
    }
}

// The help for a command.
fn help_with<'a>(command: &str) -> Option<Request<'a>> {
    Some(Request::HelpOf(help_of(command)?))
}

// The graph in a form: for Graphviz, or as JSON.
fn of_form<'a>(form: &str) -> Option<Request<'a>> {
    if form == "--json" {
        return Some(Request::Graph(true));
    }
    if form == "--dot" {
        return Some(Request::Graph(false));
    }
    None
}

// What `why` is asked for with one more word.
fn why_of<'a>(what: &'a str) -> Request<'a> {
    if what == "--json" {
        return Request::Why(true);
    }
    Request::WhyTask(what)
}
