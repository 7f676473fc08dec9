//! The help for each command.

/// The help for a command, with an example, if it is one.
pub(crate) fn help_of(command: &str) -> Option<&'static str> {
    match command {
        "check" => Some(CHECK),
        "why" => Some(WHY),
        "tasks" => Some(TASKS),
        "who" => Some(WHO),
        "graph" => Some(GRAPH),
        "store" => Some(STORE),
        "doctor" => Some(DOCTOR),
        "help" => Some(HELP),
        _ => None,
    }
}

const CHECK: &str = "pie-inspect check

The first refusal of pie.pipeline and pie.roots, the one that `pie check` tells: its line and column from 1, what was expected and found, and a hint.
It ends with 0 where nothing is refused, and with 1 where something is.

    $ pie-inspect check
    pie.pipeline:2:10: expected text, found text?
            trim(read(path(\"a\")))
                 ^
    hint: it may be null: `get(..)` fails where it is, or ask `is_null(..)` first
";

const WHY: &str = "pie-inspect why [--json], pie-inspect why TASK

Which tasks of the last accepted build `pie build` would run first, for which reasons, and which may follow. The input lists the paths that may have changed, one a
line, as for `pie build`; what it doesn't list isn't looked at. No function of the pipeline is run. With --json it is one line of JSON.

    $ pie-inspect why <changed
    runs page(path(\"src/a\"))
      read src/a, which changed
    may run site()
    kept 3

With TASK, as `tasks` prints it: what it read, required and wrote, in order, and which of it isn't now as it was. It ends with 1 where no task is printed so.

    $ pie-inspect why 'site()'
    site()
      its function site
      listed src
      required page(path(\"src/a\"))
";

const TASKS: &str = "pie-inspect tasks [PREFIX]

The tasks of the last accepted build whose printed form begins with PREFIX, a line each; what requires nothing stands first. Without PREFIX all of them.

    $ pie-inspect tasks 'page('
    page(path(\"src/a\"))
    page(path(\"src/b\"))
";

const WHO: &str = "pie-inspect who PATH

The tasks of the last accepted build that write PATH, that read it or asked whether it is there, and that list a folder above it. PATH is as a pipeline has it:
relative to the folder of the project.

    $ pie-inspect who src/a
    reads page(path(\"src/a\"))
    lists site()
";

const GRAPH: &str = "pie-inspect graph [--dot|--json]

The last accepted build as a graph for Graphviz: a task points to what it requires and what it wrote; what it read or listed points to it, dashed. With --json it is one
line of JSON, in which each task has what it lists, reads, requires and writes.

    $ pie-inspect graph | dot -Tsvg >graph.svg
";

const STORE: &str = "pie-inspect store

The version and the size of .pie/store, how many functions, roots, tasks, observations and writes it has, the five largest records with their bytes and tasks,
and each function with its digest: a task runs again where the digest of its function is another.

    $ pie-inspect store
    version 2
    bytes 875
    functions 3
    roots 1
    tasks 5
    observations 11
    writes 3
    largest 172 site()
    largest 148 page(path(\"src/a\"))
    ...
    function fdbc8d13595cad43875d2498f79c52538c246d421270713bcee18ba36938f160 page
    ...
";

const DOCTOR: &str = "pie-inspect doctor

What in this folder `pie` would answer `files fault` to, and entries that no task sees: a line each, with the place, the reason and what to do. It ends with 0 and
`ok` where nothing is found, and with 1 where something is. It only looks: it lists, asks for rights, and opens files to be read.

    $ pie-inspect doctor
    out: a link, and none is followed here: each build fails; put a folder in its place
    src/big: this user may not read it: give the right (`chmod u+r`), or make it the user's own

Whether files can be made in a folder is judged by its rights and its owner. No look tells an access list, a disk that is full or mounted to be read alone, and
whether another build is at work. What stands behind a link to a folder isn't looked at.
";

const HELP: &str = "pie-inspect help [COMMAND]

More about a command, with an example; without one, all commands. `pie-inspect COMMAND --help` tells the same.

    $ pie-inspect help who
";
