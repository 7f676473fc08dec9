//! Cases of builds without a list: a project that is built, what changes then, and what the next build reports.
use crate::tests::GONE;

/// A build after another one.
pub(crate) struct Case {
    pub(crate) name: &'static str,
    pub(crate) before: &'static [(&'static str, &'static str)],
    pub(crate) changes: &'static [(&'static str, &'static str)],
    pub(crate) report: &'static str,
}

const SITE: &str = "func page(src: path) -> path {
  val body = get(read(src));
  val foot = require footer();
  val target = join(path(\"out\"), name(src));
  write(target, body + foot);
  target
}
func footer() -> text { trim(get(read(path(\"inc/foot\")))) }
func site() -> int { len([require page(p) for p in list(path(\"src\"))]) }
";

pub(crate) const SITE_FILES: [(&str, &str); 6] = [
    ("pie.pipeline", SITE),
    ("pie.roots", "site()\n"),
    ("src/a", "A\n"),
    ("src/b", "B\n"),
    ("src/c", "C\n"),
    ("inc/foot", "end\n"),
];

pub(crate) const SITES: [Case; 8] = [
    Case {
        name: "nothing changed",
        before: &SITE_FILES,
        changes: &[],
        report: "accepted\nlive 5\noutput site() = 3\n",
    },
    Case {
        name: "a source changed",
        before: &SITE_FILES,
        changes: &[("src/a", "AA\n")],
        report: "accepted\nran page(path(\"src/a\"))\nwrote out/a\nlive 5\noutput site() = 3\n",
    },
    Case {
        name: "an output stays the same",
        before: &SITE_FILES,
        changes: &[("inc/foot", "end")],
        report: "accepted\nran footer()\nlive 5\noutput site() = 3\n",
    },
    Case {
        name: "an output changed",
        before: &SITE_FILES,
        changes: &[("inc/foot", "fin\n")],
        report: "accepted\nran page(path(\"src/a\"))\nran page(path(\"src/b\"))\nran page(path(\"src/c\"))\nran footer()\nwrote out/a\nwrote out/b\nwrote out/c\nlive 5\noutput site() = 3\n",
    },
    Case {
        name: "a new source",
        before: &SITE_FILES,
        changes: &[("src/d", "D\n")],
        report: "accepted\nran page(path(\"src/d\"))\nran site()\nwrote out/d\nlive 6\noutput site() = 4\n",
    },
    Case {
        name: "a removed source",
        before: &SITE_FILES,
        changes: &[("src/b", GONE)],
        report: "accepted\nran site()\nremoved out/b\nlive 4\noutput site() = 2\n",
    },
    Case {
        name: "another function",
        before: &SITE_FILES,
        changes: &[(
            "pie.pipeline",
            "func page(src: path) -> path {
  val body = get(read(src));
  val foot = require footer();
  val target = join(path(\"out\"), name(src));
  write(target, body + foot);
  target
}
func footer() -> text { \"end\" }
func site() -> int { len([require page(p) for p in list(path(\"src\"))]) }
",
        )],
        report: "accepted\nran footer()\nlive 5\noutput site() = 3\n",
    },
    Case {
        name: "no roots",
        before: &SITE_FILES,
        changes: &[("pie.roots", "")],
        report: "accepted\nremoved out/a\nremoved out/b\nremoved out/c\nlive 0\n",
    },
];

pub(crate) const FILES: [Case; 6] = [
    Case {
        name: "a stray file",
        before: &SITE_FILES,
        changes: &[("out/z", "z")],
        report: "accepted\nremoved out/z\nlive 5\noutput site() = 3\n",
    },
    Case {
        name: "a file written over by hand",
        before: &SITE_FILES,
        changes: &[("out/b", "junk")],
        report: "accepted\nran page(path(\"src/b\"))\nwrote out/b\nlive 5\noutput site() = 3\n",
    },
    Case {
        name: "a file removed by hand",
        before: &SITE_FILES,
        changes: &[("out/b", GONE)],
        report: "accepted\nran page(path(\"src/b\"))\nwrote out/b\nlive 5\noutput site() = 3\n",
    },
    Case {
        name: "pending names",
        before: &SITE_FILES,
        changes: &[(".pie/pending", "?")],
        report: "accepted\nlive 5\noutput site() = 3\n",
    },
    Case {
        name: "a file of a task that isn't run is read by one that is",
        before: &[
            (
                "pie.pipeline",
                "func w() -> unit { write(path(\"out/w\"), get(read(path(\"s\")))); }
func r() -> text { run w(); get(read(path(\"out/w\"))) + get(read(path(\"t\"))) }
",
            ),
            ("pie.roots", "r()"),
            ("s", "1"),
            ("t", "2"),
        ],
        changes: &[("t", "3")],
        report: "accepted\nran r()\nlive 2\noutput r() = \"13\"\n",
    },
    Case {
        name: "a file of another task that is seen",
        before: &[
            (
                "pie.pipeline",
                "func w() -> unit { write(path(\"out/w\"), get(read(path(\"s\")))); }
func r() -> text { run w(); get(read(path(\"out/w\"))) }
",
            ),
            ("pie.roots", "r()"),
            ("s", "1"),
        ],
        changes: &[("s", "2")],
        report: "accepted\nran r()\nran w()\nwrote out/w\nlive 2\noutput r() = \"2\"\n",
    },
];

pub(crate) const CYCLES: [Case; 3] = [
    Case {
        name: "requires that turn round",
        before: &[
            (
                "pie.pipeline",
                "func a() -> int { if exists(path(\"flip\")) { 1 } else { require b() } }
func b() -> int { if exists(path(\"flip\")) { require a() } else { 2 } }
",
            ),
            ("pie.roots", "a()\nb()"),
        ],
        changes: &[("flip", "")],
        report: "accepted\nran a()\nran b()\nlive 2\noutput a() = 1\noutput b() = 1\n",
    },
    Case {
        name: "a cycle below records that stand",
        before: &[
            (
                "pie.pipeline",
                "func p() -> int { require q() }
func q() -> int { require r() }
func r() -> int { if exists(path(\"on\")) { require p() } else { 1 } }
",
            ),
            ("pie.roots", "p()"),
        ],
        changes: &[("on", "")],
        report: "refused cycle p() -> q() -> r()\nran p()\nran q()\nran r()\n",
    },
    Case {
        name: "a cycle of new tasks",
        before: &[
            (
                "pie.pipeline",
                "func p() -> int { if exists(path(\"on\")) { require q() } else { 1 } }
func q() -> int { require p() }
",
            ),
            ("pie.roots", "p()"),
        ],
        changes: &[("on", "")],
        report: "refused cycle p() -> q()\nran p()\nran q()\n",
    },
];

pub(crate) const FAULTS: [Case; 4] = [
    Case {
        name: "a fault passes up to the root",
        before: &SITE_FILES,
        changes: &[("inc/foot", GONE)],
        report: "refused fault footer(): Null\nran page(path(\"src/a\"))\nran site()\nran footer()\n",
    },
    Case {
        name: "the last checks refuse",
        before: &[
            (
                "pie.pipeline",
                "func w(n: int) -> unit { write(path(\"out/a\"), to_text(n)); }
func main() -> unit { run w(1); if exists(path(\"on\")) { run w(2); } }
",
            ),
            ("pie.roots", "main()"),
        ],
        changes: &[("on", "")],
        report: "refused overlap out/a: w(1), w(2)\nran w(2)\nran main()\n",
    },
    Case {
        name: "an observation after one that differs isn't looked at",
        before: &[
            (
                "pie.pipeline",
                "func comp(p: path) -> text { get(read(p)) }
func all() -> int { len([require comp(p) for p in list(path(\"src\"))]) }
",
            ),
            ("pie.roots", "all()"),
            ("src/a", "a"),
            ("src/b", "b"),
        ],
        changes: &[("src/b", GONE)],
        report: "accepted\nran all()\nlive 2\noutput all() = 1\n",
    },
    Case {
        name: "two writers are seen",
        before: &[
            (
                "pie.pipeline",
                "func w(n: int) -> unit { write(path(\"out/a\"), to_text(n)); }
func t() -> text? { run w(1); if exists(path(\"on\")) { run w(2); }; read(path(\"out/a\")) }
",
            ),
            ("pie.roots", "t()"),
        ],
        changes: &[("on", "")],
        report: "refused fault t(): Clash\nran t()\nran w(2)\n",
    },
];

pub(crate) const LIMITS: [Case; 3] = [
    Case {
        name: "a marker",
        before: &SITE_FILES,
        changes: &[(".pie/open", ""), ("src/a", GONE), ("src/b", GONE)],
        report: "accepted\nfresh Interrupted\nran page(path(\"src/c\"))\nran site()\nran footer()\nwrote out/c\nremoved out/a\nremoved out/b\nlive 3\noutput site() = 1\n",
    },
    Case {
        name: "no store",
        before: &[
            ("pie.pipeline", "func a() -> int { 1 }"),
            ("pie.roots", "a()"),
        ],
        changes: &[(".pie/store", GONE)],
        report: "accepted\nfresh NoStore\nran a()\nlive 1\noutput a() = 1\n",
    },
    Case {
        name: "a store that can't be read",
        before: &[
            ("pie.pipeline", "func a() -> int { 1 }"),
            ("pie.roots", "a()"),
        ],
        changes: &[(".pie/store", "PIES")],
        report: "accepted\nfresh Damaged Short\nran a()\nlive 1\noutput a() = 1\n",
    },
];
