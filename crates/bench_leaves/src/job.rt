//! What is measured, on what, and how large that is.
ghost use Rattle.std.specs.Prelude.{◌≤◌, IfSome};

use pie_base::MAX_TASKS;

/// What is measured.
#[derive(Clone, Copy, PartialEq, Eq)]
pub(crate) enum Subject {
    /// Making the text of a store; the others on stores do this first.
    Text,
    Decode,
    /// Decoding, and then encoding.
    Encode,
    Heights,
    Live,
    /// Edges into the order, each of which agrees with it.
    Along,
    /// Edges into the order, each of which goes against it.
    Against,
}

pub(crate) const SUBJECTS: [Subject; 7] = [
    Subject::Text,
    Subject::Decode,
    Subject::Encode,
    Subject::Heights,
    Subject::Live,
    Subject::Along,
    Subject::Against,
];

impl Subject {
    pub(crate) fn name(self) -> &'static str {
        match self {
            Subject::Text => "text",
            Subject::Decode => "decode",
            Subject::Encode => "encode",
            Subject::Heights => "heights",
            Subject::Live => "live",
            Subject::Along => "along",
            Subject::Against => "against",
        }
    }
}

/// Which tasks require which.
#[derive(Clone, Copy)]
pub(crate) enum Shape {
    /// Each but the first requires the one before it.
    Chain,
    /// The last requires all the others.
    Fan,
}

/// One subject or all, on so many tasks.
#[derive(Clone, Copy)]
pub(crate) struct Job {
    only: Option<Subject>,
    pub(crate) shape: Shape,
    pub(crate) count: u32,
    ghost few: { count ≤ 50000 },
}

impl Job {
    pub(crate) fn read(words: &[String]) -> Option<Job> {
        let [subject, shape, count] = words else {
            return None;
        };
        let only = subject_of(subject.as_str())?;
        let shape = shape_of(shape.as_str())?;
        let count = count.as_str().parse::<u32>().ok()?.min(MAX_TASKS);
        Some(Job { only, shape, count })
    }

    pub(crate) fn takes(self, subject: Subject) -> bool {
        self.only.is_none_or(|only| only == subject)
    }
}

// A subject, or none for all.
fn subject_of(word: &str) -> Option<Option<Subject>> {
    if word == "all" {
        return Some(None);
    }
    for subject in SUBJECTS {
        if subject.name() == word {
            return Some(Some(subject));
        }
    }
    None
}

fn shape_of(word: &str) -> Option<Shape> {
    match word {
        "chain" => Some(Shape::Chain),
        "fan" => Some(Shape::Fan),
        _ => None,
    }
}
