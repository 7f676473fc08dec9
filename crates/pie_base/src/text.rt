//! A text that is never changed.
ghost use Rattle.std.specs.Prelude.{◌≡◌, IfOk};
ghost use Rattle.pie_base.specs.inner.Kept.{bytes_of};

use crate::OutOfMemory;
use arrayvec::ArrayString;
use std::alloc::Global;
use std::marker::Model;
use std::rc::Rc;

/// A text. Contracts see the list of its UTF-8 bytes. A copy shares the contents.
#[derive(Drop)]
pub struct Text {
    kept: Kept,
}

// Most names, paths and small values have at most 16 bytes. These stand in the text itself, and take no memory of their own.
enum Kept {
    Short(ArrayString<16>),
    Long(Rc<String>),
}

// A derived drop has its cases wherever a text is let go, and proofs go through them; this one is called.
impl Drop for Kept {
    fn drop(self) {
        match self {
            Kept::Short(_) => {}
            Kept::Long(text) => drop(text),
        }
    }
}

impl Model for Text {
    ghost use Rattle.std.specs.Prelude.{List, ℕ};
    ghost use Rattle.pie_base.specs.inner.Kept.{bytes_of};

    ghost Value = { List ℕ };

    ghost view = { λ t. bytes_of t.kept };
}

impl Text {
    /// A text of these characters.
    pub fn new(alloc: Global, text: &str) -> Result<Text, OutOfMemory>
        ensures { IfOk result (λ made. made ≡ text.now) }
    {
        if let Ok(short) = ArrayString::from(text) {
            return Ok(Text {
                kept: Kept::Short(short),
            });
        }
        let text = String::from_str(alloc, text)?;
        let text = Rc::new(alloc, text)?;
        Ok(Text {
            kept: Kept::Long(text),
        })
    }

    /// An equal text, which shares the contents.
    pub fn copy(&self) -> Result<Text, OutOfMemory>
        ensures { IfOk result (λ copy. copy ≡ self.now) }
    {
        let kept = match &self.kept {
            Kept::Short(text) => Kept::Short(*text),
            Kept::Long(text) => Kept::Long(text.clone()?),
        };
        Ok(Text { kept })
    }

    pub fn as_str(&self) -> &str
        ensures { result.now ≡ self.now }
    {
        match &self.kept {
            Kept::Short(text) => text.as_str(),
            Kept::Long(text) => text.as_str(),
        }
    }
}
