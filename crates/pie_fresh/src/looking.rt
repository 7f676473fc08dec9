//! What a task sees at a path under `out/`.
ghost use Rattle.std.specs.Prelude.{◌≡◌, length, IfOk, Some};
ghost use Rattle.std.specs.Option.{option_map};
ghost use Rattle.pie_graph.specs.Numbers.{AllBelow};
ghost use Rattle.pie_view.specs.Content.{content};
ghost use Rattle.pie_builder_laws.specs.Views.{unmarked};
ghost use Rattle.pie_running.specs.inner.Sights.{provided_sight};
ghost use Rattle.pie_fresh.specs.inner.Sights.{SeesOut, SeesOthers, sight_by};

use crate::ledger::Ledger;
use pie_base::{OutOfMemory, Path};
use pie_running::{Notes, Provided, Shows};
use pie_view::Seen;

impl Shows for Ledger {
    ghost use Rattle.std.specs.Prelude.{length};
    ghost use Rattle.pie_graph.specs.Numbers.{AllBelow};
    ghost use Rattle.pie_fresh.specs.inner.Sights.{SeesOut};

    ghost knows = { λ l n. AllBelow (length l.rows) n.needs };

    ghost sees = { λ l n path sight. SeesOut l.stage l.rows n path sight };

    fn shown<'b>(&'b self, notes: &Notes, path: &Path) -> Result<Provided<'b>, OutOfMemory> {
        self.provided(notes, path)
    }
}

impl Ledger {
    // What a task sees at a path under `out/`: what it wrote itself, else what those wrote that it required so far.
    fn provided<'b>(&'b self, notes: &Notes, path: &Path) -> Result<Provided<'b>, OutOfMemory>
        requires { AllBelow (length self.now.rows) notes.now.needs }
        ensures sees { IfOk result (λ p. SeesOut self.now.stage self.now.rows notes.now path.now (provided_sight p)) }
    {
        match self.stage.get(notes.no(), path) {
            Some(content) => Ok(Provided::Content(content)),
            None => self.provided_by_others(notes, path),
        }
    }

    // What a task sees that wrote nothing there.
    fn provided_by_others<'b>(
        &'b self,
        notes: &Notes,
        path: &Path,
    ) -> Result<Provided<'b>, OutOfMemory>
        requires { AllBelow (length self.now.rows) notes.now.needs }
        ensures sees { IfOk result (λ p. SeesOthers self.now.stage self.now.rows notes.now.needs path.now (provided_sight p)) }
    {
        let needs = notes.needs();
        let seen = self.rows.seen(self.alloc, needs, path)?;
        Ok(self.content_seen(seen, path))
    }

    // The content that is seen.
    fn content_seen<'b>(&'b self, seen: Seen, path: &Path) -> Provided<'b>
        ensures { provided_sight result ≡ sight_by (λ n. content self.now.stage n path.now) seen }
    {
        match seen {
            Seen::Absent => Provided::Nothing,
            Seen::By(no) => content_of(self.stage.get(no, path)),
            Seen::Clash => Provided::Clash,
        }
    }
}

fn content_of<'b>(content: Option<&'b [u8]>) -> Provided<'b>
    ensures { provided_sight result ≡ Some (unmarked (option_map (λ c. c.now) content.entry)) }
{
    match content {
        Some(content) => Provided::Content(content),
        None => Provided::Nothing,
    }
}
