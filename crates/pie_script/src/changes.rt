//! Change lists: one path a line.
ghost use Rattle.std.specs.Prelude.{◌≡◌, ◌++◌, ◌∷◌, [], length};
ghost use Rattle.pie_script.specs.Line.{change_line};
ghost use Rattle.pie_script.specs.Steps.{names};
ghost use Rattle.pie_script.specs.Reading.{Reads, ReadsOne, change_lines};

use crate::InputFault;
use crate::line::path_in;
use crate::lines::Lines;
use pie_base::{MAX_INPUT_BYTES, Path};
use std::alloc::Global;

/// The paths of a change list: one a line, empty lines left out.
/// Rule: docs/FORMATS.md, "Change lists".
pub fn read_changes(alloc: Global, bytes: &[u8]) -> Result<Vec<Path>, InputFault>
    ensures { Reads (λ paths. paths.items) names result (change_lines bytes.now) (length bytes.now) }
{
    if bytes.len() > MAX_INPUT_BYTES {
        return Err(InputFault::TooLong);
    }
    let mut lines = Lines::new(bytes);
    let mut paths = Vec::new(alloc);
    let mut line = 1;
    while let Some(text) = lines.next_line() {
        read_change(alloc, &mut paths, text, line)?;
        line += 1;
    }
    Ok(paths)
}

// Appends the path of a line that isn't empty.
fn read_change(
    alloc: Global,
    paths: &mut Vec<Path>,
    text: &[u8],
    line: u32,
) -> Result<(), InputFault>
    ensures { ReadsOne result (change_line text.now) line (paths.new.items ≡ paths.old.items ++ names (change_line text.now ∷ [])) }
{
    if text.is_empty() {
        return Ok(());
    }
    let path = path_in(alloc, text, line)?;
    paths.push(path)?;
    Ok(())
}
