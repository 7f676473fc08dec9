//! Printing a text to an output that takes it piece by piece.
ghost use Rattle.std.specs.Prelude.{OnOk};
ghost use Rattle.pie_files.specs.Streams.{Counted, StaysInfallible};
ghost use Rattle.pie_cli.specs.Run.{Gains, GainsPrefix};

use pie_files::{Sink, SinkError};

/// Puts a text whole, or a prefix of it where the output refuses the rest.
pub(crate) fn print_text<K: Sink>(out: &mut K, text: &[u8]) -> Result<(), SinkError>
    ensures printed { OnOk result (Gains (K.held out.old) (K.held out.new) text.now) }
    ensures prefix { GainsPrefix (K.held out.old) (K.held out.new) text.now }
    ensures counted { Counted K.faults SinkError.Failed out.old out.new result }
    ensures infallible { StaysInfallible K.infallible K.faults out.old out.new }
{
    let mut done = 0;
    while done < text.len() {
        let (_, rest) = text.split_at(done);
        let n = out.put(rest)?;
        done += n;
    }
    Ok(())
}
