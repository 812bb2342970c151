// Putting a whole text into a sink.
ghost use Rattle.trf16_report.specs.Output.{use_of, Puts};

use crate::devices::{Failed, Sink};

/// Puts a text in as many calls as the sink takes. After a failure a part of the text stands in the sink, which ends
/// before the text does.
#[tactic(auto, using(crate::proofs::OutputLemmas::written_further, crate::proofs::OutputLemmas::part_written))]
pub fn put_all<W: Sink>(sink: &mut W, text: &[u8]) -> Result<(), Failed>
    ensures { Puts text.now (use_of W.held W.failures sink.old sink.new) result }
{
    let mut done = 0;
    while done < text.len() {
        done += sink.put(&text[done..])?;
    }
    Ok(())
}
