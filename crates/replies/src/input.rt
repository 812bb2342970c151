// The input of a run: all bytes of a source, or one byte more than a report may have, in a counted number of calls.
ghost use Rattle.std.specs.Prelude.{◌≤◌, ◌+◌};
ghost use Rattle.trf16_report.specs.Prelude.{use_of};
ghost use Rattle.replies.specs.Input.{ReadsInput, most_read};

use std::alloc::Global;
use trf16_report::{MOST_BYTES, Source};

/// How many bytes are read at most: one more than a report may have, so that one that is too long
/// is known as such, and an endless source comes to an end.
const MOST_READ: usize = MOST_BYTES + 1;

/// How many bytes are asked for at once.
const PIECE: usize = 16_384;

/// Why the input could not be read.
#[derive(Clone, Copy)]
pub enum InputFault {
    /// The source failed.
    Read,
    /// Memory was refused.
    Memory,
}

/// Reads all bytes of a source, or the first `MOST_READ` of more. Each call but one that tells the
/// end gives a byte, so there are at most as many calls.
#[tactic(auto, using(crate::proofs::InputLemmas::given_to_end))]
pub fn read_input<R: Source>(alloc: Global, reader: &mut R) -> Result<Vec<u8>, InputFault>
    ensures input { ReadsInput (λ bytes. bytes.items)
        (use_of R.left R.failures reader.old reader.new) result }
    ensures calls { R.calls reader.new ≤ R.calls reader.old + most_read }
{
    let mut bytes = Vec::new(alloc);
    let mut piece = [0; PIECE];
    while bytes.len() < MOST_READ {
        let room = PIECE.min(MOST_READ - bytes.len());
        let Ok(count) = reader.take(&mut piece[..room]) else {
            return Err(InputFault::Read);
        };
        if count == 0 {
            return Ok(bytes);
        }
        if bytes.extend_from_slice(&piece[..count]).is_err() {
            return Err(InputFault::Memory);
        }
    }
    Ok(bytes)
}
