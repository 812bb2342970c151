// Putting a text into the room that a caller gives.
ghost use Rattle.std.specs.Prelude.{◌≡◌};
ghost use Rattle.arbiter_c.specs.Call.{Holds};

// Puts a text into a room as far as that goes, and answers the length of the whole text.
pub(crate) fn put(text: &[u8], room: &mut [u8]) -> usize
    ensures { Holds text.now (record { before = room.old; after = room.new; told = result }) }
{
    let count = text.len().min(room.len());
    room[..count].copy_from_slice(&text[..count]);
    text.len()
}
