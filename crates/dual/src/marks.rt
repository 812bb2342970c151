// Players by a mark for each. Past the end of the marks each is marked.
ghost use Rattle.std.specs.Prelude.{◌≡◌, IfOk, filter, if◌then◌else◌};
ghost use Rattle.dual.specs.Floors.{is_marked};

use std::alloc::{AllocError, Global};

pub(crate) fn is_marked(marks: &[bool], v: u16) -> bool
    ensures { result ≡ is_marked marks.now v }
{
    let v = usize::from(v);
    v >= marks.len() || marks[v]
}

// The players who are marked.
pub(crate) fn marked(alloc: Global, players: &[u16], marks: &[bool]) -> Result<Vec<u16>, AllocError>
    ensures { IfOk result (λ found. found.items ≡ filter (is_marked marks.now) players.now) }
{
    players
        .iter()
        .copied()
        .filter(|v| is_marked(marks, *v))
        .collect(alloc)
}

// With whom the pairs of a player are asked about: with all if the player is marked, else with those who are.
pub(crate) fn mates_of<'a>(marks: &[bool], v: u16, all: &'a [u16], anew: &'a [u16]) -> &'a [u16]
    ensures { result.now ≡ if is_marked marks.now v then all.now else anew.now }
{
    if is_marked(marks, v) { all } else { anew }
}
