// Runs the command line over cases and prints what came otherwise than it must. A case is a folder below the one that
// the program runs in, with the files
//
//   report.trf  what standard input gives; for a long report its first part, behind which
//   repeated    stands as often as
//   times       says, and then
//   end.trf     the rest
//   words       the program's words, one a line
//   status      the exit status that must come
//   stdout      what must come on standard output; of a long text its first part, behind which
//   stdout.repeated and stdout.times say what stands how often
//   stderr      what must come on standard error
//
// Where stdout or stderr is left out, some text must come there, whatever it says: the help and the complaints about
// words are the command line library's own.
#![tactic(auto)]

mod case;
mod folder;

use case::Case;
use folder::Folder;
use std::{fs, io};

fn main(rt: HostRuntime) -> io::Result<()> {
    let mut count = 0u64;
    let mut different = 0u64;
    for entry in fs::read_dir(&rt, ".")? {
        let entry = entry?;
        if !is_as_it_must(&rt, entry.file_name())? {
            different = different.saturating_add(1);
        }
        count = count.saturating_add(1);
    }
    println!(rt; "{count} cases, {different} of them different")
}

// Runs a case, prints what came otherwise than it must, and answers whether nothing did.
fn is_as_it_must(rt: &HostRuntime, name: &str) -> io::Result<bool> {
    let folder = Folder::new(rt, name);
    let case = Case::read(&folder)?;
    let ended = case.run(rt.alloc())?;
    let found = case.differences(&ended);
    for difference in found.iter().flatten() {
        println!(rt; "{name}: {difference}")?;
    }
    Ok(found.iter().all(|difference| difference.is_none()))
}
