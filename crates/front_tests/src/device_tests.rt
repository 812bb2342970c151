// Counted readers and writers over memory, and over devices that fail. What they count is seen in their contracts
// alone.
use std::io;
use std::io::{ErrorKind, Read, Write};
use trf16::{Counted, Failed, Sink, Source};

// Every read is interrupted.
#[derive(Drop)]
struct Interrupted;

impl Read for Interrupted {
    fn read(&mut self, _into: &mut [u8]) -> io::Result<usize> {
        Err(io::Error::from(ErrorKind::Interrupted))
    }
}

// Takes as many bytes as it has room for, and then none, and calls it done.
#[derive(Drop)]
struct Small {
    room: usize,
}

impl Write for Small {
    fn write(&mut self, piece: &[u8]) -> io::Result<usize> {
        let count = piece.len().min(self.room);
        self.room -= count;
        Ok(count)
    }

    fn flush(&mut self) -> io::Result<()> {
        Ok(())
    }
}

#[test]
fn reader_gives_its_bytes_and_then_the_end(rt: HostRuntime) {
    let text: &[u8] = b"001";
    let mut reader = Counted::new(text);
    let mut room = [0; 2];
    for (count, held) in [(2, *b"00"), (1, *b"10"), (0, *b"10")] {
        assert_eq!(rt; reader.take(&mut room), Ok(count));
        assert_eq!(rt; room, held);
    }
}

#[test]
fn interrupted_read_is_a_failure(rt: HostRuntime) {
    let mut reader = Counted::new(Interrupted);
    let mut room = [0; 2];
    assert_eq!(rt; reader.take(&mut room), Err(Failed));
}

#[test]
fn writer_holds_what_was_put(rt: HostRuntime) {
    let mut writer = Counted::new(Vec::new(rt.alloc()));
    assert_eq!(rt; writer.put(b"001"), Ok(3));
    assert_eq!(rt; writer.put(b""), Ok(0));
    assert_eq!(rt; writer.into_inner().as_slice(), b"001".as_slice());
}

#[test]
fn writer_that_takes_nothing_fails(rt: HostRuntime) {
    let mut writer = Counted::new(Small { room: 2 });
    assert_eq!(rt; writer.put(b"001"), Ok(2));
    assert_eq!(rt; writer.put(b"1"), Err(Failed));
    assert_eq!(rt; writer.put(b""), Ok(0));
}
