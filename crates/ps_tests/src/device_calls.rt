//! What the contracts of the devices don't say: that memory can be had, where the edges of a device in memory
//! lie, that an interrupted call has failed, and what real streams see.

ghost use Rattle.std.specs.Prelude.{◌≡◌, false};

use ps_devices::{
    ByteReader, ByteWriter, Failed, FromStd, MemoryReader, MemoryWriter, write_whole,
};
use ps_model::Memory;
use std::alloc::Global;
use std::io;
use std::io::{ErrorKind, Read, Write};

#[test]
fn reader_gives_pieces(rt: HostRuntime) {
    let mut reader = MemoryReader::new(b"hello", 3, None);
    let mut buffer = [b'.'; 4];
    assert_eq!(rt; reader.read_some(&mut buffer), Ok(3));
    assert_eq!(rt; buffer.as_slice(), b"hel.".as_slice());
    assert_eq!(rt; reader.read_some(&mut buffer[..1]), Ok(1));
    assert_eq!(rt; buffer.as_slice(), b"lel.".as_slice());
    assert_eq!(rt; reader.given(), 4);
    assert_eq!(rt; reader.read_some(&mut []), Ok(0));
    assert_eq!(rt; reader.read_some(&mut buffer), Ok(1));
    assert_eq!(rt; buffer.as_slice(), b"oel.".as_slice());
    assert_eq!(rt; reader.read_some(&mut buffer), Ok(0));
    assert_eq!(rt; reader.given(), 5);
}

/// Three calls, or fewer where one fails: what the last of them answered.
fn last_of_three<R: ByteReader>(reader: &mut R) -> Result<usize, Failed>
    requires { (R.state reader.old).has_failed ≡ false }
{
    let mut buffer = [0u8; 8];
    reader.read_some(&mut buffer)?;
    reader.read_some(&mut buffer)?;
    reader.read_some(&mut buffer)
}

#[test]
fn reader_fails_at_its_edge(rt: HostRuntime) {
    for (edge, given, last) in [
        (0, 0, Err(Failed)),
        (2, 2, Err(Failed)),
        (5, 5, Err(Failed)),
        (6, 5, Ok(0)),
    ] {
        let mut reader = MemoryReader::new(b"hello", 3, Some(edge));
        assert_eq!(rt; last_of_three(&mut reader), last, "at {edge}");
        assert_eq!(rt; reader.given(), given, "at {edge}");
    }
}

#[test]
fn writer_takes_pieces_and_fails_at_its_room(rt: HostRuntime) -> Result<(), Memory> {
    let mut writer = MemoryWriter::new(rt.alloc(), 5, 3)?;
    assert_eq!(rt; writer.write_some(b"hello"), Ok(3));
    assert_eq!(rt; writer.write_some(b"ping"), Ok(2));
    assert_eq!(rt; writer.write_some(b""), Ok(0));
    assert_eq!(rt; writer.write_some(b"!"), Err(Failed));
    assert_eq!(rt; writer.bytes(), b"helpi".as_slice());
    let mut still = MemoryWriter::new(rt.alloc(), 5, 0)?;
    assert_eq!(rt; still.write_some(b"hello"), Ok(0));
    assert_eq!(rt; still.bytes(), b"".as_slice());
    let mut idle = MemoryWriter::new(rt.alloc(), 5, 0)?;
    assert_eq!(rt; write_whole(b"", &mut idle), Ok(()));
    assert_eq!(rt; write_whole(b"hello", &mut idle), Err(Failed));
    assert_eq!(rt; idle.bytes(), b"".as_slice());
    Ok(())
}

#[test]
fn whole_is_written_a_byte_at_a_time(rt: HostRuntime) -> Result<(), Memory> {
    let mut writer = MemoryWriter::new(rt.alloc(), 8, 1)?;
    assert_eq!(rt; write_whole(b"hello", &mut writer), Ok(()));
    assert_eq!(rt; write_whole(b" world", &mut writer), Err(Failed));
    assert_eq!(rt; writer.bytes(), b"hello wo".as_slice());
    Ok(())
}

/// A stream whose first call a signal interrupts, and that then gives or takes one byte a call.
#[derive(Drop)]
struct Interrupted {
    signal: bool,
}

impl Interrupted {
    fn next(&mut self) -> io::Result<()> {
        if !self.signal {
            return Ok(());
        }
        self.signal = false;
        Err(io::Error::from(ErrorKind::Interrupted))
    }
}

impl Read for Interrupted {
    fn read(&mut self, buf: &mut [u8]) -> io::Result<usize> {
        self.next()?;
        if buf.is_empty() {
            return Ok(0);
        }
        buf[0] = b'd';
        Ok(1)
    }
}

impl Write for Interrupted {
    fn write(&mut self, buf: &[u8]) -> io::Result<usize> {
        self.next()?;
        Ok(buf.len().min(1))
    }

    fn flush(&mut self) -> io::Result<()> {
        Ok(())
    }
}

#[test]
fn interrupted_calls_have_failed(rt: HostRuntime) {
    for (signal, result) in [(false, Ok(1)), (true, Err(Failed))] {
        let mut buffer = [0u8; 4];
        let mut reader = FromStd::new(Interrupted { signal });
        assert_eq!(rt; reader.read_some(&mut buffer), result, "read");
        let mut writer = FromStd::new(Interrupted { signal });
        assert_eq!(rt; writer.write_some(b"hello"), result, "write");
    }
}

/// A stream that gives one byte at its first read, two at its second and so on. Or it takes at most as many as a pipe
/// does.
#[derive(Drop)]
struct Pipe {
    calls: usize,
    asked: usize,
    taken: Vec<u8>,
}

impl Pipe {
    fn new(alloc: Global) -> Pipe {
        Pipe {
            calls: 0,
            asked: 0,
            taken: Vec::new(alloc),
        }
    }
}

impl Read for Pipe {
    fn read(&mut self, buf: &mut [u8]) -> io::Result<usize> {
        self.calls = self.calls.saturating_add(1);
        self.asked = buf.len();
        let count = buf.len().min(self.calls);
        for slot in &mut buf[..count] {
            *slot = b'd';
        }
        Ok(count)
    }
}

impl Write for Pipe {
    fn write(&mut self, buf: &[u8]) -> io::Result<usize> {
        self.calls = self.calls.saturating_add(1);
        self.asked = buf.len();
        let count = buf.len().min(4096);
        match self.taken.extend_from_slice(&buf[..count]) {
            Ok(()) => Ok(count),
            Err(_) => Err(io::Error::from(ErrorKind::OutOfMemory)),
        }
    }

    fn flush(&mut self) -> io::Result<()> {
        Ok(())
    }
}

/// One read, and what the stream saw of it: how many calls it has had, and of how many bytes the last one was.
#[test]
fn each_call_is_one_read(rt: HostRuntime) {
    let mut pipe = Pipe::new(rt.alloc());
    let mut buffer = [b'.'; 5000];
    for count in 1..=4usize {
        let mut reader = FromStd::new(&mut pipe);
        assert_eq!(rt; reader.read_some(&mut buffer), Ok(count));
        drop(reader);
        assert_eq!(rt; pipe.calls, count);
        assert_eq!(rt; pipe.asked, 4096);
    }
    assert_eq!(rt; &buffer[..5], b"dddd.".as_slice());
}

#[test]
fn stream_is_read_on(rt: HostRuntime) {
    let mut pipe = Pipe::new(rt.alloc());
    let mut reader = FromStd::new(&mut pipe);
    assert_eq!(rt; last_of_three(&mut reader), Ok(3));
    drop(reader);
    assert_eq!(rt; pipe.calls, 3);
    assert_eq!(rt; pipe.asked, 8);
}

#[test]
fn long_frame_is_written_whole(rt: HostRuntime) -> Result<(), Memory> {
    let mut frame = Vec::with_capacity(rt.alloc(), 10000)?;
    for place in 0..10000u32 {
        let _ = frame.push((place % 251) as u8);
    }
    let mut pipe = Pipe::new(rt.alloc());
    let mut writer = FromStd::new(&mut pipe);
    assert_eq!(rt; write_whole(&frame, &mut writer), Ok(()));
    drop(writer);
    assert_eq!(rt; pipe.calls, 3);
    assert_eq!(rt; pipe.asked, 10000 - 2 * 4096);
    assert_eq!(rt; pipe.taken.as_slice(), frame.as_slice());
    Ok(())
}
