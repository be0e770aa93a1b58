//! A reader and a writer that can fail, and how a replay over them ends.
use super::{METERED, prints};
use std::alloc::Global;
use std::io;
use std::io::{ErrorKind, Read, Write};
use wasmi_script::Status;

// A reader of these bytes, at most forty a turn, which fails after so many good turns.
#[derive(Drop)]
pub struct Source<'a> {
    bytes: &'a [u8],
    good_turns: usize,
}

impl<'a> Source<'a> {
    pub(super) fn of(bytes: &'a [u8]) -> Self {
        Source {
            bytes,
            good_turns: usize::MAX,
        }
    }
}

impl Read for Source<'_> {
    fn read(&mut self, buf: &mut [u8]) -> io::Result<usize> {
        if self.good_turns == 0 {
            return Err(io::Error::from(ErrorKind::Interrupted));
        }
        self.good_turns -= 1;
        let count = self.bytes.len().min(buf.len()).min(40);
        buf[..count].copy_from_slice(&self.bytes[..count]);
        self.bytes = &self.bytes[count..];
        Ok(count)
    }
}

// A writer that keeps so many bytes, and then fails or takes nothing.
#[derive(Drop)]
pub struct Target {
    bytes: Vec<u8>,
    room: usize,
    fails: bool,
}

impl Target {
    pub(super) fn new(alloc: Global) -> Target {
        Target {
            bytes: Vec::new(alloc),
            room: usize::MAX,
            fails: true,
        }
    }

    pub(super) fn text(&self) -> &[u8] {
        self.bytes.as_slice()
    }
}

impl Write for Target {
    fn write(&mut self, buf: &[u8]) -> io::Result<usize> {
        if self.room == 0 && self.fails {
            return Err(io::Error::from(ErrorKind::Interrupted));
        }
        let count = buf.len().min(self.room);
        self.room -= count;
        self.bytes.extend_from_slice(&buf[..count])?;
        Ok(count)
    }

    fn flush(&mut self) -> io::Result<()> {
        Ok(())
    }
}

#[test]
fn an_error_of_a_reader_is_a_fault(rt: HostRuntime) {
    for good_turns in [0, 1] {
        let mut reader = Source::of(METERED.text.as_bytes());
        reader.good_turns = good_turns;
        let writer = Target::new(rt.alloc());
        prints(
            &rt,
            rt.alloc(),
            reader,
            writer,
            b"read fault\n",
            Status::Fault,
        );
    }
}

#[test]
fn an_error_of_a_writer_is_a_fault(rt: HostRuntime) {
    for room in 0..METERED.printed.len() {
        for fails in [true, false] {
            let reader = Source::of(METERED.text.as_bytes());
            let mut writer = Target::new(rt.alloc());
            (writer.room, writer.fails) = (room, fails);
            let sent = &METERED.printed.as_bytes()[..room];
            prints(&rt, rt.alloc(), reader, writer, sent, Status::Fault);
        }
    }
}
