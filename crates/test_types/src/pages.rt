//! Pages in memory that never allocate, writers to them, and a lobby that gives such sessions.

use gas_hall::{AcceptFault, Lobby};
use std::io;
use std::io::{ErrorKind, Write};
use std::sync::Mutex;

const ROOM: usize = 512;

/// Takes what fits.
#[derive(Drop)]
pub struct OutputPage {
    bytes: [u8; ROOM],
    len: usize,
    room: usize,
}

impl OutputPage {
    pub fn new() -> OutputPage {
        OutputPage {
            bytes: [0; ROOM],
            len: 0,
            room: ROOM,
        }
    }

    /// A page that takes 0 bytes of each write.
    pub fn full() -> OutputPage {
        OutputPage {
            room: 0,
            ..OutputPage::new()
        }
    }

    pub fn text(&self) -> &[u8] {
        &self.bytes[..self.len.min(ROOM)]
    }
}

impl Write for OutputPage {
    fn write(&mut self, buf: &[u8]) -> io::Result<usize> {
        let room = self.room.min(ROOM);
        if self.len >= room {
            return Ok(0);
        }
        let n = buf.len().min(room - self.len);
        let end = self.len + n;
        self.bytes[self.len..end].copy_from_slice(&buf[..n]);
        self.len = end;
        Ok(n)
    }

    fn flush(&mut self) -> io::Result<()> {
        Ok(())
    }
}

/// Writes to a page that stays with the test.
#[derive(Drop)]
pub struct PageWriter<'a> {
    page: &'a Mutex<OutputPage>,
}

impl<'a> PageWriter<'a> {
    pub fn new(page: &'a Mutex<OutputPage>) -> PageWriter<'a> {
        PageWriter { page }
    }
}

impl<'a> Write for PageWriter<'a> {
    fn write(&mut self, buf: &[u8]) -> io::Result<usize> {
        match self.page.try_lock() {
            Some(mut page) => page.write(buf),
            None => Err(io::Error::from(ErrorKind::WouldBlock)),
        }
    }

    fn flush(&mut self) -> io::Result<()> {
        Ok(())
    }
}

/// Whether just this was written.
pub fn shows(page: &Mutex<OutputPage>, text: &[u8]) -> bool {
    match page.try_lock() {
        Some(page) => page.text() == text,
        None => false,
    }
}

/// Each of its inputs is a session, and an input that is missing is an accept that fails.
#[derive(Drop)]
pub struct Guests<'a> {
    inputs: &'a [Option<&'a [u8]>],
    pages: &'a [Mutex<OutputPage>],
    next: usize,
}

impl<'a> Guests<'a> {
    pub fn new(inputs: &'a [Option<&'a [u8]>], pages: &'a [Mutex<OutputPage>]) -> Guests<'a> {
        Guests {
            inputs,
            pages,
            next: 0,
        }
    }
}

impl<'a> Lobby for Guests<'a> {
    type R = &'a [u8];

    type W = PageWriter<'a>;

    fn accept(&mut self) -> Result<(&'a [u8], PageWriter<'a>), AcceptFault> {
        let at = self.next;
        self.next = at.saturating_add(1);
        match (self.inputs.get(at), self.pages.get(at)) {
            (Some(Some(input)), Some(page)) => Ok((*input, PageWriter::new(page))),
            _ => Err(AcceptFault),
        }
    }
}
