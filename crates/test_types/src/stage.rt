//! Sessions in memory that wait for one another's replies.

use crate::pages::{OutputPage, PageWriter, shows};
use crate::waiting::wait_for;
use gas_hall::{AcceptFault, Lobby};
use std::io;
use std::io::{ErrorKind, Read};
use std::sync::Mutex;
use std::sync::atomic::{AtomicBool, Ordering};
use std::time::Clock;

/// What a session writes, and whether its reader was asked again when just the first reply stood there.
#[derive(Drop)]
pub struct Spot {
    pub page: Mutex<OutputPage>,
    told: AtomicBool,
}

impl Spot {
    fn new(page: OutputPage) -> Spot {
        Spot {
            page: Mutex::new(page),
            told: AtomicBool::new(false),
        }
    }
}

/// The spots of three sessions.
#[derive(Drop)]
pub struct Stage {
    spots: [Spot; 3],
    met_limit: AtomicBool,
}

impl Stage {
    pub fn new() -> Stage {
        Stage::with_last(OutputPage::new())
    }

    /// The last session's page takes nothing.
    pub fn with_full_page() -> Stage {
        Stage::with_last(OutputPage::full())
    }

    fn with_last(last: OutputPage) -> Stage {
        Stage {
            spots: [
                Spot::new(OutputPage::new()),
                Spot::new(OutputPage::new()),
                Spot::new(last),
            ],
            met_limit: AtomicBool::new(false),
        }
    }

    /// Whether this was written by the session.
    pub fn shows(&self, session: usize, text: &[u8]) -> bool {
        match self.spots.get(session) {
            Some(spot) => shows(&spot.page, text),
            None => false,
        }
    }

    /// Whether a session waited for the limit of its time.
    pub fn met_limit(&self) -> bool {
        self.met_limit.load(Ordering::SeqCst)
    }
}

/// A text that is given at once, or after the named session was told its first reply.
#[derive(Clone, Copy)]
pub struct Text<'a> {
    pub after: Option<usize>,
    pub text: &'a [u8],
}

/// What a session says: one or two texts, and whether its reader fails after them. `told` is its first reply.
#[derive(Clone, Copy)]
pub struct Speech<'a> {
    pub first: Text<'a>,
    pub second: Option<Text<'a>>,
    pub fails: bool,
    pub told: &'a [u8],
}

impl<'a> Speech<'a> {
    /// One text at once.
    pub fn of(text: &'a [u8]) -> Speech<'a> {
        Speech {
            first: Text { after: None, text },
            second: None,
            fails: false,
            told: b"",
        }
    }
}

/// Two sessions of which the second puts a particle between the two puts of the first.
pub fn interleaved() -> [Option<Speech<'static>>; 2] {
    let first = Speech {
        second: Some(Text {
            after: Some(1),
            text: b"put 2 0 1 1\n",
        }),
        told: b"OK 0\n",
        ..Speech::of(b"put 0 0 1 1\n")
    };
    let second = Speech {
        first: Text {
            after: Some(0),
            text: b"put 4 0 1 1\n",
        },
        told: b"OK 1\n",
        ..Speech::of(b"")
    };
    [Some(first), Some(second)]
}

/// A session that says its speech.
#[derive(Drop)]
pub struct Speaker<'a, C: Clock> {
    clock: C,
    stage: &'a Stage,
    spot: &'a Spot,
    speech: Speech<'a>,
    said: u32,
}

impl<'a, C: Clock> Speaker<'a, C> {
    // The text that comes next.
    fn next(&mut self) -> Option<Text<'a>> {
        let said = self.said;
        self.said = said.saturating_add(1);
        match said {
            0 => Some(self.speech.first),
            1 => self.speech.second,
            _ => None,
        }
    }
}

impl<'a, C: Clock> Read for Speaker<'a, C> {
    fn read(&mut self, buf: &mut [u8]) -> io::Result<usize> {
        if shows(&self.spot.page, self.speech.told) {
            self.spot.told.store(true, Ordering::SeqCst);
        }
        let Some(Text { after, text }) = self.next() else {
            return if self.speech.fails {
                Err(io::Error::from(ErrorKind::Other))
            } else {
                Ok(0)
            };
        };
        if let Some(other) = after.and_then(|session| self.stage.spots.get(session)) {
            wait_for(&self.clock, &other.told, &self.stage.met_limit);
        }
        let n = text.len().min(buf.len());
        buf[..n].copy_from_slice(&text[..n]);
        Ok(n)
    }
}

/// Each of its speeches is a session, and one that is missing is an accept that fails.
#[derive(Drop)]
pub struct Speakers<'a, C: Clock> {
    clock: C,
    stage: &'a Stage,
    speeches: &'a [Option<Speech<'a>>],
    next: usize,
}

impl<'a, C: Clock> Speakers<'a, C> {
    pub fn new(clock: C, stage: &'a Stage, speeches: &'a [Option<Speech<'a>>]) -> Speakers<'a, C> {
        Speakers {
            clock,
            stage,
            speeches,
            next: 0,
        }
    }
}

impl<'a, C: Clock + Copy + Drop + Send> Lobby for Speakers<'a, C> {
    type R = Speaker<'a, C>;

    type W = PageWriter<'a>;

    fn accept(&mut self) -> Result<(Speaker<'a, C>, PageWriter<'a>), AcceptFault> {
        let at = self.next;
        self.next = at.saturating_add(1);
        match (self.speeches.get(at), self.stage.spots.get(at)) {
            (Some(Some(speech)), Some(spot)) => {
                let speaker = Speaker {
                    clock: self.clock,
                    stage: self.stage,
                    spot,
                    speech: *speech,
                    said: 0,
                };
                Ok((speaker, PageWriter::new(&spot.page)))
            }
            _ => Err(AcceptFault),
        }
    }
}
