//! Sessions over sockets.

use crate::serving::{AcceptFault, Lobby};
use std::io;
use std::io::{Read, Write};
use std::net::{Shutdown, TcpListener, TcpStream};
use std::time::Duration;

/// Each connection to a listener is a session.
#[derive(Drop)]
pub struct TcpLobby {
    listener: TcpListener,
}

impl TcpLobby {
    /// The sessions of a bound listener.
    pub fn over(listener: TcpListener) -> TcpLobby {
        TcpLobby { listener }
    }
}

// How much is read after the last reply, and how long each read waits: at most 1 MiB and half a minute in all.
const LAST_READS: u32 = 64;

const LAST_READ_BYTES: usize = 16384;

const LAST_READ_MILLISECONDS: u64 = 500;

// Says that no more replies come, then reads and drops what the client still sends.
fn close_and_drain(stream: &TcpStream) -> io::Result<()> {
    stream.shutdown(Shutdown::Write)?;
    stream.set_read_timeout(Some(Duration::from_millis(LAST_READ_MILLISECONDS)))?;
    let mut rest = stream;
    let mut page = [0; LAST_READ_BYTES];
    for _ in 0..LAST_READS {
        if rest.read(&mut page)? == 0 {
            return Ok(());
        }
    }
    Ok(())
}

/// Where the replies of a connection go. When it is dropped, it ends the connection so that the last replies arrive: closing
/// a socket with unread input would reset it, and the client would lose replies that it has not read.
pub struct TcpReplies {
    stream: TcpStream,
}

impl Write for TcpReplies {
    fn write(&mut self, buf: &[u8]) -> io::Result<usize> {
        self.stream.write(buf)
    }

    fn flush(&mut self) -> io::Result<()> {
        self.stream.flush()
    }
}

impl Drop for TcpReplies {
    fn drop(self) {
        // The session is over, whether or not its client can be told so.
        close_and_drain(&self.stream).ok();
        let TcpReplies { stream: _ } = self;
    }
}

impl Lobby for TcpLobby {
    type R = TcpStream;

    type W = TcpReplies;

    fn accept(&mut self) -> Result<(TcpStream, TcpReplies), AcceptFault> {
        let Ok((stream, _)) = self.listener.accept() else {
            return Err(AcceptFault);
        };
        let Ok(reader) = stream.try_clone() else {
            return Err(AcceptFault);
        };
        // Else the second of two replies waits for the client's acknowledgement of the first; without it they are only slower.
        stream.set_nodelay(true).ok();
        Ok((reader, TcpReplies { stream }))
    }
}
