//! The program's server over sockets.

use crate::expected::{expect_same, expect_that};
use crate::script::{LabShape, SMALL, setup_of};
use gas_hall::TcpLobby;
use gas_snapshot::NoShelf;
use gaslab::serve_on;
use std::alloc::{AllocError, Global};
use std::io::{ErrorKind, Read, Write};
use std::net::{Net, SocketAddr, TcpListener, TcpStream};
use std::process::Abort;
use std::sync::Wait;
use std::thread::Threads;
use std::time::{Clock, Duration, Instant};
use std::{io, thread};
use test_types::pages::OutputPage;

// What the server says after so many sessions of the listener, and its status.
fn serve_some<R: Threads + Clock + Wait + Sync + Abort + AllocGlobal>(
    rt: &R,
    listener: TcpListener,
    seats: u32,
    shape: LabShape,
) -> (u8, OutputPage) {
    let mut shelves = Vec::new(rt.alloc());
    for _ in 0..seats {
        shelves.push(NoShelf::new()).expect(rt, "memory");
    }
    assert!(rt; 1 <= shelves.len() && shelves.len() <= 64);
    let setup = setup_of(rt, shape);
    let mut lobby = TcpLobby::over(listener);
    let mut said = OutputPage::new();
    let status = serve_on(rt, rt.alloc(), setup, None, &mut lobby, shelves, &mut said);
    (status, said)
}

// The server ended well, and says this.
fn says(rt: &impl Abort, served: (u8, OutputPage), line: &[u8]) {
    let (status, said) = served;
    expect_same(rt, (status, said.text()), (0, line));
}

fn listen<R: Net<Stream = TcpStream, Listener = TcpListener> + Abort>(
    rt: &R,
) -> (TcpListener, SocketAddr) {
    let listener = TcpListener::bind(rt, "127.0.0.1:0").expect(rt, "a listener");
    let addr = listener.local_addr().expect(rt, "an address");
    (listener, addr)
}

// What the server wrote to this input until it closed the connection.
fn talk_to<R: Net<Stream = TcpStream>>(
    rt: &R,
    alloc: Global,
    addr: SocketAddr,
    input: &[u8],
) -> io::Result<Vec<u8>> {
    let mut stream = TcpStream::connect(rt, addr)?;
    stream.write_all(input)?;
    let mut replies = Vec::new(alloc);
    stream.read_to_end(&mut replies)?;
    Ok(replies)
}

// Sends two lines at once. Tells whether both replies come in less than 10 milliseconds.
fn is_answered_at_once<R: Clock>(rt: &R, stream: &mut TcpStream) -> io::Result<bool> {
    let start = Instant::now(rt)?;
    let mut replies = [0; 28];
    stream.write_all(b"tally\ntally\n")?;
    stream.read_exact(&mut replies)?;
    let soon = start.elapsed(rt)? < Duration::from_millis(10);
    Ok(soon && replies == *b"TALLY 0 0 0 0\nTALLY 0 0 0 0\n")
}

// Sends two lines at once, twenty times. Tells how many times both replies came in less than 10 milliseconds.
fn answered_at_once<R: Net<Stream = TcpStream> + Clock>(
    rt: &R,
    addr: SocketAddr,
) -> io::Result<u32> {
    let mut stream = TcpStream::connect(rt, addr)?;
    let mut at_once = 0u32;
    for _ in 0..20u32 {
        if is_answered_at_once(rt, &mut stream)? {
            at_once = at_once.saturating_add(1);
        }
    }
    Ok(at_once)
}

/// The second of two replies doesn't wait until the client has acknowledged the first: more than half of twenty come at once.
#[test]
fn two_lines_in_one_packet_are_answered_at_once(rt: HostRuntime) {
    let (listener, addr) = listen(&rt);
    let (served, at_once) = thread::join(
        &rt,
        || serve_some(&rt, listener, 1, SMALL),
        || answered_at_once(&rt, addr),
    );
    says(&rt, served, b"SERVED 1 0 0\n");
    expect_that(&rt, at_once.expect(&rt, "replies") > 10);
}

// Makes a change, reads its reply, and hangs up in the middle of the next line.
fn hang_up<R: Net<Stream = TcpStream>>(rt: &R, addr: SocketAddr) -> io::Result<[u8; 5]> {
    let mut stream = TcpStream::connect(rt, addr)?;
    let mut reply = [0; 5];
    stream.write_all(b"put 0 0 1 1\n")?;
    stream.read_exact(&mut reply)?;
    stream.write_all(b"put 1 0 1")?;
    Ok(reply)
}

// A change, a line of 3,000 bytes, and another change.
fn long_lines(alloc: Global) -> Result<Vec<u8>, AllocError> {
    let mut lines = Vec::new(alloc);
    lines.extend_from_slice(b"put 2 0 1 1\n")?;
    lines.extend_from_slice(&[b'x'; 3000])?;
    lines.extend_from_slice(b"\nput 3 0 1 1\n")?;
    Ok(lines)
}

// Makes a change, and sends a line of 3,000 bytes and another change after it.
fn ramble<R: Net<Stream = TcpStream>>(
    rt: &R,
    alloc: Global,
    addr: SocketAddr,
) -> io::Result<Vec<u8>> {
    let lines = long_lines(alloc)?;
    talk_to(rt, alloc, addr, lines.as_slice())
}

// Sends lines with long replies, which it doesn't read, until a write has waited for a second: the server reads no more,
// since its own write waits. Tells whether it came to that.
fn fill(stream: &mut TcpStream) -> io::Result<bool> {
    stream.set_write_timeout(Some(Duration::from_secs(1)))?;
    for _ in 0..4000000u32 {
        match stream.write_all(
            b"read 0\nread 0\nread 0\nread 0\nread 0\nread 0\nread 0\nread 0\n",
        ) {
            Ok(()) => {}
            Err(e) if e.kind() == ErrorKind::WouldBlock => return Ok(true),
            Err(e) => return Err(e),
        }
    }
    Ok(false)
}

// What the clients have read, and whether the server waited for the one that reads nothing.
#[derive(Drop)]
struct Heard {
    first: [u8; 5],
    second: Vec<u8>,
    waited: bool,
    last: Vec<u8>,
}

// Three clients that misbehave, and one that doesn't and is done before the third of them hangs up.
fn crowd<R: Net<Stream = TcpStream>>(rt: &R, alloc: Global, addr: SocketAddr) -> io::Result<Heard> {
    let first = hang_up(rt, addr)?;
    let second = ramble(rt, alloc, addr)?;
    let mut third = TcpStream::connect(rt, addr)?;
    let waited = fill(&mut third)?;
    let last = talk_to(
        rt,
        alloc,
        addr,
        b"put 4 0 1 1\nput 6 0 1 1\nstep 1\ntally\nledger\nread 1\nentry 0\nentry 1\nentry 3\nquit\n",
    )?;
    drop(third);
    Ok(Heard {
        first,
        second,
        waited,
        last,
    })
}

// What the client that behaves is told.
fn wanted(rt: &(impl Abort + AllocGlobal)) -> Vec<u8> {
    let mut wanted = Vec::new(rt.alloc());
    wanted
        .extend_from_slice(
            b"OK 2\nOK 3\nOK 4\nTALLY 1 4 4 4\nLEDGER 0 4 0 0 4 0 0 0 0 4 0 0 0\nROW 55",
        )
        .expect(rt, "memory");
    wanted.extend_from_slice(&[b'0'; 1022]).expect(rt, "memory");
    wanted
        .extend_from_slice(
            b"\nENTRY 0 put 0 0 1 1\nENTRY 1 put 2 0 1 1\nENTRY 3 put 6 0 1 1\nBYE\n",
        )
        .expect(rt, "memory");
    wanted
}

fn hears(rt: &(impl Abort + AllocGlobal), heard: &Heard) {
    expect_same(rt, heard.first, *b"OK 0\n");
    expect_same(
        rt,
        heard.second.as_slice(),
        b"OK 1\nERR 1 line\n".as_slice(),
    );
    expect_that(rt, heard.waited);
    expect_same(rt, heard.last.as_slice(), wanted(rt).as_slice());
}

/// One client hangs up in the middle of a line, one sends a line that is too long, and one never reads. All four
/// particles move right and down.
#[test]
fn clients_that_misbehave_beside_another(rt: HostRuntime) {
    let (listener, addr) = listen(&rt);
    let alloc = rt.alloc();
    let wide = LabShape {
        width: 4096,
        ..SMALL
    };
    let (served, heard) = thread::join(
        &rt,
        || serve_some(&rt, listener, 4, wide),
        || crowd(&rt, alloc, addr),
    );
    says(&rt, served, b"SERVED 4 0 5\n");
    hears(&rt, &heard.expect(&rt, "replies"));
}

const PUTS: u32 = 40_000;

// So many changes, an end, and 50,000 newlines after it.
fn many_lines(alloc: Global) -> Result<Vec<u8>, AllocError> {
    let mut lines = Vec::new(alloc);
    for _ in 0..PUTS {
        lines.extend_from_slice(b"put 0 0 1 1\n")?;
    }
    lines.extend_from_slice(b"quit\n")?;
    for _ in 0..50_000u32 {
        lines.push(b'\n')?;
    }
    Ok(lines)
}

// Sends them all, and reads the replies only when a second has passed.
fn reads_late<R: Net<Stream = TcpStream> + Clock>(
    rt: &R,
    alloc: Global,
    addr: SocketAddr,
) -> io::Result<Vec<u8>> {
    let lines = many_lines(alloc)?;
    let mut stream = TcpStream::connect(rt, addr)?;
    stream.write_all(lines.as_slice())?;
    thread::sleep(rt, Duration::from_secs(1));
    let mut replies = Vec::new(alloc);
    stream.read_to_end(&mut replies)?;
    Ok(replies)
}

// The replies to the changes and to the end.
fn many_replies(rt: &(impl Abort + AllocGlobal)) -> Vec<u8> {
    let mut replies = Vec::new(rt.alloc());
    for k in 0..PUTS {
        writeln!(replies, "OK {k}").expect(rt, "memory");
    }
    replies.extend_from_slice(b"BYE\n").expect(rt, "memory");
    replies
}

/// What a client sends after its end costs it no reply: closing a socket with unread input would reset the connection.
#[test]
fn replies_before_unread_input_arrive(rt: HostRuntime) {
    let (listener, addr) = listen(&rt);
    let alloc = rt.alloc();
    let shape = LabShape {
        cap: 65536,
        ..SMALL
    };
    let (served, replies) = thread::join(
        &rt,
        || serve_some(&rt, listener, 1, shape),
        || reads_late(&rt, alloc, addr),
    );
    says(&rt, served, b"SERVED 1 0 40000\n");
    let replies = replies.expect(&rt, "replies");
    expect_that(&rt, replies.as_slice() == many_replies(&rt).as_slice());
}
