//! Serving a session over a socket.

use crate::expected::expect_same;
use crate::gates::TestGate;
use crate::open_and_serve::serve_sessions;
use crate::small_labs::no_puts;
use gas_hall::TcpLobby;
use std::alloc::Global;
use std::io::{Read, Write};
use std::net::{Net, SocketAddr, TcpListener, TcpStream};
use std::process::Abort;
use std::sync::Wait;
use std::thread::Threads;
use std::time::Clock;
use std::{io, thread};

// Serves one session of the listener. Tells how many were served and how many were not, and how many entries were made.
fn serve_one<R: Threads + Wait + Clock + Sync + Abort + AllocGlobal + Copy>(
    rt: &R,
    listener: TcpListener,
) -> Option<(u32, u32, u32)> {
    let mut lobby = TcpLobby::over(listener);
    let gate = TestGate::open(*rt);
    let saved = no_puts();
    let left = serve_sessions(rt, 64, &gate, &mut lobby, &saved, 1, &[])?;
    Some(left.counts)
}

// What the server writes to a change and an end, until it closes the connection.
fn put_and_quit<R: Net<Stream = TcpStream>>(
    rt: &R,
    alloc: Global,
    addr: SocketAddr,
) -> io::Result<Vec<u8>> {
    let mut stream = TcpStream::connect(rt, addr)?;
    stream.write_all(b"put 0 0 1 1\nquit\n")?;
    let mut replies = Vec::new(alloc);
    stream.read_to_end(&mut replies)?;
    Ok(replies)
}

#[test]
fn hall_served_over_a_socket(rt: HostRuntime) {
    let listener = TcpListener::bind(&rt, "127.0.0.1:0").expect(&rt, "a listener");
    let addr = listener.local_addr().expect(&rt, "an address");
    let alloc = rt.alloc();
    let (served, replies) = thread::join(
        &rt,
        || serve_one(&rt, listener),
        || put_and_quit(&rt, alloc, addr),
    );
    expect_same(&rt, served, Some((1, 0, 1)));
    let replies = replies.expect(&rt, "replies");
    expect_same(&rt, replies.as_slice(), b"OK 0\nBYE\n".as_slice());
}
