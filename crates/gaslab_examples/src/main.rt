//! Runs the scripts in `examples/` and `examples/scenes/` and compares the output with the file beside each. The scripts of
//! the lesson with three people run as sessions on one gas, over sockets, one after another.
#![tactic(auto)]

ghost use Rattle.std.specs.Prelude.{IfOk};
ghost use Rattle.gas_run.specs.Plans.{IsInRange};

use gas_hall::TcpLobby;
use gas_ledger::Gas;
use gas_snapshot::NoShelf;
use gas_terms::Size;
use gaslab::{Setup, load_from, run_on, serve_on};
use std::io::{Read, Write};
use std::net::{Net, SocketAddr, TcpListener, TcpStream};
use std::process::ExitCode;
use std::rt::Files;
use std::sync::Wait;
use std::thread::Threads;
use std::time::Clock;
use std::{fs, io, thread};
use test_types::faults::{FaultAt, Store};

// What is run alone, on a new lattice of that width and height.
const LESSONS: [(&str, u32, u32); 29] = [
    ("1_one_particle", 64, 64),
    ("2_head_on", 64, 64),
    ("2_blocks", 64, 64),
    ("3_gate", 64, 64),
    ("3_two_gates", 64, 64),
    ("4_tunnel", 64, 64),
    ("4_open_tunnel", 64, 64),
    ("5_sound", 256, 256),
    ("5_empty", 256, 256),
    ("6_reversal", 64, 64),
    ("6_spoiled", 64, 64),
    ("9_mirror", 64, 64),
    ("9_translation", 64, 64),
    ("9_reversed", 64, 64),
    ("9_light_cone", 128, 128),
    ("10_lines", 64, 64),
    ("10_wall", 64, 64),
    ("10_returns", 64, 64),
    ("11_forget", 64, 64),
    ("11_spoiled", 64, 64),
    ("11_lines", 64, 64),
    ("scenes/hole", 64, 64),
    ("scenes/piston", 64, 64),
    ("scenes/porous", 64, 64),
    ("scenes/three_gates", 64, 64),
    ("scenes/two_tunnels", 64, 64),
    ("scenes/clap", 128, 128),
    ("scenes/seams", 128, 128),
    ("scenes/half_adder", 64, 64),
];

const PEOPLE: [&str; 3] = ["8_first", "8_second", "8_third"];

fn failure() -> io::Error {
    io::Error::from(io::ErrorKind::Other)
}

// A laboratory of that size, without other options.
fn setup(width: u32, height: u32) -> io::Result<Setup>
    ensures { IfOk result IsInRange }
{
    let Some(size) = Size::new(width, height) else {
        return Err(failure());
    };
    Ok(Setup {
        size,
        workers: 1,
        cap: 1024,
    })
}

fn file_of(rt: &(impl Files + AllocGlobal), name: &str, kind: &str) -> io::Result<Vec<u8>> {
    let path = format!(in rt.alloc(); "{name}.{kind}")?;
    fs::read(rt, path.as_str())
}

// Compares the output with the file beside the script, and prints whether they are the same.
fn tell(rt: &(impl Print + Files + AllocGlobal), name: &str, output: &[u8]) -> io::Result<bool> {
    let is_same = file_of(rt, name, "out")?.as_slice() == output;
    let verdict = if is_same {
        "as expected"
    } else {
        "not as expected"
    };
    println!(rt; "{name}: {verdict}")?;
    Ok(is_same)
}

// Runs the script from the gas, or else from an empty one, and tells whether it gives what is expected.
fn run_script(
    rt: &(impl Threads + Clock + Print + Files + AllocGlobal),
    name: &str,
    setup: Setup,
    start: Option<Gas>,
    shelf: &mut Store,
) -> io::Result<bool>
    requires { IsInRange setup }
{
    let script = file_of(rt, name, "txt")?;
    let mut output = Vec::new(rt.alloc());
    let mut reader = script.as_slice();
    let status = run_on(
        rt,
        rt.alloc(),
        setup,
        start,
        &mut reader,
        &mut output,
        shelf,
    );
    if status != 0 {
        writeln!(output, "status {status}")?;
    }
    tell(rt, name, output.as_slice())
}

fn run_all(rt: &(impl Threads + Clock + Print + Files + AllocGlobal)) -> io::Result<bool> {
    let mut are_same = true;
    let mut shelf = Store::new(rt.alloc(), FaultAt::never());
    for (name, width, height) in LESSONS {
        let setup = setup(width, height)?;
        are_same = run_script(rt, name, setup, None, &mut shelf)? && are_same;
    }
    Ok(are_same)
}

// Work that is kept, and gone on with from what was saved.
fn run_kept(rt: &(impl Threads + Clock + Print + Files + AllocGlobal)) -> io::Result<bool> {
    let setup = setup(128, 64)?;
    let mut shelf = Store::new(rt.alloc(), FaultAt::never());
    let is_first_same = run_script(rt, "7_kept", setup, None, &mut shelf)?;
    let Some(bytes) = shelf.kept().first() else {
        return Err(failure());
    };
    let Ok(gas) = load_from(rt.alloc(), &mut bytes.as_slice()) else {
        return Err(failure());
    };
    let mut next = Store::new(rt.alloc(), FaultAt::never());
    Ok(run_script(rt, "7_next_day", setup, Some(gas), &mut next)? && is_first_same)
}

// Serves three sessions, and gives what is said of them.
fn serve_three(
    rt: &(impl Threads + Clock + Wait + Sync + AllocGlobal),
    listener: TcpListener,
) -> io::Result<Vec<u8>> {
    let setup = setup(64, 64)?;
    let mut said = Vec::new(rt.alloc());
    let mut lobby = TcpLobby::over(listener);
    let shelves = vec![in rt.alloc(); NoShelf::new(), NoShelf::new(), NoShelf::new()]?;
    let status = serve_on(rt, rt.alloc(), setup, None, &mut lobby, shelves, &mut said);
    if status != 0 {
        writeln!(said, "status {status}")?;
    }
    Ok(said)
}

// What a client gets who sends the script and reads to the end.
fn session_of(
    rt: &(impl Net<Stream = TcpStream> + Files + AllocGlobal),
    address: SocketAddr,
    name: &str,
) -> io::Result<Vec<u8>> {
    let script = file_of(rt, name, "txt")?;
    let mut stream = TcpStream::connect(rt, address)?;
    stream.write_all(script.as_slice())?;
    let mut replies = Vec::new(rt.alloc());
    stream.read_to_end(&mut replies)?;
    Ok(replies)
}

fn meet_all(
    rt: &(impl Net<Stream = TcpStream> + Print + Files + AllocGlobal),
    address: SocketAddr,
) -> io::Result<bool> {
    let mut are_same = true;
    for name in PEOPLE {
        let replies = session_of(rt, address, name)?;
        are_same = tell(rt, name, replies.as_slice())? && are_same;
    }
    Ok(are_same)
}

// Three people on one gas.
fn meet(
    rt: &(impl Net<Listener = TcpListener, Stream = TcpStream>
        + Threads
        + Clock
        + Wait
        + Sync
        + Print
        + Files
        + AllocGlobal),
) -> io::Result<bool> {
    let listener = TcpListener::bind(rt, "127.0.0.1:0")?;
    let address = listener.local_addr()?;
    let (said, are_same) = thread::join(rt, || serve_three(rt, listener), || meet_all(rt, address));
    io::writer(rt).write_all(said?.as_slice())?;
    are_same
}

fn main(rt: HostRuntime) -> io::Result<ExitCode> {
    let are_runs_same = run_all(&rt)?;
    let is_kept_same = run_kept(&rt)?;
    let are_people_same = meet(&rt)?;
    let is_same = are_runs_same && is_kept_same && are_people_same;
    Ok(ExitCode::from(if is_same { 0 } else { 1 }))
}
