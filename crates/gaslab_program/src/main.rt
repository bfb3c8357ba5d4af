//! The program `gaslab`: joins the calls of the library `gaslab` to files, sockets and the standard streams.
#![tactic(auto)]

ghost use Rattle.std.specs.Prelude.{◌≡◌, ◌<◌, ◌≤◌, IfOk, vec_len};
ghost use Rattle.gas_run.specs.Plans.{most_sessions, IsInRange, HasSessions};

use gas_hall::TcpLobby;
use gas_ledger::Gas;
use gas_snapshot::{FileShelf, MaybeShelf, NoShelf, Shelf, SnapFault};
use gaslab::{
    LoadFault, Plan, PlanFault, Service, Setup, Status, load_from, plan, run_on, serve_on,
};
use std::alloc::AllocError;
use std::env::Env;
use std::net::{Net, SocketAddr, TcpListener, TcpStream};
use std::process::ExitCode;
use std::rt::Files;
use std::sync::Wait;
use std::thread::Threads;
use std::time::Clock;
use std::{env, fs, io};

const NOT_UTF8: &str =
    "gaslab: a word of the command line is not UTF-8. Try ./gaslab --help for more\n";

// The gas of the snapshot in the file.
fn load(rt: &(impl Files + AllocGlobal), path: &str) -> Result<Gas, LoadFault> {
    let Ok(mut file) = fs::open(rt, path) else {
        return Err(LoadFault::Read);
    };
    load_from(rt.alloc(), &mut file)
}

// The gas to start from, or else what the program exits with.
fn start_of(
    rt: &(impl Eprint + Files + AllocGlobal),
    load_path: Option<&str>,
) -> Result<Option<Gas>, Status> {
    let Some(path) = load_path else {
        return Ok(None);
    };
    match load(rt, path) {
        Ok(gas) => Ok(Some(gas)),
        Err(LoadFault::Snap(SnapFault::Memory)) => Err(Status::NoMemory),
        Err(fault) => {
            // The status tells of the fault, whether or not this can be written.
            drop(eprintln!(rt; "load: {fault}"));
            Err(Status::NotLoaded)
        }
    }
}

// A shelf at the path, if there is one, for a seat.
fn shelf_of<'r, R: Files + AllocGlobal>(
    rt: &'r R,
    path: Option<&str>,
    seat: u16,
) -> Result<MaybeShelf<FileShelf<&'r R>>, AllocError> {
    match path {
        Some(path) => Ok(MaybeShelf::Shelf(FileShelf::new(rt.alloc(), rt, path, seat)?)),
        None => Ok(MaybeShelf::Nothing(NoShelf::new())),
    }
}

// A shelf for each seat.
fn shelves_of<'r, R: Files + AllocGlobal>(
    rt: &'r R,
    path: Option<&str>,
    seats: u8,
) -> Result<Vec<MaybeShelf<FileShelf<&'r R>>>, AllocError>
    ensures { IfOk result (λ shelves. vec_len shelves ≡ seats) }
{
    let mut shelves = Vec::new(rt.alloc());
    for seat in 0..seats {
        shelves.push(shelf_of(rt, path, seat as u16)?)?;
    }
    Ok(shelves)
}

// One session, on standard input and output.
fn run(
    rt: &(impl Threads + Clock + Input + Print + Files + AllocGlobal),
    setup: Setup,
    start: Option<Gas>,
    save: Option<&str>,
) -> u8
    requires { IsInRange setup }
{
    let Ok(mut shelf) = shelf_of(rt, save, 0) else {
        return Status::NoMemory.number();
    };
    run_on(
        rt,
        rt.alloc(),
        setup,
        start,
        &mut rt.reader(),
        &mut io::writer(rt),
        &mut shelf,
    )
}

// Listens at the address, and says so.
fn listen(
    rt: &(impl Net<Listener = TcpListener, Stream = TcpStream> + Print),
    address: SocketAddr,
) -> io::Result<TcpLobby> {
    let listener = TcpListener::bind(rt, address)?;
    let bound = listener.local_addr()?;
    println!(rt; "LISTEN {bound}")?;
    Ok(TcpLobby::over(listener))
}

// A session for each shelf, over sockets. The shelves come from `main`, where their type is known: the kit does not cover what is
// sent to a thread if it rests on a bound.
fn serve<K: Shelf + Drop + Send>(
    rt: &(impl Threads
        + Clock
        + Wait
        + Sync
        + Net<Listener = TcpListener, Stream = TcpStream>
        + Print
        + AllocGlobal),
    setup: Setup,
    start: Option<Gas>,
    address: SocketAddr,
    shelves: Vec<K>,
) -> u8
    requires setup { IsInRange setup }
    requires shelves { (0 < vec_len shelves) × (vec_len shelves ≤ most_sessions) }
{
    let Ok(mut lobby) = listen(rt, address) else {
        return Status::Failed.number();
    };
    serve_on(
        rt,
        rt.alloc(),
        setup,
        start,
        &mut lobby,
        shelves,
        &mut io::writer(rt),
    )
}

// What the words ask for, or else what the program exits with.
fn plan_of<'a>(rt: &(impl Eprint + AllocGlobal), words: &'a [String]) -> Result<Plan<'a>, Status>
    ensures { IfOk result (λ plan. IsInRange plan.setup × HasSessions plan.service) }
{
    match plan(rt.alloc(), words) {
        Ok(plan) => Ok(plan),
        Err(PlanFault::Memory) => Err(Status::NoMemory),
        Err(PlanFault::Line(text)) => {
            // The status tells that there is no plan, whether or not this can be written.
            drop(eprint!(rt; "{text}"));
            Err(Status::NoPlan)
        }
    }
}

// The words of the command line, or else what the program exits with.
fn words_of(rt: &(impl Env + Eprint + AllocGlobal)) -> Result<Vec<String>, Status> {
    match env::args(rt) {
        Ok(words) => words.collect(rt.alloc()).map_err(|_| Status::NoMemory),
        Err(fault) if fault.kind() == io::ErrorKind::OutOfMemory => Err(Status::NoMemory),
        Err(_) => {
            // The status tells of the fault, whether or not this can be written.
            drop(eprint!(rt; "{NOT_UTF8}"));
            Err(Status::NoPlan)
        }
    }
}

// What the words ask for and the gas to start from, or else what the program exits with.
fn prepare<'a>(
    rt: &(impl Eprint + Files + AllocGlobal),
    words: &'a [String],
) -> Result<(Plan<'a>, Option<Gas>), Status>
    ensures { IfOk result (λ found. IsInRange found.0.setup × HasSessions found.0.service) }
{
    let plan = match plan_of(rt, words) {
        Ok(plan) => plan,
        Err(status) => return Err(status),
    };
    match start_of(rt, plan.load) {
        Ok(start) => Ok((plan, start)),
        Err(status) => Err(status),
    }
}

fn main(rt: HostRuntime) -> ExitCode {
    let words = match words_of(&rt) {
        Ok(words) => words,
        Err(status) => return ExitCode::from(status.number()),
    };
    let (plan, start) = match prepare(&rt, words.as_slice()) {
        Ok(found) => found,
        Err(status) => return ExitCode::from(status.number()),
    };
    let status = match plan.service {
        Service::Run => run(&rt, plan.setup, start, plan.save),
        Service::Serve { address, sessions } => match shelves_of(&rt, plan.save, sessions) {
            Ok(shelves) => serve(&rt, plan.setup, start, address, shelves),
            Err(_) => Status::NoMemory.number(),
        },
    };
    ExitCode::from(status)
}
