//! The command line, and the texts of its help and faults.

ghost use Rattle.std.specs.Prelude.{◌≤◌, IfOk};
ghost use Rattle.gas_run.specs.Plans.{IsInRange, HasSessions};

use crate::setup::{MOST_SESSIONS, MOST_WORKERS, Plan, PlanFault, Service, Setup};
use clap::error::ErrorKind;
use clap::{Arg, ArgMatches, Command};
use gas_terms::{MOST_ENTRIES, MOST_SIDE, NoMemory, Size};
use std::alloc::Global;
use std::convert::AsStr;
use std::net::SocketAddr;

const ABOUT: &str =
    "A flow laboratory on the HPP lattice gas. It steps forwards and backwards, and its sums are exact.";

const EXPERIMENT: &str = "One small experiment:
  printf 'put 0 0 1 1\\nstep 1\\nprobe 1 1 1 1\\ntally\\n' | ./gaslab run
It puts a particle into the cell (0, 0), makes a step, and asks for the count and the
momentum in the cell (1, 1) and in the whole gas. It prints:
  OK 0
  OK 1
  PROBE 1 1 1
  TALLY 1 1 1 1
The commands are: put, erase, wall, block, unwall, row, source, drain, unport, step, back, probe,
tally, ledger, read, entry, save, quit. docs/FORMATS.md has each of them, with its reply.";

const RUN: &str =
    "Runs one session: reads commands from standard input and writes replies to standard output";

const SERVE: &str = "Serves several sessions over sockets, all on one gas";

const NO_COMMAND: &str =
    "gaslab: no command was given. Try ./gaslab run, or ./gaslab --help for more\n";

const RUN_MORE: &str = "Exit status:
  0  the session ended by quit or at the end of its input
  1  reading the input or writing a reply failed
  2  this command line has an error, or asks for help
  3  the file of --load can't be read or is not a snapshot
  4  memory ran out: try a smaller lattice
  5  a line was longer than 2048 bytes or not UTF-8
Examples:
  ./gaslab run --width 256 --height 128 --cap 5000 --save tunnel.gas
  ./gaslab run --load tunnel.gas";

const SERVE_MORE: &str =
    "It prints LISTEN and its address, and waits for clients. When all sessions have ended, it prints
SERVED, how many seats were served, how many were not, and how many changes all made together.
Exit status:
  0  all sessions have ended
  1  the address can't be used, or standard output failed
  2  this command line has an error, or asks for help
  3  the file of --load can't be read or is not a snapshot
  4  memory ran out: try a smaller lattice
Example: two people, each with a terminal of their own, on one gas:
  ./gaslab serve --listen 127.0.0.1:7878 --sessions 2
  nc 127.0.0.1 7878      in the second terminal; type  put 0 0 1 1  and see  OK 0
  nc 127.0.0.1 7878      in the third; type  entry 0  and see  ENTRY 0 put 0 0 1 1
Each ends with quit.";

// What the text of a wrong value says of its option.
#[derive(Clone, Copy)]
struct Advice {
    help: &'static str,
    example: &'static str,
    default: &'static str,
}

const LISTEN_HELP: &str = "IP address and port to use, port 0 for a free one";

const ANY_PORT: &str = "127.0.0.1:0";

/// An option that takes a number.
#[derive(Clone, Copy)]
struct NumberOption {
    name: &'static str,
    help: &'static str,
    example: &'static str,
    default: &'static str,
    least: u32,
    most: u32,
}

const WIDTH: NumberOption = NumberOption {
    name: "width",
    help: "Lattice width in cells: a multiple of 64, from 64 to 4096",
    example: "256",
    default: "64",
    least: 64,
    most: MOST_SIDE,
};

const HEIGHT: NumberOption = NumberOption {
    name: "height",
    help: "Lattice height in cells: a multiple of 64, from 64 to 4096",
    example: "128",
    default: "64",
    least: 64,
    most: MOST_SIDE,
};

const WORKERS: NumberOption = NumberOption {
    name: "workers",
    help: "Threads that step the gas, for speed only: from 1 to 16",
    example: "4",
    default: "1",
    least: 1,
    most: MOST_WORKERS,
};

const CAP: NumberOption = NumberOption {
    name: "cap",
    help: "How many changes the journal has room for: from 1 to 65536",
    example: "5000",
    default: "1024",
    least: 1,
    most: MOST_ENTRIES,
};

const SESSIONS: NumberOption = NumberOption {
    name: "sessions",
    help: "How many sessions to serve, each once: from 1 to 64",
    example: "2",
    default: "1",
    least: 1,
    most: MOST_SESSIONS,
};

impl NumberOption {
    fn arg<'a>(self, alloc: Global) -> Arg<'a> {
        Arg::new(alloc, self.name)
            .long(self.name)
            .value_name("N")
            .default_value(self.default)
            .help(self.help)
    }

    // The number that was given, or else the default.
    fn number(self, alloc: Global, found: &ArgMatches<'_>) -> Result<u32, PlanFault>
        ensures { IfOk result (λ n. (self.least ≤ n) × (n ≤ self.most)) }
    {
        match found.get_one::<u32>(self.name) {
            Some(n) if self.least <= n && n <= self.most => Ok(n),
            _ => Err(self.fault(alloc, found)?),
        }
    }

    fn fault(self, alloc: Global, found: &ArgMatches<'_>) -> Result<PlanFault, NoMemory> {
        let text = Advice {
            help: self.help,
            example: self.example,
            default: self.default,
        };
        no_value(alloc, found, self.name, text)
    }
}

// The text for a wrong value of an option.
fn no_value(
    alloc: Global,
    found: &ArgMatches<'_>,
    name: &str,
    advice: Advice,
) -> Result<PlanFault, NoMemory> {
    let Advice {
        help,
        example,
        default,
    } = advice;
    let given = found.get_str(name).unwrap_or(default);
    let text = format!(in alloc;
        "gaslab: --{name} can't be {given}.\n{help}, as in --{name} {example}. The default is {default}.\n"
    )?;
    Ok(PlanFault::Line(text))
}

fn path_arg<'a>(alloc: Global, name: &'a str, help: &'a str) -> Arg<'a> {
    Arg::new(alloc, name)
        .long(name)
        .value_name("PATH")
        .help(help)
}

// A command with the options that both have.
fn command<'a>(
    alloc: Global,
    name: &'a str,
    about: &'a str,
    more: &'a str,
) -> Result<Command<'a>, clap::Error> {
    let load = "Start from the snapshot in this file, with its width and height";
    let save = "File for the command save; without it, save gets ERR 15 save";
    Ok(
        Command::new(alloc, name)
            .about(about)
            .after_help(more)
            .arg(WIDTH.arg(alloc))?
            .arg(HEIGHT.arg(alloc))?
            .arg(WORKERS.arg(alloc))?
            .arg(CAP.arg(alloc))?
            .arg(path_arg(alloc, "load", load))?
            .arg(path_arg(alloc, "save", save))?,
    )
}

fn listen_arg<'a>(alloc: Global) -> Arg<'a> {
    Arg::new(alloc, "listen")
        .long("listen")
        .value_name("ADDR")
        .default_value(ANY_PORT)
        .help(LISTEN_HELP)
}

fn serve_command<'a>(alloc: Global) -> Result<Command<'a>, clap::Error> {
    let serve = command(alloc, "serve", SERVE, SERVE_MORE)?.arg(listen_arg(alloc))?;
    Ok(serve.arg(SESSIONS.arg(alloc))?)
}

// The program, without its commands.
fn program<'a>(alloc: Global) -> Result<Command<'a>, clap::Error> {
    let program = Command::new(alloc, "gaslab").bin_name("./gaslab")?;
    Ok(
        program
            .about(ABOUT)
            .after_help(EXPERIMENT)
            .arg_required_else_help(true),
    )
}

fn commands<'a>(alloc: Global) -> Result<Command<'a>, clap::Error> {
    let run = command(alloc, "run", RUN, RUN_MORE)?;
    let program = program(alloc)?.subcommand(run)?;
    Ok(program.subcommand(serve_command(alloc)?)?)
}

fn fault_of(alloc: Global, error: &clap::Error) -> PlanFault {
    if error.kind() == ErrorKind::OutOfMemory {
        return PlanFault::Memory;
    }
    match format!(in alloc; "{error}") {
        Ok(text) => PlanFault::Line(text),
        Err(_) => PlanFault::Memory,
    }
}

// The size of a new lattice.
fn size_of(alloc: Global, found: &ArgMatches<'_>) -> Result<Size, PlanFault> {
    let width = WIDTH.number(alloc, found)?;
    let height = HEIGHT.number(alloc, found)?;
    if width % 64 != 0 {
        return Err(WIDTH.fault(alloc, found)?);
    }
    match Size::new(width, height) {
        Some(size) => Ok(size),
        None => Err(HEIGHT.fault(alloc, found)?),
    }
}

// Where to listen, and for how many sessions.
fn serving(alloc: Global, found: &ArgMatches<'_>) -> Result<Service, PlanFault>
    ensures { IfOk result HasSessions }
{
    let sessions = SESSIONS.number(alloc, found)? as u8;
    let advice = Advice {
        help: LISTEN_HELP,
        example: "127.0.0.1:7878",
        default: ANY_PORT,
    };
    match found.get_one::<SocketAddr>("listen") {
        Some(address) => Ok(Service::Serve { address, sessions }),
        None => Err(no_value(alloc, found, "listen", advice)?),
    }
}

// The options that both commands have.
fn plan_for<'a>(
    alloc: Global,
    found: &ArgMatches<'a>,
    service: Service,
) -> Result<Plan<'a>, PlanFault>
    requires { HasSessions service }
    ensures { IfOk result (λ plan. IsInRange plan.setup × HasSessions plan.service) }
{
    let load = found.get_str("load");
    // A snapshot has a size of its own, so those of the line are not looked at.
    let size = match load {
        Some(_) => Size::new(64, 64).unwrap(),
        None => size_of(alloc, found)?,
    };
    let workers = WORKERS.number(alloc, found)? as u8;
    let cap = CAP.number(alloc, found)?;
    Ok(Plan {
        service,
        setup: Setup { size, workers, cap },
        load,
        save: found.get_str("save"),
    })
}

/// Reads the words of a command line, the first of which is the program's name.
pub fn plan<'a, S: AsStr>(alloc: Global, words: &'a [S]) -> Result<Plan<'a>, PlanFault>
    ensures { IfOk result (λ plan. IsInRange plan.setup × HasSessions plan.service) }
{
    let found = match commands(alloc) {
        Ok(command) => command.try_get_matches_from(words),
        Err(error) => Err(error),
    };
    let found = match found {
        Ok(found) => found,
        Err(error) => return Err(fault_of(alloc, &error)),
    };
    if let Some(run) = found.subcommand_matches("run") {
        return plan_for(alloc, run, Service::Run);
    }
    if let Some(serve) = found.subcommand_matches("serve") {
        let service = serving(alloc, serve)?;
        return plan_for(alloc, serve, service);
    }
    let text = String::from_str(alloc, NO_COMMAND)?;
    Err(PlanFault::Line(text))
}
