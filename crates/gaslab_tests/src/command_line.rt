//! Command lines and the plans that they give, and the texts of help and faults.

use crate::expected::{expect_same, expect_that};
use gaslab::{Plan, PlanFault, Service, Status, plan};
use std::net::{IpAddr, Ipv4Addr, SocketAddr};
use std::process::Abort;

// Width, height and capacity of a plan.
fn numbers(found: &Plan<'_>) -> [u32; 3] {
    let size = found.setup.size;
    [size.width() as u32, size.height() as u32, found.setup.cap]
}

fn planned<'a>(rt: &(impl Abort + AllocGlobal), words: &'a [&'a str]) -> Plan<'a> {
    match plan(rt.alloc(), words) {
        Ok(found) => found,
        Err(_) => panic!(rt; "the words were not understood"),
    }
}

// The words are read as this width, height and capacity, and nothing to load or save.
fn plans(rt: &(impl Abort + AllocGlobal), words: &[&str], wanted: [u32; 3]) {
    let found = planned(rt, words);
    expect_same(&rt, numbers(&found), wanted);
    expect_that(&rt, found.load.is_none());
    expect_that(&rt, found.save.is_none());
}

// The text if the words ask for something else.
fn text_of(rt: &(impl Abort + AllocGlobal), words: &[&str]) -> String {
    match plan(rt.alloc(), words) {
        Err(PlanFault::Line(text)) => text,
        Err(PlanFault::Memory) => panic!(rt; "memory"),
        Ok(_) => panic!(rt; "the words were understood"),
    }
}

// The text for the words has all these parts.
fn teaches(rt: &(impl Abort + AllocGlobal), words: &[&str], parts: &[&str]) {
    let text = text_of(rt, words);
    for part in parts {
        assert!(rt;
            text.as_str().split_once(*part).is_some(),
            "{part} is not in: {text}"
        );
    }
}

const NO_SIDES: [&str; 16] = [
    "0",
    "1",
    "63",
    "65",
    "100",
    "2047",
    "4095",
    "4097",
    "4160",
    "65600",
    "4294967296",
    "4294967360",
    "x",
    "",
    "64.0",
    "0x40",
];

const WIDTH: [&str; 5] = [
    "--width",
    "multiple of 64",
    "from 64 to 4096",
    "is 64",
    "--width 256",
];

const HEIGHT: [&str; 5] = [
    "--height",
    "multiple of 64",
    "from 64 to 4096",
    "is 64",
    "--height 128",
];

const NO_CAPACITIES: [&str; 7] = ["0", "65537", "4294967296", "4294967297", "x", "", "1e3"];

const CAPACITY: [&str; 4] = ["--cap", "from 1 to 65536", "is 1024", "--cap 5000"];

const WORKERS: [&str; 4] = ["--workers", "from 1 to 16", "is 1", "--workers 4"];

const OPTIONS_OF_RUN: [&str; 5] = ["--width", "--height", "--cap", "--load", "--save"];

const NO_SESSIONS: [&str; 6] = ["0", "65", "256", "4294967297", "x", ""];

const SESSIONS: [&str; 4] = ["--sessions", "from 1 to 64", "is 1", "--sessions 2"];

const NO_ADDRESSES: [&str; 6] = [
    "127.0.0.1",
    "7878",
    "localhost:7878",
    "127.0.0.1:65536",
    "127.0.0.256:1",
    "",
];

const LISTEN: [&str; 4] = [
    "--listen",
    "IP address and port",
    "is 127.0.0.1:0",
    "--listen 127.0.0.1:7878",
];

// Each of these values of the option is refused, and the text has all these parts.
fn refuses(
    rt: &(impl Abort + AllocGlobal),
    command: &str,
    option: &str,
    values: &[&str],
    parts: &[&str],
) {
    for value in values {
        teaches(rt, &["gaslab", command, option, *value], parts);
    }
}

// Each of these options is refused without a value.
fn refuses_alone(rt: &(impl Abort + AllocGlobal), command: &str, options: &[&str]) {
    for option in options {
        teaches(rt, &["gaslab", command, *option], &[*option]);
    }
}

#[test]
fn values_beyond_the_limits_teach(rt: HostRuntime) {
    refuses(&rt, "run", "--width", &NO_SIDES, &WIDTH);
    refuses(&rt, "run", "--height", &NO_SIDES, &HEIGHT);
    refuses(&rt, "run", "--cap", &NO_CAPACITIES, &CAPACITY);
    refuses(&rt, "run", "--workers", &["0", "17", "256"], &WORKERS);
    refuses(&rt, "serve", "--sessions", &NO_SESSIONS, &SESSIONS);
    refuses(&rt, "serve", "--listen", &NO_ADDRESSES, &LISTEN);
    refuses(&rt, "serve", "--width", &["65"], &WIDTH);
    refuses_alone(&rt, "run", &OPTIONS_OF_RUN);
    refuses_alone(&rt, "serve", &["--listen", "--sessions"]);
}

// The option of a run is read as this width, height and capacity.
fn plans_with(rt: &(impl Abort + AllocGlobal), option: &str, value: &str, wanted: [u32; 3]) {
    plans(rt, &["gaslab", "run", option, value], wanted);
}

#[test]
fn limits_of_options(rt: HostRuntime) {
    plans(&rt, &["gaslab", "run"], [64, 64, 1024]);
    plans(&rt, &["gaslab", "run", "--width=64"], [64, 64, 1024]);
    plans_with(&rt, "--width", "128", [128, 64, 1024]);
    plans_with(&rt, "--width", "4096", [4096, 64, 1024]);
    plans_with(&rt, "--height", "4096", [64, 4096, 1024]);
    plans_with(&rt, "--height", "192", [64, 192, 1024]);
    plans_with(&rt, "--cap", "1", [64, 64, 1]);
    plans_with(&rt, "--cap", "65536", [64, 64, 65536]);
}

#[test]
fn paths_of_a_plan(rt: HostRuntime) {
    let words = [
        "gaslab",
        "run",
        "--load",
        "start.gas",
        "--height",
        "128",
        "--save",
        "end.gas",
        "--cap",
        "7",
    ];
    let found = planned(&rt, &words);
    expect_same(&rt, numbers(&found), [64, 64, 7]);
    expect_same(&rt, found.load, Some("start.gas"));
    expect_same(&rt, found.save, Some("end.gas"));
}

// The snapshot's size then holds.
#[test]
fn sizes_beside_a_snapshot(rt: HostRuntime) {
    for (width, height) in [("65", "100"), ("0", "4160"), ("4097", "63")] {
        let words = [
            "gaslab",
            "run",
            "--width",
            width,
            "--height",
            height,
            "--load",
            "start.gas",
        ];
        let found = planned(&rt, &words);
        expect_same(&rt, numbers(&found), [64, 64, 1024]);
        expect_same(&rt, found.load, Some("start.gas"));
        expect_that(&rt, found.save.is_none());
    }
}

fn workers_of(rt: &(impl Abort + AllocGlobal), words: &[&str]) -> u8 {
    planned(rt, words).setup.workers
}

fn workers_with(rt: &(impl Abort + AllocGlobal), value: &str) -> u8 {
    workers_of(rt, &["gaslab", "run", "--workers", value])
}

#[test]
fn limits_of_workers(rt: HostRuntime) {
    expect_same(&rt, workers_of(&rt, &["gaslab", "run"]), 1);
    expect_same(&rt, workers_with(&rt, "1"), 1);
    expect_same(&rt, workers_with(&rt, "16"), 16);
}

#[test]
fn options_that_are_not_there(rt: HostRuntime) {
    for option in ["--listen", "--sessions", "--speed"] {
        teaches(&rt, &["gaslab", "run", option, "2"], &[option]);
    }
    teaches(&rt, &["gaslab", "jump"], &["jump"]);
    teaches(&rt, &["gaslab", "run", "tunnel.gas"], &["tunnel.gas"]);
    teaches(&rt, &["gaslab", "--width", "64"], &["--width"]);
}

// Where the words have it listen, and for how many sessions.
fn service_of(rt: &(impl Abort + AllocGlobal), words: &[&str]) -> Service {
    planned(rt, words).service
}

fn here(port: u16, sessions: u8) -> Service {
    Service::Serve {
        address: SocketAddr::new(IpAddr::V4(Ipv4Addr::LOCALHOST), port),
        sessions,
    }
}

#[test]
fn plan_of_a_server(rt: HostRuntime) {
    expect_same(&rt, service_of(&rt, &["gaslab", "run"]), Service::Run);
    expect_same(&rt, service_of(&rt, &["gaslab", "serve"]), here(0, 1));
    let words = [
        "gaslab",
        "serve",
        "--listen",
        "127.0.0.1:7878",
        "--sessions",
        "2",
    ];
    expect_same(&rt, service_of(&rt, &words), here(7878, 2));
    let words = ["gaslab", "serve", "--sessions", "64"];
    expect_same(&rt, service_of(&rt, &words), here(0, 64));
    plans(
        &rt,
        &["gaslab", "serve", "--width", "128", "--cap", "7"],
        [128, 64, 7],
    );
    expect_same(
        &rt,
        workers_of(&rt, &["gaslab", "serve", "--workers", "3"]),
        3,
    );
    expect_that(
        &rt,
        matches!(
            service_of(&rt, &["gaslab", "serve", "--listen", "[::1]:80"]),
            Service::Serve { .. }
        ),
    );
}

#[test]
fn help_of_a_server_teaches(rt: HostRuntime) {
    teaches(
        &rt,
        &["gaslab", "serve", "--help"],
        &[
            "--listen ",
            "--sessions ",
            "--width ",
            "--workers ",
            "--cap ",
            "--load ",
            "--save ",
            "from 1 to 64",
            "IP address and port",
            "127.0.0.1:0]",
            "LISTEN",
            "SERVED",
            "nc 127.0.0.1 7878",
            "Exit status",
        ],
    );
    teaches(&rt, &["gaslab", "--help"], &["run", "serve"]);
}

#[test]
fn help_teaches(rt: HostRuntime) {
    let experiment = [
        "put 0 0 1 1",
        "step 1",
        "probe 1 1 1 1",
        "tally",
        "gaslab run",
        "OK 0",
        "PROBE 1 1 1",
        "TALLY 1 1 1 1",
    ];
    teaches(&rt, &["gaslab", "--help"], &experiment);
    teaches(&rt, &["gaslab"], &experiment);
    teaches(
        &rt,
        &["gaslab", "run", "--help"],
        &[
            "--width",
            "--height",
            "--cap",
            "--load",
            "--save",
            "multiple of 64",
            "from 64 to 4096",
            "from 1 to 65536",
            "64]",
            "1024]",
            "--width 256",
            "--height 128",
            "--cap 5000",
            "--load tunnel.gas",
            "--save tunnel.gas",
            "Exit status",
        ],
    );
    let nothing: [&str; 0] = [];
    teaches(&rt, &nothing, &["gaslab"]);
}

#[test]
fn numbers_of_statuses(rt: HostRuntime) {
    let numbers = [
        Status::Done.number(),
        Status::Failed.number(),
        Status::NoPlan.number(),
        Status::NotLoaded.number(),
        Status::NoMemory.number(),
        Status::BadLine.number(),
    ];
    expect_same(&rt, numbers, [0, 1, 2, 3, 4, 5]);
}
