//! Sources and drains.

use crate::script::{LabShape, SMALL, gives, gives_on};
use std::process::Abort;
use std::thread::Threads;
use std::time::Clock;

#[test]
fn drained_particle_is_booked(rt: HostRuntime) {
    gives(
        &rt,
        "put 0 0 1 1; drain 1 1 1 1; step 1; ledger",
        "OK 0; OK 1; OK 2; LEDGER 0 1 1 0 1 1 0 0 0 1 1 0 0",
    );
}

#[test]
fn source_on_its_period(rt: HostRuntime) {
    gives(
        &rt,
        "source 10 10 1 1 2; step 3; probe 11 11 1 1",
        "OK 0; OK 1; PROBE 1 1 1",
    );
}

#[test]
fn source_refills_a_drain(rt: HostRuntime) {
    gives(
        &rt,
        "source 10 10 1 1 2; drain 10 10 1 1; step 3; probe 11 11 1 1",
        "OK 0; OK 1; OK 2; PROBE 1 1 1",
    );
}

#[test]
fn back_is_refused_while_ports_stand(rt: HostRuntime) {
    gives(
        &rt,
        "source 0 0 1 1 1; back 1; unport; back 1; tally",
        "OK 0; ERR 11 ports; OK 1; OK 2; TALLY -1 0 0 0",
    );
}

#[test]
fn drained_and_refilled_cancels(rt: HostRuntime) {
    gives(
        &rt,
        "put 0 0 1 1; drain 1 1 1 1; source 1 1 1 1 1; step 1; tally; ledger",
        "OK 0; OK 1; OK 2; OK 3; TALLY 1 1 1 1; LEDGER 0 1 0 0 1 0 0 0 0 1 0 0 0",
    );
}

const SIXTEEN: &str =
    "OK 0; OK 1; OK 2; OK 3; OK 4; OK 5; OK 6; OK 7; OK 8; OK 9; OK 10; OK 11; OK 12; OK 13; OK 14; OK 15; ";

// Sixteen such ports are added, the seventeenth is refused, and the lines after them are answered.
fn seventeen(
    rt: &(impl Abort + AllocGlobal + Threads + Clock),
    port: &str,
    then: &str,
    told: &str,
) {
    let mut script = String::new(rt.alloc());
    for _ in 0..17u32 {
        script.push_str(port).expect(rt, "memory");
    }
    script.push_str(then).expect(rt, "memory");
    let output = format!(in rt.alloc(); "{SIXTEEN}ERR 10 full; {told}").expect(rt, "memory");
    gives(rt, script.as_str(), output.as_str());
}

#[test]
fn seventeen_sources(rt: HostRuntime) {
    let then = "drain 0 0 1 1; step 1; tally";
    let told = "OK 16; OK 17; TALLY 1 1 -1 -1";
    seventeen(&rt, "source 0 0 1 1 1; ", then, told);
}

#[test]
fn seventeen_drains(rt: HostRuntime) {
    let then = "unport; drain 0 0 1 1";
    seventeen(&rt, "drain 0 0 1 1; ", then, "OK 16; OK 17");
}

#[test]
fn ports_before_journal(rt: HostRuntime) {
    gives_on(
        &rt,
        LabShape { cap: 1, ..SMALL },
        "source 0 0 1 1 1; back 1; unport",
        "OK 0; ERR 11 ports; ERR 13 journal",
    );
}
