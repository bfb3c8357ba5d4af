//! Steps, walls, obstacles, rows and the journal.

use crate::script::{LARGE, LabShape, SMALL, gives, gives_by_teams, gives_on};

#[test]
fn one_particle_steps(rt: HostRuntime) {
    gives(
        &rt,
        "put 0 0 1 1; step 1; probe 1 1 1 1; tally",
        "OK 0; OK 1; PROBE 1 1 1; TALLY 1 1 1 1",
    );
}

#[test]
fn back_across_the_seam(rt: HostRuntime) {
    gives(
        &rt,
        "put 0 0 1 1; back 1; tally; probe 63 63 1 1",
        "OK 0; OK 1; TALLY -1 1 1 1; PROBE 1 1 1",
    );
}

#[test]
fn head_on_pair_turns(rt: HostRuntime) {
    gives(
        &rt,
        "put 0 0 1 1; put 1 1 1 1; step 1; probe 1 0 1 1; probe 0 1 1 1",
        "OK 0; OK 1; OK 2; PROBE 1 1 -1; PROBE 1 -1 1",
    );
}

#[test]
fn three_in_a_block_pass(rt: HostRuntime) {
    gives(
        &rt,
        "put 0 0 2 1; put 1 1 1 1; step 1; probe 0 0 1 2; probe 1 0 1 1; probe 1 1 1 1; tally",
        "OK 0; OK 1; OK 2; PROBE 2 -2 0; PROBE 0 0 0; PROBE 1 1 1; TALLY 1 3 -1 1",
    );
}

#[test]
fn particle_bounces_off_a_wall(rt: HostRuntime) {
    gives(
        &rt,
        "put 0 0 1 1; wall 1 1 1 1; step 1; tally; ledger",
        "OK 0; OK 1; OK 2; TALLY 1 1 -1 -1; LEDGER 0 1 0 0 1 0 2 0 0 1 0 2 0",
    );
}

#[test]
fn particle_on_a_wall_stays(rt: HostRuntime) {
    gives(
        &rt,
        "put 5 5 1 1; put 5 5 1 1; wall 5 5 1 1; step 2; ledger",
        "OK 0; OK 1; OK 2; OK 3; LEDGER 0 1 0 0 -1 0 0 0 0 -1 0 0 0",
    );
}

#[test]
fn channel_between_walls_undone_by_a_team(rt: HostRuntime) {
    gives_by_teams(
        &rt,
        SMALL,
        "wall 0 20 64 1; wall 0 29 64 1; put 28 21 8 8; step 100; back 100; tally; ledger; read 21; read 28; read 29",
        "OK 0; OK 1; OK 2; OK 3; OK 4; TALLY 0 64 0 0; LEDGER 0 64 0 0 0 0 0 0 0 0 0 0 0; ROW 0000000ff0000000; ROW 0000000ff0000000; ROW 0000000000000000",
    );
    gives_by_teams(
        &rt,
        LARGE,
        "wall 0 20 128 1; wall 0 29 128 1; put 28 21 8 8; step 100; back 100; tally; ledger",
        "OK 0; OK 1; OK 2; OK 3; OK 4; TALLY 0 64 0 0; LEDGER 0 64 0 0 0 0 0 0 0 0 0 0 0",
    );
}

#[test]
fn head_on_pair_across_tiles(rt: HostRuntime) {
    gives_by_teams(
        &rt,
        LARGE,
        "step 1; put 63 63 1 1; put 64 64 1 1; step 1; probe 64 63 1 1; probe 63 64 1 1; tally",
        "OK 0; OK 1; OK 2; OK 3; PROBE 1 1 -1; PROBE 1 -1 1; TALLY 2 2 0 0",
    );
}

#[test]
fn wall_across_tiles_books_once(rt: HostRuntime) {
    gives_by_teams(
        &rt,
        LARGE,
        "step 1; put 63 63 1 1; wall 64 64 1 1; step 1; tally; ledger",
        "OK 0; OK 1; OK 2; OK 3; TALLY 2 1 -1 -1; LEDGER 0 1 0 0 1 0 2 0 0 1 0 2 0",
    );
    gives_by_teams(
        &rt,
        LARGE,
        "step 1; put 63 63 1 1; block 64 64 1 1; step 1; tally; ledger",
        "OK 0; OK 1; OK 2; OK 3; TALLY 2 1 -1 -1; LEDGER 0 1 0 0 1 0 0 2 0 1 0 0 2",
    );
}

#[test]
fn full_journal_refuses_changes(rt: HostRuntime) {
    gives_on(
        &rt,
        LabShape { cap: 2, ..SMALL },
        "put 63 63 2 1; step 0; put 0 0 1 1; wall 1 1 1 1; erase 0 0 1 1; entry 1; entry 2; tally",
        "ERR 5 rect; ERR 6 steps; OK 0; OK 1; ERR 13 journal; ENTRY 0 wall 1 1 1 1; ERR 9 entry; TALLY 0 1 1 1",
    );
}

#[test]
fn rows_and_hex(rt: HostRuntime) {
    gives(
        &rt,
        "row 0 8000000000000001; row 0 C000000000000000; erase 0 0 1 1; read 0; entry 1; ledger",
        "OK 0; OK 1; OK 2; ROW 4000000000000000; ENTRY 0 row 0 c000000000000000; LEDGER 0 3 2 0 -1 0 0 0 0 3 2 0 0",
    );
    gives(
        &rt,
        "row 0 80000000; row 0 zzzzzzzzzzzzzzzz; row 64 8000000000000000; read 64",
        "ERR 8 row; ERR 8 row; ERR 5 rect; ERR 5 rect",
    );
}

#[test]
fn row_into_a_full_journal(rt: HostRuntime) {
    gives_on(
        &rt,
        LabShape { cap: 1, ..SMALL },
        "row 0 FFFFFFFFFFFFFFFF; entry 0; row 1 ffffffffffffffff; read 1; quit; tally",
        "OK 0; ENTRY 0 row 0 ffffffffffffffff; ERR 13 journal; ROW 0000000000000000; BYE",
    );
}

#[test]
fn wall_removed_again(rt: HostRuntime) {
    gives(
        &rt,
        "put 0 0 1 1; wall 1 1 2 2; unwall 1 1 2 2; step 1; probe 1 1 1 1",
        "OK 0; OK 1; OK 2; OK 3; PROBE 1 1 1",
    );
}

#[test]
fn block_across_the_seam(rt: HostRuntime) {
    gives(
        &rt,
        "step 1; put 63 63 1 1; step 1; probe 0 0 1 1",
        "OK 0; OK 1; OK 2; PROBE 1 1 1",
    );
}

#[test]
fn wall_account_alternates(rt: HostRuntime) {
    gives(
        &rt,
        "wall 0 0 64 64; put 5 5 1 1; step 3; ledger; back 3; ledger",
        "OK 0; OK 1; OK 2; LEDGER 0 1 0 0 -1 0 -2 0 0 -1 0 -2 0; OK 3; LEDGER 0 1 0 0 -1 0 0 0 0 -1 0 0 0",
    );
}

#[test]
fn particle_bounces_off_an_obstacle(rt: HostRuntime) {
    gives(
        &rt,
        "put 0 0 1 1; block 1 1 1 1; step 1; tally; ledger",
        "OK 0; OK 1; OK 2; TALLY 1 1 -1 -1; LEDGER 0 1 0 0 1 0 0 2 0 1 0 0 2",
    );
}

#[test]
fn wall_and_obstacle_in_one_block(rt: HostRuntime) {
    gives(
        &rt,
        "put 0 0 1 1; wall 1 0 1 1; block 1 1 1 1; step 1; ledger; back 1; unwall 1 1 1 1; step 1; ledger",
        "OK 0; OK 1; OK 2; OK 3; LEDGER 0 1 0 0 1 0 0 2 0 1 0 0 2; OK 4; OK 5; OK 6; LEDGER 0 1 0 0 1 0 2 0 0 1 0 2 0",
    );
}
