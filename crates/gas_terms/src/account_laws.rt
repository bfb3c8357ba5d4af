//! Laws of sums and accounts. A law is a function with an empty body; its contract is the law.

ghost use Rattle.std.specs.Prelude.{◌≡◌, ℕ, ◌*◌, ◌^◌, ◌<◌, ◌≤◌, ◌%◌, ℤ, pos, negsuc, true, nat_abs, length, List, [], ◌∷◌};
ghost use Rattle.std.specs.List.{range_with_len, All, sum_by};
ghost use Rattle.gas_terms.specs.Velocity.{parity};
ghost use Rattle.gas_terms.specs.Cells.{Cells, joined, HasEvenSides, HasSidesOf, IsEvenTorus, Rectangle, extent, is_size, lies_within, within, whole, tile_count, tile_rectangle};
ghost use Rattle.gas_terms.specs.Gas.{Gas, Site, is_walled, takes_for_walls, takes_for_obstacles, streamed, forward, back};
ghost use Rattle.gas_terms.specs.Accounts.{plus_all, taken_at, taken, together, stopped, twice_momentum, total, total_in, parity_count, sums_by_parity, plus, minus, less_taken, gained, lost, gas_total, gas_taken, nothing, balance, IsOfAtMost, IsTakenOfAtMost, IsLedgerOfAtMost, FitsI64};
ghost use Rattle.gas_terms.specs.Commands.{most_steps, replay};
ghost use Rattle.gas_terms.specs.SmallRuns.{at_cell, sums, pair, sourced, drained_and_sourced, seam, walled_pair, wall_removed, shut_in, let_go, rows, one_step, one_back, collision, three, bounce, on_a_wall, drained, drain_on_a_particle, two_drains, drained_and_filled, obstructed, wall_and_obstacle, wall_alone};
ghost use Rattle.gas_terms.specs.BookedGas.{BookedGas, opened, changed, book_all, changes, IsStretch};
ghost use Rattle.gas_terms.specs.Laboratory.{most_entries};
ghost use Rattle.gas_terms.specs.declared.command.Command.{Command};
ghost use Rattle.gas_terms.specs.declared.command.Command.TheVariants.{Step, Back};
ghost use Rattle.gas_terms.specs.declared.accounts.Ledger.{Ledger};

/// The sums over the channels of all sites are the sums over all cells.
pub fn sums_over_cells()
    ensures { (tick : ℤ) (cells : Cells) → HasEvenSides cells.width cells.height →
        total tick cells ≡ total_in tick cells (whole cells) }
{}

/// The particles of a rectangle may be counted by the parities of their places.
pub fn sums_by_parities()
    ensures counts { (cells : Cells) (r : Rectangle) (a b : ℕ) →
        parity_count cells r a b ≤ r.w * r.h }
    ensures sums { (tick : ℤ) (cells : Cells) (r : Rectangle) →
        let count = parity_count cells r in
        total_in tick cells r
        ≡ sums_by_parity tick (count 0 0) (count 1 0) (count 0 1) (count 1 1) }
{}

/// The sums in a rectangle are those of the particles within it.
pub fn sums_within_rectangle()
    ensures { (tick : ℤ) (cells : Cells) (r : Rectangle) →
        HasEvenSides cells.width cells.height → lies_within (extent cells) r ≡ true →
        total_in tick cells r ≡ total tick (within cells r) }
{}

/// The sums over all cells are those over its tiles.
pub fn sums_over_tiles()
    ensures { (tick : ℤ) (cells : Cells) → cells.width % 64 ≡ 0 → cells.height % 64 ≡ 0 →
        total tick cells
        ≡ plus_all (λ i. total_in tick cells (tile_rectangle cells i))
        (range_with_len 0 (tile_count cells)) }
{}

/// What is taken is twice the momentum of the particles at the walled sites: for the obstacles at those with an obstacle, for the
/// walls at the others.
pub fn taken_over_cells()
    ensures walls { (tick : ℤ) (particles walls obstacles : Cells) →
        HasEvenSides particles.width particles.height →
        let stopped_there = stopped (parity tick) particles (takes_for_walls walls obstacles) in
        (taken (parity tick) particles walls obstacles).walls
        ≡ twice_momentum (total tick stopped_there) }
    ensures obstacles { (tick : ℤ) (particles walls obstacles : Cells) →
        HasEvenSides particles.width particles.height →
        let stopped_there = stopped (parity tick) particles (takes_for_obstacles walls obstacles) in
        (taken (parity tick) particles walls obstacles).obstacles
        ≡ twice_momentum (total tick stopped_there) }
{}

/// The two accounts together are what all walled sites take.
pub fn accounts_together()
    ensures { (p : ℕ) (particles walls obstacles : Cells) →
        together (taken p particles walls obstacles)
        ≡ taken_at p particles (is_walled (joined walls obstacles)) }
{}

/// A phase takes as much of the particles that it makes as of those that it is given.
pub fn taken_both_ways()
    ensures { (tick : ℤ) (particles walls obstacles : Cells) →
        HasEvenSides particles.width particles.height →
        let p = parity tick in
        let after = streamed p particles (joined walls obstacles) in
        taken p after walls obstacles ≡ taken p particles walls obstacles }
{}

/// A step keeps the particles, and of their momentum all that walls and obstacles don't take.
pub fn conservation()
    ensures forward { (g : Gas) → HasEvenSides g.particles.width g.particles.height →
        gas_total (forward g) ≡ less_taken (gas_total g) (together (gas_taken g)) }
    ensures back { (g : Gas) → HasEvenSides g.particles.width g.particles.height →
        gas_total g ≡ less_taken (gas_total (back g)) (together (gas_taken (back g))) }
{}

/// A change of the particles changes the sums by what it brings in and takes out.
pub fn sums_after_change()
    ensures { (tick : ℤ) (old new : Cells) →
        HasEvenSides old.width old.height → HasSidesOf new old →
        total tick new ≡ minus (plus (total tick old) (gained tick old new)) (lost tick old new) }
{}

/// No component of a gas's sums is above its count of particles, nor is that above its number of cells.
pub fn sums_are_bounded()
    ensures total { (g : Gas) → HasEvenSides g.particles.width g.particles.height →
        IsOfAtMost (g.particles.width * g.particles.height) (gas_total g) }
    ensures walls { (g : Gas) →
        IsTakenOfAtMost (nat_abs (gas_total g).count) (gas_taken g).walls }
    ensures obstacles { (g : Gas) →
        IsTakenOfAtMost (nat_abs (gas_total g).count) (gas_taken g).obstacles }
{}

/// After any commands the ledger's balance is what there is.
pub fn balance_after_commands()
    ensures { (g : Gas) (commands : List Command) →
        HasEvenSides g.particles.width g.particles.height →
        let after = book_all (opened g) commands in
        gas_total after.gas ≡ balance after.ledger }
{}

/// The gas of the accounts is the gas of the replay.
pub fn accounts_follow_the_replay()
    ensures { (g : Gas) (commands : List Command) →
        (book_all (opened g) commands).gas ≡ replay g commands }
{}

/// A change that leaves the particles books nothing.
pub fn other_edits_book_nothing()
    ensures { (b : BookedGas) (g : Gas) →
        HasEvenSides b.gas.particles.width b.gas.particles.height →
        g.particles ≡ b.gas.particles → changed b g ≡ record b { gas = g } }
{}

/// Each change adds to each account at most the number of cells, and twice that to what walls took and to what obstacles
/// took. The start's sums stay what they were.
pub fn accounts_are_bounded()
    ensures by_changes { (g : Gas) (commands : List Command) →
        HasEvenSides g.particles.width g.particles.height →
        let cells = g.particles.width * g.particles.height in
        IsLedgerOfAtMost (sum_by changes commands * cells) (book_all (opened g) commands).ledger }
    ensures by_limits { (g : Gas) (commands : List Command) → is_size (extent g.particles) ≡ true →
        length commands ≤ most_entries → All (λ c. changes c ≤ most_steps) commands →
        IsLedgerOfAtMost (2 ^ 52) (book_all (opened g) commands).ledger }
    ensures start { (g : Gas) (commands : List Command) →
        (book_all (opened g) commands).ledger.start ≡ gas_total g }
    ensures fits { (n : ℕ) (l : Ledger) → n < 2 ^ 62 → IsLedgerOfAtMost n l → FitsI64 l }
{}

/// Steps forward and back without ports, as many of one as of the other, restore the gas and the ledger.
pub fn stretch_restores()
    ensures { (b : BookedGas) (commands : List Command) →
        IsEvenTorus b.gas.particles → IsStretch b.gas commands → book_all b commands ≡ b }
{}

/// Steps and steps back that undo them are such a stretch, over particles and a wall, in any order.
pub fn undone_stretches()
    ensures steps_first { IsStretch walled_pair.gas (Step 3 ∷ Back 1 ∷ Back 2 ∷ []) }
    ensures back_first { IsStretch walled_pair.gas (Back 2 ∷ Step 3 ∷ Back 1 ∷ []) }
{}

/// Small runs, worked by hand.
pub fn small_runs()
    ensures step { at_cell one_step 1 1 ≡ sums (pos 1) (pos 1) (pos 1) }
    ensures back_over_the_seam { at_cell one_back 3 3 ≡ sums (pos 1) (pos 1) (pos 1) }
    ensures collision_right { at_cell collision 1 0 ≡ sums (pos 1) (pos 1) (negsuc 0) }
    ensures collision_left { at_cell collision 0 1 ≡ sums (pos 1) (negsuc 0) (pos 1) }
    ensures three_pass { gas_total three.gas ≡ sums (pos 3) (negsuc 0) (pos 1) }
    ensures bounce { bounce.ledger.walls ≡ pair (pos 2) (pos 2) }
    ensures bounced { gas_total bounce.gas ≡ sums (pos 1) (negsuc 0) (negsuc 0) }
    ensures on_a_wall { on_a_wall.ledger.walls ≡ pair (pos 0) (pos 0) }
    ensures filled_once { on_a_wall.ledger.injected ≡ sums (pos 1) (negsuc 0) (negsuc 0) }
    ensures drained { drained.ledger.drained ≡ sums (pos 1) (pos 1) (pos 1) }
    ensures drain_waits_for_a_step { gas_total drain_on_a_particle.gas
        ≡ sums (pos 1) (pos 1) (pos 1) }
    ensures two_drains { (gas_total two_drains.gas ≡ nothing)
        × (two_drains.ledger.drained ≡ sums (pos 2) (pos 2) (pos 2)) }
    ensures neither_side { drained_and_filled.ledger.drained ≡ sums (pos 0) (pos 0) (pos 0) }
    ensures kept { gas_total drained_and_filled.gas ≡ sums (pos 1) (pos 1) (pos 1) }
    ensures obstructed { gas_total obstructed.gas ≡ sums (pos 1) (negsuc 0) (negsuc 0) }
    ensures obstacle_took { (obstructed.ledger.walls ≡ pair (pos 0) (pos 0))
        × (obstructed.ledger.obstacles ≡ pair (pos 2) (pos 2)) }
    ensures obstacle_before_wall { (wall_and_obstacle.ledger.walls ≡ pair (pos 0) (pos 0))
        × (wall_and_obstacle.ledger.obstacles ≡ pair (pos 2) (pos 2)) }
    ensures source_on_its_period { at_cell sourced 3 3 ≡ sums (pos 1) (pos 1) (pos 1) }
    ensures source_in_whole { gas_total sourced.gas ≡ sums (pos 1) (pos 1) (pos 1) }
    ensures source_refills_a_drain { at_cell drained_and_sourced 3 3
        ≡ sums (pos 1) (pos 1) (pos 1) }
    ensures block_across_the_seam { at_cell seam 0 0 ≡ sums (pos 1) (pos 1) (pos 1) }
    ensures wall_removed { at_cell wall_removed 1 1 ≡ sums (pos 1) (pos 1) (pos 1) }
    ensures wall_account_alternates { shut_in.ledger.walls ≡ pair (negsuc 1) (negsuc 1) }
    ensures wall_account_undone { let_go.ledger.walls ≡ pair (pos 0) (pos 0) }
    ensures rows_booked { (rows.ledger.injected ≡ sums (pos 2) (pos 0) (pos 2))
        × (rows.ledger.drained ≡ sums (pos 1) (pos 1) (pos 1)) }
    ensures wall_alone { (wall_alone.ledger.walls ≡ pair (pos 2) (pos 2))
        × (wall_alone.ledger.obstacles ≡ pair (pos 0) (pos 0)) }
{}
