//! Laws of the symmetries of the gas, and of how far a change can reach. A law is a function with an empty body; its
//! contract is the law.

ghost use Rattle.std.specs.Prelude.{◌≡◌, ℕ, ◌+◌, ◌-◌, ◌*◌, ◌%◌, ◌<◌, ℤ, neg_ℤ, not};
ghost use Rattle.std.specs.Fn.{iterate};
ghost use Rattle.gas_terms.specs.Velocity.{opposite, parity, velocity_at};
ghost use Rattle.gas_terms.specs.Cells.{Cells, has, HasEvenSides, HasSidesOf, IsEvenTorus};
ghost use Rattle.gas_terms.specs.Gas.{Gas, forward, back, step, HasNoPorts};
ghost use Rattle.gas_terms.specs.Accounts.{gas_total};
ghost use Rattle.gas_terms.specs.Symmetry.{IsOnOneTorus, ShareTorus, SharePorts, IsSymmetry, reversed, mapped, CarriesBlocks, gas_translated, translated, mirrored, upside_down, transposed, AgreeOnCone, AreApart, occupied, NeverMeet, ParticlesNeverMeet, superposed, with_particles, with_more};

/// Reversing a gas turns each particle round. Steps back are then steps forward of the reversed gas, and the other way round.
pub fn time_reversal_is_a_symmetry()
    ensures velocities { (g : Gas) (x y : ℕ) →
        velocity_at (parity (reversed g).tick) x y ≡ opposite (velocity_at (parity g.tick) x y) }
    ensures sums { (g : Gas) → HasEvenSides g.particles.width g.particles.height →
        let sums = gas_total g in
        gas_total (reversed g) ≡ record sums { px = neg_ℤ sums.px; py = neg_ℤ sums.py } }
    ensures twice { (g : Gas) → HasNoPorts g → reversed (reversed g) ≡ g }
    ensures runs { (n : ℕ) (g : Gas) → HasEvenSides g.particles.width g.particles.height →
        reversed (iterate back n g) ≡ iterate forward n (reversed g) }
    ensures runs_back { (n : ℕ) (g : Gas) → HasEvenSides g.particles.width g.particles.height →
        reversed (iterate forward n g) ≡ iterate back n (reversed g) }
    // So a gas that runs n steps, is reversed and runs n steps again is its start, reversed.
    ensures returns { (n : ℕ) (g : Gas) → IsEvenTorus g.particles →
        iterate forward n (reversed (iterate forward n g)) ≡ reversed g }
{}

/// A translation is a symmetry if its columns, rows and ticks are all even or all odd.
pub fn translations_are_symmetries()
    ensures runs { (right down : ℕ) (ticks : ℤ) → CarriesBlocks right down ticks →
        IsSymmetry (gas_translated right down ticks) }
    ensures sums { (right down : ℕ) (ticks : ℤ) → CarriesBlocks right down ticks →
        (g : Gas) → HasEvenSides g.particles.width g.particles.height →
        gas_total (gas_translated right down ticks g) ≡ gas_total g }
    // A translation takes each cell to the right and down.
    ensures cells { (right down : ℕ) (cells : Cells) (x y : ℕ) →
        x < cells.width → y < cells.height →
        has (translated right down cells) ((x + right) % cells.width) ((y + down) % cells.height)
        ≡ has cells x y }
{}

/// The gas runs the same in a mirror, upside down, and with columns and rows exchanged.
pub fn mirrors_are_symmetries()
    ensures mirror { IsSymmetry (mapped mirrored) }
    ensures flip { IsSymmetry (mapped upside_down) }
    ensures turn { IsSymmetry (mapped transposed) }
    // A mirror exchanges left and right in a velocity. Upside down, up and down are exchanged.
    ensures sideways { (p width x y : ℕ) → width % 2 ≡ 0 → x < width →
        let v = velocity_at p x y in
        velocity_at p (width - 1 - x) y ≡ record v { right = not v.right } }
    ensures upwards { (p height x y : ℕ) → height % 2 ≡ 0 → y < height →
        let v = velocity_at p x y in
        velocity_at p x (height - 1 - y) ≡ record v { down = not v.down } }
    // So a mirror negates one component of the momentum, and transposing exchanges them.
    ensures mirrored_sums { (g : Gas) → HasEvenSides g.particles.width g.particles.height →
        let sums = gas_total g in
        gas_total (mapped mirrored g) ≡ record sums { px = neg_ℤ sums.px } }
    ensures flipped_sums { (g : Gas) → HasEvenSides g.particles.width g.particles.height →
        let sums = gas_total g in
        gas_total (mapped upside_down g) ≡ record sums { py = neg_ℤ sums.py } }
    ensures turned_sums { (g : Gas) → HasEvenSides g.particles.width g.particles.height →
        let sums = gas_total g in
        gas_total (mapped transposed g) ≡ record sums { px = sums.py; py = sums.px } }
{}

/// Nothing acts faster than one cell a step. A cell after n steps depends on the cells within n columns and rows of it.
pub fn nothing_leaves_the_light_cone()
    ensures cell { (n x y : ℕ) (g k : Gas) → ShareTorus g k → SharePorts g k →
        x < g.particles.width → y < g.particles.height →
        AgreeOnCone n x y g k →
        has (iterate step n g).particles x y ≡ has (iterate step n k).particles x y }
    // The cells within m of it depend on the cells within n + m.
    ensures area { (n m x y : ℕ) (g k : Gas) → ShareTorus g k → SharePorts g k →
        x < g.particles.width → y < g.particles.height →
        AgreeOnCone (n + m) x y g k → AgreeOnCone m x y (iterate step n g) (iterate step n k) }
{}

/// Gases that never meet run in one lattice as each runs alone. Gases 2n cells apart don't meet in n steps.
pub fn what_never_meets_is_superposed()
    ensures gases { (n : ℕ) (g k : Gas) → ShareTorus g k → NeverMeet n g k →
        iterate forward n (superposed g k)
        ≡ superposed (iterate forward n g) (iterate forward n k) }
    ensures far_gases { (n : ℕ) (g k : Gas) → ShareTorus g k →
        AreApart (2 * n) (occupied g) (occupied k) →
        iterate forward n (superposed g k)
        ≡ superposed (iterate forward n g) (iterate forward n k) }
    // The same for two sets of particles among one gas's walls and obstacles.
    ensures particles { (n : ℕ) (g : Gas) (others : Cells) →
        let k = with_particles g others in
        IsOnOneTorus g → HasSidesOf others g.particles → ParticlesNeverMeet n g k →
        iterate forward n (with_more g others)
        ≡ with_more (iterate forward n g) (iterate forward n k).particles }
    ensures far_particles { (n : ℕ) (g : Gas) (others : Cells) →
        let k = with_particles g others in
        IsOnOneTorus g → HasSidesOf others g.particles → AreApart (2 * n) g.particles others →
        iterate forward n (with_more g others)
        ≡ with_more (iterate forward n g) (iterate forward n k).particles }
{}
