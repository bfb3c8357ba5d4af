//! Laws of whole histories of the gas. A law is a function with an empty body; its contract is the law.

ghost use Rattle.std.specs.Prelude.{◌≡◌, ℕ, ◌<◌, Bool};
ghost use Rattle.std.specs.Fn.{iterate};
ghost use Rattle.gas_terms.specs.Cells.{Cells, HasSidesOf, IsEvenTorus};
ghost use Rattle.gas_terms.specs.Gas.{Gas, along, forward, back};
ghost use Rattle.gas_terms.specs.Symmetry.{IsOnOneTorus, with_particles};
ghost use Rattle.gas_terms.specs.Histories.{MoveByOneRule, origin, Recurs, IsClear, in_column, in_row, ClosesBy, momentum_along};

/// Liouville: on one torus with one set of walls and obstacles, n steps map the sets of particles one to one onto themselves.
pub fn histories_never_merge()
    // What is the same after n steps was the same before, and what was the same stays so.
    ensures before { (n : ℕ) (g k : Gas) → MoveByOneRule g k →
        IsEvenTorus g.particles → IsEvenTorus k.particles →
        (iterate forward n g).particles ≡ (iterate forward n k).particles →
        g.particles ≡ k.particles }
    ensures after { (n : ℕ) (g k : Gas) → MoveByOneRule g k →
        g.particles ≡ k.particles →
        (iterate forward n g).particles ≡ (iterate forward n k).particles }
    // Every set of particles is n steps after one, which n steps back lead to.
    ensures reached { (n : ℕ) (g : Gas) (after : Cells) → IsEvenTorus after →
        (iterate forward n (with_particles g (origin n g after))).particles ≡ after }
    ensures origins { (n : ℕ) (g : Gas) (after : Cells) → IsEvenTorus after →
        IsEvenTorus (origin n g after) × HasSidesOf (origin n g after) after }
{}

/// Poincaré: a gas returns. After some number of rounds of two steps, forward or back, and after each multiple of it, it has
/// its particles again.
pub fn gases_return()
    ensures { (g : Gas) → IsEvenTorus g.particles → Recurs g }
{}

/// Without walls and obstacles, as many particles go right in a column as in the next one a tick later, and as many go left as
/// in the one before. It is so with rows too: a collision turns particles, but leaves as many going each way along each axis.
pub fn lines_keep_their_numbers()
    ensures columns { (right : Bool) (g : Gas) (x : ℕ) → IsOnOneTorus g → IsClear g →
        x < g.particles.width →
        in_column right (forward g) (along g.particles.width right x) ≡ in_column right g x }
    ensures rows { (down : Bool) (g : Gas) (y : ℕ) → IsOnOneTorus g → IsClear g →
        y < g.particles.height →
        in_row down (forward g) (along g.particles.height down y) ≡ in_row down g y }
    // So n ticks later, as many go on n columns or rows further.
    ensures later_columns { (n : ℕ) (right : Bool) (g : Gas) (x : ℕ) → IsOnOneTorus g → IsClear g →
        x < g.particles.width →
        in_column right (iterate forward n g) (iterate (along g.particles.width right) n x)
        ≡ in_column right g x }
    ensures later_rows { (n : ℕ) (down : Bool) (g : Gas) (y : ℕ) → IsOnOneTorus g → IsClear g →
        y < g.particles.height →
        in_row down (iterate forward n g) (iterate (along g.particles.height down) n y)
        ≡ in_row down g y }
{}

/// Without walls and obstacles each diagonal, which is a line of the lattice, keeps its momentum along itself: a collision
/// takes one particle each way from a diagonal, or brings one each way.
pub fn diagonals_keep_their_momentum()
    ensures forth { (n m rest : ℕ) (falls : Bool) (g : Gas) →
        IsOnOneTorus g → IsClear g → ClosesBy m g.particles →
        momentum_along falls m rest (iterate forward n g) ≡ momentum_along falls m rest g }
    ensures back { (n m rest : ℕ) (falls : Bool) (g : Gas) →
        IsOnOneTorus g → IsEvenTorus g.particles → IsClear g → ClosesBy m g.particles →
        momentum_along falls m rest (iterate back n g) ≡ momentum_along falls m rest g }
{}
