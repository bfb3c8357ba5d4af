//! Laws of the gas. A law is a function with an empty body; its contract is the law.

ghost use Rattle.std.specs.Prelude.{◌≡◌, ◌≢◌, ℕ, ◌/◌, ◌%◌, if◌then◌else◌, ◌==◌, length, ◌+◌, ◌-◌, ◌<◌, Bool, true, false, not, ◌&&◌, ◌||◌, List};
ghost use Rattle.std.specs.Fn.{iterate};
ghost use Rattle.std.specs.List.{All, AllPairs, Contains};
ghost use Rattle.gas_terms.specs.Velocity.{Velocity, opposite, outcome, parity};
ghost use Rattle.gas_terms.specs.Cells.{Cells, has, cells_where, IsFull, joined, HasEvenSides, HasSidesOf, IsEvenTorus, extent, is_size};
ghost use Rattle.gas_terms.specs.Rows.{row_has, row_bytes, row_replaced};
ghost use Rattle.gas_terms.specs.Gas.{Gas, Site, sites, IsSite, site_of, neighbor, holds, is_walled, sent, streamed, unstreamed, forward, back, step, HasNoPorts};
ghost use Rattle.gas_terms.specs.Block.{Block, block, corner, block_of, block_rule, turned, digits, corner_rule, other_coordinate};

/// A set that is made by a test holds the cells that pass it.
pub fn made_cells_pass_the_test()
    ensures held { (width height : ℕ) (test : ℕ → ℕ → Bool) (x y : ℕ) →
        x < width → y < height →
        has (cells_where width height test) x y ≡ test x y }
    ensures full { (width height : ℕ) (test : ℕ → ℕ → Bool) →
        IsFull (cells_where width height test) }
{}

/// Two sets of one size that hold the same cells are equal.
pub fn cells_that_agree_are_equal()
    ensures { (some others : Cells) → IsFull some → IsFull others →
        some.width ≡ others.width → some.height ≡ others.height →
        ((x y : ℕ) → x < some.width → y < some.height → has some x y ≡ has others x y) →
        some ≡ others }
{}

/// The laboratory's lattices are cut into blocks.
pub fn whole_cells_are_an_even_torus()
    ensures { (cells : Cells) → is_size (extent cells) ≡ true → IsFull cells → IsEvenTorus cells }
{}

/// A site is walled if one of its four cells is a wall or an obstacle.
pub fn walls_and_obstacles_make_walled_sites()
    ensures { (p : ℕ) (walls obstacles : Cells) (s : Site) →
        HasSidesOf obstacles walls → IsSite p walls.width walls.height s →
        is_walled (joined walls obstacles) s ≡ (is_walled walls s || is_walled obstacles s) }
{}

/// The list of the sites has each site once, and nothing else.
pub fn sites_are_listed()
    ensures only { (p width height : ℕ) → HasEvenSides width height → p < 2 →
        All (IsSite p width height) (sites p width height) }
    ensures each { (p width height : ℕ) → HasEvenSides width height → p < 2 →
        (s : Site) → IsSite p width height s → Contains (sites p width height) s }
    ensures once { (p width height : ℕ) → AllPairs (λ s t. s ≢ t) (sites p width height) }
{}

/// A step collides or bounces at each site, and then streams: each neighbor holds what the site sent to it.
pub fn step_collides_and_streams()
    ensures streams { (p : ℕ) (particles walls : Cells) (s : Site) (v : Velocity) →
        HasEvenSides particles.width particles.height →
        IsSite p particles.width particles.height s →
        holds (streamed p particles walls) (neighbor particles.width particles.height s v) v
        ≡ outcome (is_walled walls s) (holds particles s) v }
    // The neighbors are the sites of the next tick.
    ensures sites { (g : Gas) (s : Site) (v : Velocity) →
        let width = g.particles.width in
        let height = g.particles.height in
        HasEvenSides width height →
        IsSite (parity g.tick) width height s →
        IsSite (parity (forward g).tick) width height (neighbor width height s v) }
    // Nothing else is so.
    ensures alone { (p : ℕ) (particles walls after : Cells) →
        HasEvenSides particles.width particles.height →
        IsFull after → after.width ≡ particles.width → after.height ≡ particles.height →
        ((s : Site) (v : Velocity) → IsSite p particles.width particles.height s →
        holds after (neighbor particles.width particles.height s v) v
        ≡ outcome (is_walled walls s) (holds particles s) v) →
        after ≡ streamed p particles walls }
{}

/// After a step back each site holds the outcome of what its neighbors held of it.
pub fn step_back_gathers()
    ensures gathers { (p : ℕ) (particles walls : Cells) (s : Site) (v : Velocity) →
        HasEvenSides particles.width particles.height →
        IsSite p particles.width particles.height s →
        holds (unstreamed p particles walls) s v
        ≡ outcome (is_walled walls s)
        (λ u. holds particles (neighbor particles.width particles.height s u) u) v }
    // Nothing else is so.
    ensures alone { (p : ℕ) (particles walls before : Cells) →
        HasEvenSides particles.width particles.height →
        IsFull before → before.width ≡ particles.width → before.height ≡ particles.height →
        ((s : Site) (v : Velocity) → IsSite p particles.width particles.height s →
        holds before s v
        ≡ outcome (is_walled walls s)
        (λ u. holds particles (neighbor particles.width particles.height s u) u) v) →
        before ≡ unstreamed p particles walls }
{}

/// The rule of a step is its own inverse, and so a step back applies it again.
pub fn rule_is_its_own_inverse()
    ensures again { (p : ℕ) (particles walls : Cells) →
        HasEvenSides particles.width particles.height →
        unstreamed p particles walls ≡ streamed p particles walls }
    ensures twice { (p : ℕ) (particles walls : Cells) →
        IsEvenTorus particles →
        streamed p (streamed p particles walls) walls ≡ particles }
{}

/// A step back undoes a step forward, and the other way round.
pub fn steps_are_undone()
    ensures forth { (g : Gas) → IsEvenTorus g.particles → back (forward g) ≡ g }
    ensures back { (g : Gas) → IsEvenTorus g.particles → forward (back g) ≡ g }
    ensures many_forth { (n : ℕ) (g : Gas) → IsEvenTorus g.particles →
        iterate back n (iterate forward n g) ≡ g }
    ensures many_back { (n : ℕ) (g : Gas) → IsEvenTorus g.particles →
        iterate forward n (iterate back n g) ≡ g }
{}

/// The rule of a block is the rule of a site, and turned twice a block is as it was.
pub fn block_rule_is_the_site_rule()
    ensures outcome { (walled : Bool) (b : Block) (v : Velocity) →
        corner (turned walled b) v ≡ outcome walled (corner b) (opposite v) }
    ensures twice { (walled : Bool) (b : Block) → turned walled (turned walled b) ≡ b }
    ensures kept { (b : Block) → turned true b ≡ b }
    // At each corner alike, and for 64 cells at once by and, or and not.
    ensures corners { (walled a b c d : Bool) →
        block_rule walled a b c d
        ≡ block (corner_rule walled a d b c) (corner_rule walled b c a d)
        (corner_rule walled c b d a) (corner_rule walled d a c b) }
    ensures gates { (walled own opposite beside beneath : Bool) →
        corner_rule walled own opposite beside beneath
        ≡ ((walled && own)
        || (not walled
        && ((opposite && (not own || beside || beneath)) || (beside && beneath && not own)))) }
    // The cells in the order upper left, upper right, lower left, lower right.
    ensures table { (turned false (digits 0b0000) ≡ digits 0b0000) ×
        (turned false (digits 0b0001) ≡ digits 0b1000) ×
        (turned false (digits 0b0010) ≡ digits 0b0100) ×
        (turned false (digits 0b0011) ≡ digits 0b1100) ×
        (turned false (digits 0b0100) ≡ digits 0b0010) ×
        (turned false (digits 0b0101) ≡ digits 0b1010) ×
        (turned false (digits 0b0110) ≡ digits 0b1001) ×
        (turned false (digits 0b0111) ≡ digits 0b1110) ×
        (turned false (digits 0b1000) ≡ digits 0b0001) ×
        (turned false (digits 0b1001) ≡ digits 0b0110) ×
        (turned false (digits 0b1010) ≡ digits 0b0101) ×
        (turned false (digits 0b1011) ≡ digits 0b1101) ×
        (turned false (digits 0b1100) ≡ digits 0b0011) ×
        (turned false (digits 0b1101) ≡ digits 0b1011) ×
        (turned false (digits 0b1110) ≡ digits 0b0111) ×
        (turned false (digits 0b1111) ≡ digits 0b1111) }
{}

/// A step turns each block.
pub fn step_turns_blocks()
    ensures blocks { (p : ℕ) (particles walls : Cells) (s : Site) →
        HasEvenSides particles.width particles.height →
        IsSite p particles.width particles.height s →
        block_of (streamed p particles walls) s
        ≡ turned (is_walled walls s) (block_of particles s) }
    // The same, cell by cell.
    ensures cells { (p : ℕ) (particles walls : Cells) (x y : ℕ) →
        HasEvenSides particles.width particles.height →
        x < particles.width → y < particles.height →
        let across = other_coordinate particles.width p x in
        let down = other_coordinate particles.height p y in
        has (streamed p particles walls) x y
        ≡ corner_rule (is_walled walls (site_of p particles.width particles.height x y))
        (has particles x y) (has particles across down)
        (has particles across y) (has particles x down) }
    ensures walled { (p : ℕ) (walls : Cells) (x y : ℕ) →
        x < walls.width → y < walls.height →
        let across = other_coordinate walls.width p x in
        let down = other_coordinate walls.height p y in
        is_walled walls (site_of p walls.width walls.height x y)
        ≡ (has walls x y || has walls across down || has walls across y || has walls x down) }
{}

/// Without ports a whole step is a step of the particles alone, and so are many.
pub fn ports_are_the_only_difference()
    ensures one { (g : Gas) → HasNoPorts g → step g ≡ forward g }
    ensures many { (n : ℕ) (g : Gas) → HasNoPorts g → iterate step n g ≡ iterate forward n g }
{}

/// Rows as bytes and rows as cells agree: what is written is read again, and only its row is replaced.
pub fn rows_and_bytes_agree()
    ensures length { (cells : Cells) (y : ℕ) → length (row_bytes cells y) ≡ cells.width / 8 }
    ensures bytes { (cells : Cells) (y : ℕ) → All (λ b. b < 256) (row_bytes cells y) }
    ensures read { (cells : Cells) (x y : ℕ) → cells.width % 8 ≡ 0 → x < cells.width →
        row_has (row_bytes cells y) x ≡ has cells x y }
    ensures written { (cells : Cells) (row : ℕ) (bytes : List ℕ) (x y : ℕ) →
        x < cells.width → y < cells.height →
        has (row_replaced cells row bytes) x y
        ≡ (if y == row then row_has bytes x else has cells x y) }
    ensures again { (cells : Cells) (y : ℕ) (bytes : List ℕ) →
        y < cells.height → length bytes ≡ cells.width / 8 → All (λ b. b < 256) bytes →
        row_bytes (row_replaced cells y bytes) y ≡ bytes }
    ensures same { (cells : Cells) (y : ℕ) → IsFull cells → cells.width % 8 ≡ 0 →
        row_replaced cells y (row_bytes cells y) ≡ cells }
{}
