//! Laws of snapshots. A law is a function with an empty body; its contract is the law.

ghost use Rattle.std.specs.Prelude.{◌≡◌, ◌<◌, List, ℕ, Ok};
ghost use Rattle.std.specs.List.{All};
ghost use Rattle.gas_terms.specs.Gas.{Gas};
ghost use Rattle.gas_ledger.specs.Gases.{IsSoundGas};
ghost use Rattle.gas_snapshot.specs.declared.version.Version.{Version};
ghost use Rattle.gas_snapshot.specs.declared.version.Version.TheVariants.{One, Two};
ghost use Rattle.gas_snapshot.specs.Spelling.{HasSpelling, IsOld, Spells, spelling};
ghost use Rattle.gas_snapshot.specs.Reading.{reading};

/// Each gas has a spelling of version 2, and a gas without obstacles and with sides to 2,048 one of version 1 too. It is
/// the only one of the version, since a spelling is a function of the gas.
pub fn each_gas_has_a_spelling()
    ensures new { (g : Gas) → IsSoundGas g → HasSpelling Two g }
    ensures old { (g : Gas) → IsSoundGas g → IsOld g → HasSpelling One g }
    ensures spelled { (version : Version) (g : Gas) →
        HasSpelling version g → Spells (spelling version g) g }
    ensures only { (bytes : List ℕ) (g : Gas) (s : Spells bytes g) → bytes ≡ spelling s.version g }
{}

/// Bytes spell at most one gas, in at most one version.
pub fn bytes_spell_one_gas()
    ensures gas { (bytes : List ℕ) (g h : Gas) → Spells bytes g → Spells bytes h → g ≡ h }
    ensures version { (bytes : List ℕ) (g h : Gas) (s : Spells bytes g) (t : Spells bytes h) →
        s.version ≡ t.version }
{}

/// Bytes are read as a gas exactly if they spell it. So only a snapshot needs memory.
pub fn reading_is_spelling()
    ensures read { (bytes : List ℕ) (g : Gas) → All (λ b. b < 256) bytes →
        reading bytes ≡ Ok g → Spells bytes g }
    ensures spelled { (bytes : List ℕ) (g : Gas) → Spells bytes g → reading bytes ≡ Ok g }
{}
