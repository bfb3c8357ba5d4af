//! Laws of sessions. A law is a function with an empty body; its contract is the law.

ghost use Rattle.std.specs.Prelude.{◌≡◌, ℕ, List, ◌++◌, Option};
ghost use Rattle.gas_talk.specs.declared.end.SessionEnd.{SessionEnd};
ghost use Rattle.gas_talk.specs.Ends.{Place, IsSession, EachCall, EachSession};
ghost use Rattle.gas_talk.specs.Talk.{calls};
ghost use Rattle.gas_talk.specs.LabTalk.{IsAlone, lab_place, IsTalk};
ghost use Rattle.gas_terms.specs.Laboratory.{Laboratory};

use gas_lab::Door;

/// A part of a door that none of its calls changes is the same after a session over it.
pub fn kept_by_calls_is_kept_by_sessions<D: Door, X>()
    ensures { (part : D → X)
        → EachCall (calls D.size_of D.asks D.copies) (λ d e. part e ≡ part d)
        → EachSession (calls D.size_of D.asks D.copies) (λ d e. part e ≡ part d) }
{}

/// A list of a door that each call leaves or adds to at its end is left or added to by a session over it.
pub fn extended_by_calls_is_extended_by_sessions<D: Door, X>()
    ensures { (list : D → List X)
        → EachCall (calls D.size_of D.asks D.copies)
        (λ d e. (more : List X) × (list e ≡ list d ++ more))
        → EachSession (calls D.size_of D.asks D.copies)
        (λ d e. (more : List X) × (list e ≡ list d ++ more)) }
{}

/// A session over a door to a laboratory that nobody else uses is a talk with the laboratory.
pub fn sessions_alone_are_talks<D: Door>()
    ensures { (lab_of : D → Laboratory) (seat_of : D → ℕ)
        → IsAlone (calls D.size_of D.asks D.copies) lab_of seat_of
        → (unread_old unread_new : Option (List ℕ))
        → (old : Place D) (end : SessionEnd) (new : Place D)
        → IsSession (calls D.size_of D.asks D.copies) unread_old unread_new old end new
        → IsTalk (seat_of old.door) unread_old unread_new
        (lab_place lab_of old) end (lab_place lab_of new) }
{}
