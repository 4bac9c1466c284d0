//! Laws of reassembly: functions that do nothing, whose contracts are the theorems. They speak of
//! the definitions in `specs`, which the contracts of the working functions cite too.

ghost use Rattle.std.specs.Prelude.{◌≡◌, ℕ, List, []};
ghost use Rattle.tcp_streams.specs.Pieces.{Piece, IsCutFrom, AreCutFrom, is_covered, Clash, DeterminesBytes};
ghost use Rattle.tcp_streams.specs.Placing.{IsCoveredFront};
ghost use Rattle.tcp_streams.specs.Reassembly.{Taking, opening_direction, HasReassembled};

/// What a direction has given out is what the pieces that came determine, in whatever order they
/// came. It is as long as what they cover from the stream's first byte on.
pub fn given_is_determined()
    ensures begins { (first limit : ℕ) → HasReassembled [] [] (opening_direction first limit) }
    ensures determined { (pieces : List Piece) (given : List ℕ) (v : Taking)
        → HasReassembled pieces given v → DeterminesBytes pieces given }
    ensures front { (pieces : List Piece) (given : List ℕ) (v : Taking)
        → HasReassembled pieces given v → IsCoveredFront pieces v.count }
{}

/// Order, overlaps and repetitions make no difference: pieces of one stream that cover the same
/// offsets determine the same bytes.
pub fn order_makes_no_difference()
    ensures { (stream : List ℕ) (xs ys : List Piece) (a b : List ℕ) → AreCutFrom stream xs
        → AreCutFrom stream ys → ((i : ℕ) → is_covered xs i ≡ is_covered ys i)
        → DeterminesBytes xs a
        → DeterminesBytes ys b → a ≡ b }
{}

/// No stream has two pieces with two values at one offset: after `Conflict` there is none that the
/// capture can be of.
pub fn no_stream_has_a_clash()
    ensures { (stream : List ℕ) (i : ℕ) (p q : Piece) → Clash i p q → IsCutFrom stream p
        → IsCutFrom stream q → ⊥ }
{}
