//! Laws of connections: functions that do nothing, whose contracts are the theorems. They speak of
//! the definitions in `specs`, which the contracts of the working functions cite too.

ghost use Rattle.std.specs.Prelude.{◌≡◌, ℕ, List, None, slice_get};
ghost use Rattle.std.specs.List.{AllByRecursion};
ghost use Rattle.capture_connections.specs.Directions.{AreKnown, GathersSide, SaysSome, direction_of, sent_by};
ghost use Rattle.capture_connections.specs.Following.{Table, no_connections};
ghost use Rattle.capture_connections.specs.Private.{ConnectionRuns, TableRuns, known_of, own};
ghost use Rattle.capture_connections.specs.declared.ends.Side.{Side};
ghost use Rattle.capture_connections.specs.declared.heard.Heard.{Heard};

/// A connection's directions depend on its own segments alone, whatever else a capture has between
/// them: each connection goes from its state before to its state after by these.
pub fn connections_are_private()
    ensures { (old new : Table) (segments : List Heard) → TableRuns old segments new → (k : ℕ)
        → ConnectionRuns (slice_get old.connections k) (own k (known_of old) segments)
        (slice_get new.connections k) }
{}

/// What is known of a direction of a capture, as long as it is followed, is what its own segments
/// determine. Its own segments are all segments that belong to the connection and that its end
/// sent. Nothing that they determine is held back, and no other segment adds a byte.
pub fn directions_are_determined()
    ensures { (number : ℕ) (side : Side) (segments : List Heard) (new : Table) (given : List ℕ)
        → AllByRecursion SaysSome segments
        → GathersSide number side no_connections segments new given
        → (direction_of new number side).stop ≡ None
        → AreKnown (sent_by side (own number (known_of no_connections) segments)) given }
{}
