//! How many lines a second are told.

ghost use Rattle.std.specs.Prelude.{◌≡◌, ◌+◌, ◌≤◌, IfNone, IfSome};

use std::marker::Model;
use std::time::{Duration, Instant};

/// So many lines a second at most, and how many were left out since one was told.
#[derive(Drop)]
pub struct Pace {
    most: u32,
    // when the second began in which lines are counted
    began: Option<Instant>,
    told: u32,
    left_out: u64,
}

impl Model for Pace {
    ghost use Rattle.std.specs.Prelude.{◌≤◌};
    ghost use Rattle.iscsi_event_loop.specs.Paces.{Pace};

    ghost Value = { Pace };

    ghost view = { λ p. record { most = p.most; told = p.told; left_out = p.left_out } };

    ghost invariant = { λ p. p.told ≤ p.most };
}

impl Pace {
    /// So many lines a second, none of which was told.
    pub fn new(most: u32) -> Pace
        ensures { result ≡ record { most = most; told = 0; left_out = 0 } }
    {
        Pace {
            most,
            began: None,
            told: 0,
            left_out: 0,
        }
    }

    /// Whether lines were left out since one was told.
    pub fn has_left_out(&self) -> bool {
        self.left_out > 0
    }

    /// Has a line told at this time, and returns how many were left out before it. `None` if as many were told
    /// in this second as may be; the line is then left out, and counted.
    pub fn tell(&mut self, now: Instant) -> Option<u64>
        ensures most { self.new.most ≡ self.old.most }
        // Those that were left out are all told of.
        ensures told { IfSome result (λ n. (n ≡ self.old.left_out) × (self.new.left_out ≡ 0)) }
        // A line is left out only behind as many as may be told, and is counted.
        ensures left_out { IfNone result ((self.old.most ≤ self.new.told)
            × (self.old.left_out ≤ self.new.left_out)) }
    {
        if self.is_over(now) {
            self.began = Some(now);
            self.told = 0;
        }
        if self.most <= self.told {
            self.leave_out(1);
            return None;
        }
        self.told += 1;
        Some(self.take_left_out())
    }

    /// How many lines were left out since one was told. None are from now on.
    pub fn take_left_out(&mut self) -> u64
        ensures lines { result ≡ self.old.left_out }
        ensures rest { self.new ≡ record self.old { left_out = 0 } }
    {
        let left_out = self.left_out;
        self.left_out = 0;
        left_out
    }

    /// How many lines were left out, if one more may be told at this time, as which it counts; none else.
    pub fn tell_left_out(&mut self, now: Instant) -> Option<u64>
        ensures told { IfSome result (λ n. (n ≡ self.old.left_out) × (self.new.left_out ≡ 0)) }
        ensures left_out { IfNone result (self.old.left_out ≤ self.new.left_out) }
    {
        if self.has_left_out() && self.is_free(now) {
            self.tell(now)
        } else {
            None
        }
    }

    /// Counts so many more lines as left out.
    pub fn leave_out(&mut self, lines: u64)
        ensures most { self.new.most ≡ self.old.most }
        ensures told { self.new.told ≡ self.old.told }
        ensures left_out { self.old.left_out ≤ self.new.left_out }
    {
        self.left_out = self.left_out.saturating_add(lines);
    }

    // Whether one more line may be told.
    fn is_free(&self, now: Instant) -> bool {
        self.is_over(now) || self.told < self.most
    }

    // Whether the second is over in which lines are counted.
    fn is_over(&self, now: Instant) -> bool {
        match self.began {
            Some(began) => now.saturating_duration_since(began) >= Duration::from_secs(1),
            None => true,
        }
    }
}
