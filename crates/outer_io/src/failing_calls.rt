ghost use Rattle.std.specs.Prelude.{◌≡◌, ◌↔◌, IsTrue};
ghost use Rattle.outer_io.specs.Outside.{FailsNext, called};

use std::marker::Model;

/// Which calls of a source, a sink or a medium fail, by their numbers from 1, and how many were made.
#[derive(Drop)]
pub struct FailingCalls {
    named: Vec<u64>,
    count: u64,
}

impl Model for FailingCalls {
    ghost use Rattle.outer_io.specs.Outside.{FailingCalls};

    ghost Value = { FailingCalls };

    ghost view = { λ calls. record { fails = calls.named.items; made = calls.count } };
}

impl FailingCalls {
    pub fn new(named: Vec<u64>) -> FailingCalls
        ensures { result ≡ record { fails = named.items; made = 0 } }
    {
        FailingCalls { named, count: 0 }
    }

    /// Counts a call, and says whether it fails.
    pub fn next_fails(&mut self) -> bool
        ensures counts { self.new ≡ called self.old }
        ensures fails { IsTrue result ↔ FailsNext self.old }
    {
        self.count = self.count.saturating_add(1);
        self.named.contains(&self.count)
    }
}
