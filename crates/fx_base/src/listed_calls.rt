ghost use Rattle.std.specs.Prelude.{◌≡◌, ◌↔◌, IsTrue};
ghost use Rattle.fx_base.specs.Faults.{raised};
ghost use Rattle.fx_base.specs.Memory.{CallsMade, IsListed};

use crate::values::Bytes;
use std::marker::Model;

/// The numbers of the calls that are to fail, counted from 1, and a count of the calls made.
#[derive(Drop)]
pub struct ListedCalls {
    failing: Bytes,
    made: u64,
}

impl Model for ListedCalls {
    ghost Value = { CallsMade };

    ghost view = { λ c. record { failing = c.failing; made = c.made } };
}

impl ListedCalls {
    /// No call was made yet.
    pub fn new(failing: Bytes) -> ListedCalls
        ensures { result ≡ record { failing = failing; made = 0 } }
    {
        ListedCalls { failing, made: 0 }
    }

    /// Counts a call, and returns whether it is to fail.
    pub fn next_fails(&mut self) -> bool
        ensures listed { IsTrue result ↔ IsListed self.old.failing self.old.made }
        ensures counted { self.new ≡ record self.old { made = raised self.old.made } }
    {
        let number = self.made.saturating_add(1);
        self.made = number;
        self.failing
            .as_slice()
            .iter()
            .any(|listed| u64::from(*listed) == number)
    }
}
