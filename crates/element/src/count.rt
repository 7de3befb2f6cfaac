//! A ghost counter, for use in contracts only; it has no size at run time.
ghost use Rattle.std.specs.Prelude.{◌≡◌, ℕ, ◌+◌, length};

use crate::history::History;
use std::marker::Model;

/// An unbounded count of events. It is a ghost value: contracts can name it, the program cannot
/// read it.
#[derive(Drop)]
pub struct Count {
    events: History<()>,
}

impl Model for Count {
    ghost Value = { ℕ };

    ghost view = { λ c. length c.events };
}

impl Count {
    /// Creates a count of zero.
    pub fn new() -> Count
        ensures { result ≡ 0 }
    {
        Count {
            events: History::new(),
        }
    }

    /// Adds one.
    pub fn add_one(&mut self)
        ensures { self.new ≡ self.old + 1 }
    {
        self.events.push(&());
    }
}
