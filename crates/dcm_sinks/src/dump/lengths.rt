// The lengths of what is open.
ghost use Rattle.std.specs.Prelude.{◌≡◌, ◌<◌, ◌≤◌, [], ◌∷◌, length};
ghost use Rattle.dcm_sinks.specs.Lengths.{innermost, outer};

use arrayvec::ArrayVec;
use dcm_base::{Length, MOST_OPEN};
use std::marker::Model;

/// What the heads of the open sequences, fragment lists and items declare, the innermost first.
#[derive(Drop)]
pub struct Lengths {
    outermost_first: ArrayVec<Length, MOST_OPEN>,
}

impl Model for Lengths {
    ghost use Rattle.std.specs.Prelude.{List, reverse};
    ghost use Rattle.dcm_base.specs.declared.length.Length.{Length};

    ghost Value = { List Length };

    ghost view = { λ l. reverse l.outermost_first.items };
}

impl Lengths {
    /// Nothing is open.
    pub fn new() -> Self
        ensures { result ≡ [] }
    {
        Lengths {
            outermost_first: ArrayVec::new(),
        }
    }

    /// How many are open.
    pub fn depth(&self) -> usize
        ensures depth { result ≡ length self.now }
        ensures within { result ≤ MOST_OPEN }
    {
        self.outermost_first.len()
    }

    /// One more is open, whose head declares this length.
    pub fn push(&mut self, declared: Length)
        requires { length self.old < MOST_OPEN }
        ensures { self.new ≡ declared ∷ self.old }
    {
        self.outermost_first.push(declared);
    }

    /// Closes the innermost, and answers what its head declares.
    pub fn close(&mut self) -> Length
        ensures declared { result ≡ innermost self.old }
        ensures rest { self.new ≡ outer self.old }
    {
        match self.outermost_first.pop() {
            Some(declared) => declared,
            None => Length::Undefined,
        }
    }
}
