//! What may hold back the acts of a burst, so that a test can tell whether nodes act side by side.
ghost use Rattle.std.specs.Prelude.{◌≡◌, true};

use qs_base::NodeNo;

/// What is called before each act of a node in a burst. An act may be held back there, for a bounded time.
pub trait Gate {
    /// Before the act of that node with the number `turn`, which counts its acts in bursts from 1. The answer changes nothing in the run.
    fn pass(&self, node: NodeNo, turn: u64) -> bool;
}

/// A gate that holds nothing back.
pub struct OpenGate;

impl Gate for OpenGate {
    fn pass(&self, _node: NodeNo, _turn: u64) -> bool
        ensures { result ≡ true }
    {
        true
    }
}
