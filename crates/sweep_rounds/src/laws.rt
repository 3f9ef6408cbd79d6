//! The law of the start, the contract of a function that does nothing.

ghost use Rattle.sweep_rounds.specs.Turns.{BeginWhole};

/// Sweepers that begin in one world, as each new one does, stand together for the state in which the core
/// begins.
pub fn new_sweepers_stand_together()
    ensures { BeginWhole }
{}
