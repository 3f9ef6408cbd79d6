//! The laws of a heap's collection, each the contract of a function that does nothing.

ghost use Rattle.collect_model.specs.Laws.{CollectedStands, CopiesAreCounted, KeptIsLeast};

/// What is reached over addresses, from registers and older objects, is what is kept by births. A heap that a
/// collection left stands for the collected state, and what each sweeper copied is what its threads' kept
/// objects add up to.
pub fn collected_heaps_stand()
    ensures kept { KeptIsLeast }
    ensures stands { CollectedStands }
    ensures counts { CopiesAreCounted }
{}
