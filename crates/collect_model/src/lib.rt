//! What a collection makes of a heap, as laws.
//!
//! A heap that stands for a state begins a collection as a `World` of `sweep_model`: what starts at each
//! address, and which objects registers hold. When the sweepers have come to their end, their hands tell what
//! starts at each address then. The laws lead from there to the collected state of the definitions, which
//! knows no addresses: the objects that the rules reach over addresses are those that are kept by births;
//! what starts afterwards is what is left of them, in their target generations; and the heap of it stands for
//! the collected state. How many objects each sweeper copied is what its threads' kept objects add up to.
//!
//! Nothing here runs in a collection, and no call takes memory.
#![tactic(auto)]

pub mod laws;
