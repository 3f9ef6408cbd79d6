//! Memory that a territory keeps from one collection to the next.

ghost use Rattle.std.specs.Prelude.{◌≡◌};

use super::Territory;
use std::mem::replace;

impl Territory {
    /// Takes the memory that was left here last, for a collection's own use. Nothing is said of what the vector holds;
    /// where none was left since it was taken last, it has no memory. Takes none itself.
    pub fn take_spare(&mut self) -> Vec<u64>
        ensures { self.new ≡ self.old }
    {
        let alloc = *self.spare.allocator();
        replace(&mut self.spare, Vec::new(alloc))
    }

    /// Leaves memory here, for the next collection to take: so it is not asked for and touched for the first time in
    /// each. What was left before is given back.
    pub fn leave_spare(&mut self, memory: Vec<u64>)
        ensures { self.new ≡ self.old }
    {
        self.spare = memory;
    }
}
