//! What a collection does with a segment: it sets it aside, holds starts at their place, and in the end
//! keeps those alone. A segment without a held start is given back whole.

ghost use Rattle.std.specs.Prelude.{◌≡◌, ℕ, ◌<◌, false, vec_len};
ghost use Rattle.segment.specs.declared.segment.Role.TheVariants.{From};
ghost use Rattle.segment.specs.Segments.{IsStart, is_free, set_aside, held_at, count_of_births, marked_births, kept_marked, spot, kept_spot};

use super::{Role, Segment};

impl Segment {
    /// Sets a segment in use aside: a collection copies its objects out, or holds them at their place.
    pub fn set_aside(&mut self)
        requires { is_free self.old.role ≡ false }
        ensures { self.new ≡ set_aside self.old }
    {
        self.role = Role::From;
    }

    /// Holds a start of a segment that is set aside at its place.
    pub fn hold(&mut self, k: usize)
        requires aside { self.old.role ≡ From }
        requires start { IsStart self.old k }
        ensures { self.new ≡ held_at self.old k }
    {
        self.marks[k] = true;
        self.holds = true;
    }

    /// Takes a segment that was set aside into use again, as one of this generation in which a collection
    /// kept objects at their place: each held start stays as it is, and nothing else starts here any more.
    pub fn keep_marked(&mut self, generation: u8)
        requires aside { self.old.role ≡ From }
        ensures after { self.new ≡ kept_marked self.old generation }
        ensures starts { (k : ℕ) → spot self.new k ≡ kept_spot self.old generation k }
    {
        keep_marked_births(&mut self.births, &self.marks);
        self.starts = count_births(&self.births);
        self.marks.fill(false);
        self.holds = false;
        self.generation = generation;
        self.role = Role::Current;
        self.was_held = true;
    }
}

/// Takes out each birth that has no mark.
fn keep_marked_births(births: &mut Vec<u32>, marks: &Vec<bool>)
    requires { vec_len marks.now ≡ vec_len births.old }
    ensures { births.new.items ≡ marked_births births.old.items marks.now.items }
{
    for k in 0..births.len() {
        if !marks[k] {
            births[k] = 0;
        }
    }
}

/// How many births there are.
fn count_births(births: &[u32]) -> usize
    ensures { result ≡ count_of_births births.now }
{
    births.iter().filter(|birth| **birth != 0).count()
}
