//! Numbers of segments: a free one is used again before a new one, and the one that was given back last before the
//! others, since its memory was used last.

ghost use Rattle.std.specs.Prelude.{◌≡◌, ◌<◌, ◌≤◌, length, IfOk, OnOk};
ghost use Rattle.gc_words.specs.declared.address.TheConstants.{SEGMENTS};
ghost use Rattle.seg_chain.specs.Lists.{chain_of, link_count, EachOnce};
ghost use Rattle.territory.specs.Pools.{IsSettled};
ghost use Rattle.territory.specs.Changes.{IsSame, IsTaken};

use super::Pool;
use gc_words::SEGMENTS;
use seg_chain::Chains;
use segment::Segment;
use std::alloc::AllocError;

/// Makes more links than so many.
fn link_more(dirty: &mut Chains, count: usize) -> Result<(), AllocError>
    requires two { length dirty.old ≡ 2 }
    requires known { count ≤ link_count dirty.old }
    requires each_once { EachOnce dirty.old }
    ensures chains { length dirty.new ≡ 2 }
    ensures links { link_count dirty.old ≤ link_count dirty.new }
    ensures each_once { EachOnce dirty.new }
    ensures dirty { chain_of dirty.new 1 ≡ chain_of dirty.old 1 }
    ensures ok { OnOk result (count < link_count dirty.new) }
{
    if dirty.links() > count {
        return Ok(());
    }
    dirty.grow(0)?;
    Ok(())
}

impl Pool {
    /// A free number: the last one in its list, or else one that was never used, which takes memory.
    pub fn take_number(&mut self) -> Result<usize, AllocError>
        requires { IsSettled self.old }
        ensures settled { IsSettled self.new }
        ensures same { IsSame self.old self.new }
        ensures ok { IfOk result (λ n. IsTaken self.old self.new n) }
    {
        if let Some(n) = self.lists.last(0) {
            return Ok(n);
        }
        if self.lists.links() as u64 >= SEGMENTS {
            return Err(AllocError);
        }
        self.add_segment()?;
        let n = self.lists.grow(0)?;
        Ok(n)
    }

    /// Sees to it that there is a segment for the next number.
    fn add_segment(&mut self) -> Result<(), AllocError>
        requires settled { IsSettled self.old }
        requires room { link_count self.old.lists < SEGMENTS }
        ensures settled { IsSettled self.new }
        ensures same { IsSame self.old self.new }
        ensures lists { self.new.lists ≡ self.old.lists }
        ensures ok { OnOk result (link_count self.new.lists < length self.new.segments) }
    {
        if self.lists.links() < self.segments.len() {
            return Ok(());
        }
        link_more(&mut self.dirty, self.segments.len())?;
        let segment = Segment::vacant(*self.segments.allocator())?;
        self.segments.push(segment)?;
        Ok(())
    }
}
