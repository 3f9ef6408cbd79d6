//! The from-segment that was looked at last: objects that lie near one another need one look-up.

ghost use Rattle.std.specs.Prelude.{◌≡◌, ◌+◌, ◌^◌, ◌≤◌, IfSome, Some};
ghost use Rattle.gc_words.specs.Layout.{segment_of, thread_of};
ghost use Rattle.territory.specs.Finishing.{target_of};
ghost use Rattle.directory.specs.Directories.{DirectoryView, found_at};
ghost use Rattle.directory.specs.Nears.{IsNear};
ghost use Rattle.directory.specs.Tables.{entry_at, run_of};

use crate::directory::{Directory, Found, target_in};
use crate::table::FromSegment;
use gc_words::Address;

/// A from-segment by its thread and number, and the generation to which its objects go.
#[derive(Clone, Copy, Debug, PartialEq, Eq)]
pub struct Near {
    /// The creator thread; 255 where nothing was looked at.
    pub thread: u8,
    /// The number of the segment.
    pub segment: u64,
    /// What the directory has there.
    pub from: FromSegment,
    /// The generation to which the objects of the from-segment go.
    pub target: u8,
}

impl Near {
    /// Near no from-segment.
    pub fn none() -> Near
        ensures { (d : DirectoryView) → IsNear d result }
    {
        Near {
            thread: 255,
            segment: 0,
            from: FromSegment {
                first_word: 0,
                size: 0,
                generation: 0,
            },
            target: 0,
        }
    }
}

impl Directory {
    /// The from-segment of an address's thread and segment number, wherever the address lies in it. It is
    /// looked up where it is not the one that was looked at last, which it is then.
    #[inline(always)]
    fn entry_near(&self, near: &mut Near, at: Address) -> Option<FromSegment>
        requires near { IsNear self.now near.old }
        ensures near { IsNear self.now near.new }
        ensures value { result ≡ entry_at self.now.tables (thread_of at) (segment_of at) }
        ensures from { IfSome result (λ from. near.new.from ≡ from) }
        ensures target { IfSome result (λ from. near.new.target ≡ target_of self.now.targets from.generation) }
        ensures range { IfSome result (λ from. near.new.target ≤ 8) }
        ensures fits { IfSome result (λ from. from.first_word + run_of from.size ≤ 2 ^ 64) }
    {
        let tables = &self.tables;
        let thread = at.thread();
        let segment = at.segment();
        if thread == near.thread && segment == near.segment {
            return Some(near.from);
        }
        let from = tables[thread as usize].entry(segment as usize)?;
        *near = Near {
            thread,
            segment,
            from,
            target: target_in(self.targets, from.generation),
        };
        Some(from)
    }

    /// What `find` tells of an address, where the from-segment that was looked at last is looked at first.
    /// Where something is found, it lies in the from-segment of `near` then, and goes to its target.
    #[inline(always)]
    pub fn find_near(&self, near: &mut Near, at: Address) -> Option<Found>
        requires near { IsNear self.now near.old }
        ensures near { IsNear self.now near.new }
        ensures value { result ≡ found_at self.now at }
        ensures from { IfSome result (λ f. entry_at self.now.tables (thread_of at) (segment_of at) ≡ Some near.new.from) }
        ensures target { IfSome result (λ f. near.new.target ≡ target_of self.now.targets f.generation) }
        ensures range { IfSome result (λ f. near.new.target ≤ 8) }
    {
        let from = self.entry_near(near, at)?;
        let offset = at.offset();
        if offset < from.size {
            Some(Found {
                generation: from.generation,
                word: from.word(offset),
            })
        } else {
            None
        }
    }
}
