//! The place of an object: a thread, a segment of it and an offset in the segment, in one number.

ghost use Rattle.std.specs.Prelude.{◌≡◌, ℕ, ◌*◌, ◌<◌, ◌%◌, ◌↔◌, IsSome, IfSome};
ghost use Rattle.gc_words.specs.Layout.{address_of, thread_of, segment_of, offset_of, IsAddress, HasParts, IsMadeOf};

use std::marker::Model;

/// How many threads there are. Threads are numbered from 0.
pub const THREADS: u64 = 64;

/// How many segments a thread may have, ever: 2^32. Segments are numbered from 0 in each thread.
pub const SEGMENTS: u64 = 4294967296;

/// How many offsets a segment has, in words: 2^23.
pub const OFFSETS: u64 = 8388608;

/// The place of an object. Its offset counts words from the start of the segment and is even, because
/// every object has an even size.
#[derive(Clone, Copy, Debug, PartialEq, Eq, PartialOrd, Ord)]
pub struct Address {
    number: u64,
}

impl Model for Address {
    ghost use Rattle.std.specs.Prelude.{ℕ};
    ghost use Rattle.gc_words.specs.Layout.{IsAddress};

    ghost Value = { ℕ };

    ghost view = { λ a. a.number };

    ghost invariant = { λ a. IsAddress a.number };

    ghost inverse = { λ n. record { number = n } };
}

impl Address {
    /// The address of these parts. None where the thread is above 63, the segment is 2^32 or more, or
    /// the offset is 2^23 or more or odd.
    pub fn new(thread: u8, segment: u64, offset: u32) -> Option<Address>
        ensures some { IsSome result ↔ HasParts thread segment offset }
        ensures value { IfSome result (λ a. a ≡ address_of thread segment offset) }
        ensures parts { IfSome result (λ a. IsMadeOf a thread segment offset) }
    {
        if u64::from(thread) < THREADS
            && segment < SEGMENTS
            && u64::from(offset) < OFFSETS
            && offset % 2 == 0
        {
            Some(Address::at(thread, segment, offset))
        } else {
            None
        }
    }

    /// The address of parts that are known to be in range, with an even offset.
    #[tactic(auto, using(crate::proofs::LayoutLaws::address_of_valid), unfolding(crate::specs::Layout::address_of))]
    pub fn at(thread: u8, segment: u64, offset: u32) -> Address
        requires { HasParts thread segment offset }
        ensures value { result ≡ address_of thread segment offset }
        ensures parts { IsMadeOf result thread segment offset }
    {
        Address {
            number: (u64::from(thread) * SEGMENTS + segment) * OFFSETS + u64::from(offset),
        }
    }

    /// The thread, 0 to 63.
    #[tactic(auto, using(crate::proofs::LayoutLaws::its_parts), unfolding(crate::specs::Layout::thread_of))]
    pub fn thread(&self) -> u8
        ensures value { result ≡ thread_of self.now }
        ensures range { result < THREADS }
        ensures valid { IsAddress self.now }
    {
        (self.number / OFFSETS / SEGMENTS) as u8
    }

    /// The segment, below 2^32.
    #[tactic(auto, using(crate::proofs::LayoutLaws::its_parts), unfolding(crate::specs::Layout::segment_of))]
    pub fn segment(&self) -> u64
        ensures value { result ≡ segment_of self.now }
        ensures range { result < SEGMENTS }
    {
        self.number / OFFSETS % SEGMENTS
    }

    /// The offset in words from the start of the segment: even, and below 2^23.
    #[tactic(auto, using(crate::proofs::LayoutLaws::its_parts), unfolding(crate::specs::Layout::offset_of))]
    pub fn offset(&self) -> u32
        ensures value { result ≡ offset_of self.now }
        ensures range { result < OFFSETS }
        ensures even { result % 2 ≡ 0 }
    {
        (self.number % OFFSETS) as u32
    }

    /// The number in the upper 61 bits of an object's word.
    pub(crate) fn number(&self) -> u64
        ensures value { result ≡ self.now }
        ensures valid { IsAddress result }
    {
        self.number
    }

    /// The address of a number of at most 61 bits. None where its offset would be odd.
    pub(crate) fn from_number(number: u64) -> Option<Address>
        requires { number < THREADS * SEGMENTS * OFFSETS }
        ensures some { IsSome result ↔ (number % 2 ≡ 0) }
        ensures value { IfSome result (λ a. a ≡ number) }
    {
        if number % 2 == 0 {
            Some(Address { number })
        } else {
            None
        }
    }
}

/// The sweeper that works on the objects of a thread: the thread modulo the sweepers. A collection has
/// one owner for each object, as in Chez Scheme's parallel collector, where a thread's allocation area
/// says who may copy an object; the rule by remainder is this project's own.
pub fn owner_of(thread: u8, sweepers: u32) -> u32
    requires { 0 < sweepers }
    ensures { result ≡ thread % sweepers }
{
    u32::from(thread) % sweepers
}

#[cfg(test)]
mod tests {
    use super::*;
    use crate::registration::Registration;
    use crate::value::Value;
    use std::test::Fail;

    #[test]
    fn parts_of_an_address(rt: HostRuntime) -> Result<(), Fail> {
        for (thread, segment, offset, is_some) in [
            (0, 0, 0, true),
            (1, 2, 4, true),
            (63, 4294967295, 8388606, true),
            (64, 0, 0, false),
            (0, 4294967296, 0, false),
            (0, 0, 8388608, false),
            (0, 0, 3, false),
        ] {
            let made = Address::new(thread, segment, offset);
            assert_eq!(rt; made.is_some(), is_some, "{thread} {segment} {offset}");
            if let Some(a) = made {
                assert_eq!(rt;
                    (a.thread(), a.segment(), a.offset()),
                    (thread, segment, offset)
                );
            }
        }
        Ok(())
    }

    #[test]
    fn owners_by_remainder(rt: HostRuntime) -> Result<(), Fail> {
        assert_eq!(rt;
            (owner_of(63, 1), owner_of(5, 4), owner_of(3, 64)),
            (0, 1, 3)
        );
        Ok(())
    }

    #[test]
    fn a_registration_is_its_parts(rt: HostRuntime) -> Result<(), Fail> {
        let guardian = Address::at(0, 0, 2);
        let one = Registration {
            line: 7,
            guardian,
            object: Value::Object(guardian),
            representative: Value::Nil,
        };
        let other = Registration { line: 8, ..one };
        assert!(rt; one == one && one != other);
        Ok(())
    }
}
