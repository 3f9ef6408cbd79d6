//! A counter of steps that costs nothing: a number for proofs alone.
//!
//! A public call whose steps are bounded takes `steps: &mut Steps<L>` last and takes one step where the
//! work that it counts is done, so that its contract says how much work that was. What a step stands for
//! is told by the call: a message delivered, a turn, an entry read. For contracts `Steps` is the number of
//! steps taken since it was made. It has no bytes, and `tick`, the only call that changes it, no code.
//!
//! Inside, it is the whole share of a ledger of std beside the ledger's book, whose total is the number.
//! Invariant: the share has a part. A caller that counts nothing makes a counter of its own from a blank.
//! The form is this project's own. No call of this crate takes memory.
#![tactic(auto)]

ghost use Rattle.std.specs.Prelude.{◌≡◌, ℕ, ◌+◌, ◌<◌};

use std::marker::Model;
use std::sync::ledger::{Blank, Book, Ledger, Share};

/// How many steps were taken, of the kind that the calls that take it say.
#[derive(Drop)]
pub struct Steps<L: Ledger> {
    book: Book<L>,
    share: Share<L>,
}

impl<L: Ledger> Model for Steps<L> {
    ghost Value = { ℕ };

    ghost view = { λ s. s.book.total };

    ghost invariant = { λ s. 0 < s.share.parts };
}

impl<L: Ledger> Steps<L> {
    /// A counter that stands at 0. The blank is one of this ledger, with at least one part.
    pub fn new(blank: Blank) -> Steps<L>
        requires name { blank.name ≡ L.name }
        requires parts { blank.parts ≡ L.parts }
        requires some { 0 < blank.parts }
        ensures { result ≡ 0 }
    {
        let (book, share) = blank.open::<L>();
        Steps { book, share }
    }

    /// Takes one step.
    pub fn tick(&mut self)
        ensures { self.new ≡ self.old + 1 }
    {
        self.book.add(&mut self.share, 1);
    }
}

#[cfg(test)]
mod tests {
    use super::*;
    use std::marker::Brand;
    use std::test::Fail;

    fn three<L: Ledger>(blank: Blank)
        requires name { blank.name ≡ L.name }
        requires parts { blank.parts ≡ L.parts }
        requires some { 0 < blank.parts }
    {
        let mut steps = Steps::<L>::new(blank);
        steps.tick();
        steps.tick();
        steps.tick();
    }

    #[test]
    fn counts_with_no_ledger_at_hand(_rt: HostRuntime) -> Result<(), Fail> {
        three::<Brand>(Blank::new(1));
        Ok(())
    }
}
