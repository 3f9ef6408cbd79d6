//! A sweeper and its parts.

use gc_mail::{Inbox, Outbox};
use std::marker::Model;
use sweep_places::Places;
use sweep_share::{Registers, Share};

/// A sweeper's share of a collection.
#[derive(Drop)]
pub struct Sweeper {
    pub(crate) share: Share,
    pub(crate) registers: Registers,
    pub(crate) places: Places,
    pub(crate) inbox: Inbox,
    pub(crate) outbox: Outbox,
    /// Which round comes next.
    pub(crate) round: u64,
    pub(crate) ran_out: bool,
}

impl Model for Sweeper {
    ghost use Rattle.std.specs.Coded.{codes};
    ghost use Rattle.sweep_share.specs.Shares.{coded_share};
    ghost use Rattle.sweeper.specs.Sweepers.{IsJoined, SweeperView};

    ghost Value = { SweeperView };

    ghost coded = { Prim.hlevel (codes, coded_share) };

    ghost view = { λ s. record {
      share = s.share;
      registers = s.registers;
      places = s.places;
      inbox = s.inbox;
      outbox = s.outbox;
      round = s.round;
      ran_out = s.ran_out;
    } };

    ghost invariant = { λ s. IsJoined (record {
      share = s.share;
      registers = s.registers;
      places = s.places;
      inbox = s.inbox;
      outbox = s.outbox;
      round = s.round;
      ran_out = s.ran_out;
    }) };
}
