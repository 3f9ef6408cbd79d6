//! The rule of the table, and what each step on it tells. Each stands in specs/Forwarding.

use crate::view::View;
use atomic_table::{Join, Play, Split, TableRule};

pub(crate) struct Forwarding;

impl TableRule<u64, View, Vec<usize>> for Forwarding {
    ghost use Rattle.live_forward.specs.Forwarding.{KeepsRule, first_view};

    ghost holds = { λ key s. KeepsRule key.items s.words s.views };

    ghost first = { λ key. first_view key.items };
}

pub(crate) struct Claim;

impl Play<u64, View> for Claim {
    ghost use Rattle.live_forward.specs.Forwarding.{Claims};

    ghost then = { Claims };
}

pub(crate) struct Cut;

impl Split<View> for Cut {
    ghost use Rattle.live_forward.specs.Forwarding.{without_rights, split_off};

    ghost left = { without_rights };

    ghost right = { split_off };
}

pub(crate) struct Store;

impl Play<u64, View> for Store {
    ghost use Rattle.live_forward.specs.Forwarding.{Stores};

    ghost then = { Stores };
}

pub(crate) struct Load;

impl Play<u64, View> for Load {
    ghost use Rattle.live_forward.specs.Forwarding.{Loads};

    ghost then = { Loads };
}

pub(crate) struct Settle;

impl Play<u64, View> for Settle {
    ghost use Rattle.live_forward.specs.Forwarding.{Settles};

    ghost then = { Settles };
}

pub(crate) struct Gather;

impl Join<View> for Gather {
    ghost use Rattle.live_forward.specs.Forwarding.{joined, spent};

    ghost both = { joined };

    ghost spent = { spent };
}
