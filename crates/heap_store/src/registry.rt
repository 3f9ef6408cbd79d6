//! The registry: what was registered with guardians and wasn't delivered yet.

ghost use Rattle.std.specs.Prelude.{◌≡◌, [], replicate};
ghost use Rattle.heap_store.specs.Registries.{level_count};

use gc_words::Registration;
use seg_chain::Chains;
use std::alloc::Global;
use std::marker::Model;

/// Registrations, in one list for each level from 0 to 8. The level of a registration is the least
/// generation of the objects that it names, so a collection looks at the levels that it collects alone.
#[derive(Drop)]
pub struct Registry {
    entries: Vec<Registration>,
    /// Chain 1 + l has the indices of level l, and chain 0 those that are free. There is none before the
    /// first entry.
    chains: Option<Chains>,
}

impl Model for Registry {
    ghost use Rattle.std.specs.Prelude.{List};
    ghost use Rattle.gc_words.specs.declared.registration.Registration.{Registration};
    ghost use Rattle.heap_store.specs.Registries.{levels};

    ghost Value = { List (List Registration) };

    ghost view = { λ r. levels r.entries.items r.chains };
}

impl Registry {
    /// An empty registry. Takes no memory.
    pub fn new(alloc: Global) -> Registry
        ensures { result ≡ replicate level_count [] }
    {
        Registry {
            entries: Vec::new(alloc),
            chains: None,
        }
    }
}
