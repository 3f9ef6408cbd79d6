//! What is copied while pairs are followed.

use gc_words::Address;
use http_server::Log;

/// The objects that were copied.
#[derive(Drop)]
pub struct CopyLog {
    /// All of them with their places, in order. Contracts alone read it: it takes no memory.
    pub own: Log<Address, Address>,
    /// How many they are.
    pub count: u64,
    /// Those that wait to be swept, with their places.
    pub waiting: Vec<(Address, Address)>,
}

/// Where following ended.
#[derive(Clone, Copy, Debug, PartialEq, Eq)]
pub struct Followed {
    /// The pair to which following came, which was copied.
    pub object: Address,
    /// Its copy.
    pub copy: Address,
    /// Whether its car was swept.
    pub car_swept: bool,
    /// Its words: what the collection still has to sweep.
    pub car: u64,
    pub cdr: u64,
}
