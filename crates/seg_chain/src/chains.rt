//! The lists of some chains, linked by index.

ghost use Rattle.std.specs.Prelude.{◌≡◌, ◌≢◌, ℕ, ◌+◌, ◌<◌, List, [], length, slice_get, replicate, Contains, None, IfOk, OnOk, OnErr};
ghost use Rattle.std.specs.List.{last_or};
ghost use Rattle.seg_chain.specs.Lists.{chain_of, link_count, with_last, moved, spliced, EachOnce, NextIs};

use crate::links::{add_node, attach, detach, join_circles, own_numbers};
use std::alloc::{AllocError, Global};
use std::marker::Model;

/// Lists of indices, one a chain. Chain 0 holds the loose indices.
#[derive(Drop)]
pub struct Chains {
    /// How many chains there are. Node c stands for chain c, and node heads + i for index i.
    heads: usize,
    /// The node after each node, round its circle.
    next: Vec<usize>,
    /// The node before each node.
    prev: Vec<usize>,
}

impl Model for Chains {
    ghost use Rattle.std.specs.Prelude.{List, ℕ};
    ghost use Rattle.seg_chain.specs.Linked.{lists_of, IsLinked};

    ghost Value = { List (List ℕ) };

    ghost view = { λ a. lists_of a.heads a.next.items };

    ghost invariant = { λ a. IsLinked a.heads a.next.items a.prev.items (lists_of a.heads a.next.items) };
}

impl Chains {
    /// So many chains, all empty, and no link. Takes memory.
    pub fn new(alloc: Global, chains: usize) -> Result<Chains, AllocError>
        ensures lists { IfOk result (λ c. c ≡ replicate chains []) }
        ensures links { IfOk result (λ c. link_count c ≡ 0) }
        ensures each_once { IfOk result EachOnce }
    {
        Ok(Chains {
            heads: chains,
            next: own_numbers(alloc, chains)?,
            prev: own_numbers(alloc, chains)?,
        })
    }

    /// Adds the index that `links` gives, last in a chain, and answers it. Takes memory; refused, nothing
    /// changed.
    pub fn grow(&mut self, chain: usize) -> Result<usize, AllocError>
        requires { chain < length self.old }
        ensures index { IfOk result (λ i. i ≡ link_count self.old) }
        ensures lists { IfOk result (λ i. self.new ≡ with_last self.old chain i) }
        ensures links { OnOk result (link_count self.new ≡ link_count self.old + 1) }
        ensures each_once { EachOnce self.new }
        ensures refused { OnErr result (self.new ≡ self.old) }
    {
        let node = self.next.len();
        add_node(&mut self.next, &mut self.prev)?;
        attach(&mut self.next, &mut self.prev, chain, node);
        Ok(node - self.heads)
    }

    /// Puts a loose index last in a chain other than chain 0.
    pub fn push_last(&mut self, chain: usize, index: usize)
        requires chain_in { chain < length self.old }
        requires not_loose { chain ≢ 0 }
        requires loose { Contains (chain_of self.old 0) index }
        ensures lists { self.new ≡ moved self.old 0 chain index }
        ensures links { link_count self.new ≡ link_count self.old }
        ensures each_once { EachOnce self.new }
    {
        self.move_last(0, chain, index);
    }

    /// Takes an index out of its chain, which is not chain 0, and puts it last among the loose ones.
    pub fn unlink(&mut self, chain: usize, index: usize)
        requires chain_in { chain < length self.old }
        requires not_loose { chain ≢ 0 }
        requires linked { Contains (chain_of self.old chain) index }
        ensures lists { self.new ≡ moved self.old chain 0 index }
        ensures links { link_count self.new ≡ link_count self.old }
        ensures each_once { EachOnce self.new }
    {
        self.move_last(chain, 0, index);
    }

    /// Appends the whole list of one chain to that of another, and empties the first.
    pub fn splice(&mut self, from: usize, to: usize)
        requires from_in { from < length self.old }
        requires to_in { to < length self.old }
        requires other { to ≢ from }
        ensures lists { self.new ≡ spliced self.old from to }
        ensures links { link_count self.new ≡ link_count self.old }
        ensures each_once { EachOnce self.new }
    {
        let first = self.next[from];
        if first >= self.heads {
            join_circles(&mut self.next, &mut self.prev, from, to);
        }
    }

    /// The first index of a chain. None where its list is empty.
    pub fn first(&self, chain: usize) -> Option<usize>
        requires { chain < length self.now }
        ensures { result ≡ slice_get (chain_of self.now chain) 0 }
    {
        let node = self.next[chain];
        if node < self.heads {
            None
        } else {
            Some(node - self.heads)
        }
    }

    /// The last index of a chain. None where its list is empty.
    pub fn last(&self, chain: usize) -> Option<usize>
        requires { chain < length self.now }
        ensures { result ≡ last_or None (chain_of self.now chain) }
    {
        let node = self.prev[chain];
        if node < self.heads {
            None
        } else {
            Some(node - self.heads)
        }
    }

    /// The index after an index, in the list that has it. None where it is the last there.
    pub fn next(&self, index: usize) -> Option<usize>
        requires { index < link_count self.now }
        ensures { NextIs self.now index result }
    {
        let node = self.next[self.heads + index];
        if node < self.heads {
            None
        } else {
            Some(node - self.heads)
        }
    }

    /// How many indices there are in all chains together. They are the numbers below it.
    pub fn links(&self) -> usize
        ensures count { result ≡ link_count self.now }
        ensures each_once { EachOnce self.now }
    {
        self.next.len() - self.heads
    }

    /// Takes an index out of a chain, and puts it last in another.
    fn move_last(&mut self, from: usize, to: usize, index: usize)
        requires from_in { from < length self.old }
        requires to_in { to < length self.old }
        requires other { to ≢ from }
        requires linked { Contains (chain_of self.old from) index }
        ensures lists { self.new ≡ moved self.old from to index }
        ensures links { link_count self.new ≡ link_count self.old }
        ensures each_once { EachOnce self.new }
    {
        let node = self.heads + index;
        detach(&mut self.next, &mut self.prev, node);
        attach(&mut self.next, &mut self.prev, to, node);
    }
}

#[cfg(test)]
mod tests {
    use super::*;
    use std::test::Fail;

    /// The lists of chains 0, 1 and 2, each followed by 99, as `first` and `next` show them.
    fn shown(alloc: Global, chains: &Chains) -> Result<Vec<usize>, AllocError>
        requires { length chains.now ≡ 3 }
    {
        let mut all = Vec::new(alloc);
        for chain in 0..3 {
            let mut at = chains.first(chain);
            for _ in 0..4 {
                if let Some(index) = at {
                    all.push(index)?;
                    at = if index < chains.links() {
                        chains.next(index)
                    } else {
                        None
                    };
                }
            }
            all.push(99)?;
        }
        Ok(all)
    }

    #[test]
    fn links_move_between_chains(rt: HostRuntime) -> Result<(), Fail> {
        let alloc = rt.alloc();
        let mut chains = Chains::new(alloc, 3)?;
        assert_eq!(rt; chains.links(), 0);
        assert_eq!(rt;
            (chains.grow(1)?, chains.grow(1)?, chains.grow(2)?),
            (0, 1, 2)
        );
        assert_eq!(rt;
            shown(alloc, &chains)?.as_slice(),
            [99, 0, 1, 99, 2, 99].as_slice()
        );
        chains.unlink(1, 0);
        assert_eq!(rt;
            shown(alloc, &chains)?.as_slice(),
            [0, 99, 1, 99, 2, 99].as_slice()
        );
        chains.push_last(2, 0);
        assert_eq!(rt;
            shown(alloc, &chains)?.as_slice(),
            [99, 1, 99, 2, 0, 99].as_slice()
        );
        chains.splice(2, 1);
        assert_eq!(rt;
            shown(alloc, &chains)?.as_slice(),
            [99, 1, 2, 0, 99, 99].as_slice()
        );
        assert_eq!(rt; chains.links(), 3);
        assert_eq!(rt; (chains.last(0), chains.last(1)), (None, Some(0)));
        Ok(())
    }
}
