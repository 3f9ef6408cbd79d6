//! Circles of nodes: what follows each node, and what stands before it.

ghost use Rattle.std.specs.Prelude.{◌≡◌, ℕ, ◌<◌, [], ◌∷◌, ◌++◌, length, slice_index, slice_set, OnOk, OnErr, IfOk};

use std::alloc::{AllocError, Global};

/// The numbers below n: each node is its own neighbour.
pub fn own_numbers(alloc: Global, n: usize) -> Result<Vec<usize>, AllocError>
    ensures { IfOk result (λ v. (length v.items ≡ n) × ((i : ℕ) → i < n → slice_index v.items i ≡ i)) }
{
    let mut v = Vec::new(alloc);
    for i in 0..n {
        v.push(i)?;
    }
    Ok(v)
}

/// Adds one node that is linked to nothing. Refused, both are as before.
pub fn add_node(next: &mut Vec<usize>, prev: &mut Vec<usize>) -> Result<(), AllocError>
    requires { length prev.old.items ≡ length next.old.items }
    ensures ok { OnOk result
        ((next.new.items ≡ next.old.items ++ 0 ∷ []) × (prev.new.items ≡ prev.old.items ++ 0 ∷ [])) }
    ensures err { OnErr result ((next.new.items ≡ next.old.items) × (prev.new.items ≡ prev.old.items)) }
{
    next.push(0)?;
    if prev.push(0).is_err() {
        let _ = next.pop();
        return Err(AllocError);
    }
    Ok(())
}

/// Takes a node out of its circle.
pub fn detach(next: &mut Vec<usize>, prev: &mut Vec<usize>, node: usize)
    requires same { length prev.old.items ≡ length next.old.items }
    requires node_in { node < length next.old.items }
    requires next_in { slice_index next.old.items node < length next.old.items }
    requires prev_in { slice_index prev.old.items node < length next.old.items }
    ensures next { next.new.items
        ≡ slice_set next.old.items (slice_index prev.old.items node) (slice_index next.old.items node) }
    ensures prev { prev.new.items
        ≡ slice_set prev.old.items (slice_index next.old.items node) (slice_index prev.old.items node) }
{
    let before = prev[node];
    let after = next[node];
    next[before] = after;
    prev[after] = before;
}

/// Puts a loose node last in the circle of a chain's node.
pub fn attach(next: &mut Vec<usize>, prev: &mut Vec<usize>, chain: usize, node: usize)
    requires same { length prev.old.items ≡ length next.old.items }
    requires chain_in { chain < length next.old.items }
    requires node_in { node < length next.old.items }
    requires prev_in { slice_index prev.old.items chain < length next.old.items }
    ensures next { next.new.items
        ≡ slice_set (slice_set next.old.items (slice_index prev.old.items chain) node) node chain }
    ensures prev { prev.new.items
        ≡ slice_set (slice_set prev.old.items node (slice_index prev.old.items chain)) chain node }
{
    let last = prev[chain];
    next[last] = node;
    next[node] = chain;
    prev[node] = last;
    prev[chain] = node;
}

/// Puts the nodes of one chain's circle last in another, and leaves the first alone in its circle.
pub fn join_circles(next: &mut Vec<usize>, prev: &mut Vec<usize>, from: usize, to: usize)
    requires same { length prev.old.items ≡ length next.old.items }
    requires from_in { from < length next.old.items }
    requires to_in { to < length next.old.items }
    requires first_in { slice_index next.old.items from < length next.old.items }
    requires last_in { slice_index prev.old.items from < length next.old.items }
    requires end_in { slice_index prev.old.items to < length next.old.items }
    ensures next { let first = slice_index next.old.items from in
        let last = slice_index prev.old.items from in
        let end = slice_index prev.old.items to in
        next.new.items ≡ slice_set (slice_set (slice_set next.old.items end first) last to) from from }
    ensures prev { let first = slice_index next.old.items from in
        let last = slice_index prev.old.items from in
        let end = slice_index prev.old.items to in
        prev.new.items ≡ slice_set (slice_set (slice_set prev.old.items first end) to last) from from }
{
    let first = next[from];
    let last = prev[from];
    let end = prev[to];
    next[end] = first;
    next[last] = to;
    next[from] = from;
    prev[first] = end;
    prev[to] = last;
    prev[from] = from;
}
