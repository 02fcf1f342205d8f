//! A set of nodes of a run.
ghost use Rattle.std.specs.Prelude.{◌≡◌, ◌||◌, ◌&&◌, not, OnOk, IfOk, fold};
ghost use Rattle.std.specs.List.{list_any};
ghost use Rattle.qs_engage.specs.Nodes.{all_nodes, listed, with_listed, has_node, put_node, drop_node, joined, union, without, has_all, is_no_node, put_where};

use qs_base::{List, NoMemory, NodeNo};
use std::alloc::Global;

/// How many nodes a run may have.
pub const NODE_COUNT: usize = 16;

const ALL_NODES: [NodeNo; 16] = [
    NodeNo(0),
    NodeNo(1),
    NodeNo(2),
    NodeNo(3),
    NodeNo(4),
    NodeNo(5),
    NodeNo(6),
    NodeNo(7),
    NodeNo(8),
    NodeNo(9),
    NodeNo(10),
    NodeNo(11),
    NodeNo(12),
    NodeNo(13),
    NodeNo(14),
    NodeNo(15),
];

/// All nodes that a run may have, in order.
#[tactic(auto, unfolding(crate::specs::Nodes::all_nodes))]
pub fn every_node() -> &'static [NodeNo]
    ensures { result.now ≡ all_nodes }
{
    &ALL_NODES
}

/// Which of the nodes of a run. No call but `listed` takes memory. A node from 16 on is in no set.
#[derive(Clone, Copy)]
pub struct Nodes {
    /// Whether it has the node of that number.
    pub has: [bool; 16],
}

impl Nodes {
    /// None of them.
    pub const NONE: Nodes = Nodes { has: [false; 16] };

    /// Whether the node is in it.
    pub fn contains(&self, node: NodeNo) -> bool
        ensures { result ≡ has_node self.now node }
    {
        match self.has.get(usize::from(node.0)) {
            Some(has) => *has,
            None => false,
        }
    }

    /// The node is in it from now on.
    pub fn put(&mut self, node: NodeNo)
        ensures { self.new ≡ put_node self.old node }
    {
        let place = usize::from(node.0);
        if place < NODE_COUNT {
            self.has[place] = true;
        }
    }

    /// The node is not in it from now on.
    pub fn remove(&mut self, node: NodeNo)
        ensures { self.new ≡ drop_node self.old node }
    {
        let place = usize::from(node.0);
        if place < NODE_COUNT {
            self.has[place] = false;
        }
    }

    /// The nodes of a list are in it from now on.
    pub fn join(&mut self, nodes: &List<NodeNo>)
        ensures { self.new ≡ joined self.old nodes.now }
    {
        for node in nodes.as_slice() {
            self.put(*node);
        }
    }

    /// Whether it has none.
    pub fn is_empty(&self) -> bool
        ensures { result ≡ is_no_node self.now }
    {
        !self.has_any(every_node())
    }

    fn has_any(&self, nodes: &[NodeNo]) -> bool
        ensures { result ≡ list_any (has_node self.now) nodes.now }
    {
        nodes.iter().any(|node| self.contains(*node))
    }

    /// Those of this set and of the other.
    pub fn union(&self, more: &Nodes) -> Nodes
        ensures { result ≡ union self.now more.now }
    {
        let mut both = Nodes::NONE;
        both.put_either(self, more, every_node());
        both
    }

    fn put_either(&mut self, one: &Nodes, more: &Nodes, nodes: &[NodeNo])
        ensures { self.new ≡ fold (put_where (λ node. has_node one.now node || has_node more.now node)) self.old nodes.now }
    {
        for node in nodes {
            self.put_if(one.contains(*node) || more.contains(*node), *node);
        }
    }

    /// Those of this set that the other lacks.
    pub fn without(&self, other: &Nodes) -> Nodes
        ensures { result ≡ without self.now other.now }
    {
        let mut rest = Nodes::NONE;
        rest.put_rest(self, other, every_node());
        rest
    }

    fn put_rest(&mut self, one: &Nodes, other: &Nodes, nodes: &[NodeNo])
        ensures { self.new ≡ fold (put_where (λ node. has_node one.now node && not (has_node other.now node))) self.old nodes.now }
    {
        for node in nodes {
            self.put_if(one.contains(*node) && !other.contains(*node), *node);
        }
    }

    /// Whether it has all of the other.
    pub fn has_all(&self, other: &Nodes) -> bool
        ensures { result ≡ has_all self.now other.now }
    {
        other.without(self).is_empty()
    }

    /// The node is in it from now on, if `is_in`.
    pub fn put_if(&mut self, is_in: bool, node: NodeNo)
        ensures { self.new ≡ put_where (λ _. is_in) self.old node }
    {
        if is_in {
            self.put(node);
        }
    }

    /// Its nodes in order.
    pub fn listed(&self, alloc: Global) -> Result<List<NodeNo>, NoMemory>
        ensures { IfOk result (λ nodes. nodes ≡ listed self.now) }
    {
        let mut nodes = List::new(alloc);
        self.list_each(&mut nodes, every_node())?;
        Ok(nodes)
    }

    fn list_each(&self, nodes: &mut List<NodeNo>, all: &[NodeNo]) -> Result<(), NoMemory>
        ensures { OnOk result (nodes.new ≡ fold (with_listed self.now) nodes.old all.now) }
    {
        for node in all {
            self.list_one(nodes, *node)?;
        }
        Ok(())
    }

    fn list_one(&self, nodes: &mut List<NodeNo>, node: NodeNo) -> Result<(), NoMemory>
        ensures { OnOk result (nodes.new ≡ with_listed self.now nodes.old node) }
    {
        if self.contains(node) {
            nodes.push(node)?;
        }
        Ok(())
    }
}
