ghost use Rattle.std.specs.Prelude.{◌≡◌, ℕ, ◌+◌, ◌<◌, max, [], ◌∷◌};
ghost use Rattle.std.specs.Prelude.{◌++◌, List, Contains, IfOk, OnOk, OnErr};
ghost use Rattle.links.specs.Nodes.{first_of, CountsNeighbours, IsChain, IsInsertedAfter};
ghost use Rattle.links.specs.Nodes.{IsInsertedBefore, IsNext, IsPrev, IsRemoved};
ghost use Rattle.links.specs.Links.{front_after};

use crate::steps::Steps;
use crate::table::{Table, sides};
use std::alloc::{AllocError, Global};
use std::marker::Model;
use std::sync::ledger::Ledger;

/// A doubly linked list of nodes, each of which is a number below the chain's room.
#[derive(Drop)]
pub struct Chain {
    links: Table,
    front: Option<u32>,
}

impl Model for Chain {
    ghost use Rattle.std.specs.Prelude.{length};
    ghost use Rattle.links.specs.Nodes.{ChainView};

    ghost Value = { ChainView };

    ghost use Rattle.links.specs.Links.{nodes_of, IsLinked};

    ghost view = { λ c. record { nodes = nodes_of c.links c.front; room = length c.links } };

    ghost invariant = { λ c. IsLinked c.links c.front (nodes_of c.links c.front) };
}

impl Chain {
    /// An empty chain with room for the nodes below n.
    pub fn with_room(alloc: Global, n: u32) -> Result<Chain, AllocError>
        ensures empty { IfOk result (λ chain. chain.nodes ≡ []) }
        ensures room { IfOk result (λ chain. chain.room ≡ n) }
    {
        let links = Table::with_room(alloc, n)?;
        Ok(Chain { links, front: None })
    }

    /// Makes room for the nodes below n, where there is less.
    pub fn reserve(&mut self, n: u32) -> Result<(), AllocError>
        ensures nodes { self.new.nodes ≡ self.old.nodes }
        ensures room { OnOk result (self.new.room ≡ max self.old.room n) }
        ensures err { OnErr result (self.new.room ≡ self.old.room) }
        ensures chain { IsChain self.new }
    {
        self.links.reserve(n)
    }

    /// The first node, or `None` for an empty chain. It reads no node.
    pub fn front<L: Ledger>(&self, steps: &mut Steps<L>) -> Option<u32>
        ensures front { result ≡ first_of self.now.nodes }
        ensures chain { IsChain self.now }
        ensures steps { steps.new ≡ steps.old }
    {
        let _ = steps;
        self.front
    }

    /// The node behind a node, or `None` at the end.
    pub fn next<L: Ledger>(&self, node: u32, steps: &mut Steps<L>) -> Option<u32>
        requires { Contains self.now.nodes node }
        ensures next { IsNext self.now.nodes node result }
        ensures chain { IsChain self.now }
        ensures steps { steps.new ≡ steps.old + 1 }
    {
        sides(self.links.get(node, steps)).1
    }

    /// The node before a node, or `None` at the front.
    pub fn prev<L: Ledger>(&self, node: u32, steps: &mut Steps<L>) -> Option<u32>
        requires { Contains self.now.nodes node }
        ensures prev { IsPrev self.now.nodes node result }
        ensures chain { IsChain self.now }
        ensures steps { steps.new ≡ steps.old + 1 }
    {
        sides(self.links.get(node, steps)).0
    }

    /// Puts a node at the front.
    pub fn push_front<L: Ledger>(&mut self, node: u32, steps: &mut Steps<L>)
        requires below { node < self.old.room }
        requires out { ¬ Contains self.old.nodes node }
        ensures nodes { self.new.nodes ≡ node ∷ self.old.nodes }
        ensures room { self.new.room ≡ self.old.room }
        ensures chain { IsChain self.new }
        ensures steps { CountsNeighbours node self.new.nodes steps.old steps.new }
    {
        let after = self.front;
        self.links.put_first(node, after, steps);
        self.front = Some(node);
    }

    /// Puts a node right before the node `at`.
    pub fn insert_before<L: Ledger>(&mut self, at: u32, node: u32, steps: &mut Steps<L>)
        requires at { Contains self.old.nodes at }
        requires below { node < self.old.room }
        requires out { ¬ Contains self.old.nodes node }
        ensures nodes { IsInsertedBefore at node self.old.nodes self.new.nodes }
        ensures room { self.new.room ≡ self.old.room }
        ensures chain { IsChain self.new }
        ensures steps { CountsNeighbours node self.new.nodes steps.old steps.new }
    {
        let before = self.links.put_before(at, node, steps);
        self.front = front_of(self.front, before, Some(node));
    }

    /// Puts a node right behind the node `at`.
    pub fn insert_after<L: Ledger>(&mut self, at: u32, node: u32, steps: &mut Steps<L>)
        requires at { Contains self.old.nodes at }
        requires below { node < self.old.room }
        requires out { ¬ Contains self.old.nodes node }
        ensures nodes { IsInsertedAfter at node self.old.nodes self.new.nodes }
        ensures room { self.new.room ≡ self.old.room }
        ensures chain { IsChain self.new }
        ensures steps { CountsNeighbours node self.new.nodes steps.old steps.new }
    {
        let _ = self.links.put_after(at, node, steps);
    }

    /// Takes a node out of the chain.
    pub fn remove<L: Ledger>(&mut self, node: u32, steps: &mut Steps<L>)
        requires { Contains self.old.nodes node }
        ensures nodes { IsRemoved node self.old.nodes self.new.nodes }
        ensures room { self.new.room ≡ self.old.room }
        ensures chain { IsChain self.new }
        ensures steps { CountsNeighbours node self.old.nodes steps.old steps.new }
    {
        let (before, after) = self.links.take_out(node, steps);
        self.front = front_of(self.front, before, after);
    }
}

// The front of the chain, where `next` now stands behind `before`.
fn front_of(front: Option<u32>, before: Option<u32>, next: Option<u32>) -> Option<u32>
    ensures { result ≡ front_after front before next }
{
    match before {
        Some(_) => front,
        None => next,
    }
}
