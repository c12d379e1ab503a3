// The links of the nodes, and the count of the nodes that are looked at.
ghost use Rattle.std.specs.Prelude.{◌≡◌, ◌++◌, ℕ, ◌+◌, ◌-◌, ◌<◌};
ghost use Rattle.std.specs.Prelude.{IfOk, OnErr, OnOk, None, length, replicate, set};
ghost use Rattle.std.specs.Option.{ForSome};
ghost use Rattle.links.specs.Nodes.{count_of};
ghost use Rattle.links.specs.Links.{links_at, next_in, next_set, prev_in, prev_set, put_after};
ghost use Rattle.links.specs.Links.{put_before, put_first, taken_out, with_next, with_prev};

use crate::steps::Steps;
use std::alloc::{AllocError, Global};
use std::marker::Model;
use std::sync::ledger::Ledger;

// What a node's neighbours are.
#[derive(Clone, Copy)]
pub(crate) struct Links {
    pub(crate) prev: Option<u32>,
    pub(crate) next: Option<u32>,
}

// The links of each node below the room. They are private to this file, and each call here that reads
// or writes those of a node adds one step: so no node is looked at that is not counted.
#[derive(Drop)]
pub(crate) struct Table {
    links: Vec<Option<Links>>,
}

impl Model for Table {
    ghost use Rattle.std.specs.Prelude.{List, Option};
    ghost use Rattle.links.specs.declared.table.Links.{Links};

    ghost Value = { List (Option Links) };

    ghost view = { λ t. t.links.items };
}

impl Table {
    pub(crate) fn with_room(alloc: Global, n: u32) -> Result<Table, AllocError>
        ensures { IfOk result (λ table. table ≡ replicate n None) }
    {
        let mut links = Vec::new(alloc);
        links.resize(n as usize, None)?;
        Ok(Table { links })
    }

    // Makes room for the nodes below n, where there is less.
    pub(crate) fn reserve(&mut self, n: u32) -> Result<(), AllocError>
        ensures ok { OnOk result (self.new ≡ self.old ++ replicate (n - length self.old) None) }
        ensures err { OnErr result (self.new ≡ self.old) }
    {
        if self.links.len() < n as usize {
            self.links.resize(n as usize, None)?;
        }
        Ok(())
    }

    // A node's links.
    pub(crate) fn get<L: Ledger>(&self, node: u32, steps: &mut Steps<L>) -> Option<Links>
        requires { node < length self.now }
        ensures links { result ≡ links_at self.now node }
        ensures steps { steps.new ≡ steps.old + 1 }
    {
        steps.tick();
        self.links[node as usize]
    }

    // Gives a node other links, and answers those that it had.
    fn replace<L: Ledger>(
        &mut self,
        node: u32,
        links: Option<Links>,
        steps: &mut Steps<L>,
    ) -> Option<Links>
        requires { node < length self.old }
        ensures before { result ≡ links_at self.old node }
        ensures links { self.new ≡ set self.old node links }
        ensures steps { steps.new ≡ steps.old + 1 }
    {
        steps.tick();
        let before = self.links[node as usize];
        self.links[node as usize] = links;
        before
    }

    // Gives a node another next one, and answers the one that it had.
    fn set_next<L: Ledger>(
        &mut self,
        at: u32,
        next: Option<u32>,
        steps: &mut Steps<L>,
    ) -> Option<u32>
        requires { at < length self.old }
        ensures before { result ≡ next_in (links_at self.old at) }
        ensures links { self.new ≡ set self.old at (with_next (links_at self.old at) next) }
        ensures steps { steps.new ≡ steps.old + 1 }
    {
        steps.tick();
        match self.links[at as usize] {
            Some(of_at) => {
                self.links[at as usize] = Some(Links {
                    prev: of_at.prev,
                    next,
                });
                of_at.next
            }
            None => None,
        }
    }

    // Gives a node another previous one, and answers the one that it had.
    fn set_prev<L: Ledger>(
        &mut self,
        at: u32,
        prev: Option<u32>,
        steps: &mut Steps<L>,
    ) -> Option<u32>
        requires { at < length self.old }
        ensures before { result ≡ prev_in (links_at self.old at) }
        ensures links { self.new ≡ set self.old at (with_prev (links_at self.old at) prev) }
        ensures steps { steps.new ≡ steps.old + 1 }
    {
        steps.tick();
        match self.links[at as usize] {
            Some(of_at) => {
                self.links[at as usize] = Some(Links {
                    prev,
                    next: of_at.next,
                });
                of_at.prev
            }
            None => None,
        }
    }

    // Puts a node before the first one of a chain, if there is one.
    pub(crate) fn put_first<L: Ledger>(
        &mut self,
        node: u32,
        after: Option<u32>,
        steps: &mut Steps<L>,
    )
        requires node { node < length self.old }
        requires after { ForSome after (λ at. at < length self.old) }
        ensures links { self.new ≡ put_first self.old node after }
        ensures steps { steps.new ≡ steps.old + 1 + count_of after }
    {
        self.link_prev(after, Some(node), steps);
        let links = Links {
            prev: None,
            next: after,
        };
        let _ = self.replace(node, Some(links), steps);
    }

    // Puts a node right before the node `at`, and answers the node that is now before it.
    pub(crate) fn put_before<L: Ledger>(
        &mut self,
        at: u32,
        node: u32,
        steps: &mut Steps<L>,
    ) -> Option<u32>
        requires at { at < length self.old }
        requires node { node < length self.old }
        requires before { ForSome (prev_in (links_at self.old at)) (λ b. b < length self.old) }
        ensures before { result ≡ prev_in (links_at self.old at) }
        ensures links { self.new ≡ put_before self.old at node result }
        ensures steps { steps.new ≡ steps.old + 2 + count_of result }
    {
        let before = self.set_prev(at, Some(node), steps);
        self.link_next(before, Some(node), steps);
        let links = Links {
            prev: before,
            next: Some(at),
        };
        let _ = self.replace(node, Some(links), steps);
        before
    }

    // Puts a node right behind the node `at`, and answers the node that is now behind it.
    pub(crate) fn put_after<L: Ledger>(
        &mut self,
        at: u32,
        node: u32,
        steps: &mut Steps<L>,
    ) -> Option<u32>
        requires at { at < length self.old }
        requires node { node < length self.old }
        requires after { ForSome (next_in (links_at self.old at)) (λ a. a < length self.old) }
        ensures after { result ≡ next_in (links_at self.old at) }
        ensures links { self.new ≡ put_after self.old at node result }
        ensures steps { steps.new ≡ steps.old + 2 + count_of result }
    {
        let after = self.set_next(at, Some(node), steps);
        self.link_prev(after, Some(node), steps);
        let links = Links {
            prev: Some(at),
            next: after,
        };
        let _ = self.replace(node, Some(links), steps);
        after
    }

    // Takes a node out, and answers the nodes that stood before and behind it.
    pub(crate) fn take_out<L: Ledger>(
        &mut self,
        node: u32,
        steps: &mut Steps<L>,
    ) -> (Option<u32>, Option<u32>)
        requires node { node < length self.old }
        requires before { ForSome (prev_in (links_at self.old node)) (λ b. b < length self.old) }
        requires after { ForSome (next_in (links_at self.old node)) (λ a. a < length self.old) }
        ensures before { result.0 ≡ prev_in (links_at self.old node) }
        ensures after { result.1 ≡ next_in (links_at self.old node) }
        ensures links { self.new ≡ taken_out self.old result.0 node result.1 }
        ensures steps { steps.new ≡ steps.old + 1 + count_of result.0 + count_of result.1 }
    {
        let (before, after) = sides(self.replace(node, None, steps));
        self.link_next(before, after, steps);
        self.link_prev(after, before, steps);
        (before, after)
    }

    // Lets `next` stand behind `before`, if there is one.
    fn link_next<L: Ledger>(&mut self, before: Option<u32>, next: Option<u32>, steps: &mut Steps<L>)
        requires { ForSome before (λ at. at < length self.old) }
        ensures links { self.new ≡ next_set self.old before next }
        ensures steps { steps.new ≡ steps.old + count_of before }
    {
        if let Some(at) = before {
            let _ = self.set_next(at, next, steps);
        }
    }

    // Lets `prev` stand before `after`, if there is one.
    fn link_prev<L: Ledger>(&mut self, after: Option<u32>, prev: Option<u32>, steps: &mut Steps<L>)
        requires { ForSome after (λ at. at < length self.old) }
        ensures links { self.new ≡ prev_set self.old after prev }
        ensures steps { steps.new ≡ steps.old + count_of after }
    {
        if let Some(at) = after {
            let _ = self.set_prev(at, prev, steps);
        }
    }
}

// The nodes before and behind a node with these links.
pub(crate) fn sides(links: Option<Links>) -> (Option<u32>, Option<u32>)
    ensures { (result.0 ≡ prev_in links) × (result.1 ≡ next_in links) }
{
    match links {
        Some(of_node) => (of_node.prev, of_node.next),
        None => (None, None),
    }
}
