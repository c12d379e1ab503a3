//! The requests that were made of a source, and those that it is to refuse.
ghost use Rattle.std.specs.Prelude.{◌≡◌, ◌+◌, ◌^◌, ◌<◌, ◌≤◌};
ghost use Rattle.std.specs.Prelude.{◌||◌, not, [], OnOk, OnErr, if◌then◌else◌};
ghost use Rattle.sources.specs.Memory.{is_listed, ListsAlso};

use std::alloc::{AllocError, Global};
use std::collections::BTreeSet;
use std::marker::Model;

/// The counts of a source, and the numbers of the requests that it is to refuse.
#[derive(Drop)]
pub(crate) struct Requests {
    asked: u64,
    refused: u64,
    plan: BTreeSet<u64>,
}

impl Model for Requests {
    ghost use Rattle.std.specs.Prelude.{◌≤◌};
    ghost use Rattle.sources.specs.Memory.{RequestsView};

    ghost Value = { RequestsView };

    ghost view = { λ r. record { asked = r.asked; refused = r.refused; plan = r.plan.keys } };

    ghost invariant = { λ r. r.refused ≤ r.asked };
}

impl Requests {
    pub(crate) fn new(alloc: Global) -> Requests
        ensures { result ≡ record { asked = 0; refused = 0; plan = [] } }
    {
        Requests {
            asked: 0,
            refused: 0,
            plan: BTreeSet::new(alloc),
        }
    }

    pub(crate) fn asked(&self) -> u64
        ensures { result ≡ self.now.asked }
    {
        self.asked
    }

    pub(crate) fn refused(&self) -> u64
        ensures { result ≡ self.now.refused }
    {
        self.refused
    }

    /// Counts a request, and answers whether it is to be refused: it is listed, or the source has no
    /// room for it.
    pub(crate) fn refuses_next(&mut self, has_room: bool) -> bool
        requires { self.old.asked < 2 ^ 63 }
        ensures refused { result ≡ (is_listed self.old.plan (self.old.asked + 1) || not has_room) }
        ensures counted { self.new ≡ record self.old {
          asked = self.old.asked + 1;
          refused = self.old.refused + (if result then 1 else 0);
        } }
    {
        self.asked += 1;
        let refuses = self.plan.contains(&self.asked) || !has_room;
        if refuses {
            self.refused += 1;
        }
        refuses
    }

    /// Lists the `k`-th request from now.
    pub(crate) fn list(&mut self, k: u64) -> Result<(), AllocError>
        requires { self.old.asked + k < 2 ^ 64 }
        ensures listed { OnOk result (ListsAlso self.old.plan self.new.plan (self.old.asked + k)) }
        ensures counts { (self.new.asked ≡ self.old.asked) × (self.new.refused ≡ self.old.refused) }
        ensures left { OnErr result (self.new.plan ≡ self.old.plan) }
    {
        self.plan.insert(self.asked + k)?;
        Ok(())
    }
}
