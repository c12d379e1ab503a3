//! Which arena has an address.
ghost use Rattle.std.specs.Prelude.{◌≡◌, ◌+◌, ◌%◌, ◌^◌, ◌≤◌, []};
ghost use Rattle.std.specs.Prelude.{MatchOption, MatchResult, IfOk, IsTrue, ◌↔◌};
ghost use Rattle.extents.specs.Sums.{Inserted};
ghost use Rattle.radix_map.specs.Map.{HasArena, HasNone, IsFree, IsMarked, Unmarks};

use crate::entry::{Entry, Part};
use crate::tree::Tree;
use std::alloc::{AllocError, Global};
use std::marker::Model;

const MIB: u64 = 0x10_0000;

const SPACE: u64 = 0x1_0000_0000_0000;

/// The arenas that are marked.
#[derive(Drop)]
pub struct RadixMap {
    tree: Tree,
}

impl Model for RadixMap {
    ghost use Rattle.std.specs.Prelude.{List};
    ghost use Rattle.layout_model.specs.Geometry.{Site};
    ghost use Rattle.radix_map.specs.Map.{marked, IsRadix};

    ghost Value = { List Site };

    ghost view = { λ m. marked m.tree };

    ghost invariant = { λ m. IsRadix m.tree };
}

impl RadixMap {
    /// No arena is marked.
    pub fn new(alloc: Global) -> Result<RadixMap, AllocError>
        ensures { IfOk result (λ map. map ≡ []) }
    {
        Ok(RadixMap {
            tree: Tree::new(alloc)?,
        })
    }

    /// Marks the MiB from the base as the arena with the number. The error is that there was no memory.
    pub fn mark(&mut self, base: u64, index: u32) -> Result<(), AllocError>
        requires page { base % 4096 ≡ 0 }
        requires below { base + 1048576 ≤ 2 ^ 48 }
        requires free { IsFree base self.old }
        ensures { MatchResult result
            (λ _. Inserted (record { arena = index; base = base }) self.old self.new)
            (λ _. self.new ≡ self.old) }
    {
        let at = (base / MIB) as usize;
        let bound = (base % MIB) as u32;
        let part = Some(Part { bound, index });
        let second = self.tree.get(at).second;
        if bound == 0 {
            return self.tree.set(
                at,
                Entry {
                    first: part,
                    second,
                },
            );
        }
        let next = self.tree.get(at + 1);
        self.tree.set(
            at + 1,
            Entry {
                first: next.first,
                second: part,
            },
        )?;
        match self.tree.set(
            at,
            Entry {
                first: part,
                second,
            },
        ) {
            Ok(()) => Ok(()),
            Err(error) => {
                self.tree.put(at + 1, next);
                Err(error)
            }
        }
    }

    /// Unmarks the arena with the base.
    pub fn unmark(&mut self, base: u64)
        requires { IsMarked base self.old }
        ensures { Unmarks base self.old self.new }
    {
        let at = (base / MIB) as usize;
        let rest = self.tree.get(at).second;
        self.tree.put(
            at,
            Entry {
                first: None,
                second: rest,
            },
        );
        if base % MIB > 0 {
            let behind = self.tree.get(at + 1);
            self.tree.put(
                at + 1,
                Entry {
                    first: behind.first,
                    second: None,
                },
            );
        }
    }

    /// Whether no marked arena has an address of the MiB from the base.
    pub fn is_free(&self, base: u64) -> bool
        requires { base + 1048576 ≤ 2 ^ 48 }
        ensures { IsTrue result ↔ IsFree base self.now }
    {
        match self.find(base) {
            Some(_) => false,
            None => match self.find(base + (MIB - 1)) {
                Some(_) => false,
                None => true,
            },
        }
    }

    /// The number of the marked arena that has the address.
    pub fn find(&self, addr: u64) -> Option<u32>
        ensures { MatchOption result (HasNone addr self.now) (HasArena addr self.now) }
    {
        let tree = &self.tree;
        if addr >= SPACE {
            return None;
        }
        tree.get((addr / MIB) as usize).find((addr % MIB) as u32)
    }
}
