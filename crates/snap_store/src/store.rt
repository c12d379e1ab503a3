ghost use Rattle.std.specs.Prelude.{◌≡◌, ◌⊎◌, All, IfOk, IfSome, IfNone, OnOk, OnErr};
ghost use Rattle.std.specs.Prelude.{[], length, None};
ghost use Rattle.std.specs.List.{position};
ghost use Rattle.std.specs.Option.{option_copied};
ghost use Rattle.frame_stack.specs.Callers.{AreAmong};
ghost use Rattle.frame_stack.specs.Tracebacks.{IsShort};
ghost use Rattle.snap_store.specs.Stand.{is_of, snapshot_at, AreFirst, AreStored, IsKeptBy, IsTextOf};
ghost use Rattle.snap_store.specs.Stand.{AreFirstChanges, Keeps};

use frame_stack::Tracebacks;
use mem_base::{Diff, Group, List, Rule, TextId, Texts};
use snap_stats::{Grouping, first_changes, first_statistics};
use std::alloc::{AllocError, Global};
use std::marker::Model;
use trace_table::Snapshot;

// A snapshot under its name.
#[derive(Drop)]
struct Named {
    name: TextId,
    snapshot: Snapshot,
}

/// The snapshots that have names. They are seen as the list of them, each with the number of its name.
#[derive(Drop)]
pub struct Snapshots {
    named: Vec<Named>,
}

impl Model for Snapshots {
    ghost use Rattle.snap_store.specs.Stand.{SnapshotsView};

    ghost Value = { SnapshotsView };

    ghost view = { λ s. s.named.items };
}

impl Snapshots {
    /// No snapshot.
    pub fn new(alloc: Global) -> Snapshots
        ensures { result ≡ [] }
    {
        Snapshots {
            named: Vec::new(alloc),
        }
    }

    // Where the name's snapshot stands.
    fn place_of(&self, name: TextId) -> Option<usize>
        ensures { result ≡ position (is_of name) self.now }
    {
        self.named.iter().position(|n| n.name.0 == name.0)
    }

    // The name's snapshot.
    fn get(&self, name: TextId) -> Option<&Snapshot>
        ensures { option_copied result ≡ snapshot_at self.now name }
    {
        match self.place_of(name) {
            Some(at) => Some(&self.named[at].snapshot),
            None => None,
        }
    }

    /// The name has this snapshot from now on, in the place of the one that it had. Answers how many traces the
    /// snapshot has. The error is that there was no memory, and all snapshots are as they were.
    pub fn put(&mut self, name: TextId, s: Snapshot) -> Result<u64, AllocError>
        ensures count { IfOk result (λ n. n ≡ length s.rows) }
        ensures keeps { OnOk result (Keeps name s self.old self.new) }
        ensures err { OnErr result (self.new ≡ self.old) }
    {
        let count = s.rows.len() as u64;
        match self.place_of(name) {
            Some(at) => self.named[at].snapshot = s,
            None => self.named.push(Named { name, snapshot: s })?,
        }
        Ok(count)
    }

    /// What the rules keep of the old name's snapshot has the new name from now on. Answers how many traces that
    /// are, and `None` where the old name has no snapshot. The error is that there was no memory, and all
    /// snapshots are as they were.
    pub fn keep(
        &mut self,
        alloc: Global,
        new: TextId,
        old: TextId,
        rules: &[Rule],
        texts: &Texts,
        table: &Tracebacks,
    ) -> Result<Option<u64>, AllocError>
        requires stored { AreStored table.now self.old }
        requires among { All (AreAmong (length texts.now)) table.now }
        requires short { All IsShort table.now }
        ensures kept { IfOk result (λ r. IfSome r
            (IsKeptBy texts.now table.now rules.now new old self.old self.new)) }
        ensures none { IfOk result (λ r. IfNone r (snapshot_at self.old old ≡ None)) }
        ensures same { IfOk result (λ r. IfNone r (self.new ≡ self.old)) }
        ensures stored { AreStored table.now self.new }
        ensures err { OnErr result (self.new ≡ self.old) }
    {
        let Some(s) = self.get(old) else {
            return Ok(None);
        };
        let kept = snap_filter::keep(alloc, s, rules, texts, table)?;
        let count = self.put(new, kept)?;
        Ok(Some(count))
    }

    /// How many statistics the name's snapshot has, and the first of them: so many, or all. `None` where the
    /// name has no snapshot. The error is that there was no memory.
    pub fn stats(
        &self,
        alloc: Global,
        name: TextId,
        by: Grouping,
        most: u32,
        texts: &Texts,
        table: &Tracebacks,
    ) -> Result<Option<(u64, List<Group>)>, AllocError>
        requires stored { AreStored table.now self.now }
        requires among { All (AreAmong (length texts.now)) table.now }
        requires short { All IsShort table.now }
        ensures first { IfOk result (λ r. IfSome r
            (AreFirst texts.now table.now by most (snapshot_at self.now name))) }
        ensures none { IfOk result (λ r. IfNone r (snapshot_at self.now name ≡ None)) }
    {
        let Some(s) = self.get(name) else {
            return Ok(None);
        };
        let first = first_statistics(alloc, s, by, most, texts, table)?;
        Ok(Some(first))
    }
    /// How many changes there are from an old name's snapshot to a new one's, and the first of them: so many, or
    /// all. The names are the new one and the old one. `None` where one of them has no snapshot. The error is that
    /// there was no memory.
    pub fn compare(
        &self,
        alloc: Global,
        names: (TextId, TextId),
        by: Grouping,
        most: u32,
        texts: &Texts,
        table: &Tracebacks,
    ) -> Result<Option<(u64, List<Diff>)>, AllocError>
        requires stored { AreStored table.now self.now }
        requires among { All (AreAmong (length texts.now)) table.now }
        requires short { All IsShort table.now }
        ensures first { IfOk result (λ r. IfSome r (AreFirstChanges texts.now table.now by most
            (snapshot_at self.now names.0, snapshot_at self.now names.1))) }
        ensures none { IfOk result (λ r. IfNone r
            ((snapshot_at self.now names.0 ≡ None) ⊎ (snapshot_at self.now names.1 ≡ None))) }
    {
        let Some(new) = self.get(names.0) else {
            return Ok(None);
        };
        let Some(old) = self.get(names.1) else {
            return Ok(None);
        };
        let first = first_changes(alloc, new, old, by, most, texts, table)?;
        Ok(Some(first))
    }

    /// The text of the name's snapshot as a dump. `None` where the name has no snapshot. The error is that there
    /// was no memory.
    pub fn dump(
        &self,
        alloc: Global,
        name: TextId,
        texts: &Texts,
        table: &Tracebacks,
    ) -> Result<Option<List<u8>>, AllocError>
        requires stored { AreStored table.now self.now }
        requires among { All (AreAmong (length texts.now)) table.now }
        requires short { All IsShort table.now }
        ensures text { IfOk result (λ r. IfSome r
            (IsTextOf texts.now table.now (snapshot_at self.now name))) }
        ensures none { IfOk result (λ r. IfNone r (snapshot_at self.now name ≡ None)) }
    {
        let Some(s) = self.get(name) else {
            return Ok(None);
        };
        let text = snap_file::dump(alloc, s, texts, table)?;
        Ok(Some(text))
    }
}
