ghost use Rattle.std.specs.Prelude.{◌≡◌, ◌<◌, ◌^◌, ℕ, true, false, [], length, IfOk, IfSome, IfNone, OnErr};

use crate::held::Held;
use crate::picks::PicksLeft;
use crate::progress::Progress;
use crate::schedule::{first_ready_at, is_ready_at, next_op, settle};
use block_store::{Answer, Spot, Store};
use frame_stack::Callers;
use mem_base::{Ask, Entry, Grant, History, List, Step, Texts, Totals, Trace, TrackId};
use snap_store::Snapshots;
use sources::{ArenaSource, RawSource};
use std::alloc::{AllocError, Global};
use std::marker::{Model, Send};
use trace_table::Tracing;

/// A trace that is replayed event by event. It must be spent by `end`.
pub struct Machine {
    alloc: Global,
    trace: Trace,
    history: History,
    held: Held,
    progress: Progress,
    faulted: bool,
    picks: PicksLeft,
}

impl Model for Machine {
    ghost use Rattle.machine_core.specs.View.{MachineView};

    ghost Value = { MachineView };

    ghost use Rattle.machine_core.specs.Picks.{left_of};
    ghost use Rattle.machine_core.specs.Stands.{Stands};

    ghost view = { λ a. record {
      trace = a.trace;
      entries = a.history.entries;
      picks = left_of a.trace.picks a.picks;
      arenas = a.held.store.arenas;
      raws = a.held.store.raws;
      pieces = a.held.store.pieces;
    } };

    ghost invariant = { λ a. Stands a.trace a.history.entries a.held a.progress a.faulted };
}

impl Machine {
    ghost use Rattle.event_model.specs.Events.{is_ready};
    ghost use Rattle.event_model.specs.History.{IsLegal, IsDone, totals_of};
    ghost use Rattle.event_model.specs.Schedule.{one_by_one, IsFirstReady, Takes};
    ghost use Rattle.trace_model.specs.Known.{IsKnownTrace};
    ghost use Rattle.trace_model.specs.Plain.{plain};
    ghost use Rattle.mem_base.specs.declared.trace.Side.TheVariants as sides;
    ghost use Rattle.sources.specs.Holder.{Traded};
    ghost use Rattle.domain_api.specs.Held.{AreAskedNothing, AreOut};
    ghost use Rattle.block_store.specs.Sources.{Fails, FailsUnrefused, IsPassedOn};
    ghost use Rattle.block_store.specs.Spots.{AreSpots};
    ghost use Rattle.machine_core.specs.Spots.{living_in};
    ghost use Rattle.machine_core.specs.View.{tracks_of, state_of, ready_in, IsEvent, Requests};

    /// A machine at the start of a trace. The error is want of memory, and the trace is gone.
    pub fn new(alloc: Global, trace: Trace) -> Result<Machine, AllocError>
        requires { IsKnownTrace trace }
        ensures trace { IfOk result (λ m. m.trace ≡ trace) }
        ensures entries { IfOk result (λ m. m.entries ≡ []) }
        ensures picks { IfOk result (λ m. m.picks ≡ one_by_one (plain trace).picks) }
        ensures arenas { IfOk result (λ m. m.arenas ≡ []) }
        ensures raws { IfOk result (λ m. m.raws ≡ []) }
    {
        let progress = Progress::new(alloc, &trace)?;
        let callers = Callers::new(alloc, trace.tracks.len(), trace.texts.len())?;
        let store = Store::new(alloc, trace.texts.len())?;
        Ok(Machine {
            alloc,
            trace,
            history: History {
                entries: List::new(alloc),
            },
            held: Held {
                store,
                owner: None,
                callers,
                tracing: Tracing::new(alloc),
                ranks: None,
                snapshots: Snapshots::new(alloc),
            },
            progress,
            faulted: false,
            picks: PicksLeft::all(),
        })
    }

    /// The trace that is replayed.
    pub fn trace(&self) -> &Trace
        ensures trace { result.now ≡ self.now.trace }
        ensures known { IsKnownTrace self.now.trace }
    {
        &self.trace
    }

    /// The names and files of the trace.
    pub fn texts(&self) -> &Texts
        ensures { result.now ≡ self.now.trace.texts }
    {
        &self.trace.texts
    }

    /// The events that were done.
    pub fn history(&self) -> &History
        ensures entries { result.now.entries ≡ self.now.entries }
        ensures legal { IsLegal (tracks_of self.now) self.now.entries }
    {
        &self.history
    }

    /// Whether a fault has come.
    pub fn faulted(&self) -> bool
        ensures { result ≡ (state_of self.now).faulted }
    {
        self.faulted
    }

    /// The numbers of the summary.
    pub fn totals(&self) -> Totals
        ensures { result ≡ totals_of (tracks_of self.now) self.now.entries }
    {
        let blocks = self.held.store.totals();
        let (traced, peak) = self.held.tracing.traced();
        Totals {
            events: self.history.entries.len() as u64,
            owner: self.held.owner,
            blocks: blocks.blocks,
            bytes: blocks.bytes,
            counts: self.held.store.counts(),
            traced,
            peak,
        }
    }

    /// Where the live blocks lie, in the order of the numbers of their names. The error is want of
    /// memory.
    pub fn places(&self) -> Result<List<Spot>, AllocError>
        ensures { IfOk result (AreSpots (living_in self.now)) }
    {
        // The table of texts says that each number fits.
        let _count = self.trace.texts.len();
        self.held.store.spots(self.alloc)
    }

    /// Gives up all blocks and hands the history back. All regions go back to their source.
    pub fn end<A: ArenaSource, R: RawSource>(self, arenas: &mut A, raws: &mut R) -> History
        requires held { AreOut self.arenas self.raws (A.seen arenas.old) (R.seen raws.old) }
        ensures history { result.entries ≡ self.entries }
        ensures nothing { AreAskedNothing
            (A.seen arenas.old) (A.seen arenas.new) (R.seen raws.old) (R.seen raws.new) }
        ensures arenas { Traded self.arenas [] (A.seen arenas.old) (A.seen arenas.new) }
        ensures raws { Traded self.raws [] (R.seen raws.old) (R.seen raws.new) }
    {
        let Machine {
            alloc: _,
            trace: _,
            history,
            held,
            progress: _,
            faulted: _,
            picks: _,
        } = self;
        let Held {
            store,
            owner: _,
            callers: _,
            tracing: _,
            ranks: _,
            snapshots: _,
        } = held;
        store.end(arenas, raws);
        history
    }

    /// Whether the track has an operation left, and needs wait for no other.
    pub fn ready(&self, t: TrackId) -> bool
        requires { t < length self.now.trace.tracks }
        ensures { result ≡ is_ready (tracks_of self.now) (state_of self.now) t }
    {
        is_ready_at(
            &self.trace,
            self.held.owner,
            self.progress.done.as_slice(),
            t,
        )
    }

    /// The first track that is ready.
    pub fn first_ready(&self) -> Option<TrackId>
        ensures first { IfSome result (IsFirstReady (ready_in self.now)) }
        ensures none { IfNone result (IsDone (tracks_of self.now) (state_of self.now)) }
    {
        first_ready_at(&self.trace, self.held.owner, &self.progress)
    }

    /// The track that the schedule takes for the next event: that of the first pick of a ready track, or
    /// the first ready track where no such pick is left. That pick and those before it are gone then.
    /// `None` where no track is ready.
    pub fn next_track(&mut self) -> Option<TrackId>
        ensures takes { IfSome result (λ t. Takes (ready_in self.old) self.old.picks t self.new.picks) }
        ensures none { IfNone result (IsDone (tracks_of self.old) (state_of self.old)) }
        ensures left { IfNone result (self.new.picks ≡ []) }
        ensures same { self.new ≡ record self.old { picks = self.new.picks } }
    {
        let picked = self.picks.take(&self.trace, self.held.owner, self.progress.done.as_slice());
        match picked {
            Some(t) => Some(t),
            None => first_ready_at(&self.trace, self.held.owner, &self.progress),
        }
    }

    /// Does the next event of a track that is ready. The error is want of memory: then the machine is as
    /// it was, all that a source granted has gone back to it, and no refusal is told as want of memory:
    /// the raw source has refused nothing more, and the arena source at most the one request of the event.
    pub fn step<A: ArenaSource, R: RawSource>(
        &mut self,
        t: TrackId,
        arenas: &mut A,
        raws: &mut R,
    ) -> Result<Step, AllocError>
        requires ready { is_ready (tracks_of self.old) (state_of self.old) t ≡ true }
        requires no_fault { (state_of self.old).faulted ≡ false }
        requires arena { (A.seen arenas.old).asked < 2 ^ 63 }
        requires raw { (R.seen raws.old).asked < 2 ^ 63 }
        requires held { AreOut self.old.arenas self.old.raws (A.seen arenas.old) (R.seen raws.old) }
        ensures trace { self.new.trace ≡ self.old.trace }
        ensures picks { self.new.picks ≡ self.old.picks }
        ensures step { IfOk result (λ step. IsEvent self.old.trace self.old.entries self.new.entries t step) }
        ensures asks_arena { IfOk result (λ step.
            Requests sides.Arena self.old.trace self.old.entries step.entry
            self.old.arenas self.new.arenas (A.seen arenas.old) (A.seen arenas.new)) }
        ensures asks_raw { IfOk result (λ step. Requests sides.Raw self.old.trace self.old.entries step.entry
            self.old.raws self.new.raws (R.seen raws.old) (R.seen raws.new)) }
        ensures err { OnErr result (self.new ≡ self.old) }
        ensures fails_arena { OnErr result (Fails self.old.arenas (A.seen arenas.old) (A.seen arenas.new)) }
        ensures fails_raw { OnErr result (FailsUnrefused self.old.raws (R.seen raws.old) (R.seen raws.new)) }
        ensures passed { OnErr result
            (IsPassedOn (A.seen arenas.old) (A.seen arenas.new) (R.seen raws.old) (R.seen raws.new)) }
        ensures held { AreOut self.new.arenas self.new.raws (A.seen arenas.new) (R.seen raws.new) }
    {
        let trace = &self.trace;
        let at = self.progress.done[t as usize];
        let Some(op) = next_op(trace, t, at) else {
            unreachable!()
        };
        self.history.entries.push(quiet_entry(t, at))?;
        match self.held.act(self.alloc, t, op, &trace.texts, arenas, raws) {
            Ok(Answer { reply, asked }) => {
                let entry = Entry {
                    arena: asked.arena,
                    raw: asked.raw,
                    ..quiet_entry(t, at)
                };
                self.history.entries.set_last(entry);
                self.faulted = settle(trace, &mut self.held.owner, &mut self.progress, t, &reply);
                Ok(Step { entry, reply })
            }
            Err(error) => {
                // The entry that was kept for the event goes again.
                let _entry = self.history.entries.pop();
                Err(error)
            }
        }
    }
}

// The entry of an event in which no source was asked.
fn quiet_entry(t: TrackId, at: u32) -> Entry
    ensures { result ≡ record { track = t; at = at; arena = Grant.NotAsked; raw = Ask.NotAsked } }
{
    Entry {
        track: t,
        at,
        arena: Grant::NotAsked,
        raw: Ask::NotAsked,
    }
}

fn crosses<T: Send>(_value: &T) {}

// A machine is `Send`, since `crosses` takes no other.
pub(crate) fn machines_cross(machine: &Machine) {
    crosses(machine);
}
