//! The picks of a trace that are left, and which of them comes next.
//!
//! A trace ends with picks, each the name of a track and how often it is picked in a row. What is left
//! of them is the pick that was begun, as its track and the times that are left of it, and the place of
//! the pick behind it:
//!
//! ```text
//!     pick a 3                  done or passed over
//!     pick b 9      begun       track b, 4 times left
//!     pick a 2      next
//!     pick c 7
//! ```
//!
//! Nothing happens between picks that are passed over, so a track that is not ready at one of its picks
//! is not ready at the others behind it: all times that are left of the pick are passed over at once.
//! So each event looks at one pick, and each pick is looked at once more, however many times it has.
ghost use Rattle.std.specs.Prelude.{◌≡◌, ◌<◌, ◌&&◌, List, [], nat_lt, length, IfSome, IfNone};
ghost use Rattle.mem_base.specs.declared.trace.Pick.{Pick as PickView};
ghost use Rattle.trace_model.specs.Plain.{picks_of};
ghost use Rattle.event_model.specs.Schedule.{one_by_one, IsPicked, NoneIsReady};
ghost use Rattle.machine_core.specs.Picks.{left_of};
ghost use Rattle.machine_core.specs.Ready.{is_ready_now};

use crate::schedule::is_ready_at;
use mem_base::{Trace, TrackId};

/// The picks that are left of a trace's list.
#[derive(Clone, Copy, Debug, Drop)]
pub(crate) struct PicksLeft {
    /// The track of the pick that was begun.
    track: TrackId,
    /// How many times of it are left.
    times: u32,
    /// The place of the pick behind it.
    next: usize,
}

impl PicksLeft {
    /// All picks, whatever the list.
    pub(crate) fn all() -> PicksLeft
        ensures { (picks : List PickView) → left_of picks result ≡ one_by_one (picks_of picks) }
    {
        PicksLeft {
            track: 0,
            times: 0,
            next: 0,
        }
    }

    // Whether the pick that was begun has times left, and its track is ready.
    fn is_open(&self, trace: &Trace, owner: Option<TrackId>, done: &[u32]) -> bool
        requires { length done.now ≡ length trace.now.tracks }
        ensures { result ≡ (nat_lt 0 self.now.times && is_ready_now trace.now owner done.now self.now.track) }
    {
        self.times > 0 && is_ready_at(trace, owner, done, self.track)
    }

    /// Passes over the picks of tracks that are not ready, and takes the first one of a track that is.
    /// `None` where there is no such pick; then none is left.
    pub(crate) fn take(
        &mut self,
        trace: &Trace,
        owner: Option<TrackId>,
        done: &[u32],
    ) -> Option<TrackId>
        requires { length done.now ≡ length trace.now.tracks }
        ensures picked { IfSome result (λ t. IsPicked (is_ready_now trace.now owner done.now)
            (left_of trace.now.picks self.old) t (left_of trace.now.picks self.new)) }
        ensures over { IfNone result
            (NoneIsReady (is_ready_now trace.now owner done.now) (left_of trace.now.picks self.old)) }
        ensures none { IfNone result (left_of trace.now.picks self.new ≡ []) }
    {
        // The length of the list says that each place in it fits.
        let _count = trace.picks.len();
        while !self.is_open(trace, owner, done) {
            let Some(pick) = trace.picks.get(self.next) else {
                self.times = 0;
                return None;
            };
            *self = PicksLeft {
                track: pick.track,
                times: pick.times,
                next: self.next + 1,
            };
        }
        self.times -= 1;
        Some(self.track)
    }
}
