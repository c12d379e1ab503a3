//! What a line begins with, a track, a pick or an operation, and what is said of each operation once: its
//! keyword, the name of the block that it works on, the name of the snapshot that it writes, and what it does
//! to the frames of its track. A keyword is spelt in one table, [`Keyword::word`], which reading, spelling and
//! reports use; [`Head::with_letter`] has the heads by their first letters.
ghost use Rattle.std.specs.Prelude.{◌≡◌, ◌<◌, ◌≤◌, ◌∷◌, ℕ, List, IfSome};
ghost use Rattle.std.specs.Option.{option_map};
ghost use Rattle.mem_base.specs.Name.{Name};
ghost use Rattle.mem_base.specs.declared.limits.TheConstants.{MAX_FRAMES};
ghost use Rattle.trace_model.specs.Plain.{action_of, keyword_of, keyword_text, name_of, prints_more, text_at};
ghost use Rattle.trace_model.specs.Plain.{needs_frame, depth_after, writes, IsKnownAmong};
ghost use Rattle.trace_model.specs.Reading.{head_among, head_at};
ghost use Rattle.trace_model.specs.Spelling.{head_text};

use mem_base::{Op, Rule, TextId};

/// The operations that a trace may have.
#[derive(Clone, Copy, Debug, PartialEq, Eq)]
pub enum Keyword {
    Acquire,
    Release,
    Malloc,
    Calloc,
    Realloc,
    Free,
    Poke,
    Peek,
    Call,
    Line,
    Return,
    Start,
    Stop,
    Clear,
    ResetPeak,
    Traced,
    Mark,
    Unmark,
    Where,
    Snapshot,
    Keep,
    Stats,
    Compare,
    Dump,
    Heap,
    Refuse,
}

/// What the first word of a line after the header begins: a track, picks of a track, or an operation of
/// the last track.
#[derive(Clone, Copy, Debug, PartialEq, Eq)]
pub enum Head {
    Track,
    Pick,
    Op(Keyword),
}

impl Keyword {
    /// The word as traces and reports spell it.
    pub fn word(self) -> &'static str
        ensures { result.now ≡ keyword_text self }
    {
        match self {
            Keyword::Acquire => "acquire",
            Keyword::Release => "release",
            Keyword::Malloc => "malloc",
            Keyword::Calloc => "calloc",
            Keyword::Realloc => "realloc",
            Keyword::Free => "free",
            Keyword::Poke => "poke",
            Keyword::Peek => "peek",
            Keyword::Call => "call",
            Keyword::Line => "line",
            Keyword::Return => "return",
            Keyword::Start => "start",
            Keyword::Stop => "stop",
            Keyword::Clear => "clear",
            Keyword::ResetPeak => "reset_peak",
            Keyword::Traced => "traced",
            Keyword::Mark => "mark",
            Keyword::Unmark => "unmark",
            Keyword::Where => "where",
            Keyword::Snapshot => "snapshot",
            Keyword::Keep => "keep",
            Keyword::Stats => "stats",
            Keyword::Compare => "compare",
            Keyword::Dump => "dump",
            Keyword::Heap => "heap",
            Keyword::Refuse => "refuse",
        }
    }

    /// Whether operations with this keyword print more than a reply. A trace has at most
    /// [`mem_base::limits::MAX_REPORTS`] of them.
    pub fn prints_more(self) -> bool
        ensures { result ≡ prints_more self }
    {
        match self {
            Keyword::Heap
            | Keyword::Where
            | Keyword::Snapshot
            | Keyword::Keep
            | Keyword::Stats
            | Keyword::Compare
            | Keyword::Dump => true,
            Keyword::Acquire
            | Keyword::Release
            | Keyword::Malloc
            | Keyword::Calloc
            | Keyword::Realloc
            | Keyword::Free
            | Keyword::Poke
            | Keyword::Peek
            | Keyword::Call
            | Keyword::Line
            | Keyword::Return
            | Keyword::Start
            | Keyword::Stop
            | Keyword::Clear
            | Keyword::ResetPeak
            | Keyword::Traced
            | Keyword::Mark
            | Keyword::Unmark
            | Keyword::Refuse => false,
        }
    }

    /// The keyword of an operation.
    pub fn of(op: &Op) -> Keyword
        ensures { (texts : List Name) → result ≡ keyword_of (action_of texts op.now) }
    {
        match op {
            Op::Acquire => Keyword::Acquire,
            Op::Release => Keyword::Release,
            Op::Malloc(_, _, _) => Keyword::Malloc,
            Op::Calloc(_, _, _, _) => Keyword::Calloc,
            Op::Realloc(_, _, _) => Keyword::Realloc,
            Op::Free(_, _) => Keyword::Free,
            Op::Poke(_, _, _) => Keyword::Poke,
            Op::Peek(_, _, _) => Keyword::Peek,
            Op::Enter(_, _) => Keyword::Call,
            Op::Line(_) => Keyword::Line,
            Op::Leave => Keyword::Return,
            Op::Start(_) => Keyword::Start,
            Op::Stop => Keyword::Stop,
            Op::Clear => Keyword::Clear,
            Op::ResetPeak => Keyword::ResetPeak,
            Op::Traced => Keyword::Traced,
            Op::Mark(_, _, _) => Keyword::Mark,
            Op::Unmark(_, _) => Keyword::Unmark,
            Op::Origin(_) => Keyword::Where,
            Op::Heap => Keyword::Heap,
            Op::Refuse(_, _) => Keyword::Refuse,
            Op::Snapshot(_) => Keyword::Snapshot,
            Op::Keep(_, _, _) => Keyword::Keep,
            Op::Stats(_, _, _, _) => Keyword::Stats,
            Op::Compare(_, _, _, _, _) => Keyword::Compare,
            Op::Dump(_) => Keyword::Dump,
        }
    }
}

impl Head {
    /// The heads whose words begin with this letter: the table that a line's first word is sought in. So a
    /// word is compared with five others at most.
    pub fn with_letter(letter: u8) -> &'static [Head]
        ensures { (rest : List ℕ) → head_among result.now (letter ∷ rest) ≡ head_at (letter ∷ rest) }
    {
        match letter {
            b'a' => &[Head::Op(Keyword::Acquire)],
            b'c' => &[
                Head::Op(Keyword::Calloc),
                Head::Op(Keyword::Call),
                Head::Op(Keyword::Clear),
                Head::Op(Keyword::Compare),
            ],
            b'd' => &[Head::Op(Keyword::Dump)],
            b'f' => &[Head::Op(Keyword::Free)],
            b'h' => &[Head::Op(Keyword::Heap)],
            b'k' => &[Head::Op(Keyword::Keep)],
            b'l' => &[Head::Op(Keyword::Line)],
            b'm' => &[Head::Op(Keyword::Malloc), Head::Op(Keyword::Mark)],
            b'p' => &[Head::Pick, Head::Op(Keyword::Poke), Head::Op(Keyword::Peek)],
            b'r' => &[
                Head::Op(Keyword::Release),
                Head::Op(Keyword::Realloc),
                Head::Op(Keyword::Return),
                Head::Op(Keyword::ResetPeak),
                Head::Op(Keyword::Refuse),
            ],
            b's' => &[
                Head::Op(Keyword::Start),
                Head::Op(Keyword::Stop),
                Head::Op(Keyword::Snapshot),
                Head::Op(Keyword::Stats),
            ],
            b't' => &[Head::Track, Head::Op(Keyword::Traced)],
            b'u' => &[Head::Op(Keyword::Unmark)],
            b'w' => &[Head::Op(Keyword::Where)],
            _ => &[],
        }
    }

    /// The first word of a line that begins this.
    pub fn word(self) -> &'static str
        ensures { result.now ≡ head_text self }
    {
        match self {
            Head::Track => "track",
            Head::Pick => "pick",
            Head::Op(keyword) => keyword.word(),
        }
    }
}

/// The number of the name of the block that an operation works on, where it works on one.
pub fn name_of(op: &Op) -> Option<TextId>
    ensures name { (texts : List Name)
        → option_map (text_at texts) result ≡ name_of (action_of texts op.now) }
    ensures known { (texts : ℕ) → IsKnownAmong texts op.now → IfSome result (λ id. id.0 < texts) }
{
    match op {
        Op::Malloc(_, name, _)
        | Op::Calloc(_, name, _, _)
        | Op::Realloc(_, name, _)
        | Op::Free(_, name)
        | Op::Poke(name, _, _)
        | Op::Peek(name, _, _)
        | Op::Origin(name) => Some(*name),
        Op::Acquire
        | Op::Release
        | Op::Heap
        | Op::Refuse(_, _)
        | Op::Enter(_, _)
        | Op::Line(_)
        | Op::Leave
        | Op::Start(_)
        | Op::Stop
        | Op::Clear
        | Op::ResetPeak
        | Op::Traced
        | Op::Mark(_, _, _)
        | Op::Unmark(_, _)
        | Op::Snapshot(_)
        | Op::Keep(_, _, _)
        | Op::Stats(_, _, _, _)
        | Op::Compare(_, _, _, _, _)
        | Op::Dump(_) => None,
    }
}

/// The number of the name of the snapshot that an operation writes, and the rules by which it keeps traces of
/// another one.
pub fn writes(op: &Op) -> Option<(TextId, &[Rule])>
    ensures said { (texts : List Name)
        → option_map (λ w. (text_at texts w.0, w.1.now)) result ≡ writes (action_of texts op.now) }
    ensures known { (texts : ℕ) → IsKnownAmong texts op.now → IfSome result (λ w. w.0.0 < texts) }
{
    match op {
        Op::Snapshot(name) => Some((*name, &[])),
        Op::Keep(name, _, rules) => Some((*name, rules.as_slice())),
        Op::Acquire
        | Op::Release
        | Op::Malloc(_, _, _)
        | Op::Calloc(_, _, _, _)
        | Op::Realloc(_, _, _)
        | Op::Free(_, _)
        | Op::Poke(_, _, _)
        | Op::Peek(_, _, _)
        | Op::Enter(_, _)
        | Op::Line(_)
        | Op::Leave
        | Op::Start(_)
        | Op::Stop
        | Op::Clear
        | Op::ResetPeak
        | Op::Traced
        | Op::Mark(_, _, _)
        | Op::Unmark(_, _)
        | Op::Origin(_)
        | Op::Stats(_, _, _, _)
        | Op::Compare(_, _, _, _, _)
        | Op::Dump(_)
        | Op::Heap
        | Op::Refuse(_, _) => None,
    }
}

/// Whether an operation speaks of the most recent frame of its track, so that there must be one.
pub fn needs_frame(op: &Op) -> bool
    ensures { (texts : List Name) → result ≡ needs_frame (action_of texts op.now) }
{
    match op {
        Op::Line(_) | Op::Leave => true,
        Op::Acquire
        | Op::Release
        | Op::Malloc(_, _, _)
        | Op::Calloc(_, _, _, _)
        | Op::Realloc(_, _, _)
        | Op::Free(_, _)
        | Op::Poke(_, _, _)
        | Op::Peek(_, _, _)
        | Op::Enter(_, _)
        | Op::Start(_)
        | Op::Stop
        | Op::Clear
        | Op::ResetPeak
        | Op::Traced
        | Op::Mark(_, _, _)
        | Op::Unmark(_, _)
        | Op::Origin(_)
        | Op::Snapshot(_)
        | Op::Keep(_, _, _)
        | Op::Stats(_, _, _, _)
        | Op::Compare(_, _, _, _, _)
        | Op::Dump(_)
        | Op::Heap
        | Op::Refuse(_, _) => false,
    }
}

/// How many frames a track has after an operation, of so many before.
pub fn depth_after(depth: u32, op: &Op) -> u32
    requires { depth ≤ MAX_FRAMES }
    ensures { (texts : List Name) → result ≡ depth_after depth (action_of texts op.now) }
{
    match op {
        Op::Enter(_, _) => depth + 1,
        Op::Leave => depth.saturating_sub(1),
        Op::Line(_)
        | Op::Acquire
        | Op::Release
        | Op::Malloc(_, _, _)
        | Op::Calloc(_, _, _, _)
        | Op::Realloc(_, _, _)
        | Op::Free(_, _)
        | Op::Poke(_, _, _)
        | Op::Peek(_, _, _)
        | Op::Start(_)
        | Op::Stop
        | Op::Clear
        | Op::ResetPeak
        | Op::Traced
        | Op::Mark(_, _, _)
        | Op::Unmark(_, _)
        | Op::Origin(_)
        | Op::Snapshot(_)
        | Op::Keep(_, _, _)
        | Op::Stats(_, _, _, _)
        | Op::Compare(_, _, _, _, _)
        | Op::Dump(_)
        | Op::Heap
        | Op::Refuse(_, _) => depth,
    }
}
