//! Patterns of file names, as definitions: what the filters of `Lib/tracemalloc.py` match by `fnmatch`.
//! The functions here are their laws, and a table of them.
//!
//! ```text
//! *        any bytes, also none, `/` too      [seq]    one byte that is a member
//! ?        any one byte                       [!seq]   one byte that is not a member
//! else     the byte itself
//! ```
//!
//! The whole name must match, and case is kept. A `.pyc` at the end of a pattern or of a name is read as
//! `.py`. The members of a set are read from left to right: a byte, a `-` and a further byte are the range
//! of the two, which has no members where it is reversed, and any other byte is itself. A `]` that stands
//! first is a member; where no `]` ends the set, its `[` is itself.
//!
//! `fnmatch` works on the characters of a name, and these patterns on its bytes. There, a `!` behind a
//! reversed range that stands first in a set, as in `[z-a!b]`, negates the set; here it is a member.
#![tactic(auto)]

ghost use Rattle.std.specs.Prelude.{◌≡◌, true, false, ◌∷◌, map, codes};
ghost use Rattle.pattern_model.specs.Patterns.{from_to, matches, one, stretches};
ghost use Rattle.pattern_model.specs.Laws.{ReadsInTurn};

/// A pattern is read part by part.
pub fn parts_are_read_in_turn()
    ensures { ReadsInTurn }
{}

/// What these patterns match.
pub fn patterns_match_these()
    ensures compiled_pattern { matches (codes "[!a]*.pyc") (codes "b.py") ≡ true }
    ensures compiled_name { matches (codes "[!a]*.pyc") (codes "a.pyc") ≡ false }
    ensures bracket_first { matches (codes "[]x].py") (codes "].py") ≡ true }
    ensures bracket_alone { matches (codes "a[b") (codes "a[b") ≡ true }
    ensures any_bytes { matches (codes "*") (codes "/usr/lib/a.py") ≡ true }
    ensures reversed { matches (codes "[z-a]") (codes "m") ≡ false }
    ensures reversed_negated { matches (codes "[!z-a]") (codes "m") ≡ true }
{}

/// What the members of these sets are read as; 97 is `a`, and 99 is `c`.
pub fn sets_have_these()
    ensures dash_last { stretches (codes "a-") ≡ map one (codes "a-") }
    ensures dash_again { stretches (codes "a-c-e") ≡ from_to 97 99 ∷ map one (codes "-e") }
{}
