//! The match of pieces with a name, run by run.
ghost use Rattle.std.specs.Prelude.{◌≡◌, ◌+◌, ◌≤◌, true, length, drop, IsTrue, IfSome, IfNone};
ghost use Rattle.name_match.specs.Pieces.{parts_held};
ghost use Rattle.name_match.specs.Runs.{fits, FitsNowhereBelow, IsCut};
ghost use Rattle.pattern_model.specs.Patterns.{at_some_end, match_parts};

use crate::piece::Piece;

/// Whether the pieces match the whole name.
pub fn match_whole(pieces: &[Piece], name: &[u8]) -> bool
    ensures { result ≡ match_parts (parts_held pieces.now) name.now }
{
    let (run, from_star) = cut_at_star(pieces);
    match from_star {
        [] => run.len() == name.len() && fits(run, name),
        [_star, behind @ ..] => fits(run, name) && match_some_end(behind, &name[run.len()..]),
    }
}

// Whether the pieces, which stand behind a star, match some end of the name. A run in front of a further star
// is taken at its first place, and the last run at the end of the name.
fn match_some_end(pieces: &[Piece], name: &[u8]) -> bool
    ensures { result ≡ at_some_end (match_parts (parts_held pieces.now)) name.now }
{
    let mut pieces = pieces;
    let mut name = name;
    loop {
        let (run, from_star) = cut_at_star(pieces);
        let [_star, behind @ ..] = from_star else {
            return run.len() <= name.len() && fits(run, &name[name.len() - run.len()..]);
        };
        match first_fit(run, name) {
            Some(at) => {
                name = &name[at..][run.len()..];
                pieces = behind;
            }
            None => return false,
        }
    }
}

// The pieces in front of the first star, and those from it on.
fn cut_at_star(pieces: &[Piece]) -> (&[Piece], &[Piece])
    ensures { IsCut pieces.now result.0.now result.1.now }
{
    for (i, piece) in pieces.iter().enumerate() {
        if let Piece::Any = piece {
            return pieces.split_at(i);
        }
    }
    pieces.split_at(pieces.len())
}

// Whether the run takes the first bytes of the name.
fn fits(run: &[Piece], name: &[u8]) -> bool
    ensures fits { result ≡ fits (parts_held run.now) name.now }
    ensures within { IsTrue result → length run.now ≤ length name.now }
{
    if run.len() > name.len() {
        return false;
    }
    for (i, piece) in run.iter().enumerate() {
        if !piece.takes(name[i]) {
            return false;
        }
    }
    true
}

// The first place of the name at which the run fits.
fn first_fit(run: &[Piece], name: &[u8]) -> Option<usize>
    ensures none { IfNone result (FitsNowhereBelow (parts_held run.now) name.now (length name.now + 1)) }
    ensures first { IfSome result (λ at. FitsNowhereBelow (parts_held run.now) name.now at) }
    ensures here { IfSome result (λ at. fits (parts_held run.now) (drop at name.now) ≡ true) }
    ensures within { IfSome result (λ at. at + length run.now ≤ length name.now) }
{
    for at in 0..=name.len() {
        if fits(run, &name[at..]) {
            return Some(at);
        }
    }
    None
}
