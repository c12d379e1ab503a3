//! The order of texts by their bytes, as numbers.
//!
//! Traces of blocks stand in a snapshot by the bytes of their names. The names are texts of a table that a run
//! does not change, so each gets its place in that order once, and then two names compare as two numbers:
//!
//! ```text
//! number   text        place
//! 0        <unknown>   0
//! 1        list        2
//! 2        dict        1
//! ```
ghost use Rattle.std.specs.Prelude.{◌≡◌, ◌<◌, ◌≢◌, ◌^◌, All, IfOk, length, slice_index};
ghost use Rattle.std.specs.List.{AllPairs};
ghost use Rattle.mem_base.specs.Texts.{text_at};
ghost use Rattle.trace_table.specs.Ranks.{AreInOrder, ArePlaces, AreRanks};

use mem_base::{TextId, Texts};
use std::alloc::{AllocError, Global};
use std::marker::Model;

/// For each text of a table, its place in the order of their bytes, from 0. It is seen as the list of these
/// places, and made once for a run.
#[derive(Drop)]
pub struct Ranks {
    places: Vec<u32>,
}

impl Model for Ranks {
    ghost use Rattle.std.specs.Prelude.{List, ℕ};

    ghost Value = { List ℕ };

    ghost view = { λ r. r.places.items };
}

/// The text with that number, and the empty one past the end.
pub fn text_of(texts: &Texts, id: TextId) -> &[u8]
    ensures { result.now ≡ text_at texts.now id }
{
    if (id.0 as usize) < texts.len() {
        texts.get(id)
    } else {
        &[]
    }
}

// The numbers of the texts, in the order of their bytes.
fn in_order(alloc: Global, texts: &Texts) -> Result<Vec<u32>, AllocError>
    ensures { IfOk result (λ v. AreInOrder texts.now v.items) }
{
    let mut order = Vec::new(alloc);
    for id in 0..texts.len() {
        order.push(id as u32)?;
    }
    order.sort_unstable_by(|a, b| text_of(texts, TextId(*a)).cmp(text_of(texts, TextId(*b))));
    Ok(order)
}

// For each number its place among the numbers.
fn places_of(alloc: Global, order: &[u32]) -> Result<Vec<u32>, AllocError>
    requires few { length order.now < 2 ^ 32 }
    requires known { All (λ n. n < length order.now) order.now }
    requires apart { AllPairs (λ m n. m ≢ n) order.now }
    ensures { IfOk result (λ v. ArePlaces order.now v.items) }
{
    let mut places = vec![in alloc; 0u32; order.len()]?;
    for (place, number) in order.iter().enumerate() {
        places[*number as usize] = place as u32;
    }
    Ok(places)
}

impl Ranks {
    /// The ranks of the texts. The error is that there was no memory.
    pub fn new(alloc: Global, texts: &Texts) -> Result<Ranks, AllocError>
        ensures { IfOk result (λ r. AreRanks texts.now r) }
    {
        let order = in_order(alloc, texts)?;
        let places = places_of(alloc, &order)?;
        Ok(Ranks { places })
    }

    /// The rank of the text with that number, and 0 past the end.
    pub fn of(&self, id: TextId) -> u32
        ensures { result ≡ slice_index self.now id.0 }
    {
        match self.places.get(id.0 as usize) {
            Some(place) => *place,
            None => 0,
        }
    }
}
