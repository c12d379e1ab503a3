//! A table that gives each text one number, as CPython interns the file names of tracebacks in
//! `tracemalloc_filenames`. A number is the index at which the text came, so numbers stay as the table
//! grows. The unknown text, which stands for the file where there is no frame, is number 0.

ghost use Rattle.std.specs.Prelude.{◌≡◌, ℕ, ◌<◌, ◌≤◌, ◌-◌, ◌^◌, ◌++◌, ◌∷◌, []};
ghost use Rattle.std.specs.Prelude.{length, slice_get, IfOk, OnErr, OnOk, IsOk, IfNone, IfSome, Some, Contains, codes};
ghost use Rattle.std.specs.List.{position};
ghost use Rattle.std.specs.Str.{bytes_eq};
ghost use Rattle.std.specs.Hash.{on_Alike, same_Alike};
ghost use Rattle.std.proofs.lemmas.Slice.Eq.{bytes_eq-Decides};

use indexmap::IndexSet;
use smallvec::SmallVec;
use std::alloc::{AllocError, Global};
use std::hash::{Hash, Hasher};
use std::marker::Model;

/// The number of a text in its table, from 0.
#[derive(Clone, Copy, Debug, Default, PartialEq, Eq, PartialOrd, Ord, Hash)]
pub struct TextId(pub u32);

// How many bytes of a text stand in the table itself. A longer text has memory of its own.
const IN_PLACE: usize = 16;

// A text of a table. Its bytes are hashed all at once, and not one after another.
#[derive(Drop, PartialEq, Eq)]
struct Key {
    bytes: SmallVec<u8, IN_PLACE>,
}

impl Hash for Key {
    ghost hash_input = { λ key. key.bytes.items ∷ [] };

    ghost respects_eq = { (on_Alike (λ k. k.bytes.items) (same_Alike (λ b. b ∷ []) bytes_eq-Decides)).fed };

    fn hash<H: Hasher>(&self, state: &mut H) {
        state.write(self.bytes.as_slice());
    }
}

// The key of a text.
fn key_of(alloc: Global, text: &[u8]) -> Result<Key, AllocError>
    ensures { IfOk result (λ key. key.bytes.items ≡ text.now) }
{
    let bytes = SmallVec::from_slice(alloc, text)?;
    Ok(Key { bytes })
}

/// A table of distinct texts, seen as their list.
#[derive(Drop)]
pub struct Texts {
    alloc: Global,
    texts: IndexSet<Key>,
}

impl Model for Texts {
    ghost use Rattle.std.specs.Prelude.{List, ℕ};
    ghost use Rattle.mem_base.specs.Texts.{texts_of, IsTable};

    ghost Value = { List (List ℕ) };

    ghost view = { λ t. texts_of t.texts.keys };

    ghost invariant = { λ t. IsTable (texts_of t.texts.keys) };
}

// The index of the first of the texts that is this one.
fn index_of(texts: &[Key], text: &[u8]) -> Option<usize>
    ensures { result ≡ position (λ key. bytes_eq text.now key.bytes.items) texts.now }
{
    texts
        .iter()
        .position(|other| text == other.bytes.as_slice())
}

impl Texts {
    ghost use Rattle.mem_base.specs.Texts.{unknown, with_text, IsTable};

    /// The table of the unknown text alone.
    pub fn new(alloc: Global) -> Result<Texts, AllocError>
        ensures { IfOk result (λ t. t ≡ unknown ∷ []) }
    {
        let mut texts = IndexSet::new(alloc);
        texts.insert_full(key_of(alloc, b"<unknown>")?)?;
        Ok(Texts { alloc, texts })
    }

    /// The number of the text, which is added last where it is new.
    pub fn intern(&mut self, text: &[u8]) -> Result<TextId, AllocError>
        requires { length self.old < 2 ^ 32 - 1 }
        ensures table { OnOk result (self.new ≡ with_text self.old text.now) }
        ensures number { IfOk result (λ id. slice_get self.new id.0 ≡ Some text.now) }
        ensures err { OnErr result (self.new ≡ self.old) }
    {
        let owned = key_of(self.alloc, text)?;
        let (at, _) = self.texts.insert_full(owned)?;
        Ok(TextId(at as u32))
    }

    /// How many texts there are. No text stands twice, and the first is the unknown one.
    pub fn len(&self) -> usize
        ensures count { result ≡ length self.now }
        ensures table { IsTable self.now }
    {
        self.texts.len()
    }

    /// The text with that number.
    pub fn get(&self, id: TextId) -> &[u8]
        requires { id.0 < length self.now }
        ensures { slice_get self.now id.0 ≡ Some result.now }
    {
        match self.texts.get_index(id.0 as usize) {
            Some(key) => key.bytes.as_slice(),
            None => unreachable!(),
        }
    }

    /// The number of the text, where it is in the table. It looks at one text after another, so that it needs
    /// no memory for a key.
    pub fn find(&self, text: &[u8]) -> Option<TextId>
        ensures found { IfSome result (λ id. slice_get self.now id.0 ≡ Some text.now) }
        ensures absent { IfNone result ((i : ℕ) → slice_get self.now i ≡ Some text.now → ⊥) }
    {
        match index_of(self.texts.as_slice(), text) {
            Some(at) => Some(TextId(at as u32)),
            None => None,
        }
    }
}
