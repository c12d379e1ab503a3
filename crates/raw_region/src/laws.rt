//! What stays of a region's cells after a write, a carve and a mend, as laws that the crates above
//! rest on. The functions do nothing when they are called.
ghost use Rattle.std.specs.Prelude.{◌≡◌, ◌⊎◌, ℕ, ◌+◌, ◌^◌};
ghost use Rattle.std.specs.Prelude.{◌<◌, ◌≤◌, List, length, map, Option, Some};
ghost use Rattle.std.specs.Int.{to_le_bytes, w64};
ghost use Rattle.raw_region.specs.Cells.{AtHome, IsHome, AreLent, away, bytes_of, with_run, word_at};

/// A run that was written has the bytes that were written, and those beside it are as before.
pub fn bytes_after_a_write()
    ensures written { (cells : List (Option ℕ)) (off : ℕ) (bytes : List ℕ)
        → off + length bytes ≤ length cells
        → bytes_of (with_run cells off (length bytes) (map Some bytes)) off (length bytes) ≡ bytes }
    ensures kept { (cells : List (Option ℕ)) (off : ℕ) (run : List (Option ℕ))
        → off + length run ≤ length cells
        → (o k : ℕ) → o + k ≤ length cells → (o + k ≤ off) ⊎ (off + length run ≤ o)
        → bytes_of (with_run cells off (length run) run) o k ≡ bytes_of cells o k }
{}

/// A word that was written is read back, and the words beside it are as before.
pub fn word_after_a_write()
    ensures written { (cells : List (Option ℕ)) (off w : ℕ) → off + 8 ≤ length cells → w < 2 ^ 64
        → word_at (with_run cells off 8 (map Some (to_le_bytes w64 w))) off ≡ w }
    ensures kept { (cells : List (Option ℕ)) (off w : ℕ) → off + 8 ≤ length cells
        → (o : ℕ) → o + 8 ≤ length cells → (o + 8 ≤ off) ⊎ (off + 8 ≤ o)
        → word_at (with_run cells off 8 (map Some (to_le_bytes w64 w))) o ≡ word_at cells o }
{}

/// Bytes that are written or brought home are at home, and so is all that was beside them.
pub fn home_after_a_write()
    ensures { (cells : List (Option ℕ)) (off : ℕ) (bytes : List ℕ)
        → off + length bytes ≤ length cells
        → (o k : ℕ)
        → ((i : ℕ) → i < k → (o + i < off) ⊎ (off + length bytes ≤ o + i) → IsHome cells (o + i))
        → AtHome (with_run cells off (length bytes) (map Some bytes)) o k }
{}

/// A run that was carved is lent, and all that was at home beside it stays there.
pub fn home_after_a_carve()
    ensures lent { (cells : List (Option ℕ)) (off len : ℕ) → off + len ≤ length cells
        → AreLent (away cells off len) off len }
    ensures home { (cells : List (Option ℕ)) (off len : ℕ) → off + len ≤ length cells
        → (o k : ℕ) → (o + k ≤ off) ⊎ (off + len ≤ o) → AtHome cells o k
        → AtHome (away cells off len) o k }
{}

/// What is lent stays lent while other cells are written, carved or brought home.
pub fn lent_beside_a_run()
    ensures { (cells : List (Option ℕ)) (off : ℕ) (run : List (Option ℕ))
        → off + length run ≤ length cells
        → (o k : ℕ) → (o + k ≤ off) ⊎ (off + length run ≤ o) → AreLent cells o k
        → AreLent (with_run cells off (length run) run) o k }
{}
