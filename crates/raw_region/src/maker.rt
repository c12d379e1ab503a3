//! What names the memory behind a region.
use crate::memory::Start;

/// The memory of a region, and the address that its first byte has. It owns nothing, and no byte is
/// read through it.
#[derive(Clone, Copy)]
pub struct Maker {
    pub(crate) start: Start,
    pub(crate) base: u64,
}
