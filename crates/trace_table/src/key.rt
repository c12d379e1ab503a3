//! Keys and traces.
use frame_stack::TbId;
use mem_base::TextId;

/// What a trace stands under: the name of a block, or a number in a domain, from 1 on.
#[derive(Clone, Copy, Debug, PartialEq, Eq, Hash)]
pub enum TraceKey {
    Block(TextId),
    Number(u32, u64),
}

/// A trace: how many bytes, the number of the frames that it keeps, and how many frames there were.
#[derive(Clone, Copy, Debug, PartialEq, Eq)]
pub struct TraceOf {
    pub size: u64,
    pub trace: TbId,
    pub total: u32,
}
