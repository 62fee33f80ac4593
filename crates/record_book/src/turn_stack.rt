//! The stack of a turn, as the trace is given it.

/// The stack that allocates a block: its node in the trace, where that is known, or its ips from the innermost outwards.
#[derive(Clone, Copy)]
pub enum TurnStack<'a> {
    Known(u32),
    Ips(&'a [u64]),
}
