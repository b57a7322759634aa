//! What looks and steps answer, and what stands in buffers before.
use answers::fault::Fault;
use answers::refusal::Refusal;

/// What stands in every slot of a buffer before a look.
pub(crate) const LITERAL: i32 = 77;

pub(crate) const HINT: u32 = 88;

/// The clean ending.
pub(crate) const CLEAN: Refusal = Refusal {
    fault: Fault::NoItem,
    solver: 0,
    place: 0,
    hint: 0,
};

/// Of buffers that are too short.
pub(crate) const SHORT: Refusal = Refusal {
    fault: Fault::ShortBuffer,
    ..CLEAN
};
