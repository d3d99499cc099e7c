use crate::why::Why;

/// Why a line was not read.
#[derive(Clone, Copy)]
pub enum Refusal {
    Faulty(Why),
    NoMemory,
}
