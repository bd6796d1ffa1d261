// The job writer of document 02: what the reader reads back as the same job, and nothing written where a check refuses.
#![tactic(auto)]

mod numbers;
mod put_groups;
mod sizes;
mod writer;

pub use writer::write;

// How many holds a trace has, and the bytes of their seconds and gears.
#[derive(Clone, Copy)]
struct HoldSizes {
    count: u16,
    bytes: usize,
}
