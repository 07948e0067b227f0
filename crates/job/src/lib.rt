// What the two programs do with a dump that was read: each turn's bytes are made in a lent buffer and go to standard output.
#![tactic(auto)]

mod listed;
mod rewriting;

pub use listed::print_list;
pub use rewriting::print_reformat;

// Whether every turn's bytes were written, and, if so, whether the dump was whole.
#[derive(Clone, Copy)]
pub struct Printed {
    pub written: bool,
    pub whole: bool,
}
