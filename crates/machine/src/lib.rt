// The machine: the specification of its step and its run, with their laws; no code.
#![tactic(auto)]

// Of `language`, passed on to the crates above.
pub mod from_language {
    pub use language::Machine;
}
