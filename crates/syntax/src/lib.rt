// The loader's specification: from a text to its program or its refusal; no code.
#![tactic(auto)]

// Of `characters`, passed on to the crates above.
pub mod from_characters {
    pub use language::from_characters::{is_capital, is_digit, is_known};
}
