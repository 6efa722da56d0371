//! Grammars as values, and readers that are proved against them.
//!
//! A grammar is written in `specs/` with seven combinators (`nothing`, `token`, `limited`, `follows`, `either`, `many`,
//! `below`). Each combinator means three things at once: which tokens derive which value, which tokens can begin a
//! text, and where a limit on nesting or on a range is passed. A reader is a function on lists of tokens, built by the
//! same combinators.
//!
//! Each combinator has one law in `proofs/`. So the proof of a production is a single term, whose conditions on the
//! next token are tests on sets of codes. For whole texts, `proofs/Text` then says: the reader gives a value exactly if
//! the text spells it, and otherwise the text's first fault.
#![tactic(auto)]

pub mod laws;
