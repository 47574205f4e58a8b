// The examples that the pages show, proved as their readers' own code is: of the README and of docs/EXAMPLES.md,
// FROM_UPON.md, FUNCTIONS.md, HTML.md, STORE.md, CONTEXTS.md and NEEDS.md; and callables that tests use.
#![tactic(auto)]

pub mod answers;
pub mod cached_pages;
pub mod callables;
pub mod contexts;
pub mod documents;
pub mod examples;
pub mod formatters;
pub mod functions;
pub mod guest_book;
pub mod lint;
pub mod ported;
pub mod profile;
pub mod readme;
pub mod sources;
