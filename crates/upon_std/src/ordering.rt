// Functions that templates expect of lists: to sort them, to drop repeated items and to group them.

mod calls;
mod distinct;
mod grouping;
mod keys;
pub mod laws;
pub mod orders;
mod places;
mod sorting;
mod spelling;
