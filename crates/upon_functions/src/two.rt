// Functions of callables of two arguments, of which at least one is lent; a file by what the first one is.
pub mod list;
pub mod map;
pub mod owned;
pub mod text;
pub mod value;
