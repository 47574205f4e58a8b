// How a template that is accepted ends.

/// How a template that is accepted ends, on each value that fits.
#[derive(Clone, Copy, Debug, PartialEq, Eq)]
pub enum Accepted {
    /// Without a fault, if the engine's depth of includes is at least this. It is 1 for a template without includes.
    EndsWithin(usize),
    /// Without a fault, unless includes are too deep one inside another: templates include themselves, or each other
    /// deeper than [`MOST_DEEP`].
    EndsUnlessDeep,
}

/// The greatest depth of includes that is looked for, which is the depth of a new engine.
pub const MOST_DEEP: usize = 64;
