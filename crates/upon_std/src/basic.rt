// Functions that templates expect, in groups. An engine begins without functions; its user adds those wanted.

pub mod comparing;
pub mod copies;
mod decimal;
pub mod integers;
mod joined;
pub mod laws;
pub mod lists;
pub(crate) mod order;
pub mod table;
pub mod texts;
