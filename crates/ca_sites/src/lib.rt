//! The sites of a source: where it may fail, with the place of each in the text.
#![tactic(auto)]

mod items;
mod laws;
mod site;
mod statements;

pub use laws::{loads_have_their_places, text_shows_sites};
pub use site::{Site, SiteKind, sites};
