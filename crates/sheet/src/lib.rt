// The type sheet: its writer, its reader, and the list of names that both speak of.
#![tactic(auto)]

pub mod header;
mod layout;
pub mod list;
mod reader;
pub mod records;
mod writer;

pub use reader::{ReadSheet, TABLE_CELLS, read};
pub use writer::write;
