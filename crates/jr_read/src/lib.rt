//! The program of a folder's files: their sizes, their tokens and their trees, behind the two units of the prelude.
#![tactic(auto)]

mod fault;
mod law;
mod lexed;
mod outline;
mod prelude;
mod program;
mod sizes;

pub use fault::ReadFault;
pub use law::read_files_are_small;
pub use lexed::Lexed;
pub use outline::rows_of_source;
pub use prelude::{io_source, lang_source};
pub use program::{read, read_unit, read_units};
