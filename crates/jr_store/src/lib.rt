//! What stands outside: a store of files with what a crash may leave of them, a source and a sink.
#![tactic(auto)]

mod blind;
mod calls;
mod folder;
mod folder_list;
mod memory;
mod memory_streams;
mod record;
mod std_streams;
mod store;
mod stream;

pub use blind::BlindStore;
pub use folder::FolderStore;
pub use memory::MemStore;
pub use memory_streams::{MemSink, MemSource};
pub use std_streams::{StdSink, StdSource};
pub use store::{Failed, Store, StoreError};
pub use stream::{Sink, Source};
