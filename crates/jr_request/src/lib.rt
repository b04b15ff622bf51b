//! What a user asks for: the words of a command, and a batch of requests in JSON, read from the input to its end.
#![tactic(auto)]

mod batch;
mod command;
mod element;
mod fault;
mod input;
mod input_fault;
mod requests;
mod words;

pub use batch::read_batch;
pub use command::Command;
pub use fault::RequestFault;
pub use input_fault::BatchFault;
pub use requests::read_requests;
pub use words::read_words;
