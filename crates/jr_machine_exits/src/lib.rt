//! What the reference machine replaces code by, how it reads and stores fields and components, its calls, and completions other than the normal one.
#![tactic(auto)]

mod calls;
mod control;
mod exits;
mod parts;
mod places;

pub use calls::{call, call_on, construct, create_any};
pub use control::{chosen, push_groups};
pub use exits::{exit, leave};
pub use parts::{
    literal, push_after_body, push_any, push_finish, push_parts, push_target_parts, push_turn,
};
pub use places::{length_of, read_field, read_item, read_old, store};
