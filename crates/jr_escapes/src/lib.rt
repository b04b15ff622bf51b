//! Unicode escapes in comments (JLS 3.3, 3.7).
#![tactic(auto)]

mod escapes;
mod units;

pub use escapes::first_bad_escape;
