//! Where the rules on jumps, on reaching and completing, and on checked exceptions are broken, in a bound program (JLS 8.4.7, 8.6, 11.2, 14.15, 14.16, 14.20, 14.21).
#![tactic(auto)]

mod catches;
mod classes;
mod facts;
mod going;
mod guards;
mod jumps;
mod pairs;
mod throwing;
mod thrown;

pub use catches::Catches;
pub use classes::Roots;
pub use facts::facts_of;
pub use going::Tracing;
pub use guards::Around;
pub use throwing::flow_faults;
pub use thrown::thrown_at;
