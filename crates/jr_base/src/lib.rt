//! The values that every layer shares: texts, paths, files, tokens, places, limits, requests, and types and values of constants (JLS 4, 15.28).
#![tactic(auto)]

mod characters;
mod constant;
mod copied;
mod files;
mod identifier;
mod ids;
mod kind;
mod law;
mod limits;
mod memory;
mod number;
mod path;
mod request;
mod text;
mod token;
mod ty;
mod units;

pub use characters::{char_at, continues_word, starts_word, word_end};
pub use constant::Const;
pub use copied::Copied;
pub use files::Files;
pub use identifier::is_identifier;
pub use ids::{CuId, DeclId, NodeAt, NodeId, OccId, RuleId, TypeId};
pub use kind::{Keyword, Kind, Symbol, keyword_of, symbol_of};
pub use law::plain_types_are_faithful;
pub use limits::{Limits, Size};
pub use memory::OutOfMemory;
pub use number::parse_number;
pub use path::{Path, PathFault};
pub use request::Request;
pub use sqlite_items::{Boxed, Items};
pub use text::Text;
pub use token::{Place, Span, Token};
pub use ty::Ty;
pub use units::Units;
