//! A change as it is put together, and the declaration for which a request asks.
#![tactic(auto)]

mod apart;
mod asking;
mod draft;
mod order;
mod packages;

pub use apart::{Leaving, add_package_rows, add_without};
pub use asking::{PRELUDE, asked, count_units, is_in_prelude, named_at, refers_to, unit_of_file};
pub use draft::{Draft, edits_of, unchanged, unit_row};
pub use order::{is_before, order_with, path_of};
pub use packages::{
    Head, behind_last, count_identifiers, declaration_of, folder_of_package, head_of, is_import,
    is_package_name, name_below, name_of_package, package_named, path_below, path_in, path_of_type,
};
