//! The prelude of every program: what its texts read as, which types of java.lang it declares, and which of its declarations the
//! reference machine knows by number.
#![tactic(auto)]

mod law;

pub use law::{
    files_are_one_program, machine_numbers_are_of_the_prelude, one_binding_of_files,
    prelude_is_read, programs_begin_with_lang, programs_have_types_of_lang,
    programs_of_files_are_formed,
};
