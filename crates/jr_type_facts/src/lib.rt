//! What the rules on types and expressions read of a bound program: kinds of rows, types of their parts, and tables that are made once for all rows.
#![tactic(auto)]

mod facts;
mod labels;
mod law;
mod repeated;
mod rounds;
mod tables;

pub use facts::{Facts, is_instance_member, is_int_like, is_variable};
pub use labels::{
    changes_first, drops_values, gives_nothing, gives_result, is_call, is_call_of_constructor,
    is_case, is_cast, is_catch, is_conditional, is_default, is_for, is_index, is_initializer,
    is_initializing, is_list, is_new, is_new_array, is_other_name, is_paren, is_plain_assignment,
    is_return, is_super_call, is_switch, is_test, is_this_call, is_throw, is_value, takes_one,
    takes_two, tests_first, tests_second,
};
pub use law::each_body_calls_once;
pub use repeated::switch_of;
pub use tables::Tables;
