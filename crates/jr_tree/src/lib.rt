//! Syntax trees, and a program as one flat list of rows: its nodes in preorder, with one row for each identifier of a name.
//!
//! `specs` has trees as plain data, with what their tokens, shape, depth and nodes are, and the rows of a tree.
#![tactic(auto)]

mod label;
mod law;
mod row;
pub mod tree;

pub use label::{ImportKind, Label, Modifiers, NameKind, NamePlace, ReceiverKind, Role, Sought};
pub use law::{plain_data_is_faithful, programs_are_trees, rows_stand_as_they_may};
pub use row::Row;
pub use tree::{
    Base, Block, Catch, Declarator, Expr, ForInit, Group, Import, Init, InitList, Member, Modifier,
    Name, PackageDecl, Param, Primitive, Receiver, ResultType, Stmt, SwitchLabel, ThisOrSuper,
    TypeDecl, TypeUse, Unit,
};
