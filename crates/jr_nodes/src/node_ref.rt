// A borrowed node.

use jr_tree::{
    Block, Catch, Declarator, Expr, ForInit, Group, Import, Init, InitList, Member, Name,
    PackageDecl, Param, Receiver, Stmt, TypeDecl, TypeUse, Unit,
};

/// A node of a unit, borrowed from it: one variant for each type of tree whose nodes have numbers.
#[derive(Clone, Copy)]
pub enum NodeRef<'a> {
    Unit(&'a Unit),
    PackageDecl(&'a PackageDecl),
    Import(&'a Import),
    TypeDecl(&'a TypeDecl),
    Member(&'a Member),
    Block(&'a Block),
    Stmt(&'a Stmt),
    ForInit(&'a ForInit),
    Group(&'a Group),
    Catch(&'a Catch),
    Expr(&'a Expr),
    Receiver(&'a Receiver),
    Declarator(&'a Declarator),
    Init(&'a Init),
    InitList(&'a InitList),
    Param(&'a Param),
    TypeUse(&'a TypeUse),
    Name(&'a Name),
}
