// Numbers of nodes, counted by hand along the grammar (JLS 18).
use crate::reading::read;
use jr_base::{CuId, Items, NodeAt, NodeId, Path, Text};
use jr_defs::{Program, UnitAt};
use jr_index::Index;
use jr_nodes::{NodeRef, node};
use jr_shape::is_shaped;
use jr_tree::Unit;
use std::alloc::Global;
use std::test::Fail;

fn kind_of(node: NodeRef<'_>) -> &'static str {
    match node {
        NodeRef::Unit(_) => "Unit",
        NodeRef::PackageDecl(_) => "PackageDecl",
        NodeRef::TypeDecl(_) => "TypeDecl",
        NodeRef::Member(_) => "Member",
        NodeRef::Declarator(_) => "Declarator",
        NodeRef::InitList(_) => "InitList",
        NodeRef::Init(_) => "Init",
        NodeRef::Expr(_) => "Expr",
        NodeRef::TypeUse(_) => "TypeUse",
        NodeRef::Name(_) => "Name",
        _ => "other",
    }
}

#[test]
fn nodes_of_a_class_have_their_numbers(rt: HostRuntime) -> Result<(), Fail> {
    let unit = read(
        rt.alloc(),
        "package p; class A extends B { int x[] = { y }, z; }",
    )?;
    for (id, kind) in [
        (0, "Unit"),
        (1, "PackageDecl"),
        (2, "Name"),
        (3, "TypeDecl"),
        (4, "Name"),
        (5, "Member"),
        (6, "TypeUse"),
        (7, "Declarator"),
        (8, "InitList"),
        (9, "Init"),
        (10, "Expr"),
        (11, "Name"),
        (12, "Declarator"),
        (13, "none"),
        (u32::MAX, "none"),
    ] {
        let found = node(&unit, NodeId(id)).map_or("none", kind_of);
        assert_eq!(rt; found, kind, "at {id}");
    }
    Ok(())
}

const SMALL: &str = "class A { int x; ; }";

/// The index of the program that is this unit alone.
fn index_of(alloc: Global, path: Path, bytes: Text, unit: Unit) -> Result<Index, Fail> {
    if !is_shaped(&unit) {
        return Err(Fail::new("the grammar does not have the unit"));
    }
    let mut units = Items::new(alloc);
    units.push(UnitAt {
        path,
        bytes,
        tokens: Items::new(alloc),
        unit,
    })?;
    let program = Program { units };
    Ok(Index::build(alloc, &program)?)
}

/// The index of the small class.
fn small_index(alloc: Global) -> Result<Index, Fail> {
    let path = Path::parse(alloc, b"A.java")?;
    let bytes = Text::new(SMALL.as_bytes().to_vec(alloc)?);
    let unit = read(alloc, SMALL)?;
    index_of(alloc, path, bytes, unit)
}

fn node_at(unit: u32, number: u32) -> NodeAt {
    NodeAt {
        cu: CuId(unit),
        node: NodeId(number),
    }
}

#[test]
fn each_node_has_the_parent_that_the_tree_gives_it(rt: HostRuntime) -> Result<(), Fail> {
    let index = small_index(rt.alloc())?;
    for (number, above) in [
        (0, None),
        (1, Some(0)),
        (2, Some(1)),
        (3, Some(2)),
        (4, Some(2)),
        (5, Some(1)),
        (6, Some(5)),
        (7, None),
    ] {
        let found = index.parent(node_at(0, number));
        assert!(rt;
            found == above.map(|above| node_at(0, above)),
            "at {number}"
        );
    }
    assert!(rt; index.parent(node_at(1, 0)).is_none());
    assert_eq!(rt; index.rows().len(), 10);
    Ok(())
}
