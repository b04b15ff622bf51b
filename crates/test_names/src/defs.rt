// Copies with ample memory.

use jr_base::{CuId, DeclId, Items, NodeAt, NodeId, OccId, TypeId};
use jr_defs::{BindingTable, Headers, MemberTable, Supers, Target};
use std::test::Fail;

fn node(number: u32) -> NodeAt {
    NodeAt {
        cu: CuId(2),
        node: NodeId(number),
    }
}

fn decl(number: u32) -> DeclId {
    DeclId {
        at: node(number),
        part: 0,
    }
}

#[test]
fn copies_a_table_of_bindings(rt: HostRuntime) -> Result<(), Fail> {
    let occ = OccId {
        at: node(3),
        part: 0,
    };
    let targets = Items::from_slice(rt.alloc(), &[(occ, Target::Package)])?;
    let table = BindingTable { targets };
    let copy = table.copy(rt.alloc())?;
    assert_eq!(rt; copy.targets.len(), 1);
    Ok(())
}

#[test]
fn copies_members_and_headers(rt: HostRuntime) -> Result<(), Fail> {
    let of = TypeId(decl(1));
    let mut supers = Items::new(rt.alloc());
    supers.push(Supers {
        of,
        supers: Items::from_slice(rt.alloc(), &[of])?,
    })?;
    let headers = Headers { supers };
    let table = MemberTable {
        supers: headers.copy(rt.alloc())?,
        members: Items::new(rt.alloc()),
        found: Items::from_slice(rt.alloc(), &[(of, decl(2), decl(2))])?,
    };
    let copy = table.copy(rt.alloc())?;
    assert_eq!(rt; copy.supers.supers.len(), 1);
    assert_eq!(rt; copy.found.len(), 1);
    Ok(())
}
