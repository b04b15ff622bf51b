// The rename of a local or parameter.
ghost use Rattle.std.specs.Prelude.{◌≡◌, ◌≢◌, ◌≤◌, ◌<◌, ◌⊎◌, IfOk, length};
ghost use Rattle.jr_thin.specs.Renaming.{IsRenaming};
ghost use Rattle.jr_base.specs.Respelled.{moved_tokens};
ghost use Rattle.jr_thin.specs.Served.{IsServed, IsRefusal, RiseFrom};
ghost use Rattle.jr_thin.specs.Text.{choices};

use crate::clashes::{clash, first_lost};
use crate::served::{Class, class_in};
use crate::spelling::{moved_start, name_at, respell};
use jr_base::{CuId, DeclId, NodeAt, NodeId, OccId, OutOfMemory, is_identifier};
use std::alloc::Global;

/// What a rename comes to. Offsets are in bytes.
#[derive(Debug, Drop)]
pub enum Renaming {
    /// The file, the offset or the name is outside what is served.
    NotServed,
    /// The first name of the changed text that does not bind to the declaration that it had: `at` is its offset in the
    /// old file, `lock` the declaration (JLS 6.5.6.1).
    NoSpelling { occ: OccId, at: u32, lock: DeclId },
    /// Every name binds as before, and a local or parameter is declared in the scope of one of its name: the first such,
    /// `at` in the changed text (JLS 8.4.1, 14.4.2).
    BrokenRule { at: u32 },
    /// The new bytes: the old ones where the name is the same.
    Renamed(Vec<u8>),
}

// A node of the file, which is unit 2, after those of the prelude.
fn node_at(node: u32) -> NodeAt
    ensures { result ≡ record { cu = record { 0 = 2 }; node = record { 0 = node } } }
{
    NodeAt {
        cu: CuId(2),
        node: NodeId(node),
    }
}

// The two numbers in their order.
fn ordered(a: usize, b: usize) -> (usize, usize)
    requires { a ≢ b }
    ensures order { result.0 < result.1 }
    ensures same { ((result.0 ≡ a) × (result.1 ≡ b)) ⊎ ((result.0 ≡ b) × (result.1 ≡ a)) }
{
    if a < b { (a, b) } else { (b, a) }
}

// The answer where the declarations `first` and `last` have one name now.
fn refusal(
    class: &Class,
    declaration: usize,
    name: &[u8],
    first: usize,
    last: usize,
) -> Result<Renaming, OutOfMemory>
    requires first { first < length class.now.sites.items }
    requires last { last < length class.now.sites.items }
    requires targets { length class.now.targets.items ≡ length class.now.sites.items }
    requires tokens { length class.now.tokens.items ≡ length class.now.sites.items }
    requires rise { RiseFrom 0 class.now.tokens.items }
    ensures { IfOk result (IsRefusal class.now.tokens.items class.now.sites.items class.now.targets.items
        (moved_tokens 0 0 (choices declaration name.now class.now.tokens.items class.now.targets.items)) first last) }
{
    let Some(lost) = first_lost(&class.sites, &class.targets, first, last) else {
        let at = moved_start(&class.tokens, &class.targets, declaration, name, last)?;
        return Ok(Renaming::BrokenRule { at });
    };
    let Some(lock) = class.targets[lost] else {
        unreachable!()
    };
    Ok(Renaming::NoSpelling {
        occ: OccId {
            at: node_at(class.sites[lost].node),
            part: 0,
        },
        at: class.tokens[lost].span.start,
        lock: DeclId {
            at: node_at(class.sites[lock].node),
            part: 0,
        },
    })
}

// The answer for a declaration whose rename is served.
fn decide(
    alloc: Global,
    bytes: &[u8],
    at: u32,
    name: &[u8],
    class: &Class,
    declaration: usize,
) -> Result<Renaming, OutOfMemory>
    requires { IsServed bytes.now at name.now class.now.tokens.items class.now.sites.items class.now.targets.items declaration }
    ensures { IfOk result (IsRenaming bytes.now at name.now) }
{
    if let Some(other) = clash(&class.sites, declaration, name) {
        let (first, last) = ordered(declaration, other);
        return refusal(class, declaration, name, first, last);
    }
    let new = respell(
        alloc,
        bytes,
        &class.tokens,
        &class.targets,
        declaration,
        name,
    )?;
    Ok(Renaming::Renamed(new))
}

/// Renames the local or parameter whose name holds the offset `at`, at its first byte or before its end.
pub fn rename(alloc: Global, bytes: &[u8], at: u32, name: &[u8]) -> Result<Renaming, OutOfMemory>
    requires { length bytes.now ≤ 65536 }
    ensures { IfOk result (IsRenaming bytes.now at name.now) }
{
    if !is_identifier(name) {
        return Ok(Renaming::NotServed);
    }
    let Some(class) = class_in(alloc, bytes)? else {
        return Ok(Renaming::NotServed);
    };
    let Some(asked) = name_at(&class.tokens, &class.sites, at) else {
        return Ok(Renaming::NotServed);
    };
    match class.targets[asked] {
        Some(declaration) => decide(alloc, bytes, at, name, &class, declaration),
        None => Ok(Renaming::NotServed),
    }
}
