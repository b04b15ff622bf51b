// What a type inherits of a name from one supertype (JLS 8.3, 8.4.8, 8.5).
ghost use Rattle.std.specs.Prelude.{◌≡◌, ◌&&◌, filter, IfOk};
ghost use Rattle.std.specs.List.{list_any};
ghost use Rattle.jr_tree.specs.declared.label.Role.TheVariants as role;
ghost use Rattle.jr_tree.specs.Rows.{Rows, role_at};
ghost use Rattle.jr_defs.specs.Referents.{Table};
ghost use Rattle.jr_plain.specs.Types as types;
ghost use Rattle.jr_supers.specs.Signatures.{AreSignatures};
ghost use Rattle.jr_members.specs.declared.declared.MemberKind.TheVariants as kinds;
ghost use Rattle.jr_members.specs.Gathered as gather;
ghost use Rattle.jr_members.specs.Held.{role_of_kind};
ghost use Rattle.jr_members.specs.Sources as given;

use crate::declared::MemberKind;
use crate::lists::push_if;
use crate::named::{Sources, can_inherit};
use jr_base::OutOfMemory;
use jr_places::passes;
use jr_supers::Signatures;
use std::alloc::Global;

/// One of the methods has the signature of a method.
pub fn are_any_same(signatures: &Signatures, all: &[u32], at: u32) -> bool
    ensures { (p : Rows) (t : Table) → AreSignatures p t signatures.now → given.AreOfKind p kinds.Method all.now → role_at p at ≡ role.Method → result ≡ list_any (λ e. types.is_same_signature p t e at) all.now }
{
    for other in all {
        if signatures.are_same(*other, at) {
            return true;
        }
    }
    false
}

// A type that declares these of the name declares nothing that hides or overrides the member (JLS 8.3, 8.4.8, 8.5).
fn is_left(kind: MemberKind, signatures: &Signatures, own: &[u32], at: u32) -> bool
    ensures { (p : Rows) (t : Table) → given.AreSignaturesFor kind p t signatures.now → given.AreOfKind p kind own.now → role_at p at ≡ role_of_kind kind → result ≡ gather.is_left_by p t kind own.now at }
{
    match kind {
        MemberKind::Field => own.is_empty(),
        MemberKind::Type => own.is_empty(),
        MemberKind::Method => !are_any_same(signatures, own, at),
    }
}

// The type, which declares these of the name, inherits the member from the supertype (JLS 8.4.8).
fn inherits(kind: MemberKind, sources: Sources, own: &[u32], over: u32, from: u32, at: u32) -> bool
    ensures { (t : Table) → given.AreSources t kind sources.entry → given.AreOfKind sources.entry.under.rows.now kind own.now → role_at sources.entry.under.rows.now at ≡ role_of_kind kind → result ≡ gather.inherits sources.entry.under.rows.now t kind own.now over from at }
{
    let can = can_inherit(sources.under, over, at);
    let left = is_left(kind, sources.signatures, own, at);
    let passed = passes(sources.under.rows, from, at);
    all_three(passed, can, left)
}

fn all_three(one: bool, other: bool, third: bool) -> bool
    ensures { result ≡ (one && (other && third)) }
{
    one && (other && third)
}

// Of these members of a supertype, those that the type inherits, which declares others of the name.
pub fn inherited(
    alloc: Global,
    kind: MemberKind,
    sources: Sources,
    own: &[u32],
    over: u32,
    from: u32,
    found: &[u32],
) -> Result<Vec<u32>, OutOfMemory>
    ensures { (t : Table) → given.AreSources t kind sources.entry → given.AreOfKind sources.entry.under.rows.now kind own.now → given.AreOfKind sources.entry.under.rows.now kind found.now → IfOk result (λ some. some.items ≡ filter (gather.inherits sources.entry.under.rows.now t kind own.now over from) found.now) }
{
    let mut some = Vec::new(alloc);
    for at in found {
        let is_such = inherits(kind, sources, own, over, from, *at);
        push_if(&mut some, is_such, *at)?;
    }
    Ok(some)
}
