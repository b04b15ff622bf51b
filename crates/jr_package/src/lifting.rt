// A member type that becomes a top-level one.
ghost use Rattle.std.specs.Prelude.{◌≡◌, ◌<◌, ◌+◌, ◌^◌, ◌++◌, IfErr, IfOk, IfSome, OnOk};
ghost use Rattle.jr_marks.specs.Places.{IsOrdered};
ghost use Rattle.jr_package.specs.Lifting as spec;

use jr_base::{OutOfMemory, Span};
use jr_change::{Change, ChangeFault, Project, Reason};
use jr_draft::{Head, Leaving, asked, head_of, name_of_package, unit_row};
use jr_marks::Marks;
use jr_places::{
    declaring_type, is_in_interface, is_private, is_protected, is_static, is_type, written_at,
};
use jr_text::{extent, part, token_span, tokens_span, unit_bytes};
use jr_tree::Row;
use std::alloc::Global;

/// What takes the member class or interface at an offset of a file out of its type, to a file of its own in the same package, or the first reason why
/// that cannot be. It is static, also implicitly, and neither private nor protected (JLS 8.5.1, 9.5).
#[tactic(auto, using(crate::proofs::Lifted::refused_so, crate::proofs::Lifted::stays_so, crate::proofs::Lifted::lifted_so))]
pub fn lift(alloc: Global, old: &Project, file: &[u8], at: u32) -> Result<Change, ChangeFault>
    ensures { IsOrdered old.now.marks → spec.IsLiftAnswer old.now file.now at result }
{
    let found = match asked(old, file, at) {
        Ok(found) => found,
        Err(fault) => return Err(fault),
    };
    match liftable(old.marks.rows, found) {
        None => Err(ChangeFault::Bad(Reason::WrongKind)),
        Some(row) => lifted(alloc, &old.marks, row),
    }
}

// The change in which a member type is taken out of its type.
fn lifted(alloc: Global, marks: &Marks, row: u32) -> Result<Change, ChangeFault>
    ensures ok { IfOk result (λ change. IsOrdered marks.now → row + 1 < 2 ^ 32 → spec.IsLifted marks.now row change) }
    ensures fault { IfErr result (λ fault. fault ≡ ChangeFault.OutOfMemory) }
{
    let head = head_over(marks, row);
    let span = extent(marks, row);
    let named = name_of_package(alloc, marks.rows, head.declared)?;
    let declaration = text_lifted(alloc, marks, row, span)?;
    let bytes = named.as_slice();
    let text = declaration.as_slice();
    let leaving = Leaving {
        head,
        row,
        is_turned: true,
        named: bytes,
        declaration: text,
        span,
    };
    leaving.to_own_file(alloc, marks)
}

// What stands before the types of the unit of a row.
fn head_over(marks: &Marks, row: u32) -> Head
    ensures head { IsOrdered marks.now → result ≡ spec.head_over marks.now row }
    ensures declared { IsOrdered marks.now → IfSome result.declared (λ row. row + 1 < 2 ^ 32) }
{
    head_of(marks.rows, unit_row(marks, marks.unit_of(row)))
}

// The declaration, if it is a member type that can be lifted.
fn liftable(rows: &[Row], declared: Option<u32>) -> Option<u32>
    ensures { result ≡ spec.liftable rows.now declared }
{
    let row = declared?;
    if is_liftable(rows, row) {
        Some(row)
    } else {
        None
    }
}

// A member type that is static, and neither private nor protected.
fn is_liftable(rows: &[Row], row: u32) -> bool
    ensures { result ≡ spec.is_liftable rows.now row }
{
    is_member_type(rows, row) && (is_static(rows, row) && is_open(rows, row))
}

fn is_member_type(rows: &[Row], row: u32) -> bool
    ensures { result ≡ spec.is_member_type rows.now row }
{
    is_type(rows, row) && declaring_type(rows, row).is_some()
}

fn is_open(rows: &[Row], row: u32) -> bool
    ensures { result ≡ spec.is_open rows.now row }
{
    !is_private(rows, row) && !is_protected(rows, row)
}

// The bytes of a declaration with its lead as they stand in a unit: without `static`, and with the `public` that an interface gives.
fn text_lifted(
    alloc: Global,
    marks: &Marks,
    lifted: u32,
    whole: Span,
) -> Result<Vec<u8>, OutOfMemory>
    ensures { IfOk result (λ text. IsOrdered marks.now → text.items ≡ spec.text_lifted marks.now lifted whole) }
{
    let first = tokens_span(marks, lifted).start;
    let lead = Span {
        start: whole.start,
        end: first,
    };
    let declaration = Span {
        start: first,
        end: whole.end,
    };
    let mut out = Vec::new(alloc);
    out.extend_from_slice(part(unit_bytes(marks, lifted), lead))?;
    out.extend_from_slice(public_of(marks.rows, lifted))?;
    add_without(
        &mut out,
        marks,
        lifted,
        declaration,
        static_token(marks, lifted),
    )?;
    Ok(out)
}

// The type is public since an interface declares it, and not written so (JLS 9.5).
fn gets_public(rows: &[Row], lifted: u32) -> bool
    ensures { result ≡ spec.gets_public rows.now lifted }
{
    is_in_interface(rows, lifted) && !written_at(rows, lifted).is_public
}

// The modifier that is to be written now.
fn public_of(rows: &[Row], lifted: u32) -> &[u8]
    ensures { result.now ≡ spec.public_of rows.now lifted }
{
    if gets_public(rows, lifted) {
        b"public "
    } else {
        &[]
    }
}

// Adds the bytes of a declaration without a token and the gap behind it.
fn add_without(
    out: &mut Vec<u8>,
    marks: &Marks,
    lifted: u32,
    whole: Span,
    token: Option<u32>,
) -> Result<(), OutOfMemory>
    ensures { OnOk result (IsOrdered marks.now → out.new.items ≡ out.old.items ++ spec.without_token marks.now lifted whole token) }
{
    let bytes = unit_bytes(marks, lifted);
    match token {
        Some(token) => {
            let before = Span {
                start: whole.start,
                end: token_span(marks, lifted, token).start,
            };
            let behind = Span {
                start: token_span(marks, lifted, token.saturating_add(1)).start,
                end: whole.end,
            };
            out.extend_from_slice(part(bytes, before))?;
            out.extend_from_slice(part(bytes, behind))?;
        }
        None => out.extend_from_slice(part(bytes, whole))?,
    }
    Ok(())
}

fn is_static_token(marks: &Marks, lifted: u32, token: u32) -> bool
    ensures { IsOrdered marks.now → result ≡ spec.is_static_token marks.now lifted token }
{
    part(unit_bytes(marks, lifted), token_span(marks, lifted, token)) == b"static".as_slice()
}

// The number of the token `static` before the name of a type.
fn static_token(marks: &Marks, lifted: u32) -> Option<u32>
    ensures { IsOrdered marks.now → result ≡ spec.static_token marks.now lifted }
{
    let mark = marks.mark(lifted);
    static_between(marks, lifted, mark.first, mark.own)
}

// The first such token from one on up to before another one.
fn static_between(marks: &Marks, lifted: u32, first: u32, own: u32) -> Option<u32>
    ensures { IsOrdered marks.now → result ≡ spec.static_between marks.now lifted first own }
{
    for token in first..own {
        if is_static_token(marks, lifted, token) {
            return Some(token);
        }
    }
    None
}
