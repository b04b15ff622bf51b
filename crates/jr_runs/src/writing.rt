// The rows that are written for parts of a spelling.
ghost use Rattle.std.specs.Prelude.{◌≡◌, ◌+◌, ◌++◌, IfOk, OnOk, length, slice_get};
ghost use Rattle.jr_runs.specs.Written as spec;

use crate::item::{Form, Item, Meaning, Refers};
use jr_base::OutOfMemory;
use jr_defs::Referent;
use jr_shapes::is_atom;
use jr_tree::{NameKind, NamePlace, Primitive, Row};

/// The number of a row so many behind one.
pub fn ahead(at: usize, count: usize) -> Result<usize, OutOfMemory>
    ensures { IfOk result (λ next. next ≡ at + count) }
{
    match at.checked_add(count) {
        Some(next) => Ok(next),
        None => Err(OutOfMemory),
    }
}

/// A row without an identifier, which refers to nothing.
pub fn bare(of: u32, form: Form, over: Option<usize>, end: Option<usize>) -> Item
    ensures { result ≡ spec.bare of form over end }
{
    Item {
        of,
        form,
        name: None,
        over,
        end,
        refers: Refers::To(Referent::Unbound),
    }
}

fn left_kind(kind: NameKind) -> NameKind
    ensures { result ≡ spec.left_kind kind }
{
    match kind {
        NameKind::Variable => NameKind::Ambiguous,
        NameKind::Type => NameKind::PackageOrType,
        _ => kind,
    }
}

/// What stands before a dot means, by what the name does (JLS 6.5.1).
pub fn left(meaning: Meaning) -> Meaning
    ensures { result ≡ spec.left meaning }
{
    Meaning {
        kind: left_kind(meaning.kind),
        place: NamePlace::Qualifier,
    }
}

fn of_type() -> Meaning
    ensures { result ≡ spec.of_type }
{
    Meaning {
        kind: NameKind::Type,
        place: NamePlace::Other,
    }
}

/// What a name before the dot of a call means.
pub fn before_call() -> Meaning
    ensures { result ≡ spec.before_call }
{
    Meaning {
        kind: NameKind::Ambiguous,
        place: NamePlace::Receiver,
    }
}

fn refers_to_type(class: Option<u32>) -> Refers
    ensures { result ≡ spec.refers_to_type class }
{
    match class {
        Some(row) => Refers::To(Referent::Declared { row, level: None }),
        None => Refers::ToPart,
    }
}

fn refers_by(said: Option<Referent>, class: Option<u32>) -> Refers
    ensures { result ≡ spec.refers_by said class }
{
    match said {
        Some(found) => Refers::To(found),
        None => refers_to_type(class),
    }
}

fn is_more(names: &[u32]) -> bool
    ensures { result ≡ spec.is_more names.now }
{
    match names {
        [] => false,
        [_, ..] => true,
    }
}

fn said(found: &[Referent], number: usize) -> Option<Referent>
    ensures { result ≡ slice_get found.now number }
{
    found.get(number).copied()
}

// The last identifier of a name, behind which those of `before` are left.
fn identifier(
    of: u32,
    meaning: Meaning,
    found: &[Referent],
    class: Option<u32>,
    name: u32,
    before: &[u32],
    over: Option<usize>,
    stop: usize,
) -> Item
    ensures { result ≡ spec.identifier of meaning (slice_get found.now (length before.now)) class name (spec.is_more before.now) over stop }
{
    Item {
        of,
        form: Form::Name {
            kind: meaning.kind,
            place: meaning.place,
            is_qualified: is_more(before),
        },
        name: Some(name),
        over,
        end: Some(stop),
        refers: refers_by(said(found, before.len()), class),
    }
}

// The identifiers of a name from the last one back, which end at this number.
#[tactic(auto, using(crate::proofs::Chains::chain_more, crate::proofs::Chains::chain_done))]
fn push_chain(
    items: &mut Vec<Item>,
    of: u32,
    first: Meaning,
    found: &[Referent],
    first_class: Option<u32>,
    names: &[u32],
    first_over: Option<usize>,
    stop: usize,
) -> Result<(), OutOfMemory>
    ensures { OnOk result (items.new.items ≡ items.old.items ++ spec.chain of first found.now first_class names.now first_over (length items.old.items) stop) }
{
    let mut meaning = first;
    let mut class = first_class;
    let mut over = first_over;
    let mut rest = names;
    while let Some((name, after)) = rest.split_first() {
        let at = items.len();
        items.push(identifier(of, meaning, found, class, *name, after, over, stop))?;
        meaning = left(meaning);
        class = None;
        over = Some(at);
        rest = after;
    }
    Ok(())
}

/// A name that is written: the rows whose identifiers it has, from the last one back.
#[derive(Clone, Copy)]
pub struct WrittenName<'a> {
    /// What the identifiers refer to, as far as that is known.
    pub found: &'a [Referent],
    /// The class that the name stands for; without it the last identifier is a part like the others.
    pub class: Option<u32>,
    pub names: &'a [u32],
}

/// No name.
pub const NO_NAME: WrittenName<'static> = WrittenName {
    found: &[],
    class: None,
    names: &[],
};

/// A name as a whole.
pub fn push_name(
    items: &mut Vec<Item>,
    of: u32,
    meaning: Meaning,
    name: &WrittenName,
    over: Option<usize>,
) -> Result<(), OutOfMemory>
    ensures { OnOk result (items.new.items ≡ items.old.items ++ spec.name_items of meaning name.now.found.now name.now.class name.now.names.now over (length items.old.items)) }
{
    let stop = ahead(items.len(), name.names.len())?;
    let (found, class, names) = (name.found, name.class, name.names);
    push_chain(items, of, meaning, found, class, names, over, stop)
}

// A row, and the name of a type below it.
#[tactic(auto, using(crate::proofs::Chains::named_then))]
fn push_named(
    items: &mut Vec<Item>,
    of: u32,
    form: Form,
    name: &WrittenName,
    over: Option<usize>,
) -> Result<(), OutOfMemory>
    ensures { OnOk result (items.new.items ≡ items.old.items ++ spec.named_items of form name.now.found.now name.now.class name.now.names.now over (length items.old.items)) }
{
    let at = items.len();
    let end = ahead(ahead(at, 1)?, name.names.len())?;
    items.push(bare(of, form, over, Some(end)))?;
    push_name(items, of, of_type(), name, Some(at))
}

/// A cast, up to what is cast. What is cast ends at `stop`, or where its old row does.
#[tactic(auto, using(crate::proofs::Chains::cast_then))]
pub fn push_cast(
    items: &mut Vec<Item>,
    of: u32,
    primitive: Option<Primitive>,
    dims: usize,
    name: &WrittenName,
    over: Option<usize>,
    stop: Option<usize>,
) -> Result<(), OutOfMemory>
    ensures { OnOk result (items.new.items ≡ items.old.items ++ spec.cast_items of primitive dims name.now.found.now name.now.class name.now.names.now over stop (length items.old.items)) }
{
    let at = items.len();
    items.push(bare(of, Form::Cast, over, stop))?;
    let form = Form::TypeUse { primitive, dims };
    push_named(items, of, form, name, Some(at))
}

/// Parentheses, and a cast to a class in them.
#[tactic(auto, using(crate::proofs::Chains::enclosed_then))]
pub fn push_enclosed_cast(
    items: &mut Vec<Item>,
    of: u32,
    name: &WrittenName,
    over: Option<usize>,
    stop: Option<usize>,
) -> Result<(), OutOfMemory>
    ensures { OnOk result (items.new.items ≡ items.old.items ++ spec.enclosed_cast of name.now.found.now name.now.class name.now.names.now over stop (length items.old.items)) }
{
    let at = items.len();
    items.push(bare(of, Form::Paren, over, stop))?;
    push_cast(items, of, None, 0, name, Some(at), stop)
}

/// `this`, or `T.this` by the names of T.
pub fn push_this(
    items: &mut Vec<Item>,
    of: u32,
    name: &WrittenName,
    over: Option<usize>,
) -> Result<(), OutOfMemory>
    ensures { OnOk result (items.new.items ≡ items.old.items ++ spec.this_items of name.now.found.now name.now.class name.now.names.now over (length items.old.items)) }
{
    let form = Form::This {
        is_qualified: is_more(name.names),
    };
    push_named(items, of, form, name, over)
}

/// `((S)this)` or `((S)T.this)`.
#[tactic(auto, using(crate::proofs::Chains::this_then))]
pub fn push_cast_this(
    items: &mut Vec<Item>,
    of: u32,
    name: &WrittenName,
    outer: &WrittenName,
    over: Option<usize>,
) -> Result<(), OutOfMemory>
    ensures { OnOk result (items.new.items ≡ items.old.items ++ spec.cast_this of name.now.found.now name.now.class name.now.names.now outer.now.found.now outer.now.class outer.now.names.now over (length items.old.items)) }
{
    let at = items.len();
    let stop = ahead(ahead(ahead(at, 4)?, name.names.len())?, outer.names.len())?;
    push_enclosed_cast(items, of, name, over, Some(stop))?;
    let cast = ahead(at, 1)?;
    push_this(items, of, outer, Some(cast))
}

/// The parentheses round a row that is no atom, in a cast. It gives the number of what the row then stands in.
pub fn push_parens(
    items: &mut Vec<Item>,
    rows: &[Row],
    row: u32,
    cast: usize,
) -> Result<Option<usize>, OutOfMemory>
    ensures items { OnOk result (items.new.items ≡ items.old.items ++ spec.parens rows.now row cast) }
    ensures over { IfOk result (λ over. over ≡ spec.parens_over rows.now row cast (length items.old.items)) }
{
    if is_atom(rows, row) {
        return Ok(Some(cast));
    }
    let at = items.len();
    items.push(bare(row, Form::Paren, Some(cast), None))?;
    Ok(Some(at))
}
