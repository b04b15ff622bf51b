// Modifiers that are repeated or not allowed (JLS 8.1.1, 8.3.1, 8.4.3, 8.5.1, 8.8.3, 9.1.1, 9.3, 9.4, 9.5).
ghost use Rattle.std.specs.Prelude.{◌≡◌, ℕ, Decides, IfOk, OnOk, [], drop, length};
ghost use Rattle.jr_tree.specs.Decls.{modifiers_of, with_modifier};
ghost use Rattle.jr_tree.specs.Rows as all_rows;
ghost use Rattle.jr_rule.specs.Faults.{AreFaultsOf};
ghost use Rattle.jr_rule.specs.declared.Rule.TheVariants as rule;
ghost use Rattle.jr_faults.specs.Added.{AreOnly, is_rule};
ghost use Rattle.jr_marks.specs.Places.{IsOrdered, tokens_of};
ghost use Rattle.jr_marks.specs.declared.marks.Marks as marks;
ghost use Rattle.jr_front.specs.Modifiers as tell;

use jr_base::{Keyword, Kind, OutOfMemory, Token};
use jr_faults::rule_if;
use jr_marks::Marks;
use jr_places::{
    is_class, is_in_interface, is_method, is_top_level, is_type, parent_at, role_at, written_at,
};
use jr_rule::{Fault, Rule};
use jr_tree::{Modifier, Modifiers, Role, Row};

const UNMODIFIED: Modifiers = Modifiers {
    is_public: false,
    is_protected: false,
    is_private: false,
    is_abstract: false,
    is_static: false,
    is_final: false,
    is_native: false,
};

// Types, fields, methods and constructors are declared with modifiers.
fn has_modifiers(role: Role) -> bool
    ensures { result ≡ tell.has_modifiers role }
{
    match role {
        Role::Type => true,
        Role::Field => true,
        Role::Method => true,
        Role::Constructor => true,
        _ => false,
    }
}

// It stands neither outside all types nor in an interface.
fn is_of_class(rows: &[Row], at: u32) -> bool
    ensures { result ≡ tell.is_of_class rows.now at }
{
    !is_top_level(rows, at) && !is_in_interface(rows, at)
}

fn is_method_of_class(rows: &[Row], at: u32) -> bool
    ensures { result ≡ tell.is_method_of_class rows.now at }
{
    is_method(rows, at) && !is_in_interface(rows, at)
}

fn is_field(rows: &[Row], at: u32) -> bool
    ensures { result ≡ tell.is_field rows.now at }
{
    match role_at(rows, at) {
        Role::Field => true,
        _ => false,
    }
}

// Types and methods may be abstract.
fn may_be_abstract(rows: &[Row], at: u32) -> bool
    ensures { result ≡ tell.may_be_abstract rows.now at }
{
    is_type(rows, at) || is_method(rows, at)
}

// Member types, fields, and methods of classes may be static.
fn may_be_static(rows: &[Row], at: u32) -> bool
    ensures { result ≡ tell.may_be_static rows.now at }
{
    (is_type(rows, at) && !is_top_level(rows, at))
        || is_field(rows, at)
        || is_method_of_class(rows, at)
}

// Classes, fields, and methods of classes may be final.
fn may_be_final(rows: &[Row], at: u32) -> bool
    ensures { result ≡ tell.may_be_final rows.now at }
{
    is_class(rows, at) || is_field(rows, at) || is_method_of_class(rows, at)
}

// A modifier that the declaration may not have.
fn has_forbidden(rows: &[Row], at: u32, all: Modifiers) -> bool
    ensures { result ≡ tell.has_forbidden rows.now at all }
{
    ((all.is_protected || all.is_private) && !is_of_class(rows, at))
        || (all.is_abstract && !may_be_abstract(rows, at))
        || (all.is_static && !may_be_static(rows, at))
        || (all.is_final && !may_be_final(rows, at))
        || (all.is_native && !is_method_of_class(rows, at))
}

fn has_two_accesses(all: Modifiers) -> bool
    ensures { result ≡ tell.has_two_accesses all }
{
    (all.is_public && (all.is_protected || all.is_private)) || (all.is_protected && all.is_private)
}

// Two modifiers that exclude each other.
fn has_excluded(rows: &[Row], at: u32, all: Modifiers) -> bool
    ensures { result ≡ tell.has_excluded rows.now at all }
{
    has_two_accesses(all)
        || (all.is_abstract
            && (all.is_final
                || (is_method(rows, at) && (all.is_private || all.is_static || all.is_native))))
}

fn has_wrong_modifier(rows: &[Row], at: u32) -> bool
    ensures { result ≡ tell.has_wrong_modifier rows.now at }
{
    let all = written_at(rows, at);
    has_forbidden(rows, at, all) || has_excluded(rows, at, all)
}

fn modifier_in(kind: &Kind) -> Option<Modifier>
    ensures { result ≡ tell.modifier_in kind.now }
{
    match kind {
        Kind::Word(word) => match word {
            Keyword::Public => Some(Modifier::Public),
            Keyword::Protected => Some(Modifier::Protected),
            Keyword::Private => Some(Modifier::Private),
            Keyword::Abstract => Some(Modifier::Abstract),
            Keyword::Static => Some(Modifier::Static),
            Keyword::Final => Some(Modifier::Final),
            Keyword::Native => Some(Modifier::Native),
            _ => None,
        },
        _ => None,
    }
}

fn has_modifier(all: Modifiers, one: Modifier) -> bool
    ensures { result ≡ tell.has_modifier all one }
{
    match one {
        Modifier::Public => all.is_public,
        Modifier::Protected => all.is_protected,
        Modifier::Private => all.is_private,
        Modifier::Abstract => all.is_abstract,
        Modifier::Static => all.is_static,
        Modifier::Final => all.is_final,
        Modifier::Native => all.is_native,
    }
}

fn with_modifier(all: Modifiers, one: Modifier) -> Modifiers
    ensures { result ≡ with_modifier one all }
{
    let mut more = all;
    match one {
        Modifier::Public => more.is_public = true,
        Modifier::Protected => more.is_protected = true,
        Modifier::Private => more.is_private = true,
        Modifier::Abstract => more.is_abstract = true,
        Modifier::Static => more.is_static = true,
        Modifier::Final => more.is_final = true,
        Modifier::Native => more.is_native = true,
    }
    more
}

// One of the modifiers from a token on stands twice.
fn repeats(tokens: &[Token], first: usize) -> bool
    ensures { result ≡ tell.repeats (modifiers_of []) (tell.leading (drop first tokens.now)) }
{
    let mut seen = UNMODIFIED;
    for at in first..tokens.len() {
        let Some(one) = modifier_in(&tokens[at].kind) else {
            return false;
        };
        if has_modifier(seen, one) {
            return true;
        }
        seen = with_modifier(seen, one);
    }
    false
}

// The row that begins with the modifiers of a declaration: of a field that of all fields that are declared with it.
fn first_row(rows: &[Row], at: u32) -> u32
    ensures { result ≡ tell.first_row (all_rows.role_at rows.now at) rows.now at }
{
    match role_at(rows, at) {
        Role::Field => parent_at(rows, at),
        _ => at,
    }
}

fn tokens_in<'p>(marks: &Marks<'p>, unit: u32) -> &'p [Token]
    ensures { result.now ≡ tokens_of marks.now unit }
{
    match marks.units.get(unit as usize) {
        Some(placed) => placed.tokens.as_slice(),
        None => &[],
    }
}

// A modifier stands twice before a declaration.
fn repeats_modifier(marks: &Marks, at: u32) -> bool
    ensures { IsOrdered marks.now → result ≡ tell.repeats_modifier marks.now at }
{
    let first = marks.mark(first_row(marks.rows, at)).first;
    repeats(tokens_in(marks, marks.unit_of(at)), first as usize)
}

// The modifiers of a declaration are repeated, or are none that it may have.
fn breaks_modifiers(marks: &Marks, at: u32) -> bool
    ensures { IsOrdered marks.now → result ≡ tell.breaks_modifiers marks.now at }
{
    has_modifiers(role_at(marks.rows, at))
        && (has_wrong_modifier(marks.rows, at) || repeats_modifier(marks, at))
}

fn row_count(rows: &[Row]) -> Result<u32, OutOfMemory>
    ensures { IfOk result (λ count. count ≡ length rows.now) }
{
    let Ok(count) = u32::try_from(rows.len()) else {
        return Err(OutOfMemory);
    };
    Ok(count)
}

/// Pushes the declarations whose modifiers are repeated or not allowed (JLS 8.1.1, 8.3.1, 8.4.3, 8.5.1, 8.8.3, 9.1.1, 9.3, 9.4, 9.5).
pub fn modifier_faults(marks: &Marks, out: &mut Vec<Fault>) -> Result<(), OutOfMemory>
    ensures found { IsOrdered marks.now → OnOk result (AreFaultsOf rule.Modifiers (tell.modifier_rows marks.now) out.old.items out.new.items) }
    ensures others { OnOk result (AreOnly (is_rule rule.Modifiers) out.old.items out.new.items) }
{
    let count = row_count(marks.rows)?;
    for at in 0..count {
        rule_if(out, breaks_modifiers(marks, at), at, Rule::Modifiers)?;
    }
    Ok(())
}

/// The test of modifiers tells what the definition says.
pub fn modifiers_are_told()
    ensures { (m : marks.Marks) (d : ℕ) → Decides (tell.breaks_modifiers m d) (tell.BreaksModifiers m d) }
{}
