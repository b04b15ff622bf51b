// The report of a run.
ghost use Rattle.std.specs.Prelude.{◌≡◌, ◌+◌, ◌∷◌, ◌++◌, ◌^◌, ◌<◌, [], length, IfOk, OnOk};
ghost use Rattle.jr_tree.specs.declared.label.Role.TheVariants as role;
ghost use Rattle.jr_tree.specs.Rows as tree;
ghost use Rattle.jr_plain.specs.Same.{same_role};
ghost use Rattle.jr_codes.specs.Reads.{facts, rows_of};
ghost use Rattle.jr_run.specs.Names as names;
ghost use Rattle.jr_run.specs.Reports.{IsPlacedSource, end_text, member_name, member_text, report_text, type_text};
ghost use Rattle.jr_run.specs.Reports as tell;

use crate::names::add_canonical_name;
use crate::rows::row_count;
use crate::text::printed_lines;
use jr_base::{DeclId, OutOfMemory, Text};
use jr_codes::Source;
use jr_machine_defs::{Ran, RunEnd};
use jr_machine_ops::same_decl;
use jr_places::{declaring_type, name_at, role_at};
use jr_tree::{Role, Row};

fn is_nothing(rows: &[Row], at: u32) -> bool
    ensures { result ≡ same_role (tree.role_at rows.now at) role.Nothing }
{
    match role_at(rows, at) {
        Role::Nothing => true,
        _ => false,
    }
}

// The row declares something, by which a core knows it.
fn is_known_by(source: &Source, decl: DeclId, at: u32) -> bool
    ensures { result ≡ tell.is_known_by (rows_of source.now) (facts source.now).decl decl at }
{
    !is_nothing(source.rows(), at) && same_decl(source.decl(at), decl)
}

// The row of a declaration.
fn row_of(source: &Source, decl: DeclId) -> Option<u32>
    ensures { length (rows_of source.now) + 3 < 2 ^ 32 → result ≡ tell.row_of (rows_of source.now) (facts source.now).decl decl }
{
    let count = row_count(source.rows());
    for at in 0..count {
        if is_known_by(source, decl, at) {
            return Some(at);
        }
    }
    None
}

// Adds the canonical name of the type at a row.
fn add_name(source: &Source, text: &mut Vec<u8>, row: u32) -> Result<(), OutOfMemory>
    ensures { IsPlacedSource source.now → OnOk result (text.new.items ≡ text.old.items ++ names.canonical_name (rows_of source.now) row) }
{
    let under = source.under();
    add_canonical_name(source.alloc, under.rows, under.places, row, text)
}

// Adds the canonical name of a type.
fn add_type(source: &Source, text: &mut Vec<u8>, class: DeclId) -> Result<(), OutOfMemory>
    ensures { IsPlacedSource source.now → OnOk result (text.new.items ≡ text.old.items ++ type_text (rows_of source.now) (facts source.now).decl class) }
{
    match row_of(source, class) {
        Some(row) => add_name(source, text, row),
        None => Ok(()),
    }
}

// Adds the canonical name of the type that declares the member at a row.
fn add_declaring(source: &Source, text: &mut Vec<u8>, row: u32) -> Result<(), OutOfMemory>
    ensures { IsPlacedSource source.now → OnOk result (text.new.items ≡ text.old.items ++ tell.declaring_name (rows_of source.now) row) }
{
    match declaring_type(source.rows(), row) {
        Some(class) => add_name(source, text, class),
        None => Ok(()),
    }
}

// Adds a dot and the name at a row.
fn add_behind_dot(rows: &[Row], text: &mut Vec<u8>, row: u32) -> Result<(), OutOfMemory>
    ensures { OnOk result (text.new.items ≡ text.old.items ++ 46 ∷ tree.name rows.now row) }
{
    text.push(b'.')?;
    text.extend_from_slice(name_at(rows, row))?;
    Ok(())
}

// Adds the member at a row, behind the type that declares it.
fn add_member_name(source: &Source, text: &mut Vec<u8>, row: u32) -> Result<(), OutOfMemory>
    ensures { IsPlacedSource source.now → OnOk result (text.new.items ≡ text.old.items ++ member_name (rows_of source.now) row) }
{
    add_declaring(source, text, row)?;
    add_behind_dot(source.rows(), text, row)
}

// Adds a member, behind the type that declares it.
fn add_member(source: &Source, text: &mut Vec<u8>, member: DeclId) -> Result<(), OutOfMemory>
    ensures { IsPlacedSource source.now → OnOk result (text.new.items ≡ text.old.items ++ member_text (rows_of source.now) (facts source.now).decl member) }
{
    match row_of(source, member) {
        Some(row) => add_member_name(source, text, row),
        None => Ok(()),
    }
}

fn add_word(text: &mut Vec<u8>, word: &str) -> Result<(), OutOfMemory>
    ensures { OnOk result (text.new.items ≡ text.old.items ++ word.now) }
{
    text.extend_from_slice(word.as_bytes())?;
    Ok(())
}

// Adds a word, and the canonical name of a type behind it.
fn add_word_and_type(
    source: &Source,
    text: &mut Vec<u8>,
    word: &str,
    class: DeclId,
) -> Result<(), OutOfMemory>
    ensures { IsPlacedSource source.now → OnOk result (text.new.items ≡ text.old.items ++ (word.now ++ type_text (rows_of source.now) (facts source.now).decl class)) }
{
    add_word(text, word)?;
    add_type(source, text, class)
}

// Adds a word, and a member behind it.
fn add_word_and_member(
    source: &Source,
    text: &mut Vec<u8>,
    word: &str,
    member: DeclId,
) -> Result<(), OutOfMemory>
    ensures { IsPlacedSource source.now → OnOk result (text.new.items ≡ text.old.items ++ (word.now ++ member_text (rows_of source.now) (facts source.now).decl member)) }
{
    add_word(text, word)?;
    add_member(source, text, member)
}

// Adds how a run ended.
fn add_end(source: &Source, text: &mut Vec<u8>, end: RunEnd) -> Result<(), OutOfMemory>
    ensures { IsPlacedSource source.now → OnOk result (text.new.items ≡ text.old.items ++ end_text (rows_of source.now) (facts source.now).decl end) }
{
    match end {
        RunEnd::Running => add_word(text, "-- running"),
        RunEnd::Ended => add_word(text, "-- ended"),
        RunEnd::Uncaught(class) => add_word_and_type(source, text, "-- uncaught ", class.0),
        RunEnd::InitFailed(class) => add_word_and_type(source, text, "-- init failed ", class.0),
        RunEnd::Native(method) => add_word_and_member(source, text, "-- native ", method),
    }
}

// Adds how a run ended, and LF.
fn add_last_line(source: &Source, text: &mut Vec<u8>, end: RunEnd) -> Result<(), OutOfMemory>
    ensures { IsPlacedSource source.now → OnOk result (text.new.items ≡ text.old.items ++ (end_text (rows_of source.now) (facts source.now).decl end ++ 10 ∷ [])) }
{
    add_end(source, text, end)?;
    text.push(b'\n')?;
    Ok(())
}

/// What a run printed, and in a line of its own how it ended.
pub fn report(source: &Source, ran: &Ran) -> Result<Text, OutOfMemory>
    ensures { IfOk result (λ text. IsPlacedSource source.now → text ≡ report_text (rows_of source.now) (facts source.now).decl ran.now) }
{
    let mut text = printed_lines(source.alloc, ran.printed.units())?;
    add_last_line(source, &mut text, ran.end)?;
    Ok(Text::new(text))
}
