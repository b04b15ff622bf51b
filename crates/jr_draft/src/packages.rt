// Packages of units, and their names as bytes.
ghost use Rattle.std.specs.Prelude.{◌≡◌, ◌↔◌, ◌<◌, ◌+◌, ◌^◌, ◌++◌, codes, map, IsTrue, IfOk, IfSome, OnOk, length};
ghost use Rattle.jr_tree.specs.Rows.{label};
ghost use Rattle.jr_draft.specs.Packages as packages;

use jr_base::{OutOfMemory, Path, is_identifier};
use jr_places::{end_at, name_at, parent_at};
use jr_tree::{Label, Row};
use std::alloc::Global;

/// What stands in a unit before its types, by rows.
#[derive(Clone, Copy)]
pub struct Head {
    pub unit: u32,
    /// The package declaration.
    pub declared: Option<u32>,
    /// The first row that is not of the package declaration.
    pub imports: u32,
    /// The first row that is not of the imports.
    pub types: u32,
}

fn is_package(rows: &[Row], at: u32) -> bool
    ensures { result ≡ packages.is_package (label rows.now at) }
{
    match rows.get(at as usize) {
        Some(row) => match row.label {
            Label::Package => true,
            _ => false,
        },
        None => false,
    }
}

/// The row is an import (JLS 7.5).
pub fn is_import(rows: &[Row], at: u32) -> bool
    ensures { result ≡ packages.is_import (label rows.now at) }
{
    match rows.get(at as usize) {
        Some(row) => match row.label {
            Label::Import { .. } => true,
            _ => false,
        },
        None => false,
    }
}

// The package declaration, if it is this row.
#[tactic(auto, using(crate::proofs::Building::package_within))]
fn package_at(rows: &[Row], first: u32) -> Option<u32>
    ensures is { result ≡ packages.package_at rows.now first }
    ensures within { IfSome result (λ row. row < length rows.now) }
{
    if is_package(rows, first) {
        Some(first)
    } else {
        None
    }
}

// The first row behind the package declaration, if it is this row.
#[tactic(auto, using(crate::proofs::Building::package_within))]
fn behind_package(rows: &[Row], first: u32) -> u32
    ensures { length rows.now < 2 ^ 32 → result ≡ packages.behind_package rows.now first }
{
    if is_package(rows, first) {
        end_at(rows, first)
    } else {
        first
    }
}

// The row stands right below the unit, and is no import.
fn is_no_import(rows: &[Row], unit: u32, at: u32) -> bool
    ensures { result ≡ packages.is_no_import rows.now unit at }
{
    parent_at(rows, at) == unit && !is_import(rows, at)
}

// The first row behind the imports of a unit, which begin here.
fn behind_imports(rows: &[Row], unit: u32, first: u32) -> u32
    ensures { unit + 1 < 2 ^ 32 → result ≡ packages.behind_imports rows.now unit first }
{
    let end = end_at(rows, unit);
    for at in first..end {
        if is_no_import(rows, unit, at) {
            return at;
        }
    }
    end
}

/// What stands in a unit before its types.
pub fn head_of(rows: &[Row], unit: u32) -> Head
    ensures is { length rows.now < 2 ^ 32 → unit < length rows.now → result ≡ packages.head_of rows.now unit }
    ensures declared { length rows.now < 2 ^ 32 → IfSome result.declared (λ row. row + 1 < 2 ^ 32) }
{
    let first = unit.saturating_add(1);
    let imports = behind_package(rows, first);
    Head {
        unit,
        declared: package_at(rows, first),
        imports,
        types: behind_imports(rows, unit, imports),
    }
}

fn add_dot(all: &mut Vec<u8>, before: u32) -> Result<(), OutOfMemory>
    ensures { OnOk result (all.new.items ≡ all.old.items ++ packages.dot_before before) }
{
    if before > 0 {
        all.push(b'.')?;
    }
    Ok(())
}

// Adds the first identifiers of a name with dots between them, so many of them, where the last row is the first identifier.
fn add_dotted(all: &mut Vec<u8>, rows: &[Row], behind: u32, count: u32) -> Result<(), OutOfMemory>
    ensures { OnOk result (all.new.items ≡ all.old.items ++ packages.dotted rows.now behind count) }
{
    for before in 0..count {
        add_dot(all, before)?;
        let at = behind.saturating_sub(before).saturating_sub(1);
        all.extend_from_slice(name_at(rows, at))?;
    }
    Ok(())
}

/// The name in a package declaration, or in an import that is not static, as its identifiers with dots between them (JLS 6.2).
pub fn name_below(alloc: Global, rows: &[Row], over: u32) -> Result<Vec<u8>, OutOfMemory>
    ensures { IfOk result (λ name. over + 1 < 2 ^ 32 → name.items ≡ packages.name_below rows.now over) }
{
    let mut all = Vec::new(alloc);
    let end = end_at(rows, over);
    add_dotted(
        &mut all,
        rows,
        end,
        end.saturating_sub(over).saturating_sub(1),
    )?;
    Ok(all)
}

/// The name that a package declaration declares; nothing for the unnamed package.
pub fn name_of_package(
    alloc: Global,
    rows: &[Row],
    declared: Option<u32>,
) -> Result<Vec<u8>, OutOfMemory>
    ensures { IfOk result (λ name. IfSome declared (λ row. row + 1 < 2 ^ 32) → name.items ≡ packages.name_of_package rows.now declared) }
{
    match declared {
        Some(row) => name_below(alloc, rows, row),
        None => Ok(Vec::new(alloc)),
    }
}

/// The bytes are identifiers with dots between them (JLS 6.2).
pub fn is_package_name(word: &[u8]) -> bool
    ensures { IsTrue result ↔ packages.IsPackageName word.now }
{
    word.split(|byte| *byte == b'.')
        .all(|name| is_identifier(name))
}

/// The package that a word of a request names, as its bytes; none for the unnamed package. There is no answer where the word names none.
pub fn package_named(word: &[u8]) -> Option<&[u8]> {
    if word == b"-".as_slice() {
        return Some(&[]);
    }
    if is_package_name(word) {
        Some(word)
    } else {
        None
    }
}

fn is_dot(byte: u8) -> bool
    ensures { result ≡ packages.is_dot byte }
{
    byte == b'.'
}

/// How many rows the name of a package has: one for each identifier.
pub fn count_identifiers(named: &[u8]) -> u32
    ensures { result ≡ packages.count_identifiers named.now }
{
    let mut count = 1u32;
    for byte in named {
        if is_dot(*byte) {
            count = count.saturating_add(1);
        }
    }
    count
}

fn slash_for_dot(byte: u8) -> u8
    ensures { result ≡ packages.slash_for_dot byte }
{
    if is_dot(byte) { b'/' } else { byte }
}

// The bytes of a package with `/` in place of the dots.
fn slashed(alloc: Global, named: &[u8]) -> Result<Vec<u8>, OutOfMemory>
    ensures { IfOk result (λ all. all.items ≡ map packages.slash_for_dot named.now) }
{
    let mut all = Vec::new(alloc);
    for byte in named {
        all.push(slash_for_dot(*byte))?;
    }
    Ok(all)
}

/// The folder of a package, with `/` behind each identifier.
#[tactic(auto, using(crate::proofs::Building::folder_some, crate::proofs::Building::folder_none))]
pub fn folder_of_package(alloc: Global, named: &[u8]) -> Result<Vec<u8>, OutOfMemory>
    ensures { IfOk result (λ folder. folder.items ≡ packages.folder_of_package named.now) }
{
    let mut all = slashed(alloc, named)?;
    if !named.is_empty() {
        all.push(b'/')?;
    }
    Ok(all)
}

/// The declaration of a package and LF; nothing for the unnamed package.
#[tactic(auto, using(crate::proofs::Building::declaration_some, crate::proofs::Building::declaration_none))]
pub fn declaration_of(alloc: Global, named: &[u8]) -> Result<Vec<u8>, OutOfMemory>
    ensures { IfOk result (λ declaration. declaration.items ≡ packages.declaration_of named.now) }
{
    let mut all = Vec::new(alloc);
    if named.is_empty() {
        return Ok(all);
    }
    all.extend_from_slice(b"package ")?;
    all.extend_from_slice(named)?;
    all.extend_from_slice(b";\n")?;
    Ok(all)
}

/// What stands behind the last of these bytes: all where there is none.
pub fn behind_last(bytes: &[u8], mark: u8) -> &[u8]
    ensures { result.now ≡ packages.behind_last bytes.now mark }
{
    let mut behind = bytes;
    let mut rest = bytes;
    while let Some((first, after)) = rest.split_first() {
        if *first == mark {
            behind = after;
        }
        rest = after;
    }
    behind
}

/// The path of a file in a folder that is given with its `/`.
pub fn path_below(alloc: Global, folder: &[u8], file: &[u8]) -> Result<Path, OutOfMemory>
    ensures { IfOk result (λ path. path ≡ folder.now ++ file.now) }
{
    let mut bytes = Vec::new(alloc);
    bytes.extend_from_slice(folder)?;
    bytes.extend_from_slice(file)?;
    match Path::parse(alloc, &bytes) {
        Ok(path) => Ok(path),
        Err(_) => Err(OutOfMemory),
    }
}

/// The path of the file of a type in a folder that is given with its `/`.
pub fn path_in(alloc: Global, folder: &[u8], name: &[u8]) -> Result<Path, OutOfMemory>
    ensures { IfOk result (λ path. path ≡ folder.now ++ (name.now ++ codes ".java")) }
{
    let mut file = Vec::new(alloc);
    file.extend_from_slice(name)?;
    file.extend_from_slice(b".java")?;
    path_below(alloc, folder, &file)
}

/// The path of the file of a type of a package.
pub fn path_of_type(alloc: Global, named: &[u8], name: &[u8]) -> Result<Path, OutOfMemory>
    ensures { IfOk result (λ path. path ≡ packages.path_of_type named.now name.now) }
{
    let folder = folder_of_package(alloc, named)?;
    path_in(alloc, &folder, name)
}
