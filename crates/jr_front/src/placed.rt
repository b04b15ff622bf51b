// Whether units stand where their packages and public types say (JLS 7.2.1, 7.6).
ghost use Rattle.std.specs.Prelude.{◌≡◌, ◌++◌, ◌↔◌, ℕ, List, Contains, codes, Decides, IfSome, None, MatchOption};
ghost use Rattle.jr_tree.specs.declared.tree.Modifier.TheVariants.{Public};
ghost use Rattle.jr_tree.specs.Mirror.Decls.{plain_decl, plain_decls};
ghost use Rattle.jr_defs.specs.Program.{folder, package_path, HasFileName, HaveFileName, IsUnitPlaced, AllPlaced, IsWellPlaced};
ghost use Rattle.jr_front.specs.Placed.{IsFileName, IsFirstMisplaced, IsFirstMisplacedOf};

use jr_base::{CuId, Text};
use jr_defs::{Program, UnitAt};
use jr_tree::{Modifier, TypeDecl, Unit};

// The parts of the name of a unit's package.
fn package_parts(unit: &Unit) -> &[Text]
    ensures { result.now ≡ package_path unit.now.package }
{
    match &unit.package {
        Some(package) => package.name.parts.as_slice(),
        None => &[],
    }
}

// What of the path is behind one folder.
fn behind_part<'a>(path: &'a [u8], part: &[u8]) -> Option<&'a [u8]>
    ensures { MatchOption result ((rest : List ℕ) → path.now ≡ part.now ++ (codes "/" ++ rest) → ⊥) (λ rest. path.now ≡ part.now ++ (codes "/" ++ rest.now)) }
{
    let behind = path.strip_prefix(part)?;
    behind.strip_prefix(b"/")
}

// What of the path is behind the folder of the package.
fn behind_folder<'a>(path: &'a [u8], parts: &[Text]) -> Option<&'a [u8]>
    ensures { MatchOption result ((rest : List ℕ) → path.now ≡ folder parts.now ++ rest → ⊥) (λ rest. path.now ≡ folder parts.now ++ rest.now) }
{
    let mut rest = path;
    for part in parts {
        rest = behind_part(rest, part.bytes())?;
    }
    Some(rest)
}

// The name of a file that is no path.
fn file_name(rest: &[u8]) -> Option<&[u8]>
    ensures { MatchOption result ((file : List ℕ) → IsFileName rest.now file → ⊥) (λ file. IsFileName rest.now file.now) }
{
    let file = rest.strip_suffix(b".java")?;
    if file.contains(&b'/') {
        return None;
    }
    Some(file)
}

// A public type has the name of its file.
fn is_named_so(mods: &[Modifier], name: &[u8], file: &[u8]) -> bool
    ensures { Decides result (Contains mods.now Public → name.now ≡ file.now) }
{
    !mods.contains(&Modifier::Public) || name == file
}

// A public type has the name of its file.
fn has_file_name(declared: &TypeDecl, file: &[u8]) -> bool
    ensures { Decides result (HasFileName file.now (plain_decl declared.now)) }
{
    match declared {
        TypeDecl::Class { mods, name, .. } => is_named_so(mods.as_slice(), name.bytes(), file),
        TypeDecl::Interface { mods, name, .. } => {
            is_named_so(mods.as_slice(), name.bytes(), file)
        }
        TypeDecl::Empty => true,
    }
}

// Each public type has the name of the file.
fn have_file_name(types: &[TypeDecl], file: &[u8]) -> bool
    ensures { Decides result (HaveFileName file.now (plain_decls types.now)) }
{
    for declared in types {
        if !has_file_name(declared, file) {
            return false;
        }
    }
    true
}

// Whether the unit stands at its place.
fn is_placed(placed: &UnitAt) -> bool
    ensures { Decides result (IsUnitPlaced placed.now) }
{
    let unit = &placed.unit;
    let Some(rest) = behind_folder(placed.path.bytes(), package_parts(unit)) else {
        return false;
    };
    let Some(file) = file_name(rest) else {
        return false;
    };
    have_file_name(unit.types.as_slice(), file)
}

// Of these units, which begin with this number, the first that does not stand at its place.
fn first_misplaced_of(units: &[UnitAt], from: u32) -> Option<CuId>
    ensures placed { result ≡ None ↔ AllPlaced units.now }
    ensures first { IfSome result (IsFirstMisplaced from units.now) }
{
    let mut number = from;
    for placed in units {
        if !is_placed(placed) {
            return Some(CuId(number));
        }
        number = number.saturating_add(1);
    }
    None
}

/// The first unit behind the two of the prelude that does not stand at its place (JLS 7.2.1, 7.6); where the prelude is not there, the number of the first unit that lacks.
pub fn first_misplaced(program: &Program) -> Option<CuId>
    ensures placed { result ≡ None ↔ IsWellPlaced program.now }
    ensures first { IfSome result (IsFirstMisplacedOf program.now.units) }
{
    let Some((_, behind)) = program.units.as_slice().split_first() else {
        return Some(CuId(0));
    };
    match behind.split_first() {
        Some((_, units)) => first_misplaced_of(units, 2),
        None => Some(CuId(1)),
    }
}
