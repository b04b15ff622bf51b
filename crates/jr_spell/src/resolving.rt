// What identifiers with dots between them refer to, with all that stands before the last one (JLS 6.5).
ghost use Rattle.std.specs.Prelude.{◌≡◌, ◌<◌, if◌then◌else◌, Some, None, IfOk, length};
ghost use Rattle.jr_plain.specs.Declarations.{is_type};
ghost use Rattle.jr_tree.specs.Rows.{name as name_of};
ghost use Rattle.jr_spelling_rules.specs.Naming as naming;
ghost use Rattle.jr_spell.specs.Packaging as packaging;
ghost use Rattle.jr_spell.specs.Spellers as tell;
ghost use Rattle.jr_spell.specs.Standing as standing;

use crate::speller::Speller;
use jr_base::OutOfMemory;
use jr_defs::Referent;
use jr_places::is_type;
use jr_tree::NameKind;
use std::alloc::Global;

/// What stands before an identifier.
#[derive(Clone, Copy, Debug, PartialEq, Eq)]
pub enum Before {
    Nothing,
    /// A package, by a row that spells its name, if a unit's begins so.
    Package(Option<u32>),
    OfType(u32),
}

/// What the identifiers before the last one refer to: packages and types alone.
#[derive(Drop)]
pub struct Qualifiers {
    pub last: Before,
    pub trace: Vec<Referent>,
}

/// What an identifier refers to, and those before it.
#[derive(Drop)]
pub struct Resolved {
    pub found: Referent,
    pub trace: Vec<Referent>,
}

/// The kind of an identifier before one of this kind (JLS 6.5.1).
pub fn kind_before(kind: NameKind) -> NameKind
    ensures { result ≡ naming.kind_before kind }
{
    match kind {
        NameKind::Variable => NameKind::Ambiguous,
        NameKind::Ambiguous => NameKind::Ambiguous,
        NameKind::Type => NameKind::PackageOrType,
        NameKind::PackageOrType => NameKind::PackageOrType,
        NameKind::Package => NameKind::Package,
    }
}

impl<'a> Speller<'a> {
    // The package of this name behind what stands before it.
    fn package_behind(&self, before: Before, name: u32) -> Option<Before>
        ensures { (b : naming.Before) → tell.IsWholeSpeller self.now → standing.StandsFor self.now before b → packaging.IsNumber (tell.rows_of self.now) name → standing.BothStand self.now result (naming.package_behind b (name_of (tell.rows_of self.now) name)) }
    {
        let paths = self.paths;
        match before {
            Before::Nothing => Some(Before::Package(paths.first(name))),
            Before::Package(number) => Some(Before::Package(paths.inside(number, name))),
            Before::OfType(_) => None,
        }
    }

    // What stands before the next identifier, where this one is a package or type.
    fn next(&self, before: Before, name: u32, found: Referent) -> Option<Before>
        ensures { (b : naming.Before) → tell.IsWholeSpeller self.now → standing.StandsFor self.now before b → packaging.IsNumber (tell.rows_of self.now) name → standing.BothStand self.now result (naming.next (tell.rows_of self.now) b (name_of (tell.rows_of self.now) name) found) }
    {
        match found {
            Referent::Package => self.package_behind(before, name),
            Referent::Declared { row, .. } => self.in_type(row),
            _ => None,
        }
    }

    // The type, if it is one.
    fn in_type(&self, row: u32) -> Option<Before>
        ensures { standing.BothStand self.now result (if is_type (tell.rows_of self.now) row then Some (naming.in_type row) else None) }
    {
        if is_type(self.rows(), row) {
            Some(Before::OfType(row))
        } else {
            None
        }
    }

    /// What identifiers before the last one refer to, from the first one on, where all are packages and types.
    pub fn qualifiers(
        &self,
        alloc: Global,
        place: u32,
        kind: NameKind,
        names: &[u32],
    ) -> Result<Option<Qualifiers>, OutOfMemory>
        ensures { tell.IsWholeSpeller self.now → packaging.AreNumbers (tell.rows_of self.now) names.now → place < length (tell.rows_of self.now) → IfOk result (λ o. standing.AreQualified self.now o (naming.qualify (tell.rows_of self.now) (tell.table_of self.now) place kind naming.at_start (standing.texts_of (tell.rows_of self.now) names.now))) }
    {
        let mut trace = Vec::new(alloc);
        let mut last = Before::Nothing;
        for name in names {
            let found = self.look_up(alloc, place, last, kind, *name)?;
            match self.next(last, *name, found) {
                Some(next) => last = next,
                None => return Ok(None),
            }
            trace.push(found)?;
        }
        Ok(Some(Qualifiers { last, trace }))
    }

    /// What the last of some identifiers refers to.
    pub fn resolve(
        &self,
        alloc: Global,
        place: u32,
        kind: NameKind,
        names: &[u32],
        name: u32,
    ) -> Result<Option<Resolved>, OutOfMemory>
        ensures { tell.IsWholeSpeller self.now → packaging.AreNumbers (tell.rows_of self.now) names.now → packaging.IsNumber (tell.rows_of self.now) name → place < length (tell.rows_of self.now) → IfOk result (λ o. standing.AreResolved self.now place kind names.now name o) }
    {
        let before = kind_before(kind);
        let led = self.qualifiers(alloc, place, before, names)?;
        match led {
            Some(Qualifiers { last, trace }) => {
                let found = self.look_up(alloc, place, last, kind, name)?;
                Ok(Some(Resolved { found, trace }))
            }
            None => Ok(None),
        }
    }
}
