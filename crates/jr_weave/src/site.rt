// The places at which the spelling of a reference changes the text of its unit.
ghost use Rattle.std.specs.Prelude.{◌≡◌, ◌++◌, ◌-◌, IfOk, OnOk, Some, bytes_eq};
ghost use Rattle.jr_tree.specs.Rows.{label, name};
ghost use Rattle.jr_defs.specs.Referents.{entries};
ghost use Rattle.jr_shapes.specs.Arguments as arguments;
ghost use Rattle.jr_shapes.specs.Names.{package_names};
ghost use Rattle.jr_shapes.specs.Parts as shapes;
ghost use Rattle.jr_weave.specs.declared.piece.Wording.TheVariants as wordings;
ghost use Rattle.jr_weave.specs.Pieces as spec;

use crate::piece::{Piece, Wording};
use jr_base::{OutOfMemory, Span};
use jr_defs::Referent;
use jr_marks::Marks;
use jr_places::name_at;
use jr_shapes::{
    Shape, Spelling, Suffix, TypeName, argument_after, first_argument, has_own_identifier, is_atom,
    named_by, parts_of, push_package, receiver_of, referent_at, type_of,
};
use jr_tree::{Label, Row};
use std::alloc::Global;

/// The unit in which references stand, and what each row refers to.
#[derive(Clone, Copy)]
pub struct Site<'a> {
    pub alloc: Global,
    pub marks: &'a Marks<'a>,
    pub table: &'a [Referent],
    pub unit: u32,
}

fn empty_span(at: u32) -> Span
    ensures { result ≡ spec.empty at }
{
    Span { start: at, end: at }
}

fn push(all: &mut Vec<Piece>, unit: u32, span: Span, wording: Wording) -> Result<(), OutOfMemory>
    ensures { OnOk result (all.new.items ≡ all.old.items ++ spec.piece unit span wording) }
{
    all.push(Piece {
        unit,
        span,
        wording,
    })?;
    Ok(())
}

fn has_name_of(rows: &[Row], row: u32, other: u32) -> bool
    ensures { result ≡ bytes_eq (name rows.now row) (name rows.now other) }
{
    name_at(rows, row) == name_at(rows, other)
}

// The last of some rows; another row where there is none.
fn last_or(row: u32, rows: &[u32]) -> u32
    ensures { result ≡ spec.last_or row rows.now }
{
    match rows.get(rows.len().saturating_sub(1)) {
        Some(last) => *last,
        None => row,
    }
}

// The rows have the identifiers of the named rows, as many.
fn have_names(rows: &[Row], some: &[u32], names: &[u32]) -> bool
    ensures { result ≡ spec.have_names rows.now some.now names.now }
{
    let mut rest = some;
    let mut left = names;
    while let Some((row, after)) = rest.split_first() {
        let Some((name, others)) = left.split_first() else {
            return false;
        };
        if !has_name_of(rows, *row, *name) {
            return false;
        }
        rest = after;
        left = others;
    }
    left.is_empty()
}

fn is_super_select(label: &Label) -> bool
    ensures { result ≡ spec.is_super_select label.now }
{
    match label {
        Label::SuperSelect => true,
        _ => false,
    }
}

fn is_super_select_at(rows: &[Row], at: u32) -> bool
    ensures { result ≡ spec.is_super_select (label rows.now at) }
{
    match rows.get(at as usize) {
        Some(row) => is_super_select(&row.label),
        None => false,
    }
}

impl<'a> Site<'a> {
    fn rows(&self) -> &'a [Row]
        ensures { result.now ≡ self.now.marks.now.rows.now }
    {
        let marks = self.marks;
        marks.rows
    }

    // The place of a token of the unit; a token that is not there is no place for a spelling.
    fn token_of(&self, number: u32) -> Result<Span, OutOfMemory>
        ensures { IfOk result (λ span. span ≡ spec.token_of self.now.marks.now self.now.unit number) }
    {
        let marks = self.marks;
        let Some(unit) = marks.units.get(self.unit as usize) else {
            return Err(OutOfMemory);
        };
        match unit.tokens.as_slice().get(number as usize) {
            Some(token) => Ok(token.span),
            None => Err(OutOfMemory),
        }
    }

    fn own_of(&self, row: u32) -> Result<Span, OutOfMemory>
        ensures { IfOk result (λ span. span ≡ spec.own_of self.now.marks.now self.now.unit row) }
    {
        let marks = self.marks;
        self.token_of(marks.mark(row).own)
    }

    fn first_of(&self, row: u32) -> Result<Span, OutOfMemory>
        ensures { IfOk result (λ span. span ≡ spec.first_of self.now.marks.now self.now.unit row) }
    {
        let marks = self.marks;
        self.token_of(marks.mark(row).first)
    }

    fn last_of(&self, row: u32) -> Result<Span, OutOfMemory>
        ensures { IfOk result (λ span. span ≡ spec.last_of self.now.marks.now self.now.unit row) }
    {
        let marks = self.marks;
        self.token_of(marks.mark(row).after.saturating_sub(1))
    }

    // From the identifier of one row to that of another.
    fn between(&self, first: u32, last: u32) -> Result<Span, OutOfMemory>
        ensures { IfOk result (λ span. span ≡ spec.between self.now.marks.now self.now.unit first last) }
    {
        let start = self.own_of(first)?.start;
        let end = self.own_of(last)?.end;
        Ok(Span { start, end })
    }

    // The identifier of a row becomes that of another one, where they differ.
    #[tactic(auto, using(crate::proofs::Adding::adds_none))]
    fn push_identifier(&self, all: &mut Vec<Piece>, row: u32, other: u32) -> Result<(), OutOfMemory>
        ensures { OnOk result (all.new.items ≡ all.old.items ++ spec.identifier self.now.marks.now self.now.unit row other) }
    {
        if has_name_of(self.rows(), row, other) {
            return Ok(());
        }
        let span = self.own_of(row)?;
        push(all, self.unit, span, Wording::Identifier(other))
    }

    #[tactic(auto, using(crate::proofs::Adding::adds_none))]
    fn push_package_of(
        &self,
        all: &mut Vec<Piece>,
        class: u32,
        some: &[u32],
    ) -> Result<(), OutOfMemory>
        ensures { OnOk result (all.new.items ≡ all.old.items ++ spec.package_of self.now.marks.now self.now.unit class some.now) }
    {
        match some.split_first() {
            Some((row, rest)) => {
                let span = self.between(last_or(*row, rest), *row)?;
                push(all, self.unit, span, Wording::Package(class))
            }
            None => Ok(()),
        }
    }

    fn package_names(&self, class: u32) -> Result<Vec<u32>, OutOfMemory>
        ensures { IfOk result (λ names. names.items ≡ package_names self.now.marks.now.rows.now class) }
    {
        let mut names = Vec::new(self.alloc);
        push_package(&mut names, self.rows(), class)?;
        Ok(names)
    }

    // The package in a reference becomes that of a type as a whole, where they differ.
    #[tactic(auto, using(crate::proofs::Adding::adds_none))]
    fn push_package(
        &self,
        all: &mut Vec<Piece>,
        behind: Option<u32>,
        some: &[u32],
    ) -> Result<(), OutOfMemory>
        ensures { OnOk result (all.new.items ≡ all.old.items ++ spec.changed_package self.now.marks.now self.now.unit behind some.now) }
    {
        let Some(class) = behind else {
            return Ok(());
        };
        let names = self.package_names(class)?;
        if have_names(self.rows(), some, &names) {
            return Ok(());
        }
        self.push_package_of(all, class, some)
    }

    // The qualifiers of a reference that keeps its shape, from the last one back; behind them stands a type, if one does.
    #[tactic(auto)]
    fn push_qualifiers(
        &self,
        all: &mut Vec<Piece>,
        class: Option<u32>,
        parts: &[u32],
    ) -> Result<(), OutOfMemory>
        ensures { OnOk result (all.new.items ≡ all.old.items ++ spec.qualifiers self.now.marks.now (entries self.now.table.now) self.now.unit class parts.now) }
    {
        let mut behind = class;
        let mut rest = parts;
        while let Some((row, after)) = rest.split_first() {
            match type_of(self.rows(), referent_at(self.table, *row)) {
                Some(ty) => {
                    self.push_identifier(all, *row, ty)?;
                    behind = Some(ty);
                    rest = after;
                }
                None => return self.push_package(all, behind, rest),
            }
        }
        Ok(())
    }

    // The package and type qualifiers of a reference, from the last one back.
    fn parts_of(&self, row: u32) -> Result<Vec<u32>, OutOfMemory>
        ensures { IfOk result (λ all. all.items ≡ shapes.parts self.now.marks.now.rows.now (entries self.now.table.now) row) }
    {
        if row == u32::MAX {
            return Err(OutOfMemory);
        }
        parts_of(self.alloc, self.rows(), self.table, row)
    }

    // The last identifier of a reference.
    fn push_own(&self, all: &mut Vec<Piece>, row: u32, found: Referent) -> Result<(), OutOfMemory>
        ensures { OnOk result (all.new.items ≡ all.old.items ++ spec.own self.now.marks.now self.now.unit row found) }
    {
        self.push_identifier(all, row, named_by(self.rows(), row, found))
    }

    // A reference that keeps its shape.
    #[tactic(auto, using(crate::proofs::Adding::adds_two))]
    fn push_kept(&self, all: &mut Vec<Piece>, row: u32, found: Referent) -> Result<(), OutOfMemory>
        ensures { OnOk result (all.new.items ≡ all.old.items ++ spec.kept self.now.marks.now (entries self.now.table.now) self.now.unit row found) }
    {
        let parts = self.parts_of(row)?;
        self.push_qualifiers(all, type_of(self.rows(), found), &parts)?;
        self.push_own(all, row, found)
    }

    // From the first qualifier of a reference to its last identifier.
    fn whole(&self, row: u32) -> Result<Span, OutOfMemory>
        ensures { IfOk result (λ span. span ≡ spec.between self.now.marks.now self.now.unit (spec.last_or row (shapes.parts self.now.marks.now.rows.now (entries self.now.table.now) row)) row) }
    {
        let parts = self.parts_of(row)?;
        self.between(last_or(row, &parts), row)
    }

    // All of a reference is written anew.
    fn push_anew(
        &self,
        all: &mut Vec<Piece>,
        row: u32,
        shape: Shape,
        found: Referent,
    ) -> Result<(), OutOfMemory>
        ensures { OnOk result (all.new.items ≡ all.old.items ++ spec.anew self.now.marks.now (entries self.now.table.now) self.now.unit row shape found) }
    {
        if !has_own_identifier(self.rows(), row) {
            return Err(OutOfMemory);
        }
        let span = self.whole(row)?;
        let name = named_by(self.rows(), row, found);
        push(all, self.unit, span, Wording::Shaped(shape, name))
    }

    fn push_before(
        &self,
        all: &mut Vec<Piece>,
        row: u32,
        opening: Wording,
    ) -> Result<(), OutOfMemory>
        ensures { OnOk result (all.new.items ≡ all.old.items ++ spec.piece self.now.unit (spec.before self.now.marks.now self.now.unit row) opening) }
    {
        let span = empty_span(self.first_of(row)?.start);
        push(all, self.unit, span, opening)
    }

    fn push_behind(&self, all: &mut Vec<Piece>, row: u32, has_two: bool) -> Result<(), OutOfMemory>
        ensures { OnOk result (all.new.items ≡ all.old.items ++ spec.piece self.now.unit (spec.behind self.now.marks.now self.now.unit row) (wordings.Close has_two)) }
    {
        let span = empty_span(self.last_of(row)?.end);
        push(all, self.unit, span, Wording::Close(has_two))
    }

    // A cast opens before a row, and closes behind it.
    #[tactic(auto, using(crate::proofs::Adding::adds_two))]
    fn push_around(
        &self,
        all: &mut Vec<Piece>,
        row: u32,
        opening: Wording,
        has_two: bool,
    ) -> Result<(), OutOfMemory>
        ensures { OnOk result (all.new.items ≡ all.old.items ++ spec.around self.now.marks.now self.now.unit row opening has_two) }
    {
        self.push_before(all, row, opening)?;
        self.push_behind(all, row, has_two)
    }

    fn push_receiver(
        &self,
        all: &mut Vec<Piece>,
        suffix: Suffix,
        row: u32,
    ) -> Result<(), OutOfMemory>
        ensures { OnOk result (all.new.items ≡ all.old.items ++ spec.receiver self.now.marks.now self.now.unit suffix (Some row)) }
    {
        let is_atom = is_atom(self.rows(), row);
        self.push_around(all, row, Wording::OpenReceiver(suffix, is_atom), !is_atom)
    }

    // The expression before the dot of a reference, which has one.
    fn receiver_of(&self, row: u32) -> Result<u32, OutOfMemory>
        ensures { IfOk result (λ e. shapes.receiver_of self.now.marks.now.rows.now (entries self.now.table.now) row ≡ Some e) }
    {
        if row == u32::MAX {
            return Err(OutOfMemory);
        }
        match receiver_of(self.rows(), self.table, row) {
            Some(receiver) => Ok(receiver),
            None => Err(OutOfMemory),
        }
    }

    // The cast of a receiver, and the identifier behind it.
    #[tactic(auto, using(crate::proofs::Adding::receiver_cast_so))]
    fn push_receiver_cast(
        &self,
        all: &mut Vec<Piece>,
        row: u32,
        suffix: Suffix,
        found: Referent,
    ) -> Result<(), OutOfMemory>
        ensures { OnOk result (all.new.items ≡ all.old.items ++ spec.receiver_cast self.now.marks.now (entries self.now.table.now) self.now.unit row suffix found) }
    {
        let receiver = self.receiver_of(row)?;
        self.push_receiver(all, suffix, receiver)?;
        self.push_own(all, row, found)
    }

    // `((S)this)` in place of `super`, and the identifier behind it.
    #[tactic(auto, using(crate::proofs::Adding::adds_two))]
    fn push_super_cast(
        &self,
        all: &mut Vec<Piece>,
        row: u32,
        suffix: Suffix,
        found: Referent,
    ) -> Result<(), OutOfMemory>
        ensures { OnOk result (all.new.items ≡ all.old.items ++ spec.super_cast self.now.marks.now self.now.unit row suffix found) }
    {
        let span = self.first_of(row)?;
        push(all, self.unit, span, Wording::CastThis(suffix))?;
        self.push_own(all, row, found)
    }

    fn push_this_cast(
        &self,
        all: &mut Vec<Piece>,
        row: u32,
        suffix: Suffix,
        found: Referent,
    ) -> Result<(), OutOfMemory>
        ensures { OnOk result (all.new.items ≡ all.old.items ++ spec.this_cast self.now.marks.now (entries self.now.table.now) self.now.unit row suffix found) }
    {
        if is_super_select_at(self.rows(), row) {
            self.push_super_cast(all, row, suffix, found)
        } else {
            self.push_anew(all, row, Shape::CastThis(suffix), found)
        }
    }

    fn push_reference(
        &self,
        all: &mut Vec<Piece>,
        row: u32,
        shape: Shape,
        found: Referent,
    ) -> Result<(), OutOfMemory>
        ensures { OnOk result (all.new.items ≡ all.old.items ++ spec.reference self.now.marks.now (entries self.now.table.now) self.now.unit row shape found) }
    {
        match shape {
            Shape::Kept => self.push_kept(all, row, found),
            Shape::Cast(suffix) => self.push_receiver_cast(all, row, suffix, found),
            Shape::CastThis(suffix) => self.push_this_cast(all, row, suffix, found),
            _ => self.push_anew(all, row, shape, found),
        }
    }

    // An argument behind a cast.
    fn push_argument(&self, all: &mut Vec<Piece>, row: u32, ty: TypeName) -> Result<(), OutOfMemory>
        ensures { OnOk result (all.new.items ≡ all.old.items ++ spec.argument self.now.marks.now self.now.unit row ty) }
    {
        if is_atom(self.rows(), row) {
            self.push_before(all, row, Wording::OpenArgument(ty, true))
        } else {
            self.push_around(all, row, Wording::OpenArgument(ty, false), false)
        }
    }

    // The arguments of a call from one on, each with its cast, of which there must be as many.
    #[tactic(auto)]
    fn push_arguments(
        &self,
        all: &mut Vec<Piece>,
        call: u32,
        first: Option<u32>,
        casts: &[TypeName],
    ) -> Result<(), OutOfMemory>
        ensures { OnOk result (all.new.items ≡ all.old.items ++ spec.arguments self.now.marks.now self.now.unit call first casts.now) }
    {
        let mut next = first;
        for ty in casts {
            let Some(row) = next else {
                return Err(OutOfMemory);
            };
            self.push_argument(all, row, *ty)?;
            next = argument_after(self.rows(), call, row);
        }
        Ok(())
    }

    // The first argument of a call or creation, if it has arguments.
    fn first_argument(&self, row: u32) -> Result<Option<u32>, OutOfMemory>
        ensures { IfOk result (λ first. first ≡ arguments.first_argument self.now.marks.now.rows.now row) }
    {
        if row == u32::MAX {
            return Err(OutOfMemory);
        }
        Ok(first_argument(self.rows(), row))
    }

    /// All that a spelling changes.
    #[tactic(auto, using(crate::proofs::Adding::adds_two))]
    pub fn push_spelled(&self, all: &mut Vec<Piece>, spelling: &Spelling) -> Result<(), OutOfMemory>
        ensures { OnOk result (all.new.items ≡ all.old.items ++ spec.spelled_in self.now.marks.now (entries self.now.table.now) self.now.unit spelling.now) }
    {
        let row = spelling.row;
        let first = self.first_argument(row)?;
        self.push_reference(all, row, spelling.shape, spelling.found)?;
        self.push_arguments(all, row, first, &spelling.casts)
    }
}
