// What elaboration reads.
ghost use Rattle.std.specs.Prelude.{◌≡◌, ◌+◌, ◌<◌, ◌^◌, true, Some, IfOk, length, option_map, slice_get};
ghost use Rattle.jr_constants.specs.Values.{text_at};
ghost use Rattle.jr_tree.specs.Rows as all_rows;
ghost use Rattle.jr_codes.specs.Conversions.{is_text};
ghost use Rattle.jr_codes.specs.Facts.{has_child};
ghost use Rattle.jr_codes.specs.Reads.{value_at, variable_at, texts_of, rows_of, table_of, signatures_of, facts, decl_at, child_of};
ghost use Rattle.jr_supers.specs.Supers.{AreSupersOf};
ghost use Rattle.jr_supers.specs.Signatures.{AreSignatures, nth_of};
ghost use Rattle.jr_supers.specs.Tabled as tell;

use crate::ids::Ids;
use jr_base::{DeclId, OutOfMemory, TypeId};
use jr_constants::{Constants, Value};
use jr_defs::RowType;
use jr_members::World;
use jr_places::{end_at, parent_at};
use jr_supers::Tabled;
use jr_tree::{Label, Row};
use jr_types::is_string_type;
use jr_view::View;
use std::alloc::Global;

/// A program that compiles, with its tables, and the names of its declarations.
#[derive(Clone, Copy)]
pub struct Source<'a> {
    pub alloc: Global,
    pub view: &'a View<'a>,
    pub ids: &'a Ids,
}

impl<'a> Source<'a> {
    /// The rows of the program.
    pub fn rows(&self) -> &'a [Row]
        ensures { result.now ≡ rows_of self.now }
    {
        let view = self.view;
        view.sight.world.under.rows
    }

    /// The rows under their binding.
    pub fn under(&self) -> &'a Tabled<'a>
        ensures { result.now ≡ self.now.view.now.sight.world.under }
    {
        let view = self.view;
        &view.sight.world.under
    }

    /// The binding with supertypes and members.
    pub fn world(&self) -> &'a World<'a>
        ensures { result.now ≡ self.now.view.now.sight.world }
    {
        let view = self.view;
        &view.sight.world
    }

    /// The values of constants.
    pub fn constants(&self) -> &'a Constants
        ensures { result.now ≡ self.now.view.now.constants.now }
    {
        let view = self.view;
        view.constants
    }

    /// How many rows there are.
    pub fn count(&self) -> Result<u32, OutOfMemory> {
        match u32::try_from(self.rows().len()) {
            Ok(count) => Ok(count),
            Err(_) => Err(OutOfMemory),
        }
    }

    /// What a row is.
    pub fn label(&self, at: u32) -> Option<&'a Label> {
        match self.rows().get(at as usize) {
            Some(row) => Some(&row.label),
            None => None,
        }
    }

    /// The number behind the last row below a row.
    pub fn end(&self, at: u32) -> u32
        ensures { at + 1 < 2 ^ 32 → result ≡ all_rows.end (rows_of self.now) at }
    {
        end_at(self.rows(), at)
    }

    /// The row right behind a row: its first child, if it has one.
    pub fn first(&self, at: u32) -> u32
        ensures { at + 1 < 2 ^ 32 → result ≡ at + 1 }
    {
        at.saturating_add(1)
    }

    /// The row behind the first child.
    pub fn second(&self, at: u32) -> u32
        ensures { at + 2 < 2 ^ 32 → result ≡ all_rows.end (rows_of self.now) (at + 1) }
    {
        self.end(self.first(at))
    }

    /// The row behind the second child.
    pub fn third(&self, at: u32) -> u32 {
        self.end(self.second(at))
    }

    /// Something stands below the row.
    pub fn has_child(&self, at: u32) -> bool
        ensures { at + 1 < 2 ^ 32 → result ≡ has_child (facts self.now) at }
    {
        self.first(at) < self.end(at)
    }

    /// The first child of a row.
    pub fn child(&self, at: u32) -> Option<u32>
        ensures { at + 1 < 2 ^ 32 → result ≡ child_of (rows_of self.now) at }
    {
        let first = self.first(at);
        if first < self.end(at) {
            Some(first)
        } else {
            None
        }
    }

    /// The third child of a row that has two.
    pub fn third_child(&self, at: u32) -> Option<u32> {
        let third = self.third(at);
        if third < self.end(at) {
            Some(third)
        } else {
            None
        }
    }

    /// The row round a row.
    pub fn parent(&self, at: u32) -> u32
        ensures { result ≡ all_rows.parent (rows_of self.now) at }
    {
        parent_at(self.rows(), at)
    }

    /// The declaration at a row.
    pub fn decl(&self, at: u32) -> DeclId
        ensures { result ≡ decl_at self.now.ids.now.nodes.items (rows_of self.now) at }
    {
        self.ids.decl(self.rows(), at)
    }

    /// The type at a row.
    pub fn type_id(&self, at: u32) -> TypeId
        ensures { result.0 ≡ decl_at self.now.ids.now.nodes.items (rows_of self.now) at }
    {
        TypeId(self.decl(at))
    }

    /// The type of the expression at a row. Each one has a type where the program compiles.
    pub fn type_of(&self, at: u32) -> Result<RowType, OutOfMemory>
        ensures { IfOk result (λ ty. (facts self.now).typed at ≡ Some ty) }
    {
        let view = self.view;
        match view.types.get(at as usize) {
            Some(Some(ty)) => Ok(*ty),
            _ => Err(OutOfMemory),
        }
    }

    /// The value of the expression at a row, if it is constant.
    pub fn value(&self, at: u32) -> Option<Value>
        ensures { result ≡ value_at self.now at }
    {
        self.constants().value(at)
    }

    /// The value of the variable at a row, if it is constant.
    pub fn variable(&self, at: u32) -> Option<Value>
        ensures { result ≡ variable_at self.now at }
    {
        self.constants().variable(at)
    }

    /// The units of a constant string.
    pub fn units(&self, text: u32) -> &'a [u16]
        ensures { result.now ≡ text_at (slice_get (texts_of self.now) text) }
    {
        self.constants().units(text)
    }

    /// The type of the expression at a row is String.
    pub fn is_string(&self, at: u32) -> Result<bool, OutOfMemory>
        ensures { IfOk result (λ is_string. is_text (facts self.now) at ≡ Some is_string) }
    {
        Ok(is_string_type(self.rows(), self.type_of(at)?))
    }

    /// The first type is a subtype of the second.
    pub fn is_subtype(&self, low: RowType, high: RowType) -> bool
        ensures { AreSupersOf (rows_of self.now) (table_of self.now) self.now.view.now.sight.world.supers.now → result ≡ (facts self.now).is_subtype low high }
    {
        self.world().supers.is_subtype(self.rows(), low, high)
    }

    /// The innermost class round a row, if there is one.
    pub fn around(&self, at: u32) -> Option<u32>
        ensures { result ≡ (facts self.now).around at }
    {
        self.under().places.around(at)
    }

    /// The type of a parameter of a method or constructor, counted from 0.
    pub fn parameter(&self, method: u32, nth: u32) -> Option<RowType>
        ensures { AreSignatures (rows_of self.now) (table_of self.now) (signatures_of self.now) → tell.is_callable (all_rows.role_at (rows_of self.now) method) ≡ true → result ≡ nth_of ((facts self.now).parameters method) nth }
    {
        let members = self.world().members;
        members.signatures().parameter(method, nth)
    }

    /// How many parameters a method or constructor has, if the types of all are found.
    pub fn parameter_count(&self, method: u32) -> Option<u32>
        ensures { AreSignatures (rows_of self.now) (table_of self.now) (signatures_of self.now) → tell.is_callable (all_rows.role_at (rows_of self.now) method) ≡ true → result ≡ option_map (λ all. length all) ((facts self.now).parameters method) }
    {
        let members = self.world().members;
        members.signatures().count(method)
    }

    /// The innermost class round a row.
    pub fn class_round(&self, at: u32) -> Result<u32, OutOfMemory> {
        match self.under().places.around(at) {
            Some(class) => Ok(class),
            None => Err(OutOfMemory),
        }
    }
}
