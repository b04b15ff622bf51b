// Edits in the order of their places.
ghost use Rattle.std.specs.Prelude.{◌≡◌, ◌↔◌, [], length, IfOk, OnOk, OnErr, Err};

use crate::EditFault;
use crate::edit::Edit;
use jr_base::{OutOfMemory, Span, Text};
use std::alloc::Global;
use std::marker::Model;

/// Edits of one text. Spans are byte offsets in the text, and share no byte.
#[derive(Debug, Drop)]
pub struct Edits {
    text_len: u32,
    edits: Vec<Edit>,
}

impl Model for Edits {
    ghost use Rattle.jr_edits.specs.Place.{EditList, AreApart};

    ghost Value = { EditList };

    ghost view = { λ e. record { text_len = e.text_len; edits = e.edits.items } };

    ghost invariant = { λ e. AreApart 0 e.text_len e.edits.items };
}

impl Edits {
    ghost use Rattle.jr_edits.specs.Place.{HasOverlap, pushed};

    /// No edits of a text of so many bytes.
    pub fn new(alloc: Global, length: u32) -> Edits
        ensures { result ≡ record { text_len = length; edits = [] } }
    {
        Edits {
            text_len: length,
            edits: Vec::new(alloc),
        }
    }

    /// How many bytes the text has.
    pub fn text_len(&self) -> u32
        ensures { result ≡ self.now.text_len }
    {
        self.text_len
    }

    /// Where what stands at an offset stands in the edited text; what is replaced stands where its replacement ends.
    pub fn moved(&self, at: u32) -> u32 {
        let mut added = 0u32;
        let mut removed = 0u32;
        for edit in &self.edits {
            if edit.span.end <= at {
                let length = u32::try_from(edit.text.bytes().len()).unwrap_or(u32::MAX);
                added = added.saturating_add(length);
                removed = removed.saturating_add(edit.span.end.saturating_sub(edit.span.start));
            }
        }
        at.saturating_add(added).saturating_sub(removed)
    }

    /// Adds an edit. Insertions at one place stand in the order of their pushes, before a replacement
    /// that begins there.
    pub fn push(&mut self, span: Span, text: Text) -> Result<(), EditFault>
        ensures ok { OnOk result (self.new ≡ pushed self.old span text) }
        ensures err { OnErr result (self.new ≡ self.old) }
        ensures same_text { self.new.text_len ≡ self.old.text_len }
        ensures apart { AreApart 0 self.new.text_len self.new.edits }
        ensures out_of_range { (result ≡ Err EditFault.OutOfRange)
            ↔ (IsInRange self.old.text_len span → ⊥) }
        ensures overlap { (result ≡ Err EditFault.Overlap)
            ↔ (IsInRange self.old.text_len span × HasOverlap span self.old.edits) }
    {
        if span.end < span.start || self.text_len < span.end {
            return Err(EditFault::OutOfRange);
        }
        match free_slot(&self.edits, span, self.text_len) {
            None => Err(EditFault::Overlap),
            Some(slot) => Ok(self.edits.insert(slot, Edit { span, text })?),
        }
    }
}

ghost use Rattle.std.specs.List.Sorted.{IsNonDecreasingBy};
ghost use Rattle.jr_edits.specs.Place.{AreApart, IsInRange, IsSlot, IsFreeSlot, edited};

// How many edits end at or before the span's start.
fn slot_of(edits: &[Edit], span: Span) -> usize
    requires { IsNonDecreasingBy (λ edit. edit.span.end) edits.now }
    ensures { IsSlot span edits.now result }
{
    edits.partition_point(|edit| edit.span.end <= span.start)
}

// The place of the span among the edits of a text, unless it overlaps one.
fn free_slot(edits: &[Edit], span: Span, text_len: u32) -> Option<usize>
    requires apart { AreApart 0 text_len edits.now }
    requires in_range { IsInRange text_len span }
    ensures { IsFreeSlot text_len span edits.now result }
{
    let slot = slot_of(edits, span);
    match edits.get(slot) {
        None => Some(slot),
        Some(next) => {
            if next.span.start < span.end {
                None
            } else {
                Some(slot)
            }
        }
    }
}

/// The bytes with each span replaced, and all others kept.
pub fn apply(alloc: Global, bytes: &[u8], edits: &Edits) -> Result<Vec<u8>, OutOfMemory>
    requires { length bytes.now ≡ edits.now.text_len }
    ensures { IfOk result (λ new. new.items ≡ edited bytes.now 0 edits.now.edits) }
{
    apply_all(alloc, bytes, &edits.edits)
}

fn apply_all(alloc: Global, bytes: &[u8], edits: &[Edit]) -> Result<Vec<u8>, OutOfMemory>
    requires { AreApart 0 (length bytes.now) edits.now }
    ensures { IfOk result (λ new. new.items ≡ edited bytes.now 0 edits.now) }
{
    let mut new = Vec::new(alloc);
    let mut at = 0;
    for edit in edits {
        new.extend_from_slice(&bytes[at..edit.span.start as usize])?;
        new.extend_from_slice(edit.text.bytes())?;
        at = edit.span.end as usize;
    }
    new.extend_from_slice(&bytes[at..])?;
    Ok(new)
}
