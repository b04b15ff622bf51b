// A tree is written out and tested for shape and depth.
use crate::reading::lexed;
use jr_base::OutOfMemory;
use jr_depth::is_within_depth;
use jr_shape::is_shaped;
use jr_tree::Unit;
use jr_write::tokens_of;
use std::alloc::Global;
use std::fmt::Write;
use std::process::Abort;
use std::test::Fail;

/// The kinds of the tokens of a text.
fn kinds_of_text(alloc: Global, text: &str) -> Result<String, Fail> {
    let mut out = String::new(alloc);
    for token in &lexed(alloc, text)? {
        write!(out, "{:?} ", token.kind)?;
    }
    Ok(out)
}

/// The kinds of the tokens that a unit is written as.
fn kinds_of_unit(alloc: Global, unit: &Unit) -> Result<String, OutOfMemory> {
    let mut out = String::new(alloc);
    for kind in &tokens_of(alloc, unit)? {
        write!(out, "{kind:?} ")?;
    }
    Ok(out)
}

/// The unit is written out as the text, the grammar has it or not, and its depth is this one.
pub fn check_unit<R: Abort + AllocGlobal>(
    rt: &R,
    unit: &Unit,
    text: &str,
    shaped: bool,
    depth: usize,
) -> Result<(), Fail> {
    let expected = kinds_of_text(rt.alloc(), text)?;
    let found = kinds_of_unit(rt.alloc(), unit)?;
    assert_eq!(rt; found.as_str(), expected.as_str());
    assert_eq!(rt; is_shaped(unit), shaped);
    assert!(rt; is_within_depth(unit, depth));
    assert!(rt; !is_within_depth(unit, depth.saturating_sub(1)));
    Ok(())
}
