// What a run becomes.

use crate::locals::Locals;
use crate::run::Run;

/// What a run becomes. Contracts see what it holds.
#[derive(Clone, Copy)]
pub(crate) struct Extraction<'a> {
    pub(crate) run: Run,
    /// The bytes of the run.
    pub(crate) text: &'a [u8],
    /// The name of the added method.
    pub(crate) name: &'a [u8],
    /// The class in which it stands.
    pub(crate) class: u32,
    pub(crate) is_static: bool,
    pub(crate) locals: &'a Locals,
    /// The classes that it throws.
    pub(crate) thrown: &'a [u32],
}
