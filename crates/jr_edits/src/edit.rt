// One edit of a text.
use jr_base::{Span, Text};

// What stands in place of the span's bytes. An empty span inserts.
#[derive(Debug, Drop)]
pub(crate) struct Edit {
    pub(crate) span: Span,
    pub(crate) text: Text,
}
