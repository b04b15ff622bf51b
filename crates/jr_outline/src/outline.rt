// The rows of one source.

use jr_base::{OutOfMemory, Path};
use jr_parse::ParseFault;
use jr_read::{ReadFault, rows_of_source};
use jr_tree::Row;
use std::alloc::Global;

/// What a source reads as.
#[derive(Drop)]
pub enum Outline {
    Rows(Vec<Row>),
    /// Its bytes are no tokens.
    NoTokens,
    /// The number of the first token that no unit allows.
    NoTree(u32),
    /// The number of the first token that only a deeper unit allows.
    TooDeep(u32),
}

// Why the tokens of a source are no unit.
fn unparsed(fault: ParseFault) -> Result<Outline, OutOfMemory> {
    match fault {
        ParseFault::NoTree(at) => Ok(Outline::NoTree(at)),
        ParseFault::TooDeep(at) => Ok(Outline::TooDeep(at)),
        ParseFault::OutOfMemory => Err(OutOfMemory),
    }
}

/// Reads the source.
pub fn outline_of(alloc: Global, source: &[u8]) -> Result<Outline, OutOfMemory> {
    let Ok(path) = Path::parse(alloc, b"A.java") else {
        return Err(OutOfMemory);
    };
    match rows_of_source(alloc, path, source) {
        Ok(rows) => Ok(Outline::Rows(rows)),
        Err(ReadFault::Parse { fault, .. }) => unparsed(fault),
        Err(ReadFault::OutOfMemory) => Err(OutOfMemory),
        Err(_) => Ok(Outline::NoTokens),
    }
}
