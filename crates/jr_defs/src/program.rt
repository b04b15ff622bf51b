// The program of the files.

use jr_base::{Items, Path, Text, Token};
use jr_tree::Unit;

/// A unit and where it stands.
#[derive(Drop)]
pub struct UnitAt {
    pub path: Path,
    pub bytes: Text,
    pub tokens: Items<Token>,
    pub unit: Unit,
}

/// The units of a program (JLS 7.3). The first two are the prelude.
#[derive(Drop)]
pub struct Program {
    pub units: Items<UnitAt>,
}
