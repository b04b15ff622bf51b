// The path of a file below the folder, with `/` between its parts.
ghost use Rattle.std.specs.Prelude.{◌≡◌, IfOk, IfErr, MatchResult};
ghost use Rattle.jr_base.specs.Paths.{IsPath, IsPathFault, is_java};

use crate::OutOfMemory;
use std::alloc::{AllocError, Global};
use std::marker::Model;
use std::str;
use thiserror::Error;

/// Why bytes are no path. The first of these, in this order, is answered.
#[derive(Clone, Copy, Debug, PartialEq, Eq, Error)]
pub enum PathFault {
    /// There are no bytes.
    #[error("Empty")]
    Empty,
    /// The bytes begin with `/`.
    #[error("Absolute")]
    Absolute,
    /// A part is empty, `.` or `..`.
    #[error("DotPart")]
    DotPart,
    /// The bytes are not UTF-8, or hold a zero byte.
    #[error("NotText")]
    NotText,
    /// An allocation failed.
    #[error("OutOfMemory")]
    OutOfMemory,
}

impl From<AllocError> for PathFault {
    ghost use Rattle.jr_base.specs.declared.path.PathFault.TheVariants.{OutOfMemory};

    ghost from_gives = { λ _ fault. fault ≡ OutOfMemory };

    fn from(_: AllocError) -> Self {
        PathFault::OutOfMemory
    }
}

impl From<OutOfMemory> for PathFault {
    ghost use Rattle.jr_base.specs.declared.path.PathFault.TheVariants.{OutOfMemory};

    ghost from_gives = { λ _ fault. fault ≡ OutOfMemory };

    fn from(_: OutOfMemory) -> Self {
        PathFault::OutOfMemory
    }
}

/// A relative path, in UTF-8 with `/` between its parts. No part is empty, `.` or `..`, so it names a file below the folder.
/// Contracts see the list of its bytes.
#[derive(Debug, Drop)]
pub struct Path {
    bytes: Vec<u8>,
}

impl Model for Path {
    ghost use Rattle.std.specs.Prelude.{List, ℕ};
    ghost use Rattle.jr_base.specs.Paths.{IsPath};

    ghost Value = { List ℕ };

    ghost view = { λ p. p.bytes.items };

    ghost invariant = { λ p. IsPath p.bytes.items };
}

impl Path {
    /// The path of these bytes, or the first fault that they have.
    pub fn parse(alloc: Global, bytes: &[u8]) -> Result<Path, PathFault>
        ensures ok { IfOk result (λ path. (path ≡ bytes.now) × IsPath bytes.now) }
        ensures fault { IfErr result (IsPathFault bytes.now) }
        ensures only { IsPath bytes.now → MatchResult result (λ path. path ≡ bytes.now) (λ fault. fault ≡ PathFault.OutOfMemory) }
    {
        if bytes.is_empty() {
            return Err(PathFault::Empty);
        }
        if bytes[0] == b'/' {
            return Err(PathFault::Absolute);
        }
        if has_dot_part(bytes) {
            return Err(PathFault::DotPart);
        }
        if !is_path_text(bytes) {
            return Err(PathFault::NotText);
        }
        Ok(Path {
            bytes: bytes.to_vec(alloc)?,
        })
    }

    /// The bytes of the path.
    pub fn bytes(&self) -> &[u8]
        ensures { result.now ≡ self.now }
    {
        &self.bytes
    }

    /// Whether the path ends in `.java`.
    pub fn is_java(&self) -> bool
        ensures { result ≡ is_java self.now }
    {
        self.bytes.ends_with(b".java")
    }

    /// An equal path of its own.
    pub fn copy(&self, alloc: Global) -> Result<Path, OutOfMemory>
        ensures { IfOk result (λ copy. copy ≡ self.now) }
    {
        Ok(Path {
            bytes: self.bytes.to_vec(alloc)?,
        })
    }
}

ghost use Rattle.std.specs.Prelude.{◌↔◌, IsTrue};
ghost use Rattle.jr_base.specs.Paths.{HasDotPart, IsPathText, is_dot_part};

fn has_dot_part(bytes: &[u8]) -> bool
    ensures { IsTrue result ↔ HasDotPart bytes.now }
{
    bytes.split(|b| *b == b'/').any(|part| is_dot_part(part))
}

fn is_dot_part(part: &[u8]) -> bool
    ensures { result ≡ is_dot_part part.now }
{
    part.is_empty() || part == b".".as_slice() || part == b"..".as_slice()
}

fn is_path_text(bytes: &[u8]) -> bool
    ensures { IsTrue result ↔ IsPathText bytes.now }
{
    match str::from_utf8(bytes) {
        Ok(_) => !bytes.contains(&0),
        Err(_) => false,
    }
}
