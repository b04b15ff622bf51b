// Copies of values that own memory.
ghost use Rattle.std.specs.Prelude.{◌≡◌, IfOk};

use crate::{Boxed, Files, Items, Kind, OutOfMemory, Path, Request, Text, Token, Units};
use std::alloc::Global;

/// What can be copied. A copy is equal.
pub trait Copied: Drop {
    /// An equal value of its own.
    fn copy(&self, alloc: Global) -> Result<Self, OutOfMemory>
        ensures { IfOk result (λ copy. copy ≡ self.now) };
}

impl Copied for Text {
    fn copy(&self, alloc: Global) -> Result<Text, OutOfMemory> {
        Text::copy(self, alloc)
    }
}

impl Copied for Units {
    fn copy(&self, alloc: Global) -> Result<Units, OutOfMemory> {
        Units::copy(self, alloc)
    }
}

impl Copied for Path {
    fn copy(&self, alloc: Global) -> Result<Path, OutOfMemory> {
        Path::copy(self, alloc)
    }
}

impl Copied for Files {
    fn copy(&self, alloc: Global) -> Result<Files, OutOfMemory> {
        Files::copy(self, alloc)
    }
}

impl Copied for Kind {
    fn copy(&self, alloc: Global) -> Result<Kind, OutOfMemory> {
        Kind::copy(self, alloc)
    }
}

impl Copied for Token {
    fn copy(&self, alloc: Global) -> Result<Token, OutOfMemory> {
        Token::copy(self, alloc)
    }
}

impl Copied for Request {
    fn copy(&self, alloc: Global) -> Result<Request, OutOfMemory> {
        Request::copy(self, alloc)
    }
}

impl<T: Copied> Copied for Boxed<T> {
    fn copy(&self, alloc: Global) -> Result<Boxed<T>, OutOfMemory> {
        Ok(Boxed::new(alloc, self.get().copy(alloc)?)?)
    }
}

impl<T: Copied> Copied for Items<T> {
    fn copy(&self, alloc: Global) -> Result<Items<T>, OutOfMemory> {
        let mut copies = Items::new(alloc);
        for item in self.as_slice() {
            copies.push(item.copy(alloc)?)?;
        }
        Ok(copies)
    }
}

impl<T: Copied> Copied for Option<T> {
    fn copy(&self, alloc: Global) -> Result<Option<T>, OutOfMemory> {
        match self {
            None => Ok(None),
            Some(value) => Ok(Some(value.copy(alloc)?)),
        }
    }
}
