// A source and a sink of bytes, as their callers see them.
ghost use Rattle.std.specs.Prelude.{ℕ, List, Option};
ghost use Rattle.std.specs.Io.{ReadsAtMost};
ghost use Rattle.std.specs.Io.KnownBytes.{ReadConsumes};
ghost use Rattle.jr_store.specs.Image.{HasCause};
ghost use Rattle.jr_store.specs.Streams.{WritesAll};

use crate::Failed;

/// An input of bytes.
pub trait Source {
    /// The bytes that are left: a source that doesn't tell has `None`.
    ghost left: { Self → Option (List ℕ) };

    /// How often the source has failed.
    ghost faults: { Self → ℕ };

    /// Takes bytes from the front into the buffer, and says how many. 0, for a buffer that is not empty, is the end.
    fn read(&mut self, buf: &mut [u8]) -> Result<usize, Failed>
        ensures bound { ReadsAtMost result buf.new }
        ensures bytes { ReadConsumes (left self.old) (left self.new) result buf.new }
        ensures cause { HasCause (faults self.old) (faults self.new) result };
}

/// An output of bytes.
pub trait Sink {
    /// The bytes that were written: a sink that doesn't tell has `None`.
    ghost contents: { Self → Option (List ℕ) };

    /// How often the sink has failed.
    ghost faults: { Self → ℕ };

    /// Writes all the bytes, or at `Failed` a prefix of them.
    fn write(&mut self, bytes: &[u8]) -> Result<(), Failed>
        ensures bytes { WritesAll (contents self.old) (contents self.new) result bytes.now }
        ensures cause { HasCause (faults self.old) (faults self.new) result };
}
