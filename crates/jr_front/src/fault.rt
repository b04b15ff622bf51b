// Why files do not compile.
ghost use Rattle.std.specs.Prelude.{◌≡◌};
ghost use Rattle.jr_front.specs.Checking.{fault_of};

use jr_base::{CuId, OutOfMemory, Place, Size};
use jr_lex::LexFault;
use jr_parse::ParseFault;
use jr_read::ReadFault;
use jr_rule::Rule;

/// The first reason why files do not compile. A kind is tested on the whole program before the next. Within a kind the first place counts, by unit and
/// offset, and of rules that are broken at one place the one with the least number. Units are counted from 0, those of the prelude first.
#[derive(Clone, Copy, Debug, PartialEq, Eq)]
pub enum FrontFault {
    /// Of these sizes the first that passes its limit: files, path, file, total, and, where all files have tokens, tokens.
    TooLarge(Size),
    /// The bytes of the unit are no tokens (JLS 3), or have an escape in a comment that may change what is a comment (JLS 3.3).
    Lex { cu: CuId, fault: LexFault },
    /// The tokens of the unit are no unit (JLS 7.3). The fault counts tokens, and the place is an offset.
    Parse { fault: ParseFault, place: Place },
    /// The path is not that of the unit's package and type (JLS 7.6).
    PathMismatch(CuId),
    /// Two top-level types have one name, or a type and a package (JLS 7.1, 7.6).
    Duplicate(Place),
    /// A type is its own supertype (JLS 8.1.4, 9.1.3).
    Cycle(Place),
    /// A name has no declaration, or more than one (JLS 6.5).
    Unbound(Place),
    /// A rule of the language is broken.
    Broken(Rule, Place),
    /// An allocation failed.
    OutOfMemory,
}

impl From<OutOfMemory> for FrontFault {
    ghost use Rattle.std.specs.Prelude.{◌≡◌};
    ghost use Rattle.jr_front.specs.declared.fault.FrontFault.TheVariants.{OutOfMemory};

    ghost from_gives = { λ _ e. e ≡ OutOfMemory };

    fn from(_: OutOfMemory) -> Self {
        FrontFault::OutOfMemory
    }
}

/// Why files are no program, as a reason why they do not compile.
pub fn unread(fault: ReadFault) -> FrontFault
    ensures { result ≡ fault_of fault }
{
    match fault {
        ReadFault::TooLarge(size) => FrontFault::TooLarge(size),
        ReadFault::Lex { cu, fault } => FrontFault::Lex { cu, fault },
        ReadFault::Parse { cu, fault, at } => FrontFault::Parse {
            fault,
            place: Place { cu, at },
        },
        ReadFault::OutOfMemory => FrontFault::OutOfMemory,
    }
}
