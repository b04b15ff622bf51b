// What is wrong with written texts, as an answer.

ghost use Rattle.std.specs.Prelude.{◌≡◌};
ghost use Rattle.jr_base.specs.Files.{plain};
ghost use Rattle.jr_front.specs.declared.fault.FrontFault.TheVariants as front;
ghost use Rattle.jr_engine.specs.Barring.{IsToldFor, IsUnread};
ghost use Rattle.jr_engine.specs.Refusing.{fault_of};

use crate::asked::Asked;
use crate::deep::is_deep_unit;
use crate::fault::StepFault;
use jr_base::{CuId, Path, Place, Size};
use jr_change::ChangeFault;
use jr_front::FrontFault;
use jr_parse::ParseFault;
use jr_read::ReadFault;
use jr_rule::Rule;
use std::alloc::Global;

/// Why there is no change.
pub fn no_change(fault: ChangeFault) -> StepFault
    ensures { result ≡ fault_of fault }
{
    match fault {
        ChangeFault::Bad(reason) => StepFault::BadRequest(reason),
        ChangeFault::StillUsed(place) => StepFault::StillUsed { place },
        ChangeFault::TooManyPoints => StepFault::TooLarge(Size::Flow),
        ChangeFault::OutOfMemory => StepFault::OutOfMemory,
    }
}

// A unit is nested too deep. Where that is not found again, memory was wanting.
fn too_deep(alloc: Global, texts: &[(Path, Vec<u8>)], unit: CuId) -> StepFault
    ensures { IsUnread (plain texts.now) result }
{
    let Ok(is_deep) = is_deep_unit(alloc, texts, unit) else {
        return StepFault::OutOfMemory;
    };
    if is_deep {
        StepFault::TooLarge(Size::Nesting)
    } else {
        StepFault::OutOfMemory
    }
}

// The tokens of a unit are none of the grammar: they are nested too deep, or not those that were to be written.
fn unparsed(
    alloc: Global,
    asked: Asked,
    texts: &[(Path, Vec<u8>)],
    unit: CuId,
    fault: ParseFault,
) -> StepFault
    ensures { IsUnread (plain texts.now) result }
{
    match fault {
        ParseFault::TooDeep(_) => too_deep(alloc, texts, unit),
        ParseFault::NoTree(_) => asked.differs(),
        ParseFault::OutOfMemory => StepFault::OutOfMemory,
    }
}

/// The texts are no program. Of their sizes only the depth of each is tested.
pub fn unread(alloc: Global, asked: Asked, texts: &[(Path, Vec<u8>)], fault: ReadFault) -> StepFault
    ensures { IsUnread (plain texts.now) result }
{
    match fault {
        ReadFault::TooLarge(_) => StepFault::OutOfMemory,
        ReadFault::Lex { .. } => asked.differs(),
        ReadFault::Parse { cu, fault, .. } => unparsed(alloc, asked, texts, cu, fault),
        ReadFault::OutOfMemory => StepFault::OutOfMemory,
    }
}

// The tokens of a written unit are none of the grammar, which shows at the place.
fn not_parsed(asked: Asked, fault: ParseFault, place: Place) -> StepFault
    ensures { IsToldFor (front.Parse fault place) result }
{
    let _ = place;
    match fault {
        ParseFault::TooDeep(_) => StepFault::TooLarge(Size::Nesting),
        ParseFault::NoTree(_) => asked.differs(),
        ParseFault::OutOfMemory => StepFault::OutOfMemory,
    }
}

/// The written texts are no program that compiles. What lookup does not find in them was not to be written so.
pub fn not_compiling(asked: Asked, fault: FrontFault) -> StepFault
    ensures { IsToldFor fault result }
{
    match fault {
        FrontFault::TooLarge(size) => StepFault::TooLarge(size),
        FrontFault::Lex { .. } => asked.differs(),
        FrontFault::Parse { fault, place } => not_parsed(asked, fault, place),
        FrontFault::PathMismatch(_) => asked.differs(),
        FrontFault::Duplicate(place) => StepFault::Broken {
            rule: Rule::TypeNames,
            place,
        },
        FrontFault::Cycle(place) => StepFault::Broken {
            rule: Rule::HeaderCycle,
            place,
        },
        FrontFault::Unbound(_) => asked.differs(),
        FrontFault::Broken(rule, place) => StepFault::Broken { rule, place },
        FrontFault::OutOfMemory => StepFault::OutOfMemory,
    }
}
