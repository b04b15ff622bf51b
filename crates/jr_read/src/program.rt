// The program of files.
ghost use Rattle.std.specs.Prelude.{◌≡◌, ◌+◌, ◌<◌, ◌≤◌, ◌^◌, ◌++◌, length, map, IfOk, IfErr, Err, List, ℕ};
ghost use Rattle.std.specs.List.{AllByRecursion};
ghost use Rattle.jr_base.specs.Files.{plain};
ghost use Rattle.jr_defs.specs.Program.{AreUnitsOf, IsUnitOf, prelude_files};
ghost use Rattle.jr_tree.specs.Shape.{IsShaped};
ghost use Rattle.jr_read.specs.Reading.{ReadsAs, IsLexed, IsUnlexed, AreLexed, IsLexing, IsTreeOf, AreTrees, IsUnparsed, IsParsing, ParsesAs, passes, kinds_of, offset_in};
ghost use Rattle.jr_read.specs.Reading as reading;
ghost use Rattle.jr_parse.specs.Answers.{Answers};

use crate::fault::ReadFault;
use crate::lexed::{Lexed, lex_file, offset_of};
use crate::prelude::{io_source, lang_source};
use crate::sizes::too_large;
use jr_base::{CuId, Files, Items, Limits, Path, Size};
use jr_defs::{Program, UnitAt};
use jr_parse::{ParseFault, parse};
use std::alloc::Global;

// A unit of the prelude with its tokens.
fn lex_prelude(alloc: Global, path: &[u8], text: &str, cu: u32) -> Result<Lexed, ReadFault>
    ensures ok { IfOk result (IsLexed path.now text.now) }
    ensures err { IfErr result (IsUnlexed text.now (record { 0 = cu })) }
{
    match Path::parse(alloc, path) {
        Ok(path) => lex_file(alloc, path, text.as_bytes(), CuId(cu)),
        Err(_) => Err(ReadFault::OutOfMemory),
    }
}

// The files with their tokens, behind those that have theirs.
#[tactic(auto, using(crate::proofs::Readings::lexed_start, crate::proofs::Readings::lexed_step, crate::proofs::Readings::lexed_end, crate::proofs::Readings::lexing_stops))]
fn lex_files(
    alloc: Global,
    files: &[(Path, Vec<u8>)],
    lexed: Vec<Lexed>,
) -> Result<Vec<Lexed>, ReadFault>
    requires { length lexed.items + length (plain files.now) < 2 ^ 32 }
    ensures ok { (front : List (List ℕ × List ℕ)) → AreLexed front lexed.items → IfOk result (λ all. AreLexed (front ++ plain files.now) all.items) }
    ensures err { (front : List (List ℕ × List ℕ)) → AreLexed front lexed.items → IfErr result (IsLexing (front ++ plain files.now)) }
{
    let mut all = lexed;
    let mut rest = files;
    while let Some((file, after)) = rest.split_first() {
        let cu = CuId(all.len() as u32);
        match lex_file(alloc, file.0.copy(alloc)?, &file.1, cu) {
            Ok(one) => all.push(one)?,
            Err(fault) => return Err(fault),
        }
        rest = after;
    }
    Ok(all)
}

// All files with their tokens, the prelude first.
fn lex_all(alloc: Global, files: &[(Path, Vec<u8>)]) -> Result<Vec<Lexed>, ReadFault>
    requires { length (plain files.now) + 2 < 2 ^ 32 }
    ensures ok { IfOk result (λ all. AreLexed (prelude_files ++ plain files.now) all.items) }
    ensures err { IfErr result (IsLexing (prelude_files ++ plain files.now)) }
{
    let mut lexed = Vec::new(alloc);
    match lex_prelude(alloc, b"prelude/0", lang_source(), 0) {
        Ok(lang) => lexed.push(lang)?,
        Err(fault) => return Err(fault),
    }
    match lex_prelude(alloc, b"prelude/1", io_source(), 1) {
        Ok(io) => lexed.push(io)?,
        Err(fault) => return Err(fault),
    }
    lex_files(alloc, files, lexed)
}

// Whether the files have more tokens than they may.
fn has_too_many(lexed: &[Lexed]) -> bool
    ensures { result ≡ passes Limits.TOKENS lexed.now }
{
    let mut left = Limits::TOKENS as usize;
    let mut rest = lexed;
    while let [one, after @ ..] = rest {
        let count = one.tokens.len();
        if count > left {
            return true;
        }
        left -= count;
        rest = after;
    }
    false
}

// The fault at the token of that number. A place past 4 GiB is answered for want of memory.
fn fault_at(lexed: &Lexed, cu: CuId, fault: ParseFault, number: u32) -> ReadFault
    ensures { Answers Limits.NESTING (kinds_of lexed.now) (Err fault) → offset_in lexed.now fault ≡ reading.offset_of lexed.now.tokens lexed.now.bytes number → IsUnparsed lexed.now cu result }
{
    match offset_of(lexed.tokens.as_slice(), lexed.bytes.bytes(), number) {
        Some(at) => ReadFault::Parse { cu, fault, at },
        None => ReadFault::OutOfMemory,
    }
}

// Why the tokens of a file are no unit, with the place where that shows.
fn parse_fault(lexed: &Lexed, cu: CuId, fault: ParseFault) -> ReadFault
    ensures { Answers Limits.NESTING (kinds_of lexed.now) (Err fault) → IsUnparsed lexed.now cu result }
{
    match fault {
        ParseFault::NoTree(number) => fault_at(lexed, cu, fault, number),
        ParseFault::TooDeep(number) => fault_at(lexed, cu, fault, number),
        ParseFault::OutOfMemory => ReadFault::OutOfMemory,
    }
}

// The tree of a file with its tokens. A text of 2 ^ 32 tokens is answered for want of memory.
fn parse_file(alloc: Global, lexed: Lexed, cu: CuId) -> Result<UnitAt, ReadFault>
    ensures ok { IfOk result (IsTreeOf lexed) }
    ensures err { IfErr result (IsUnparsed lexed cu) }
{
    if lexed.tokens.len() >= u32::MAX as usize {
        return Err(ReadFault::OutOfMemory);
    }
    let unit = match parse(alloc, lexed.tokens.as_slice()) {
        Ok(unit) => unit,
        Err(fault) => return Err(parse_fault(&lexed, cu, fault)),
    };
    Ok(UnitAt {
        path: lexed.path,
        bytes: lexed.bytes,
        tokens: lexed.tokens,
        unit,
    })
}

// The trees of all files.
#[tactic(auto, using(crate::proofs::Readings::trees_more, crate::proofs::Readings::parsing_stops))]
fn parse_all(alloc: Global, lexed: Vec<Lexed>) -> Result<Program, ReadFault>
    requires { length lexed.items < 2 ^ 32 }
    ensures ok { IfOk result (λ program. AreTrees lexed.items program.units) }
    ensures err { IfErr result (IsParsing lexed.items) }
{
    let mut units = Items::new(alloc);
    for one in lexed {
        match parse_file(alloc, one, CuId(units.len() as u32)) {
            Ok(unit) => units.push(unit)?,
            Err(fault) => return Err(fault),
        }
    }
    Ok(Program { units })
}

// The trees of all files, if they have no more tokens than they may.
fn parse_few(alloc: Global, lexed: Vec<Lexed>) -> Result<Program, ReadFault>
    requires few { length lexed.items < 2 ^ 32 }
    requires prelude { 2 ≤ length lexed.items }
    ensures { ParsesAs lexed.items result }
{
    if has_too_many(&lexed[2..]) {
        return Err(ReadFault::TooLarge(Size::Tokens));
    }
    parse_all(alloc, lexed)
}

/// The program of the files: the two units of the prelude, and then the unit of each file in the order of their paths (JLS 7.3). Where they are none, the
/// first reason: a size, bytes that are no tokens, too many tokens, tokens that are no unit.
pub fn read(alloc: Global, files: &Files) -> Result<Program, ReadFault>
    ensures { ReadsAs files.now result }
{
    if let Some(size) = too_large(files.entries()) {
        return Err(ReadFault::TooLarge(size));
    }
    match lex_all(alloc, files.entries()) {
        Ok(lexed) => parse_few(alloc, lexed),
        Err(fault) => Err(fault),
    }
}

// The trees of all files, however many tokens they have.
fn parse_units(alloc: Global, lexed: Vec<Lexed>) -> Result<Program, ReadFault>
    ensures { IfOk result (λ program. AreTrees lexed.items program.units) }
{
    if lexed.len() >= u32::MAX as usize {
        return Err(ReadFault::OutOfMemory);
    }
    parse_all(alloc, lexed)
}

/// The tree of one file, whose fault names the unit by the number that is given.
#[tactic(auto, using(crate::proofs::Readings::unit_of))]
pub fn read_unit(alloc: Global, path: Path, bytes: &[u8], cu: CuId) -> Result<UnitAt, ReadFault>
    ensures { IfOk result (IsUnitOf path bytes.now) }
{
    match lex_file(alloc, path, bytes, cu) {
        Ok(lexed) => parse_file(alloc, lexed, cu),
        Err(fault) => Err(fault),
    }
}

/// The program of files in the order that is given: the two units of the prelude, and then the unit of each file. No size is tested, and two files may
/// have one path. Where they are none, the first reason: bytes that are no tokens, tokens that are no unit.
#[tactic(auto, using(crate::proofs::Readings::units_of, crate::proofs::Readings::lexed_count, crate::proofs::Readings::units_shaped))]
pub fn read_units(alloc: Global, files: &[(Path, Vec<u8>)]) -> Result<Program, ReadFault>
    ensures ok { IfOk result (λ program. AreUnitsOf (prelude_files ++ plain files.now) program.units) }
    ensures shaped { IfOk result (λ program. AllByRecursion IsShaped (map (λ u. u.unit) program.units)) }
{
    if files.len() >= 0x8000_0000 {
        return Err(ReadFault::OutOfMemory);
    }
    match lex_all(alloc, files) {
        Ok(lexed) => parse_units(alloc, lexed),
        Err(fault) => Err(fault),
    }
}
