// The line of an answer.
ghost use Rattle.std.specs.Prelude.{◌≡◌, ◌++◌, [], IfOk, codes, decimal};
ghost use Rattle.jr_top.specs.Line.{line_of, report_line, fault_line, field_text, request_prefix, unit_text, place_text, phase_word, edge_word, size_word, lex_word, parse_word, path_text};

use crate::status::{Edge, EdgeKind, NotCompiling, Phase, Report, Status};
use jr_base::{CuId, OutOfMemory, Path, Place, Size, Text};
use std::alloc::Global;
use std::marker::Model;

/// The line of the answer, with its end. The paths are those of the units from 2 on.
pub fn line_of(alloc: Global, paths: &[Path], status: &Status) -> Result<Vec<u8>, OutOfMemory>
    ensures { IfOk result (λ bytes. bytes.items ≡ line_of paths.now status.now) }
{
    match status {
        Status::Done(report) => report_line(alloc, report),
        Status::BadWords => whole(alloc, "bad words\n"),
        Status::BadRequest {
            request,
            reason,
            field,
        } => LineWriter::of_request(alloc, *request)?
            .text("bad request: ")?
            .number(u32::from(*reason))?
            .field(field)?
            .end(),
        Status::NotCompiling(fault) => fault_line(alloc, paths, *fault),
        Status::NoSpelling { request, place, .. } => LineWriter::of_request(alloc, *request)?
            .text("no spelling: ")?
            .place(paths, *place)?
            .end(),
        Status::LostEdge { request, edge } => lost_edge(alloc, paths, *request, *edge),
        Status::BrokenRule {
            request,
            rule,
            place,
        } => LineWriter::of_request(alloc, *request)?
            .text("broken rule: ")?
            .number(u32::from(rule.number()))?
            .text(" ")?
            .place(paths, *place)?
            .end(),
        Status::StoreFault { phase } => LineWriter::new(alloc)
            .text("store fault: ")?
            .text(phase_word(*phase))?
            .end(),
        Status::SourceFault => whole(alloc, "input fault\n"),
        Status::SinkFault => whole(alloc, ""),
        Status::TooLarge { what, request } => LineWriter::of_request(alloc, *request)?
            .text("too large: ")?
            .text(size_word(*what))?
            .end(),
        Status::OutOfMemory => whole(alloc, "out of memory\n"),
        Status::BadJournal => whole(alloc, "bad journal\n"),
        Status::NoUndo { reason, path } => no_undo(alloc, *reason, path),
        Status::StillUsed { place } => LineWriter::new(alloc)
            .text("still used: ")?
            .place(paths, *place)?
            .end(),
        Status::Differs { request, place } => LineWriter::of_request(alloc, *request)?
            .text("differs: ")?
            .place(paths, *place)?
            .end(),
    }
}

fn whole(alloc: Global, text: &str) -> Result<Vec<u8>, OutOfMemory>
    ensures { IfOk result (λ bytes. bytes.items ≡ text.now) }
{
    Ok(text.as_bytes().to_vec(alloc)?)
}

fn report_line(alloc: Global, report: &Report) -> Result<Vec<u8>, OutOfMemory>
    ensures { IfOk result (λ bytes. bytes.items ≡ report_line report.now) }
{
    match report {
        Report::Changed(files) => LineWriter::new(alloc)
            .text("done, files changed: ")?
            .number(*files)?
            .end(),
        Report::Checked(files) => LineWriter::new(alloc)
            .text("ok, files: ")?
            .number(*files)?
            .end(),
        Report::Printed(text) => Ok(text.bytes().to_vec(alloc)?),
    }
}

fn fault_line(alloc: Global, paths: &[Path], fault: NotCompiling) -> Result<Vec<u8>, OutOfMemory>
    ensures { IfOk result (λ bytes. bytes.items ≡ fault_line paths.now fault) }
{
    let line = LineWriter::new(alloc);
    match fault {
        NotCompiling::Lex { kind, place } => line
            .text("not compiling: lex ")?
            .text(lex_word(kind))?
            .text(" ")?
            .place(paths, place)?
            .end(),
        NotCompiling::Parse { kind, place } => line
            .text("not compiling: parse ")?
            .text(parse_word(kind))?
            .text(" ")?
            .place(paths, place)?
            .end(),
        NotCompiling::PathMismatch(unit) => line
            .text("not compiling: path ")?
            .unit(paths, unit)?
            .end(),
        NotCompiling::Duplicate(place) => line
            .text("not compiling: duplicate ")?
            .place(paths, place)?
            .end(),
        NotCompiling::Cycle(place) => line
            .text("not compiling: cycle ")?
            .place(paths, place)?
            .end(),
        NotCompiling::Unbound(place) => line
            .text("not compiling: unbound ")?
            .place(paths, place)?
            .end(),
        NotCompiling::Rule(rule, place) => line
            .text("not compiling: rule ")?
            .number(u32::from(rule.number()))?
            .text(" ")?
            .place(paths, place)?
            .end(),
    }
}

fn no_undo(alloc: Global, reason: u8, path: &Option<Path>) -> Result<Vec<u8>, OutOfMemory>
    ensures { IfOk result (λ bytes. bytes.items ≡ codes "no undo: " ++ decimal reason ++ path_text path.now ++ codes "\n") }
{
    LineWriter::new(alloc)
        .text("no undo: ")?
        .number(u32::from(reason))?
        .path(path)?
        .end()
}

fn lost_edge(
    alloc: Global,
    paths: &[Path],
    request: u32,
    edge: Edge,
) -> Result<Vec<u8>, OutOfMemory>
    ensures { IfOk result (λ bytes. bytes.items ≡ request_prefix request ++ codes "lost edge: " ++ edge_word edge.kind ++ codes " "
        ++ place_text paths.now edge.first ++ codes " " ++ place_text paths.now edge.second ++ codes "\n") }
{
    lost_edge_of(alloc, request, edge.kind)?
        .place(paths, edge.first)?
        .text(" ")?
        .place(paths, edge.second)?
        .end()
}

fn lost_edge_of(alloc: Global, request: u32, kind: EdgeKind) -> Result<LineWriter, OutOfMemory>
    ensures { IfOk result (λ line. line ≡ request_prefix request ++ codes "lost edge: " ++ edge_word kind ++ codes " ") }
{
    LineWriter::of_request(alloc, request)?
        .text("lost edge: ")?
        .text(edge_word(kind))?
        .text(" ")
}

fn phase_word(phase: Phase) -> &'static str
    ensures { result.now ≡ phase_word phase }
{
    match phase {
        Phase::Recovering => "recovering",
        Phase::Reading => "reading",
        Phase::Writing => "writing",
    }
}

fn edge_word(kind: EdgeKind) -> &'static str
    ensures { result.now ≡ edge_word kind }
{
    match kind {
        EdgeKind::Control => "control",
        EdgeKind::Dispatch => "dispatch",
        EdgeKind::DefUse => "def-use",
    }
}

fn size_word(size: Size) -> &'static str
    ensures { result.now ≡ size_word size }
{
    match size {
        Size::Files => "files",
        Size::Path => "path",
        Size::File => "file",
        Size::Total => "total",
        Size::Tokens => "tokens",
        Size::Nesting => "nesting",
        Size::Flow => "flow",
        Size::Input => "input",
        Size::Requests => "requests",
    }
}

fn lex_word(kind: u8) -> &'static str
    ensures { result.now ≡ lex_word kind }
{
    match kind {
        1 => "BadByte",
        2 => "OpenComment",
        3 => "OpenLiteral",
        4 => "BadEscape",
        5 => "BadNumber",
        _ => "NotUtf8",
    }
}

fn parse_word(kind: u8) -> &'static str
    ensures { result.now ≡ parse_word kind }
{
    match kind {
        1 => "NoTree",
        _ => "TooDeep",
    }
}

// A line that is being put together.
#[derive(Drop)]
struct LineWriter {
    alloc: Global,
    bytes: Vec<u8>,
}

impl Model for LineWriter {
    ghost use Rattle.std.specs.Prelude.{List, ℕ};

    ghost Value = { List ℕ };

    ghost view = { λ l. l.bytes.items };
}

impl LineWriter {
    fn new(alloc: Global) -> LineWriter
        ensures { result ≡ [] }
    {
        LineWriter {
            alloc,
            bytes: Vec::new(alloc),
        }
    }

    // The beginning of the line of a request.
    fn of_request(alloc: Global, request: u32) -> Result<LineWriter, OutOfMemory>
        ensures { IfOk result (λ line. line ≡ request_prefix request) }
    {
        if request == 0 {
            return Ok(LineWriter::new(alloc));
        }
        LineWriter::new(alloc)
            .text("request ")?
            .number(request)?
            .text(": ")
    }

    fn bytes(self, bytes: &[u8]) -> Result<LineWriter, OutOfMemory>
        ensures { IfOk result (λ line. line ≡ self ++ bytes.now) }
    {
        let mut line = self.bytes;
        line.extend_from_slice(bytes)?;
        Ok(LineWriter {
            alloc: self.alloc,
            bytes: line,
        })
    }

    fn text(self, text: &str) -> Result<LineWriter, OutOfMemory>
        ensures { IfOk result (λ line. line ≡ self ++ text.now) }
    {
        self.bytes(text.as_bytes())
    }

    fn number(self, number: u32) -> Result<LineWriter, OutOfMemory>
        ensures { IfOk result (λ line. line ≡ self ++ decimal number) }
    {
        let digits = format!(in self.alloc; "{number}")?;
        self.text(&digits)
    }

    fn unit(self, paths: &[Path], unit: CuId) -> Result<LineWriter, OutOfMemory>
        ensures { IfOk result (λ line. line ≡ self ++ unit_text paths.now unit.0) }
    {
        if unit.0 < 2 {
            return self.text("prelude");
        }
        match paths.get((unit.0 - 2) as usize) {
            Some(path) => self.bytes(path.bytes()),
            None => self.text(""),
        }
    }

    fn place(self, paths: &[Path], place: Place) -> Result<LineWriter, OutOfMemory>
        ensures { IfOk result (λ line. line ≡ self ++ place_text paths.now place) }
    {
        if place.cu.0 < 2 {
            return self.text("prelude");
        }
        self.unit(paths, place.cu)?.text(":")?.number(place.at)
    }

    fn field(self, field: &Option<Text>) -> Result<LineWriter, OutOfMemory>
        ensures { IfOk result (λ line. line ≡ self ++ field_text field.now) }
    {
        match field {
            Some(field) => self.text(" ")?.bytes(field.bytes()),
            None => self.text(""),
        }
    }

    fn path(self, path: &Option<Path>) -> Result<LineWriter, OutOfMemory>
        ensures { IfOk result (λ line. line ≡ self ++ path_text path.now) }
    {
        match path {
            Some(path) => self.text(" ")?.bytes(path.bytes()),
            None => self.text(""),
        }
    }

    fn end(self) -> Result<Vec<u8>, OutOfMemory>
        ensures { IfOk result (λ bytes. bytes.items ≡ self ++ codes "\n") }
    {
        Ok(self.text("\n")?.bytes)
    }
}
