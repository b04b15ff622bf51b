// Reads a class token by token, and says of each token what it is to the names of locals and parameters.
ghost use Rattle.std.specs.Prelude.{◌≡◌, ◌≤◌, ◌+◌, IfOk, length, option_map, map, Some};
ghost use Rattle.jr_thin.specs.Reading.{word_terminal, symbol_terminal, terminal_of, text_of, plain_step, sum_step, name_step, next, is_end, count_plus, pluses, node_behind, site_of, nodes_of, method_after, sites_in};
ghost use Rattle.jr_thin.specs.Trees.{kinds_of};

use crate::sites::{Role, Site};
use jr_base::{Keyword, Kind, OutOfMemory, Symbol, Text, Token};
use std::alloc::Global;

/// What a token is to the grammar of the class.
#[derive(Clone, Copy)]
pub enum Terminal {
    Class,
    Static,
    Int,
    Return,
    Name,
    Literal,
    OpenParen,
    CloseParen,
    OpenBrace,
    CloseBrace,
    Comma,
    Semicolon,
    Assign,
    Plus,
    Other,
}

// What comes next.
#[derive(Clone, Copy)]
enum Phase {
    Start,
    ClassName,
    ClassOpen,
    Member,
    MemberInt,
    MethodName,
    ParamsOpen,
    FirstParam,
    ParamName,
    AfterParam,
    NextParam,
    BodyOpen,
    Statement,
    LocalName,
    LocalAssign,
    Term,
    AfterTerm,
    End,
}

// What a token comes to: the phase after it, what it is, and how many nodes begin with it, but for the operators of a sum.
#[derive(Clone, Copy)]
struct Step {
    phase: Phase,
    role: Role,
    nodes: u32,
    opens_sum: bool,
    ends_method: bool,
}

fn word_terminal(word: Keyword) -> Terminal
    ensures { result ≡ word_terminal word }
{
    match word {
        Keyword::Class => Terminal::Class,
        Keyword::Static => Terminal::Static,
        Keyword::Int => Terminal::Int,
        Keyword::Return => Terminal::Return,
        _ => Terminal::Other,
    }
}

fn symbol_terminal(symbol: Symbol) -> Terminal
    ensures { result ≡ symbol_terminal symbol }
{
    match symbol {
        Symbol::OpenParen => Terminal::OpenParen,
        Symbol::CloseParen => Terminal::CloseParen,
        Symbol::OpenBrace => Terminal::OpenBrace,
        Symbol::CloseBrace => Terminal::CloseBrace,
        Symbol::Comma => Terminal::Comma,
        Symbol::Semicolon => Terminal::Semicolon,
        Symbol::Assign => Terminal::Assign,
        Symbol::Plus => Terminal::Plus,
        _ => Terminal::Other,
    }
}

/// What the token is to the grammar of the class.
pub fn terminal_of(kind: &Kind) -> Terminal
    ensures { result ≡ terminal_of kind.now }
{
    match kind {
        Kind::Word(word) => word_terminal(*word),
        Kind::Sym(symbol) => symbol_terminal(*symbol),
        Kind::Ident(_) => Terminal::Name,
        Kind::Int(_) => Terminal::Literal,
        _ => Terminal::Other,
    }
}

fn plain_step(phase: Phase, nodes: u32) -> Option<Step>
    ensures { result ≡ Some (plain_step phase nodes) }
{
    Some(Step {
        phase,
        role: Role::Plain,
        nodes,
        opens_sum: false,
        ends_method: false,
    })
}

fn sum_step(nodes: u32) -> Option<Step>
    ensures { result ≡ Some (sum_step nodes) }
{
    Some(Step {
        phase: Phase::Term,
        role: Role::Plain,
        nodes,
        opens_sum: true,
        ends_method: false,
    })
}

fn name_step(phase: Phase, role: Role, nodes: u32) -> Option<Step>
    ensures { result ≡ Some (name_step phase role nodes) }
{
    Some(Step {
        phase,
        role,
        nodes,
        opens_sum: false,
        ends_method: false,
    })
}

#[tactic(auto, unfolding(crate::specs::Reading::next))]
fn next(phase: Phase, terminal: Terminal) -> Option<Step>
    ensures { result ≡ next phase terminal }
{
    match (phase, terminal) {
        (Phase::Start, Terminal::Class) => plain_step(Phase::ClassName, 2),
        (Phase::ClassName, Terminal::Name) => plain_step(Phase::ClassOpen, 0),
        (Phase::ClassOpen, Terminal::OpenBrace) => plain_step(Phase::Member, 0),
        (Phase::Member, Terminal::Static) => plain_step(Phase::MemberInt, 1),
        (Phase::Member, Terminal::CloseBrace) => plain_step(Phase::End, 0),
        (Phase::MemberInt, Terminal::Int) => plain_step(Phase::MethodName, 1),
        (Phase::MethodName, Terminal::Name) => plain_step(Phase::ParamsOpen, 0),
        (Phase::ParamsOpen, Terminal::OpenParen) => plain_step(Phase::FirstParam, 0),
        (Phase::FirstParam, Terminal::Int) => plain_step(Phase::ParamName, 0),
        (Phase::FirstParam, Terminal::CloseParen) => plain_step(Phase::BodyOpen, 0),
        (Phase::ParamName, Terminal::Name) => name_step(Phase::AfterParam, Role::Param, 2),
        (Phase::AfterParam, Terminal::Comma) => plain_step(Phase::NextParam, 0),
        (Phase::AfterParam, Terminal::CloseParen) => plain_step(Phase::BodyOpen, 0),
        (Phase::NextParam, Terminal::Int) => plain_step(Phase::ParamName, 0),
        (Phase::BodyOpen, Terminal::OpenBrace) => plain_step(Phase::Statement, 1),
        (Phase::Statement, Terminal::Int) => plain_step(Phase::LocalName, 0),
        (Phase::Statement, Terminal::Return) => sum_step(1),
        (Phase::Statement, Terminal::CloseBrace) => Some(Step {
            phase: Phase::Member,
            role: Role::Plain,
            nodes: 0,
            opens_sum: false,
            ends_method: true,
        }),
        (Phase::LocalName, Terminal::Name) => name_step(Phase::LocalAssign, Role::Local, 4),
        (Phase::LocalAssign, Terminal::Assign) => sum_step(0),
        (Phase::Term, Terminal::Literal) => plain_step(Phase::AfterTerm, 1),
        (Phase::Term, Terminal::Name) => name_step(Phase::AfterTerm, Role::Use, 2),
        (Phase::AfterTerm, Terminal::Plus) => plain_step(Phase::Term, 0),
        (Phase::AfterTerm, Terminal::Semicolon) => plain_step(Phase::Statement, 0),
        _ => None,
    }
}

fn is_end(phase: Phase) -> bool
    ensures { result ≡ is_end phase }
{
    matches!(phase, Phase::End)
}

fn pluses(tokens: &[Token]) -> usize
    ensures count { result ≡ pluses (kinds_of tokens.now) }
    ensures bound { result ≤ length tokens.now }
{
    let mut count = 0;
    for token in tokens {
        match terminal_of(&token.kind) {
            Terminal::Plus => count += 1,
            Terminal::Semicolon => break,
            _ => {}
        }
    }
    count
}

/// A number and more, where it fits.
pub fn added(number: u32, more: usize) -> Result<u32, OutOfMemory>
    ensures { IfOk result (λ sum. sum ≡ number + more) }
{
    let more = u32::try_from(more).map_err(|_| OutOfMemory)?;
    number.checked_add(more).ok_or(OutOfMemory)
}

fn node_behind(role: Role) -> usize
    ensures { result ≡ node_behind role }
{
    match role {
        Role::Plain => 0,
        Role::Param => 0,
        Role::Local => 2,
        Role::Use => 1,
    }
}

fn text_of(kind: &Kind) -> &[u8]
    ensures { result.now ≡ text_of kind.now }
{
    match kind {
        Kind::Ident(name) => name.bytes(),
        _ => &[],
    }
}

fn site_of(
    alloc: Global,
    role: Role,
    method: u32,
    node: u32,
    kind: &Kind,
) -> Result<Site, OutOfMemory>
    ensures { IfOk result (λ site. site ≡ site_of role method node kind.now) }
{
    if let Role::Plain = role {
        return Ok(Site {
            role: Role::Plain,
            method: 0,
            node: 0,
            text: Text::new(Vec::new(alloc)),
        });
    }
    Ok(Site {
        role,
        method,
        node: added(node, node_behind(role))?,
        text: Text::new(text_of(kind).to_vec(alloc)?),
    })
}

// How many nodes begin with a token.
fn nodes_of(step: Step, after: &[Token]) -> Result<usize, OutOfMemory>
    ensures { IfOk result (λ nodes. nodes ≡ nodes_of step (kinds_of after.now)) }
{
    if step.opens_sum {
        return Ok(added(step.nodes, pluses(after))? as usize);
    }
    Ok(step.nodes as usize)
}

fn method_after(method: u32, step: Step) -> Result<u32, OutOfMemory>
    ensures { IfOk result (λ number. number ≡ method_after method step) }
{
    if step.ends_method {
        added(method, 1)
    } else {
        Ok(method)
    }
}

/// What each token of a class is to the names of its locals and parameters. None where the tokens are no class.
pub fn sites_in(alloc: Global, tokens: &[Token]) -> Result<Option<Vec<Site>>, OutOfMemory>
    ensures { IfOk result (λ found. option_map (λ sites. sites.items) found ≡ sites_in (kinds_of tokens.now)) }
{
    let mut sites = Vec::new(alloc);
    let mut phase = Phase::Start;
    let mut method = 0;
    let mut node = 0;
    for (index, token) in tokens.iter().enumerate() {
        let Some(step) = next(phase, terminal_of(&token.kind)) else {
            return Ok(None);
        };
        sites.push(site_of(alloc, step.role, method, node, &token.kind)?)?;
        phase = step.phase;
        method = method_after(method, step)?;
        node = added(node, nodes_of(step, &tokens[index + 1..])?)?;
    }
    if is_end(phase) {
        Ok(Some(sites))
    } else {
        Ok(None)
    }
}
