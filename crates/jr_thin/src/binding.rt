// Finds what each name refers to.
ghost use Rattle.std.specs.Prelude.{◌≡◌, ◌+◌, ◌<◌, ◌↔◌, ℕ, List, IsTrue, IfOk, OnOk, MatchOption, length, Some, ⊤, if◌then◌else◌, bytes_eq};
ghost use Rattle.jr_thin.specs.Binding.{MethodsRise, IsLast, IsFoundHere, last_of, KeepsRuleBelow, IsStuck, IsUnbound};
ghost use Rattle.jr_thin.specs.Scopes.{is_declaration, IsBinding, IsTarget, KeepsRule};
ghost use Rattle.jr_thin.specs.Sites.{site_at};

use crate::sites::{Role, Site};
use jr_base::OutOfMemory;
use std::alloc::Global;
use std::collections::BTreeMap;

/// Whether the token declares a local or a parameter.
pub fn is_declaration(role: Role) -> bool
    ensures { IsTrue result ↔ is_declaration role }
{
    matches!(role, Role::Param | Role::Local)
}

// The last declaration of the spelling.
fn last_of(declared: &BTreeMap<&[u8], usize>, text: &[u8]) -> Option<usize>
    ensures { result ≡ last_of declared.now text.now }
{
    declared.get(text).copied()
}

// Makes the declaration the last of its spelling.
fn declare<'a>(
    declared: &mut BTreeMap<&'a [u8], usize>,
    text: &'a [u8],
    index: usize,
) -> Result<(), OutOfMemory>
    ensures { OnOk result ((other : List ℕ) → last_of declared.new other
        ≡ (if bytes_eq text.now other then Some index else last_of declared.old other)) }
{
    declared.insert(text, index)?;
    Ok(())
}

// Takes note of the token, where it is a declaration.
fn note<'a>(
    declared: &mut BTreeMap<&'a [u8], usize>,
    sites: &'a [Site],
    index: usize,
) -> Result<(), OutOfMemory>
    requires inside { index < length sites.now }
    ensures { OnOk result ((text : List ℕ) → IsLast sites.now text index (last_of declared.old text)
        → IsLast sites.now text (index + 1) (last_of declared.new text)) }
{
    let site = &sites[index];
    if is_declaration(site.role) {
        return declare(declared, site.text.bytes(), index);
    }
    Ok(())
}

// The declaration of the name's spelling in its method before it, where `last` is the last before it in any method.
fn found_here(sites: &[Site], index: usize, last: Option<usize>) -> Option<usize>
    requires inside { index < length sites.now }
    requires rises { MethodsRise sites.now }
    requires last { IsLast sites.now (site_at sites.now index).text index last }
    ensures { IsFoundHere sites.now index result }
{
    match last {
        None => None,
        Some(earlier) => {
            if sites[earlier].method == sites[index].method {
                Some(earlier)
            } else {
                None
            }
        }
    }
}

// What a token refers to. None where it is a name that refers to nothing, or that is declared again.
fn target_of(sites: &[Site], index: usize, here: Option<usize>) -> Option<Option<usize>>
    requires inside { index < length sites.now }
    requires here { IsFoundHere sites.now index here }
    requires kept { KeepsRuleBelow sites.now index }
    ensures target { MatchOption result (IsStuck sites.now index) (λ target. IsTarget sites.now index target) }
    ensures kept { MatchOption result ⊤ (λ target. KeepsRuleBelow sites.now (index + 1)) }
{
    match sites[index].role {
        Role::Plain => Some(None),
        Role::Use => match here {
            Some(declaration) => Some(Some(declaration)),
            None => None,
        },
        Role::Param | Role::Local => match here {
            Some(_) => None,
            None => Some(Some(index)),
        },
    }
}

/// What each token refers to. None where not all names bind, or a local or parameter is declared in the scope of one of
/// its name.
pub fn targets(alloc: Global, sites: &[Site]) -> Result<Option<Vec<Option<usize>>>, OutOfMemory>
    requires { MethodsRise sites.now }
    ensures { IfOk result (λ found. MatchOption found (IsUnbound sites.now)
        (λ targets. IsBinding sites.now targets.items × KeepsRule sites.now)) }
{
    let mut targets = Vec::new(alloc);
    let mut declared = BTreeMap::new(alloc);
    for index in 0..sites.len() {
        let last = last_of(&declared, sites[index].text.bytes());
        let here = found_here(sites, index, last);
        let Some(target) = target_of(sites, index, here) else {
            return Ok(None);
        };
        targets.push(target)?;
        note(&mut declared, sites, index)?;
    }
    Ok(Some(targets))
}
