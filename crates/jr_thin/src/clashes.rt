// What becomes of a method when one of its declarations takes the name of another.
ghost use Rattle.std.specs.Prelude.{◌≡◌, ◌<◌, ◌↔◌, ℕ, IsTrue, IfSome, MatchOption, length};
ghost use Rattle.jr_thin.specs.Clashes.{IsNamed, IsClash, AreParams, IsLostUse, IsFirstLostUse};

use crate::binding::is_declaration;
use crate::sites::{Role, Site};

/// Another declaration of the name in the method of the declaration.
pub fn clash(sites: &[Site], declaration: usize, name: &[u8]) -> Option<usize>
    requires { declaration < length sites.now }
    ensures { MatchOption result ((e : ℕ) → IsClash sites.now name.now declaration e → ⊥) (λ e. IsClash sites.now name.now declaration e) }
{
    for index in 0..sites.len() {
        if index != declaration && is_named(&sites[index], sites[declaration].method, name) {
            return Some(index);
        }
    }
    None
}

// Whether the token declares the name in the method.
fn is_named(site: &Site, method: u32, name: &[u8]) -> bool
    ensures { IsTrue result ↔ IsNamed site.now method name.now }
{
    is_declaration(site.role) && site.method == method && site.text.bytes() == name
}

fn are_params(sites: &[Site], first: usize, last: usize) -> bool
    requires first { first < length sites.now }
    requires last { last < length sites.now }
    ensures { IsTrue result ↔ AreParams sites.now first last }
{
    sites[first].role == Role::Param && sites[last].role == Role::Param
}

// Whether the use is lost, where the declarations `first` and `last` have one name now.
fn is_lost(
    sites: &[Site],
    targets: &[Option<usize>],
    first: usize,
    last: usize,
    index: usize,
) -> bool
    requires first { first < length sites.now }
    requires last { last < length sites.now }
    requires inside { index < length sites.now }
    requires size { length targets.now ≡ length sites.now }
    ensures { IsTrue result ↔ IsLostUse sites.now targets.now first last index }
{
    if sites[index].role != Role::Use || index <= last {
        return false;
    }
    targets[index] == Some(first)
        || (targets[index] == Some(last) && are_params(sites, first, last))
}

/// The first use that is lost, where the declarations `first` and `last` have one name now.
pub fn first_lost(
    sites: &[Site],
    targets: &[Option<usize>],
    first: usize,
    last: usize,
) -> Option<usize>
    requires first { first < length sites.now }
    requires last { last < length sites.now }
    requires size { length targets.now ≡ length sites.now }
    ensures first { MatchOption result ((u : ℕ) → IsLostUse sites.now targets.now first last u → ⊥)
        (λ u. IsFirstLostUse sites.now targets.now first last u) }
    ensures inside { IfSome result (λ u. u < length sites.now) }
{
    for index in 0..sites.len() {
        if is_lost(sites, targets, first, last, index) {
            return Some(index);
        }
    }
    None
}
