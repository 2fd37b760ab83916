//! Look-ups of names in the scopes around a mention, whose innermost is the last.
ghost use Rattle.std.specs.Prelude.{◌≡◌, ◌∷◌, [], nat_lt, ◌&&◌, not};
ghost use Rattle.js_names.specs.Mentions.{earlier, found, found_here, found_var, blocked, repeated, is_parameter, test_of, clashes, declared_at};
ghost use Rattle.js_names.specs.Views.{scope_of, scopes_of};

use crate::forms::is_reserved;
use crate::mention::{Declared, Role, What};
use crate::scope::Scope;
use js_tree::Name;

/// The declaration that stands first in the text.
fn earlier(own: Option<Declared>, var: Option<Declared>) -> Option<Declared>
    ensures { result ≡ earlier own var }
{
    match (own, var) {
        (Some(own), Some(var)) => Some(if var.offset < own.offset { var } else { own }),
        (Some(own), None) => Some(own),
        (None, var) => var,
    }
}

/// The declaration of a name in one scope.
fn found_here(scope: &Scope, name: &str) -> Option<Declared>
    ensures { result ≡ found_here (scope_of scope.now) name.now }
{
    let own = scope.own.get(name).copied();
    if scope.whole {
        earlier(own, scope.vars.get(name).copied())
    } else {
        own
    }
}

/// The innermost declaration of a name.
fn found(scopes: &[Scope], name: &str) -> Option<Declared>
    ensures { result ≡ found (scopes_of scopes.now) name.now }
{
    let mut i = scopes.len();
    while i > 0 {
        i -= 1;
        if let Some(declared) = found_here(&scopes[i], name) {
            return Some(declared);
        }
    }
    None
}

/// Its declaration in the innermost function, or in the program.
fn found_var(scopes: &[Scope], name: &str) -> Option<Declared>
    ensures { result ≡ found_var (scopes_of scopes.now) name.now }
{
    let mut i = scopes.len();
    while i > 0 {
        i -= 1;
        let scope = &scopes[i];
        if scope.whole {
            return found_here(scope, name);
        }
    }
    None
}

/// Whether an own name of the scope stands before the offset, and is not a parameter.
fn clashes_here(scope: &Scope, name: &str, offset: u32) -> bool
    ensures { result ≡ test_of ((scope_of scope.now).own name.now)
        (λ d. nat_lt d.offset offset && not (is_parameter d.role)) }
{
    match scope.own.get(name) {
        Some(declared) => declared.offset < offset && declared.role != Role::Parameter,
        None => false,
    }
}

/// Whether a `var` clashes with an earlier name in the scopes up to its function.
fn blocked(scopes: &[Scope], name: &str, offset: u32) -> bool
    ensures { result ≡ blocked (scopes_of scopes.now) name.now offset }
{
    let mut i = scopes.len();
    while i > 0 {
        i -= 1;
        let scope = &scopes[i];
        if clashes_here(scope, name, offset) {
            return true;
        }
        if scope.whole {
            return false;
        }
    }
    false
}

/// Whether a scope declares the name before the offset.
#[tactic(auto, unfolding(crate::specs::Mentions::repeated))]
fn repeated_here(scope: &Scope, name: &str, offset: u32) -> bool
    ensures { result ≡ repeated (scope_of scope.now ∷ []) name.now offset }
{
    if let Some(declared) = scope.own.get(name)
        && declared.offset < offset
    {
        return true;
    }
    match scope.vars.get(name) {
        Some(declared) => declared.offset < offset,
        None => false,
    }
}

/// Whether the innermost scope declares the name before the offset.
fn repeated(scopes: &[Scope], name: &str, offset: u32) -> bool
    ensures { result ≡ repeated (scopes_of scopes.now) name.now offset }
{
    match scopes {
        [] => false,
        [.., scope] => repeated_here(scope, name, offset),
    }
}

/// Whether a declared name is the later of two that clash, or can't be declared.
pub(crate) fn clashes(scopes: &[Scope], what: What, name: &Name) -> bool
    ensures { result ≡ clashes what (scopes_of scopes.now) name.now }
{
    match what {
        What::Declares(role) => {
            let text = name.text.as_str();
            is_reserved(text)
                || if role == Role::Var {
                    blocked(scopes, text, name.spot.at)
                } else {
                    repeated(scopes, text, name.spot.at)
                }
        }
        _ => false,
    }
}

/// The declaration that a name stands for.
pub(crate) fn declared_at(scopes: &[Scope], what: What, name: &str) -> Option<Declared>
    ensures { result ≡ declared_at what (scopes_of scopes.now) name.now }
{
    match what {
        What::Declares(role) => {
            if role == Role::Var {
                found_var(scopes, name)
            } else {
                found(scopes, name)
            }
        }
        What::Reads | What::Assigns => found(scopes, name),
        _ => None,
    }
}
