//! The steps of a walk: mentions that it adds, looked up in its scopes, and scopes that it enters and leaves.
ghost use Rattle.std.specs.Prelude.{◌≡◌, ◌++◌, IfOk, OnOk};
ghost use Rattle.std.specs.Arc.{arc_value};
ghost use Rattle.js_names.specs.Unresolved.{one_mention, read_mention, assign_mention, begin_mention, parameter_mentions, in_function, in_loop, declared_role, word_at};
ghost use Rattle.js_names.specs.Scopes.{for_of_role};
ghost use Rattle.js_names.specs.Mentions.{look_up, functions_of, owner_in};
ghost use Rattle.js_names.specs.Views.{mention_of, scope_of, scopes_of};
ghost use Rattle.js_names.specs.inner.Walks.{Adds, Entered, Left, scopes_in};

use crate::forms::{is_reserved, is_undefined};
use crate::lookup::{clashes, declared_at};
use crate::mention::{Around, Mention, Role, What, copy_of, word_at};
use crate::scope::{Scope, Walk};
use js_tree::{DeclareKind, Name, Spot, is_object};
use std::alloc::{AllocError, Global};
use std::sync::Arc;

/// Adds the function that begins with a scope.
fn push_owner(functions: &mut Vec<u32>, scope: &Scope) -> Result<(), AllocError>
    ensures { OnOk result (functions.new.items ≡ functions.old.items ++ owner_in
        (scope_of scope.now)) }
{
    if scope.whole {
        functions.push(scope.owner)?;
    }
    Ok(())
}

/// The functions around, the innermost first.
fn functions_of(alloc: Global, scopes: &[Scope]) -> Result<Vec<u32>, AllocError>
    ensures { IfOk result (λ fs. fs.items ≡ functions_of (scopes_of scopes.now)) }
{
    let mut functions = Vec::new(alloc);
    let mut i = scopes.len();
    while i > 0 {
        i -= 1;
        push_owner(&mut functions, &scopes[i])?;
    }
    Ok(functions)
}

/// These functions, shared with the mention before where they are those around it.
fn shared(
    alloc: Global,
    functions: Vec<u32>,
    before: Option<&Mention>,
) -> Result<Arc<Vec<u32>>, AllocError>
    ensures { IfOk result (λ fs. (arc_value fs).items ≡ functions.items) }
{
    if let Some(before) = before
        && before.functions.as_slice() == functions.as_slice()
    {
        return before.functions.clone();
    }
    Ok(Arc::new(alloc, functions)?)
}

/// A mention that comes after another one, its name looked up in the scopes around it.
#[tactic(auto, unfolding(crate::specs::Mentions::look_up))]
fn look_up(
    alloc: Global,
    scopes: &[Scope],
    before: Option<&Mention>,
    around: Around,
    what: What,
    name: Name,
) -> Result<Mention, AllocError>
    ensures { IfOk result (λ p. mention_of p ≡ look_up
        (record { what = what; name = name; scopes = scopes_of scopes.now; around = around })) }
{
    let declared = declared_at(scopes, what, name.text.as_str());
    let clashes = clashes(scopes, what, &name);
    let functions = shared(alloc, functions_of(alloc, scopes)?, before)?;
    Ok(Mention {
        what,
        name,
        around,
        declared,
        functions,
        clashes,
    })
}

/// One more mention.
fn put(walk: &mut Walk, around: Around, what: What, name: Name) -> Result<(), AllocError>
    ensures { OnOk result (Adds walk.old walk.new
        (one_mention (scopes_in walk.old) around what name)) }
{
    let before = walk.mentions.last();
    let mention = look_up(walk.alloc, &walk.scopes, before, around, what, name)?;
    walk.mentions.push(mention)?;
    Ok(())
}

/// One more mention, at a name of the tree.
pub(crate) fn put_name(
    walk: &mut Walk,
    around: Around,
    what: What,
    name: &Name,
) -> Result<(), AllocError>
    ensures { OnOk result (Adds walk.old walk.new
        (one_mention (scopes_in walk.old) around what name.now)) }
{
    put(walk, around, what, copy_of(name)?)
}

/// One more mention, at a word.
pub(crate) fn put_word(
    walk: &mut Walk,
    around: Around,
    what: What,
    word: &str,
    spot: Spot,
) -> Result<(), AllocError>
    ensures { OnOk result (Adds walk.old walk.new
        (one_mention (scopes_in walk.old) around what (word_at word.now spot))) }
{
    let name = word_at(walk.alloc, word, spot)?;
    put(walk, around, what, name)
}

/// A name that is read.
pub(crate) fn put_read(walk: &mut Walk, around: Around, name: &Name) -> Result<(), AllocError>
    ensures { OnOk result (Adds walk.old walk.new
        (read_mention (scopes_in walk.old) around name.now)) }
{
    let text = name.text.as_str();
    if is_object(text) {
        put_name(walk, around, What::Misuses, name)
    } else if is_undefined(text) {
        Ok(())
    } else {
        put_name(walk, around, What::Reads, name)
    }
}

/// A name that is assigned or updated.
pub(crate) fn put_changed(walk: &mut Walk, around: Around, name: &Name) -> Result<(), AllocError>
    ensures { OnOk result (Adds walk.old walk.new
        (assign_mention (scopes_in walk.old) around name.now)) }
{
    let what = if is_reserved(name.text.as_str()) {
        What::Misuses
    } else {
        What::Assigns
    };
    put_name(walk, around, what, name)
}

/// The first token of a function, or of the program.
pub(crate) fn put_begin(walk: &mut Walk, owner: u32, spot: Spot) -> Result<(), AllocError>
    ensures { OnOk result (Adds walk.old walk.new (begin_mention (scopes_in walk.old) owner spot)) }
{
    put_word(walk, in_function(owner), What::Begins, "", spot)
}

/// The parameters of a function.
pub(crate) fn put_parameters(
    walk: &mut Walk,
    around: Around,
    names: &[Name],
) -> Result<(), AllocError>
    ensures { OnOk result (Adds walk.old walk.new
        (parameter_mentions (scopes_in walk.old) around names.now)) }
{
    for name in names {
        put_name(walk, around, What::Declares(Role::Parameter), name)?;
    }
    Ok(())
}

/// The role of a name that is declared by this word.
pub(crate) fn declared_role(kind: DeclareKind) -> Role
    ensures { result ≡ declared_role kind }
{
    match kind {
        DeclareKind::Const => Role::Const,
        DeclareKind::Let => Role::Let,
        DeclareKind::Var => Role::Var,
    }
}

/// The role of the name of a `for` over a list.
pub(crate) fn for_of_role(kind: DeclareKind) -> Role
    ensures { result ≡ for_of_role kind }
{
    match kind {
        DeclareKind::Const => Role::Const,
        DeclareKind::Let => Role::Let,
        DeclareKind::Var => Role::Let,
    }
}

/// Inside a function, and outside its loops.
pub(crate) fn in_function(owner: u32) -> Around
    ensures { result ≡ in_function owner }
{
    Around {
        owner,
        looped: false,
    }
}

/// Inside a loop of the same function.
pub(crate) fn in_loop(around: Around) -> Around
    ensures { result ≡ in_loop around }
{
    Around {
        looped: true,
        ..around
    }
}

/// One more scope.
pub(crate) fn enter(walk: &mut Walk, scope: Scope) -> Result<(), AllocError>
    ensures { OnOk result (Entered walk.old walk.new scope) }
{
    walk.scopes.push(scope)?;
    Ok(())
}

/// Takes the innermost scope off.
pub(crate) fn leave(walk: &mut Walk)
    ensures { Left walk.old walk.new }
{
    let _ = walk.scopes.pop();
}
