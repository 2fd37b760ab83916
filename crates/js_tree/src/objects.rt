//! The objects whose members are forms of the language.
ghost use Rattle.std.specs.Prelude.{◌≡◌};
ghost use Rattle.js_tree.specs.Views.{plain_expr};
ghost use Rattle.js_tree.specs.Nesting.{is_object, is_object_name, is_member, is_log_of};

use crate::tree::{Expr, Form};

/// Whether the name is that of an object whose members are forms of the language.
pub fn is_object(text: &str) -> bool
    ensures { result ≡ is_object text.now }
{
    text == "bp" || text == "Math"
}

/// Whether the member is `bp.log`.
pub fn is_log(object: &Expr, word: &str) -> bool
    ensures { result ≡ is_log_of (plain_expr object.now) word.now }
{
    match &object.form {
        Form::Use(name) => name.text.as_str() == "bp" && word == "log",
        _ => false,
    }
}

/// Whether the tree is `bp`, `Math` or `bp.log`.
pub fn is_object_name(tree: &Expr) -> bool
    ensures { result ≡ is_object_name (plain_expr tree.now) }
{
    match &tree.form {
        Form::Use(name) => is_object(name.text.as_str()),
        Form::Member(object, word) => is_log(object, word.as_str()),
        _ => false,
    }
}

/// Whether the tree is a member.
pub fn is_member(tree: &Expr) -> bool
    ensures { result ≡ is_member (plain_expr tree.now) }
{
    match &tree.form {
        Form::Member(_, _) => true,
        _ => false,
    }
}
