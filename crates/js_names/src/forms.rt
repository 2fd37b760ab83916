//! Which names and members are those of the language itself.
ghost use Rattle.std.specs.Prelude.{◌≡◌, Some, None, option_copied, codes, if◌then◌else◌};
ghost use Rattle.js_tree.specs.Nesting.{is_object, is_log_of};
ghost use Rattle.js_tree.specs.Views.{plain_expr};
ghost use Rattle.js_names.specs.Forms.{is_undefined, is_reserved, object_of, owner_of, builtin_at, called_builtin, value_builtin};

use js_program::{Builtin, builtin_of};
use js_tree::{Expr, Form, Name, is_log, is_object};

/// Whether the name is that of the value `undefined`.
pub fn is_undefined(text: &str) -> bool
    ensures { result ≡ is_undefined text.now }
{
    text == "undefined"
}

/// Whether the name is one that can't be declared.
pub(crate) fn is_reserved(text: &str) -> bool
    ensures { result ≡ is_reserved text.now }
{
    is_object(text) || is_undefined(text)
}

/// `bp` or `Math`.
pub fn object_of(e: &Expr) -> Option<&Name>
    ensures { option_copied result ≡ object_of (plain_expr e.now) }
{
    match &e.form {
        Form::Use(name) => {
            if is_object(name.text.as_str()) {
                Some(name)
            } else {
                None
            }
        }
        _ => None,
    }
}

/// The form with this word after the dot, where what stands before it is `bp`, `Math` or `bp.log`.
fn builtin_at(object: &Expr, word: &str, called: bool) -> Option<Builtin>
    ensures { result ≡ builtin_at (owner_of (plain_expr object.now)) word.now called }
{
    match &object.form {
        Form::Use(name) => builtin_of_name(name.text.as_str(), word, called),
        Form::Member(e, member) => builtin_of_log(e, member.as_str(), word, called),
        _ => None,
    }
}

/// The form of a name's member.
fn builtin_of_name(object: &str, word: &str, called: bool) -> Option<Builtin>
    ensures { result ≡ builtin_at
        (if is_object object.now then Some object.now else None) word.now called }
{
    if is_object(object) {
        builtin_of(object, word, called)
    } else {
        None
    }
}

/// The form of a member's member.
fn builtin_of_log(e: &Expr, member: &str, word: &str, called: bool) -> Option<Builtin>
    ensures { result ≡ builtin_at (if is_log_of (plain_expr e.now) member.now then Some
        (codes "bp.log") else None) word.now called }
{
    if is_log(e, member) {
        builtin_of("bp.log", word, called)
    } else {
        None
    }
}

/// The form that a member is without a call.
pub fn value_builtin(object: &Expr, word: &str) -> Option<Builtin>
    ensures { result ≡ value_builtin (plain_expr object.now) word.now }
{
    builtin_at(object, word, false)
}

/// The form that a call of this expression is.
pub fn called_builtin(callee: &Expr) -> Option<Builtin>
    ensures { result ≡ called_builtin (plain_expr callee.now) }
{
    match &callee.form {
        Form::Member(object, word) => builtin_at(object, word.as_str(), true),
        _ => None,
    }
}
