//! What stands under the keys of a statement.
ghost use Rattle.std.specs.Prelude.{◌≡◌, is_some, codes, IfSome};
ghost use Rattle.std.specs.List.{list_all};
ghost use Rattle.js_value.specs.Lists.{fields_in};
ghost use Rattle.js_value.specs.Parts.{field_at};
ghost use Rattle.js_value.specs.Value.{ValueFields, field};
ghost use Rattle.js_value.specs.Views.{plain_value};
ghost use Rattle.bp_meaning.specs.Statements.{is_key};
ghost use Rattle.bp_thread.specs.Parts.{lent, plain_parts, parts_then};

use js_data::Text;
use js_value::{Pairs, Value};

/// What stands under the keys of a statement; nothing under a key that is not there.
#[derive(Clone, Copy)]
pub(crate) struct Parts<'a> {
    pub request: Option<&'a Value>,
    pub wait_for: Option<&'a Value>,
    pub block: Option<&'a Value>,
    pub interrupt: Option<&'a Value>,
}

impl<'a> Parts<'a> {
    /// These parts and the value under the key, unless there is one already; nothing where a
    /// statement has no such key.
    fn with(self, key: &Text, value: &'a Value) -> Option<Parts<'a>>
        ensures known { is_some result ≡ is_key key.now }
        ensures parts { IfSome result (λ p. (fs : ValueFields) → parts_then (plain_parts p) fs
            ≡ parts_then (plain_parts self.entry) (field key.now (plain_value value.now) fs)) }
    {
        let there = Some(value);
        match key.as_str() {
            "request" => Some(Parts {
                request: self.request.or(there),
                ..self
            }),
            "waitFor" => Some(Parts {
                wait_for: self.wait_for.or(there),
                ..self
            }),
            "block" => Some(Parts {
                block: self.block.or(there),
                ..self
            }),
            "interrupt" => Some(Parts {
                interrupt: self.interrupt.or(there),
                ..self
            }),
            _ => None,
        }
    }
}

/// What stands under the keys of a statement, or nothing where another key is there, too. Goes over
/// the fields once.
pub(crate) fn parts_of<'a>(fields: &'a Pairs) -> Option<Parts<'a>>
    ensures keys { is_some result ≡ list_all (λ f. is_key f.0) (fields_in fields.now) }
    ensures request { IfSome result (λ p. lent p.request ≡ field_at fields.now (codes "request")) }
    ensures wait_for { IfSome result
        (λ p. lent p.wait_for ≡ field_at fields.now (codes "waitFor")) }
    ensures block { IfSome result (λ p. lent p.block ≡ field_at fields.now (codes "block")) }
    ensures interrupt { IfSome result
        (λ p. lent p.interrupt ≡ field_at fields.now (codes "interrupt")) }
{
    let mut parts = Parts {
        request: None,
        wait_for: None,
        block: None,
        interrupt: None,
    };
    for field in fields.as_slice() {
        parts = parts.with(&field.0, &field.1)?;
    }
    Some(parts)
}
