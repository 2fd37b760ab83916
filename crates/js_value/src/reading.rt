//! Copies of values, values of texts and of events, and what a condition and `+` take a value for.
ghost use Rattle.std.specs.Prelude.{◌≡◌, IfOk, option_map};
ghost use Rattle.js_value.specs.Value.{text as text_that_is, event as event_that_is, is_truthy, value_text};
ghost use Rattle.js_value.specs.Views.{plain_value};

use crate::value::Value;
use itoa::Buffer;
use js_data::{Event, Memory, Text};
use std::alloc::Global;
use std::sync::Arc;

/// Whether a condition takes the value for true: all but undefined, null, false, 0 and the empty text.
pub fn truthy(v: &Value) -> bool
    ensures { result ≡ is_truthy (plain_value v.now) }
{
    match v {
        Value::Undefined | Value::Null => false,
        Value::Truth(b) => *b,
        Value::Whole(n) => n.get() != 0,
        Value::Text(text) => text.as_str().len() > 0,
        Value::List(_)
        | Value::Fields(_)
        | Value::Event(_)
        | Value::Set(_)
        | Value::Function { .. } => true,
    }
}

/// An equal value, which shares what it holds. A count of owners that is full is answered
/// `Memory`, and nothing changes; there is no other error.
pub fn copy(v: &Value) -> Result<Value, Memory>
    ensures { IfOk result (λ w. plain_value w ≡ plain_value v.now) }
{
    match v {
        Value::Undefined => Ok(Value::Undefined),
        Value::Null => Ok(Value::Null),
        Value::Truth(b) => Ok(Value::Truth(*b)),
        Value::Whole(n) => Ok(Value::Whole(*n)),
        Value::Text(text) => Ok(Value::Text(text.clone()?)),
        Value::List(items) => Ok(Value::List(items.copy()?)),
        Value::Fields(fields) => Ok(Value::Fields(fields.copy()?)),
        Value::Event(event) => Ok(Value::Event(event.clone()?)),
        Value::Set(set) => Ok(Value::Set(set.copy()?)),
        Value::Function { code, captured } => Ok(Value::Function {
            code: *code,
            captured: captured.copy()?,
        }),
    }
}

/// The value of this text. It is the first owner of the text, so no count of owners can be full.
pub fn text_value(alloc: Global, text: Text) -> Result<Value, Memory>
    ensures { IfOk result (λ v. plain_value v ≡ text_that_is text) }
{
    Ok(Value::Text(Arc::new(alloc, text)?))
}

/// The value of this event. It is the first owner of the event, so no count of owners can be full.
pub fn event_value(alloc: Global, event: Event) -> Result<Value, Memory>
    ensures { IfOk result (λ v. plain_value v ≡ event_that_is event) }
{
    Ok(Value::Event(Arc::new(alloc, event)?))
}

/// The text that `+` joins, lent by the value or written into the buffer; `None` exactly where the kind of the
/// value has none.
pub fn text_in<'a>(v: &'a Value, buffer: &'a mut Buffer) -> Option<&'a str>
    ensures { option_map (λ s. s.now) result ≡ value_text (plain_value v.now) }
{
    match v {
        Value::Undefined => Some("undefined"),
        Value::Null => Some("null"),
        Value::Truth(true) => Some("true"),
        Value::Truth(false) => Some("false"),
        Value::Whole(n) => Some(buffer.format(n.get())),
        Value::Text(text) => Some(text.as_str()),
        Value::List(_)
        | Value::Fields(_)
        | Value::Event(_)
        | Value::Set(_)
        | Value::Function { .. } => None,
    }
}

/// The text that `+` joins; `None` exactly where the kind of the value has none.
pub fn text_of(alloc: Global, v: &Value) -> Result<Option<Text>, Memory>
    ensures { IfOk result (λ o. o ≡ value_text (plain_value v.now)) }
{
    let mut buffer = Buffer::new();
    match text_in(v, &mut buffer) {
        Some(text) => Ok(Some(Text::new(String::from_str(alloc, text)?))),
        None => Ok(None),
    }
}
