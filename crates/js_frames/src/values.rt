//! The values of parts that are done.
ghost use Rattle.std.specs.Prelude.{◌≡◌, ◌++◌, ◌∷◌, [], length, map, take, drop, IfOk, OnOk, IfSome, option_map, slice_get, slice_set, Some, ◌+◌, ◌<◌, ◌^◌};
ghost use Rattle.js_value.specs.Value.{undefined};
ghost use Rattle.js_value.specs.Lists.{values_in};
ghost use Rattle.js_value.specs.Views.{plain_value};
ghost use Rattle.js_meaning.specs.Forms.{argument};
ghost use Rattle.js_meaning.specs.Variables.{padded};

use js_value::{Items, Memory, Value};
use std::alloc::Global;
use std::marker::Model;
use std::mem;

/// Values in order. Contracts see the list of their plain forms.
pub(crate) struct Values {
    items: Vec<Value>,
}

impl Drop for Values {
    fn drop(self) {
        let Values { items: _ } = self;
    }
}

impl Model for Values {
    ghost use Rattle.std.specs.Prelude.{List, map};
    ghost use Rattle.std.specs.Coded.{coded_list};
    ghost use Rattle.js_value.specs.Value.{PlainValue};
    ghost use Rattle.js_value.specs.Codes.{value_code};

    ghost Value = { List PlainValue };

    ghost coded = { coded_list value_code };

    ghost use Rattle.js_value.specs.Views.{plain_value};

    ghost view = { λ l. map plain_value l.items.items };
}

impl Values {
    /// No values.
    pub(crate) fn new(alloc: Global) -> Values
        ensures { result ≡ [] }
    {
        Values {
            items: Vec::new(alloc),
        }
    }

    /// No values, with room for this many.
    pub(crate) fn with_capacity(alloc: Global, count: usize) -> Result<Values, Memory>
        ensures { IfOk result (λ values. values ≡ []) }
    {
        let items = Vec::with_capacity(alloc, count)?;
        Ok(Values { items })
    }

    /// How many there are.
    pub(crate) fn len(&self) -> usize
        ensures { result ≡ length self.now }
    {
        self.items.len()
    }

    /// The values, in order.
    pub(crate) fn as_slice(&self) -> &[Value]
        ensures { map plain_value result.now ≡ self.now }
    {
        self.items.as_slice()
    }

    /// The values, given back.
    pub(crate) fn into_vec(self) -> Vec<Value>
        ensures { map plain_value result.items ≡ self }
    {
        let Values { items } = self;
        items
    }

    /// One more value.
    pub(crate) fn push(&mut self, value: Value) -> Result<(), Memory>
        ensures { OnOk result (self.new ≡ self.old ++ plain_value value ∷ []) }
    {
        self.items.push(value)?;
        Ok(())
    }

    /// The value at a place, with undefined left in its place.
    pub(crate) fn put_out(&mut self, place: usize) -> Value
        requires { place < length self.old }
        ensures value { Some (plain_value result) ≡ slice_get self.old place }
        ensures rest { self.new ≡ slice_set self.old place undefined }
    {
        mem::replace(&mut self.items[place], Value::Undefined)
    }

    /// The value at a place, or undefined; it and those after it are dropped.
    pub(crate) fn take(&mut self, place: usize) -> Value
        ensures value { plain_value result ≡ argument place self.old }
        ensures rest { self.new ≡ take place self.old }
    {
        if place >= self.len() {
            return Value::Undefined;
        }
        let value = self.put_out(place);
        self.cut(place);
        value
    }

    /// The first value, or undefined; the others stay.
    pub(crate) fn take_first(&mut self) -> Value
        ensures value { plain_value result ≡ argument 0 self.old }
        ensures rest { self.new ≡ drop 1 self.old }
    {
        if self.items.is_empty() {
            return Value::Undefined;
        }
        self.items.remove(0)
    }

    /// At most this many values: further ones are dropped.
    pub(crate) fn cut(&mut self, count: usize)
        ensures { self.new ≡ take count self.old }
    {
        self.items.truncate(count);
    }

    /// As many values as asked for: further ones are dropped, and missing ones are undefined.
    pub(crate) fn pad(&mut self, count: usize) -> Result<(), Memory>
        ensures { OnOk result (self.new ≡ padded count self.old) }
    {
        self.cut(count);
        for _ in self.len()..count {
            self.push(Value::Undefined)?;
        }
        Ok(())
    }
}

/// The number at a place of a list.
#[inline(always)]
pub(crate) fn number_at(numbers: &[u32], place: usize) -> Option<u32>
    ensures value { result ≡ slice_get numbers.now place }
    ensures room { IfSome result (λ _. place + 1 < 2 ^ 64) }
{
    numbers.get(place).copied()
}

/// The value at a place of a list.
pub(crate) fn item_at(items: &Items, place: usize) -> Option<&Value>
    ensures value { option_map (λ v. plain_value v.now) result
        ≡ slice_get (values_in items.now) place }
    ensures room { IfSome result (λ _. place + 1 < 2 ^ 64) }
{
    if place < items.len() {
        items.get(place)
    } else {
        None
    }
}
