//! Variables: the slots of a call, and the constants of a program.
ghost use Rattle.std.specs.Prelude.{◌≡◌, ◌+◌, ◌-◌, ◌<◌, ◌++◌, ◌∷◌, [], Some, None, length, map, replicate, fold, IfOk, OnOk, option_map, slice_set, unwrap_or};
ghost use Rattle.js_value.specs.Value.{undefined};
ghost use Rattle.js_value.specs.Lists.{values_in};
ghost use Rattle.js_value.specs.Views.{plain_value};
ghost use Rattle.js_program.specs.Views.{plain_body, plain_constant};
ghost use Rattle.js_meaning.specs.Variables.{in_slot, slots_of_call, constant_start};

use crate::values::Values;
use js_program::{Body, ConstantStart, Program};
use js_value::{Items, Memory, Value, copy};
use std::alloc::Global;
use std::marker::Model;
use std::mem;

/// Variables by their numbers: none where one is not declared yet. Contracts see the list of their
/// plain forms.
pub struct Slots {
    items: Vec<Option<Value>>,
}

impl Drop for Slots {
    fn drop(self) {
        let Slots { items: _ } = self;
    }
}

/// The constants of a program by their numbers.
pub type Constants = Slots;

impl Model for Slots {
    ghost use Rattle.std.specs.Prelude.{List, Option, map, option_map};
    ghost use Rattle.std.specs.Coded.{coded_list, coded_option};
    ghost use Rattle.js_value.specs.Value.{PlainValue};
    ghost use Rattle.js_value.specs.Codes.{value_code};

    ghost Value = { List (Option PlainValue) };

    ghost coded = { coded_list (coded_option value_code) };

    ghost use Rattle.js_value.specs.Views.{plain_value};

    ghost view = { λ s. map (option_map plain_value) s.items.items };
}

impl Slots {
    /// No variables.
    pub(crate) fn new(alloc: Global) -> Slots
        ensures { result ≡ [] }
    {
        Slots {
            items: Vec::new(alloc),
        }
    }

    /// No variables, with room for this many.
    fn with_capacity(alloc: Global, count: usize) -> Result<Slots, Memory>
        ensures { IfOk result (λ slots. slots ≡ []) }
    {
        let items = Vec::with_capacity(alloc, count)?;
        Ok(Slots { items })
    }

    /// No variables any more; the room stays.
    pub(crate) fn clear(&mut self)
        ensures { self.new ≡ [] }
    {
        self.items.clear();
    }

    /// How many there are.
    pub(crate) fn len(&self) -> usize
        ensures { result ≡ length self.now }
    {
        self.items.len()
    }

    /// The value of a variable, if it is declared.
    #[inline(always)]
    pub(crate) fn get(&self, number: u32) -> Option<&Value>
        ensures { option_map (λ v. plain_value v.now) result ≡ in_slot number self.now }
    {
        match self.items.get(number as usize) {
            Some(Some(value)) => Some(value),
            Some(None) => None,
            None => None,
        }
    }

    /// A copy of the value of a variable; undefined where it is not declared.
    pub(crate) fn copy_of(&self, number: u32) -> Result<Value, Memory>
        ensures { IfOk result (λ v. plain_value v ≡ unwrap_or (in_slot number self.now) undefined) }
    {
        match self.get(number) {
            Some(value) => copy(value),
            None => Ok(Value::Undefined),
        }
    }

    /// Sets a variable, if there is one of this number.
    #[inline(always)]
    pub(crate) fn set(&mut self, number: u32, value: Option<Value>)
        ensures { self.new ≡ slice_set self.old number (option_map plain_value value) }
    {
        let place = number as usize;
        if place < self.len() {
            self.put_in(place, value);
        }
    }

    /// Sets a variable, and gives what it was.
    #[inline(always)]
    fn put_in(&mut self, place: usize, value: Option<Value>) -> Option<Value>
        requires { place < length self.old }
        ensures { self.new ≡ slice_set self.old place (option_map plain_value value) }
    {
        mem::replace(&mut self.items[place], value)
    }

    /// One more variable.
    pub(crate) fn push(&mut self, value: Option<Value>) -> Result<(), Memory>
        ensures { OnOk result (self.new ≡ self.old ++ option_map plain_value value ∷ []) }
    {
        self.items.push(value)?;
        Ok(())
    }

    /// The variables with these numbers are not declared.
    pub(crate) fn undeclare(&mut self, numbers: &[u32])
        ensures { self.new ≡ fold (λ slots k. slice_set slots k None) self.old numbers.now }
    {
        for number in numbers {
            self.set(*number, None);
        }
    }

    /// The variables with these numbers are undefined.
    fn unset(&mut self, numbers: &[u32])
        ensures { self.new
            ≡ fold (λ slots k. slice_set slots k (Some undefined)) self.old numbers.now }
    {
        for number in numbers {
            self.set(*number, Some(Value::Undefined));
        }
    }

    /// Moves values after those that are there.
    fn push_all(&mut self, values: &mut Values) -> Result<(), Memory>
        ensures { OnOk result (self.new ≡ self.old ++ map Some values.old) }
    {
        for place in 0..values.len() {
            let value = values.put_out(place);
            self.push(Some(value))?;
        }
        Ok(())
    }

    /// Copies values after those that are there.
    fn push_copies(&mut self, values: &[Value]) -> Result<(), Memory>
        ensures { OnOk result (self.new ≡ self.old ++ map Some (map plain_value values.now)) }
    {
        for value in values {
            let copied = copy(value)?;
            self.push(Some(copied))?;
        }
        Ok(())
    }

    /// Variables that are not declared, up to this many.
    fn fill(&mut self, count: usize) -> Result<(), Memory>
        ensures { OnOk result (self.new ≡ self.old ++ replicate (count - length self.old) None) }
    {
        for _ in self.len()..count {
            self.push(None)?;
        }
        Ok(())
    }

    /// The variables of a call: the parameters, to which the arguments move, the captured values,
    /// and the other variables.
    pub(crate) fn of_call(
        alloc: Global,
        body: &Body,
        captured: &Items,
        args: &mut Values,
    ) -> Result<Slots, Memory>
        ensures { IfOk result (λ slots. slots
            ≡ slots_of_call (plain_body body.now) (values_in captured.now) args.old) }
    {
        args.pad(body.parameters as usize)?;
        let mut slots = Slots::with_capacity(alloc, body.slots as usize)?;
        slots.push_all(args)?;
        slots.push_copies(captured.as_slice())?;
        slots.fill(body.slots as usize)?;
        slots.unset(&body.vars);
        Ok(slots)
    }
}

/// What a constant holds before the program runs.
fn constant_start(alloc: Global, start: ConstantStart) -> Result<Option<Value>, Memory>
    ensures { IfOk result (λ v. option_map plain_value v ≡ constant_start (plain_constant start)) }
{
    match start {
        ConstantStart::OfFunction(code) => {
            let captured = Items::new(alloc, Vec::new(alloc))?;
            Ok(Some(Value::Function { code, captured }))
        }
        ConstantStart::Undeclared => Ok(None),
        ConstantStart::Unset => Ok(Some(Value::Undefined)),
    }
}

/// What the constants hold before the program runs.
pub(crate) fn constants_start(alloc: Global, program: &Program) -> Result<Constants, Memory>
    ensures { IfOk result (λ cs. cs ≡ map constant_start program.now.constants) }
{
    let mut constants = Constants::new(alloc);
    for number in 0..program.constants() {
        let value = constant_start(alloc, program.constant(number))?;
        constants.push(value)?;
    }
    Ok(constants)
}
