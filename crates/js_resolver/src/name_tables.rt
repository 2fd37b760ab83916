//! What the names and functions of a program stand for, by look-ups.
ghost use Rattle.std.specs.Prelude.{◌≡◌, IfOk, map, length, nat_eq};
ghost use Rattle.indexmap.specs.IndexMap.{get};
ghost use Rattle.js_program.specs.Views.{plain_body, plain_content};
ghost use Rattle.js_names.specs.Slots.{assigned_in, captures, constants_of, functions_in, slots_of, vars_of};
ghost use Rattle.js_names.specs.Views.{mention_of};
ghost use Rattle.js_names.specs.Held.{held_in};
ghost use Rattle.js_resolver.specs.Variables.{first_line, around_of, around_there, body_of, capture_slots, code_at, known_in, name_key, named_at, named_there, owner_key, slot_at, var_slots};

use crate::tables::{
    constants_of, functions_around, functions_in, index_in, slots_among, variables_by_offset,
};
use indexmap::{IndexMap, IndexSet};
use js_names::{Mention, Names, TOP, captured, slot_count, vars};
use js_program::{Body, Content, Variable};
use std::alloc::{AllocError, Global};
use std::marker::Model;

/// The constants and the variables of a program.
pub(crate) struct Meanings {
    /// The constants, in the order of their numbers.
    pub(crate) constants: IndexSet<u32>,
    /// What the name at each offset of the text stands for.
    pub(crate) variables: IndexMap<u32, Variable>,
}

// They are let go by one call, written out.
impl Drop for Meanings {
    fn drop(self) {
        let Meanings {
            constants: _,
            variables: _,
        } = self;
    }
}

/// The functions of a program.
pub(crate) struct Functions {
    /// The functions, in the order of their numbers.
    pub(crate) codes: IndexSet<u32>,
    /// The function around each function.
    pub(crate) around: IndexMap<u32, u32>,
}

// They are let go by one call, written out.
impl Drop for Functions {
    fn drop(self) {
        let Functions {
            codes: _,
            around: _,
        } = self;
    }
}

/// What functions copy, and what is undefined as they begin.
#[derive(Drop)]
pub(crate) struct Holdings {
    /// The captures of each function.
    pub(crate) captured: IndexMap<u32, IndexSet<u32>>,
    /// The `var`s of each function.
    pub(crate) vars: IndexMap<u32, IndexSet<u32>>,
}

/// The mentions of a program, with tables of what stands there. Contracts see the mentions.
pub(crate) struct NameTables {
    /// The mentions, and the variables of each function in the order of their slots.
    names: Names,
    meanings: Meanings,
    functions: Functions,
    holdings: Holdings,
}

// They are let go by one call, written out.
impl Drop for NameTables {
    fn drop(self) {
        let NameTables {
            names: _,
            meanings: _,
            functions: _,
            holdings: _,
        } = self;
    }
}

impl Model for NameTables {
    ghost use Rattle.std.specs.Prelude.{List, map};
    ghost use Rattle.js_names.specs.Mentions.{Mention};
    ghost use Rattle.js_names.specs.Views.{mention_of};
    ghost use Rattle.js_resolver.specs.inner.TablesOf.{AreTablesOf};

    ghost Value = { List Mention };

    ghost view = { λ t. map mention_of t.names.mentions.items };

    ghost invariant = { λ t. AreTablesOf t.meanings.variables t.meanings.constants.keys
        t.functions.codes.keys t.functions.around t.names.slots t.holdings.captured t.holdings.vars
        (map mention_of t.names.mentions.items) };
}

/// What a call of a function has room for.
#[derive(Drop)]
struct Room {
    parameters: u32,
    slots: u32,
    captures: Vec<u32>,
    vars: Vec<u32>,
}

/// A number of 32 bits; no program counts further.
fn counted(number: usize) -> Result<u32, AllocError>
    ensures { IfOk result (λ n. n ≡ number) }
{
    if number > u32::MAX as usize {
        return Err(AllocError);
    }
    Ok(number as u32)
}

/// The constants, and what the name at each offset of the text stands for.
fn meanings_of(
    alloc: Global,
    assigned: &IndexSet<u32>,
    slots: &IndexMap<u32, IndexSet<u32>>,
    mentions: &[Mention],
) -> Result<Meanings, AllocError>
    ensures constants { IfOk result (λ t. t.constants.keys
        ≡ constants_of assigned.now.keys (map mention_of mentions.now)) }
    ensures variables { IfOk result (λ t. (q : _) → get nat_eq t.variables q ≡ known_in name_key
        (named_there assigned.now.keys t.constants.keys (λ f. held_in slots.now f)) q
        (map mention_of mentions.now)) }
{
    let constants = constants_of(alloc, assigned, mentions)?;
    let variables = variables_by_offset(alloc, assigned, &constants, slots, mentions)?;
    Ok(Meanings {
        constants,
        variables,
    })
}

/// The functions, and the function around each of them.
fn functions_of(alloc: Global, mentions: &[Mention]) -> Result<Functions, AllocError>
    ensures codes { IfOk result (λ t. t.codes.keys ≡ functions_in (map mention_of mentions.now)) }
    ensures around { IfOk result (λ t. (q : _) → get nat_eq t.around q
        ≡ known_in owner_key around_there q (map mention_of mentions.now)) }
{
    let codes = functions_in(alloc, mentions)?;
    let around = functions_around(alloc, mentions)?;
    Ok(Functions { codes, around })
}

/// The captures and the `var`s of each function.
fn holdings_of(
    alloc: Global,
    assigned: &IndexSet<u32>,
    mentions: &[Mention],
) -> Result<Holdings, AllocError>
    ensures captured { IfOk result (λ t. (f : _) → held_in t.captured f
        ≡ captures assigned.now.keys f (map mention_of mentions.now)) }
    ensures vars { IfOk result (λ t. (f : _) → held_in t.vars f
        ≡ vars_of assigned.now.keys f (map mention_of mentions.now)) }
{
    let captured = captured(alloc, assigned, mentions)?;
    let vars = vars(alloc, assigned, mentions)?;
    Ok(Holdings { captured, vars })
}

impl NameTables {
    /// The tables of the mentions that the check of names answers.
    pub(crate) fn new(alloc: Global, names: Names) -> Result<NameTables, AllocError>
        requires assigned { names.assigned.keys
            ≡ assigned_in (map mention_of names.mentions.items) }
        requires slots { (f : _) → held_in names.slots f
            ≡ slots_of (assigned_in (map mention_of names.mentions.items)) f
            (map mention_of names.mentions.items) }
        ensures { IfOk result (λ t. t ≡ map mention_of names.mentions.items) }
    {
        let meanings = meanings_of(alloc, &names.assigned, &names.slots, &names.mentions)?;
        let functions = functions_of(alloc, &names.mentions)?;
        let holdings = holdings_of(alloc, &names.assigned, &names.mentions)?;
        Ok(NameTables {
            names,
            meanings,
            functions,
            holdings,
        })
    }

    /// What the name at an offset of the text stands for.
    pub(crate) fn variable(&self, at: u32) -> Variable
        ensures { result ≡ named_at self.now at }
    {
        match self.meanings.variables.get(&at) {
            Some(variable) => *variable,
            None => Variable::Slot(0),
        }
    }

    /// The slot that the name at an offset of the text stands for.
    pub(crate) fn slot(&self, at: u32) -> u32
        ensures { result ≡ slot_at self.now at }
    {
        match self.variable(at) {
            Variable::Slot(slot) => slot,
            Variable::Constant(_) => 0,
        }
    }

    /// The number of the function that begins at an offset of the text. Its only error is a number past 32 bits.
    pub(crate) fn code(&self, at: u32) -> Result<u32, AllocError>
        ensures { IfOk result (λ n. n ≡ code_at self.now at) }
    {
        index_in(&self.functions.codes, at)
    }

    /// The constants, in the order of their declarations.
    pub(crate) fn constants(&self) -> &[u32]
        ensures { result.now ≡ constants_of (assigned_in self.now) self.now }
    {
        self.meanings.constants.as_slice()
    }

    /// The mentions, in text order.
    pub(crate) fn mentions(&self) -> &[Mention]
        ensures { map mention_of result.now ≡ self.now }
    {
        &self.names.mentions
    }

    /// The line of the first token of the program.
    pub(crate) fn line(&self) -> u32
        ensures { result ≡ first_line self.now }
    {
        match self.names.mentions.first() {
            Some(mention) => mention.name.spot.line,
            None => 1,
        }
    }

    /// The function around a function.
    fn outer(&self, function: u32) -> u32
        ensures { result ≡ around_of self.now function }
    {
        match self.functions.around.get(&function) {
            Some(around) => *around,
            None => TOP,
        }
    }

    /// For each captured value of a function, its slot in the function around.
    fn capture_slots(&self, alloc: Global, function: u32) -> Result<Vec<u32>, AllocError>
        ensures { IfOk result (λ v. v.items ≡ capture_slots self.now function) }
    {
        let around = self.outer(function);
        match self.holdings.captured.get(&function) {
            Some(variables) => slots_among(alloc, &self.names.slots, around, variables.as_slice()),
            None => Ok(Vec::new(alloc)),
        }
    }

    /// The slots of a function's `var`s.
    fn var_slots(&self, alloc: Global, function: u32) -> Result<Vec<u32>, AllocError>
        ensures { IfOk result (λ v. v.items ≡ var_slots self.now function) }
    {
        match self.holdings.vars.get(&function) {
            Some(variables) => slots_among(
                alloc,
                &self.names.slots,
                function,
                variables.as_slice(),
            ),
            None => Ok(Vec::new(alloc)),
        }
    }

    /// How many slots a function needs.
    fn slot_total(&self, function: u32) -> usize
        ensures { result ≡ length (slots_of (assigned_in self.now) function self.now) }
    {
        slot_count(&self.names.slots, function)
    }

    /// What a call of a function has room for.
    fn room(&self, alloc: Global, function: u32, parameters: usize) -> Result<Room, AllocError>
        ensures parameters { IfOk result (λ r. r.parameters ≡ parameters) }
        ensures slots { IfOk result (λ r. r.slots
            ≡ length (slots_of (assigned_in self.now) function self.now)) }
        ensures captures { IfOk result (λ r. r.captures.items ≡ capture_slots self.now function) }
        ensures vars { IfOk result (λ r. r.vars.items ≡ var_slots self.now function) }
    {
        let parameters = counted(parameters)?;
        let slots = counted(self.slot_total(function))?;
        let captures = self.capture_slots(alloc, function)?;
        let vars = self.var_slots(alloc, function)?;
        Ok(Room {
            parameters,
            slots,
            captures,
            vars,
        })
    }

    /// The function that begins at an offset of the text, with what a call of it runs.
    pub(crate) fn body(
        &self,
        alloc: Global,
        function: u32,
        parameters: usize,
        content: Content,
        line: u32,
    ) -> Result<Body, AllocError>
        ensures { IfOk result (λ b. plain_body b
            ≡ body_of self.now function parameters (plain_content content) line) }
    {
        let room = self.room(alloc, function, parameters)?;
        Ok(Body {
            parameters: room.parameters,
            slots: room.slots,
            captures: room.captures,
            vars: room.vars,
            content,
            line,
        })
    }
}
