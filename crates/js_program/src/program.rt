//! Programs.
ghost use Rattle.std.specs.Prelude.{◌≡◌, ◌<◌, Some, length, map, option_map, slice_get};
ghost use Rattle.js_program.specs.PlainProgram.{PlainBody};
ghost use Rattle.js_program.specs.Sound.{IsSound};
ghost use Rattle.js_program.specs.Views.{plain_node, plain_body, plain_constant, program_with};

use crate::node::{Body, ConstantStart, Node};
use std::marker::Model;

/// A resolved program: nodes with numbers, functions and constants. Each part of a node has a smaller number
/// than the node, every number of a node, slot, capture, constant or function is in range, no function declares
/// a constant, and a declared function captures nothing.
#[derive(Drop)]
pub struct Program {
    nodes: Vec<Node>,
    functions: Vec<Body>,
    constants: Vec<ConstantStart>,
    top: Body,
}

impl Model for Program {
    ghost use Rattle.std.specs.Prelude.{map};
    ghost use Rattle.js_program.specs.PlainProgram.{PlainProgram};
    ghost use Rattle.js_program.specs.Sound.{IsSound};
    ghost use Rattle.js_program.specs.Views.{plain_node, plain_body, plain_constant, program_with};

    ghost Value = { PlainProgram };

    ghost view = { λ p. program_with (map plain_node p.nodes.items)
        (map plain_body p.functions.items) (map plain_constant p.constants.items)
        (plain_body p.top) };

    ghost invariant = { λ p. IsSound (program_with (map plain_node p.nodes.items)
        (map plain_body p.functions.items) (map plain_constant p.constants.items)
        (plain_body p.top)) };
}

impl Program {
    /// The program of these parts.
    pub fn new(
        nodes: Vec<Node>,
        functions: Vec<Body>,
        constants: Vec<ConstantStart>,
        top: Body,
    ) -> Program
        requires { IsSound (program_with (map plain_node nodes.items)
            (map plain_body functions.items) (map plain_constant constants.items)
            (plain_body top)) }
        ensures { result ≡ program_with (map plain_node nodes.items)
            (map plain_body functions.items) (map plain_constant constants.items) (plain_body top) }
    {
        Program {
            nodes,
            functions,
            constants,
            top,
        }
    }

    /// What each program keeps, as a fact for its callers. Does nothing.
    pub fn keeps(&self)
        ensures { IsSound self.now }
    {
        // Reads a field for the proof alone: so what the type keeps is known.
        let _top = &self.top;
    }

    /// The number of its nodes.
    pub fn nodes(&self) -> u32
        ensures { result ≡ length self.now.nodes }
    {
        self.nodes.len() as u32
    }

    /// The number of its functions.
    pub fn functions(&self) -> u32
        ensures { result ≡ length self.now.functions }
    {
        self.functions.len() as u32
    }

    /// The number of its constants.
    pub fn constants(&self) -> u32
        ensures { result ≡ length self.now.constants }
    {
        self.constants.len() as u32
    }

    /// The node of this number.
    pub fn node(&self, number: u32) -> &Node
        requires { number < length self.now.nodes }
        ensures { slice_get self.now.nodes number ≡ Some (plain_node result.now) }
    {
        &self.nodes[number as usize]
    }

    /// The function of this number.
    pub fn function(&self, code: u32) -> &Body
        requires { code < length self.now.functions }
        ensures { slice_get self.now.functions code ≡ Some (plain_body result.now) }
    {
        &self.functions[code as usize]
    }

    /// The line of the first token of a function.
    pub fn line(&self, code: u32) -> u32
        requires { code < length self.now.functions }
        ensures { option_map (λ (b : PlainBody). b.line) (slice_get self.now.functions code)
            ≡ Some result }
    {
        self.functions[code as usize].line
    }

    /// The start of the constant of this number.
    pub fn constant(&self, number: u32) -> ConstantStart
        requires { number < length self.now.constants }
        ensures { slice_get self.now.constants number ≡ Some (plain_constant result) }
    {
        self.constants[number as usize]
    }

    /// The top level.
    pub fn top(&self) -> &Body
        ensures { plain_body result.now ≡ self.now.top }
    {
        &self.top
    }
}
