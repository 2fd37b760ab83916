//! Bytes read as a program.
ghost use Rattle.std.specs.Prelude.{◌≡◌, ◌≤◌, ◌<◌, length, IfOk, IfErr};
ghost use Rattle.js_lexer.specs.declared.limits.TheConstants.{MOST_BYTES};
ghost use Rattle.js_lexer.specs.Gaps.{line_of};
ghost use Rattle.js_lexer.specs.Lexed.{IsRefusal};
ghost use Rattle.js_tree.specs.Views.{plain_tree};
ghost use Rattle.bp_script.specs.Programs.{AreSpelled, IsProgram};
ghost use Rattle.bp_script.specs.Faults.{IsScriptFault, fault_of_parse, fault_of_names, of_name, of_line};

use crate::refusal::{Kind, Refusal, Rule};
use js_lexer::{LexFault, MOST_BYTES, lex, line_at};
use js_names::NameFault;
use js_parser::{ParseFault, parse};
use js_program::Program;
use js_resolver::resolve;
use js_tree::{Name, Tree};
use std::alloc::{AllocError, Global};
use thiserror::Error;

/// Why bytes were not read as a program.
#[derive(Debug, Drop, Error)]
pub enum ScriptFault {
    /// They are refused.
    #[error("the program is refused")]
    Refused(Refusal),
    /// No memory was left.
    #[error("no memory was left")]
    Memory,
}

impl From<AllocError> for ScriptFault {
    ghost use Rattle.std.specs.Prelude.{◌≡◌};
    ghost use Rattle.bp_script.specs.declared.reading.ScriptFault.TheVariants.{Memory};

    ghost from_gives = { λ _ e. e ≡ Memory };

    fn from(_: AllocError) -> ScriptFault {
        ScriptFault::Memory
    }
}

/// What is wrong on the line of a place.
fn on_line(bytes: &[u8], place: u32, kind: Kind) -> ScriptFault
    requires size { length bytes.now ≤ MOST_BYTES }
    requires within { place ≤ length bytes.now }
    ensures { result ≡ ScriptFault.Refused (Refusal.OnLine (line_of bytes.now place) kind) }
{
    ScriptFault::Refused(Refusal::OnLine(line_at(bytes, place), kind))
}

/// The refusal of bytes that are not cut into tokens.
fn no_tokens(bytes: &[u8], fault: LexFault) -> ScriptFault
    requires size { length bytes.now ≤ MOST_BYTES }
    requires refusal { IsRefusal bytes.now fault }
    ensures { IsScriptFault bytes.now result }
{
    match fault {
        LexFault::Character(place) => on_line(bytes, place, Kind::Character),
        LexFault::OpenText(place) => on_line(bytes, place, Kind::OpenText),
        LexFault::Escape(place) => on_line(bytes, place, Kind::Escape),
        LexFault::NumberRange(place) => on_line(bytes, place, Kind::NumberRange),
        LexFault::Unsupported(place) => on_line(bytes, place, Kind::Unsupported),
        LexFault::Utf8(place) => on_line(bytes, place, Kind::Utf8),
        LexFault::Memory => ScriptFault::Memory,
    }
}

/// The refusal of tokens that spell no tree.
fn no_tree(fault: ParseFault) -> ScriptFault
    ensures { result ≡ fault_of_parse fault }
{
    match fault {
        ParseFault::Unsupported(line) => {
            ScriptFault::Refused(Refusal::OnLine(line, Kind::Unsupported))
        }
        ParseFault::NoTree(line) => ScriptFault::Refused(Refusal::OnLine(line, Kind::NoTree)),
        ParseFault::Memory => ScriptFault::Memory,
    }
}

/// The refusal of a name that breaks a rule.
fn of_name(rule: Rule, name: Name) -> ScriptFault
    ensures { result ≡ of_name rule name }
{
    ScriptFault::Refused(Refusal::OfName(name.spot.line, rule, name.text))
}

/// The refusal of what breaks a rule, where the name is not said.
fn of_line(kind: Kind, name: &Name) -> ScriptFault
    ensures { result ≡ of_line kind name.now }
{
    ScriptFault::Refused(Refusal::OnLine(name.spot.line, kind))
}

/// The refusal of a tree that breaks a rule of names.
fn no_names(fault: NameFault) -> ScriptFault
    ensures { result ≡ fault_of_names fault }
{
    match fault {
        NameFault::Unknown(name) => of_name(Rule::Unknown, name),
        NameFault::Twice(name) => of_name(Rule::Twice, name),
        NameFault::AssignConst(name) => of_name(Rule::Const, name),
        NameFault::Capture(name) => of_name(Rule::Capture, name),
        NameFault::LoopWord(name) => of_line(Kind::LoopWord, &name),
        NameFault::ReturnPlace(name) => of_line(Kind::ReturnPlace, &name),
        NameFault::Slots(name) => of_line(Kind::Slots, &name),
        NameFault::Memory => ScriptFault::Memory,
    }
}

/// The tree that the bytes spell, where they are not too many.
fn tree_of(alloc: Global, bytes: &[u8]) -> Result<Tree, ScriptFault>
    requires { length bytes.now ≤ MOST_BYTES }
    ensures tree { IfOk result (λ t. AreSpelled bytes.now (plain_tree t)) }
    ensures refused { IfErr result (IsScriptFault bytes.now) }
{
    let tokens = match lex(alloc, bytes) {
        Ok(tokens) => tokens,
        Err(fault) => return Err(no_tokens(bytes, fault)),
    };
    match parse(alloc, &tokens) {
        Ok(tree) => Ok(tree),
        Err(fault) => Err(no_tree(fault)),
    }
}

/// The tree that the bytes spell.
fn short_tree_of(alloc: Global, bytes: &[u8]) -> Result<Tree, ScriptFault>
    ensures tree { IfOk result (λ t. AreSpelled bytes.now (plain_tree t)) }
    ensures refused { IfErr result (IsScriptFault bytes.now) }
{
    if bytes.len() > MOST_BYTES {
        return Err(ScriptFault::Refused(Refusal::TooLong));
    }
    tree_of(alloc, bytes)
}

/// The program that the bytes are, where they are accepted.
///
/// # Errors
///
/// `Refused` exactly where the bytes are refused so; bytes are never both accepted and refused (`read_one_way`).
#[tactic(auto, using(crate::proofs::Programs::spelled, crate::proofs::Programs::program_is))]
pub fn accept(alloc: Global, bytes: &[u8]) -> Result<Program, ScriptFault>
    ensures program { IfOk result (IsProgram bytes.now) }
    ensures refused { IfErr result (IsScriptFault bytes.now) }
{
    let tree = short_tree_of(alloc, bytes)?;
    match resolve(alloc, &tree) {
        Ok(program) => Ok(program),
        Err(fault) => Err(no_names(fault)),
    }
}
