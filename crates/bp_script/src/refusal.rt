//! Why a program is refused, and the words for it.
ghost use Rattle.std.specs.Prelude.{◌≡◌, IfOk};
ghost use Rattle.bp_script.specs.Refusals.{kind_name, rule_name, line_note, named_note, note_of};

use js_data::{Memory, Text};
use std::alloc::Global;

/// What is wrong on a line of a program.
#[derive(Clone, Copy, Debug)]
pub enum Kind {
    /// A character that is not a token.
    Character,
    /// A text literal or a comment that is not closed.
    OpenText,
    /// A wrong escape in a text literal.
    Escape,
    /// A number that is out of range.
    NumberRange,
    /// A token that the language leaves out.
    Unsupported,
    /// A byte that is no part of UTF-8.
    Utf8,
    /// The tokens spell no tree, or one that is nested too deep.
    NoTree,
    /// `break` or `continue` outside a loop of its function.
    LoopWord,
    /// `return` at the top level.
    ReturnPlace,
    /// More slots in a function than it may have.
    Slots,
}

impl Kind {
    /// Its words.
    pub fn name(self) -> &'static str
        ensures { result.now ≡ kind_name self }
    {
        match self {
            Kind::Character => "character",
            Kind::OpenText => "open text",
            Kind::Escape => "escape",
            Kind::NumberRange => "number range",
            Kind::Unsupported => "unsupported",
            Kind::Utf8 => "utf-8",
            Kind::NoTree => "no tree",
            Kind::LoopWord => "loop word",
            Kind::ReturnPlace => "return place",
            Kind::Slots => "slots",
        }
    }
}

/// The rule that a name breaks.
#[derive(Clone, Copy, Debug)]
pub enum Rule {
    /// Nothing declares it.
    Unknown,
    /// It is declared twice, or can't be declared.
    Twice,
    /// It is assigned, and never changes.
    Const,
    /// It is a variable of an outer function whose value can't be copied.
    Capture,
}

impl Rule {
    /// Its word.
    pub fn name(self) -> &'static str
        ensures { result.now ≡ rule_name self }
    {
        match self {
            Rule::Unknown => "unknown",
            Rule::Twice => "twice",
            Rule::Const => "const",
            Rule::Capture => "capture",
        }
    }
}

/// Why a program is refused.
#[derive(Debug, Drop)]
pub enum Refusal {
    /// It has more bytes than a program may have.
    TooLong,
    /// What is wrong, on this line from 1.
    OnLine(u32, Kind),
    /// The rule that this name breaks, on this line from 1.
    OfName(u32, Rule, Text),
}

impl Refusal {
    /// The words for it.
    pub fn note(&self, alloc: Global) -> Result<Text, Memory>
        ensures { IfOk result (λ text. text ≡ note_of self.now) }
    {
        match self {
            Refusal::TooLong => text_of(alloc, "refused: too long"),
            Refusal::OnLine(line, kind) => line_note(alloc, *line, kind.name()),
            Refusal::OfName(line, rule, name) => named_note(
                alloc,
                *line,
                rule.name(),
                name.as_str(),
            ),
        }
    }
}

/// These words as a text.
fn text_of(alloc: Global, words: &str) -> Result<Text, Memory>
    ensures { IfOk result (λ text. text ≡ words.now) }
{
    Ok(Text::new(words.to_string(alloc)?))
}

/// The words for what is wrong on a line.
fn line_note(alloc: Global, line: u32, kind: &str) -> Result<Text, Memory>
    ensures { IfOk result (λ text. text ≡ line_note line kind.now) }
{
    Ok(Text::new(format!(in alloc; "refused line {line}: {kind}")?))
}

/// The words for a name that breaks a rule.
fn named_note(alloc: Global, line: u32, rule: &str, name: &str) -> Result<Text, Memory>
    ensures { IfOk result (λ text. text ≡ named_note line rule.now name.now) }
{
    Ok(Text::new(format!(in alloc; "refused line {line}: {rule} {name}")?))
}
