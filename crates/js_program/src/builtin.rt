//! The forms of `bp` and `Math`.
ghost use Rattle.std.specs.Prelude.{◌≡◌, ◌<◌, IsTrue, map, option_map};
ghost use Rattle.std.specs.List.{list_any};
ghost use Rattle.js_program.specs.Builtins.{acting, builtin_of, builtins, form_number, form_row, has_effect_in, have_distinct_words, in_threads, is_met, met, modes_in_row, row_named, same_mode};

/// A form of `bp` or `Math`.
#[derive(Clone, Copy, Debug)]
pub enum Builtin {
    /// `bp.registerBThread(name, function)`
    RegisterBThread,
    /// `bp.sync(statement)`, or with a priority
    Sync,
    /// `bp.Event(name)`, or with data
    Event,
    /// `bp.EventSet(name, predicate)`
    EventSet,
    /// `bp.all`
    All,
    /// `bp.none`
    Nothing,
    /// `bp.ASSERT(condition, text)`
    Assert,
    /// `bp.enqueueExternalEvent(event)`
    EnqueueExternalEvent,
    /// `bp.setInterruptHandler(function)`
    SetInterruptHandler,
    /// `bp.log.info(value)`
    LogInfo,
    /// `Math.floor(number)`
    Floor,
}

/// What is running where a form is met.
#[derive(Clone, Copy)]
pub enum Mode {
    /// The top level.
    Top,
    /// A b-thread.
    Thread,
    /// An interrupt handler.
    Handler,
    /// The predicate of an event set.
    Predicate,
}

/// The modes in which a form has its effect.
#[derive(Clone, Copy)]
pub enum Modes {
    /// Every mode.
    Everywhere,
    /// Every mode but that of a predicate.
    Acting,
    /// That of a b-thread.
    InThreads,
}

/// A row of the table of forms.
#[derive(Clone, Copy)]
pub struct FormRow {
    /// The form.
    pub form: Builtin,
    /// The object before the dot.
    pub object: &'static str,
    /// The word after the dot.
    pub word: &'static str,
    /// Whether the form is called.
    pub called: bool,
    /// The modes in which it has its effect.
    pub modes: Modes,
}

// Rows: the form, the object before the dot, the word after it, whether it is called, and its modes.
macro_rules! rows {
    ($($form:ident, $object:expr, $word:expr, $called:expr, $modes:ident;)*) => {
        [$(FormRow {
            form: Builtin::$form,
            object: $object,
            word: $word,
            called: $called,
            modes: Modes::$modes,
        }),*]
    };
}

/// One row for each form, in the order of the enum.
static ROWS: [FormRow; 11] = rows![
    RegisterBThread, "bp", "registerBThread", true, Acting;
    Sync, "bp", "sync", true, InThreads;
    Event, "bp", "Event", true, Everywhere;
    EventSet, "bp", "EventSet", true, Everywhere;
    All, "bp", "all", false, Everywhere;
    Nothing, "bp", "none", false, Everywhere;
    Assert, "bp", "ASSERT", true, Acting;
    EnqueueExternalEvent, "bp", "enqueueExternalEvent", true, Acting;
    SetInterruptHandler, "bp", "setInterruptHandler", true, InThreads;
    LogInfo, "bp.log", "info", true, Acting;
    Floor, "Math", "floor", true, Everywhere;
];

/// The table of forms, a row for each in the order of the enum, of which no two have one word.
pub fn form_rows() -> &'static [FormRow; 11]
    ensures rows { map form_row result.now ≡ builtins }
    ensures distinct { IsTrue (have_distinct_words builtins) }
{
    &ROWS
}

/// The number of the row.
fn place_of(form: Builtin) -> usize
    ensures place { result ≡ form_number form }
    ensures within { result < 11 }
{
    form as usize
}

impl FormRow {
    /// Whether the object and the call are those of the form.
    fn is_met(&self, object: &str, called: bool) -> bool
        ensures { result ≡ is_met (form_row self.now) object.now called }
    {
        object == self.object && called == self.called
    }
}

/// The first row with this word after the dot.
fn row_named<'a>(rows: &'a [FormRow], word: &str) -> Option<&'a FormRow>
    ensures { option_map (λ r. form_row r.now) result ≡ row_named (map form_row rows.now) word.now }
{
    for row in rows {
        if row.word == word {
            return Some(row);
        }
    }
    None
}

/// The form of the row, where its object and its call are met.
fn met(row: Option<&FormRow>, object: &str, called: bool) -> Option<Builtin>
    ensures { result ≡ met (option_map (λ r. form_row r.now) row.entry) object.now called }
{
    match row {
        Some(row) => {
            if row.is_met(object, called) {
                Some(row.form)
            } else {
                None
            }
        }
        None => None,
    }
}

/// The form with this object before the dot and this word after it, called or not.
pub fn builtin_of(object: &str, word: &str, called: bool) -> Option<Builtin>
    ensures { result ≡ builtin_of object.now word.now called }
{
    met(row_named(form_rows(), word), object, called)
}

/// Everywhere but in a predicate.
fn acts(mode: Mode) -> bool
    ensures { result ≡ list_any (same_mode mode) acting }
{
    match mode {
        Mode::Top | Mode::Thread | Mode::Handler => true,
        Mode::Predicate => false,
    }
}

fn is_thread(mode: Mode) -> bool
    ensures { result ≡ list_any (same_mode mode) in_threads }
{
    match mode {
        Mode::Thread => true,
        Mode::Top | Mode::Handler | Mode::Predicate => false,
    }
}

impl Modes {
    /// Whether the mode is one of them.
    #[tactic(auto, using(crate::proofs::Forms::has_anywhere))]
    fn contain(self, mode: Mode) -> bool
        ensures { result ≡ list_any (same_mode mode) (modes_in_row self) }
    {
        match self {
            Modes::Everywhere => true,
            Modes::Acting => acts(mode),
            Modes::InThreads => is_thread(mode),
        }
    }
}

/// Whether a form has its effect in this mode, by its row.
#[tactic(auto, using(crate::proofs::Forms::modes_at))]
pub fn has_effect_in(mode: Mode, form: Builtin) -> bool
    ensures { result ≡ has_effect_in mode form }
{
    form_rows()[place_of(form)].modes.contain(mode)
}
