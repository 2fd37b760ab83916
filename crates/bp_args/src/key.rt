//! The options.
ghost use Rattle.std.specs.Prelude.{◌≡◌};
ghost use Rattle.bp_args.specs.Keys.{key_name, keys, key_at};

/// What stands before the name of an option, and alone before the words that are none.
pub(crate) const DASHES: &str = "--";

/// An option, which has one value.
#[derive(Clone, Copy)]
pub(crate) enum Key {
    /// The name of the log.
    Log,
    /// The strategy.
    Strategy,
    /// The seed.
    Seed,
    /// The budget.
    Budget,
    /// The limit of steps.
    Steps,
    /// The number of workers.
    Workers,
    /// The nodes of a slice.
    Slice,
    /// Whether the run waits for its injectors.
    Wait,
}

impl Key {
    /// All options, in the order in which they are written.
    pub(crate) fn all() -> [Key; 8]
        ensures { result ≡ keys }
    {
        [
            Key::Log,
            Key::Strategy,
            Key::Seed,
            Key::Budget,
            Key::Steps,
            Key::Workers,
            Key::Slice,
            Key::Wait,
        ]
    }

    /// Its name, without the two hyphens.
    pub(crate) fn name<'a>(self) -> &'a str
        ensures { result.now ≡ key_name self }
    {
        match self {
            Key::Log => "log",
            Key::Strategy => "strategy",
            Key::Seed => "seed",
            Key::Budget => "budget",
            Key::Steps => "steps",
            Key::Workers => "workers",
            Key::Slice => "slice",
            Key::Wait => "wait",
        }
    }

    /// The option of this name, or `None` exactly where none has it.
    pub(crate) fn of_name(name: &[u8]) -> Option<Key>
        ensures { result ≡ key_at name.now }
    {
        for key in Key::all() {
            if name == key.name().as_bytes() {
                return Some(key);
            }
        }
        None
    }
}
