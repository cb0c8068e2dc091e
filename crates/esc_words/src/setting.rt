//! The options that words may use: flags and settings.

ghost use Rattle.std.specs.Prelude.{◌≡◌};
ghost use Rattle.esc_words.specs.Uses.{flag_name, most_of, setting_name, usual_of};

/// An option without a value.
#[derive(Clone, Copy)]
pub enum Flag {
    /// The facts by which goals are valid are printed.
    Log,
    /// The classes of counterexamples are printed with their values.
    Model,
}

impl Flag {
    /// The name, as it stands behind two dashes. It lives as long as its caller wants, since the
    /// parser keeps it beside the words.
    pub(crate) fn name<'a>(self) -> &'a str
        ensures { result.now ≡ flag_name self }
    {
        match self {
            Flag::Log => "log",
            Flag::Model => "model",
        }
    }
}

/// An option with a number as its value: a limit of the search.
#[derive(Clone, Copy)]
pub enum Setting {
    /// How deep instances go.
    Depth,
    /// How many rounds a branch has.
    Rounds,
    /// How many facts a goal has.
    Facts,
    /// How many splits a goal has.
    Splits,
    /// How many pivots a maximising has.
    Pivots,
}

impl Setting {
    /// The name, as it stands behind two dashes. It lives as long as a flag's does.
    pub(crate) fn name<'a>(self) -> &'a str
        ensures { result.now ≡ setting_name self }
    {
        match self {
            Setting::Depth => "depth",
            Setting::Rounds => "rounds",
            Setting::Facts => "facts",
            Setting::Splits => "splits",
            Setting::Pivots => "pivots",
        }
    }

    /// The greatest number that it takes.
    pub(crate) fn most(self) -> u64
        ensures { result ≡ most_of self }
    {
        match self {
            Setting::Depth => 9,
            Setting::Rounds => 1_000,
            Setting::Facts => 100_000,
            Setting::Splits => 10_000_000,
            Setting::Pivots => 1_000_000,
        }
    }

    /// The number where it is not set.
    pub(crate) fn usual(self) -> u64
        ensures { result ≡ usual_of self }
    {
        match self {
            Setting::Depth => 4,
            Setting::Rounds => 64,
            Setting::Facts => 20_000,
            Setting::Splits => 100_000,
            Setting::Pivots => 10_000,
        }
    }
}
