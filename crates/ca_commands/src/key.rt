// The options that have values.
ghost use Rattle.std.specs.Prelude.{◌≡◌};
ghost use Rattle.ca_commands.specs.Words.{spelling};
ghost use Rattle.ca_commands.specs.Gathering.{key_of};

/// An option that has a value.
#[derive(Clone, Copy, Debug, PartialEq, Eq)]
pub enum Key {
    Limit,
    Depth,
    Only,
    Events,
    Patience,
    Schedule,
    Seed,
}

impl Key {
    /// The option as it is spelled.
    pub(crate) fn spelling(self) -> &'static str
        ensures { result.now ≡ spelling self }
    {
        match self {
            Key::Limit => "--limit",
            Key::Depth => "--depth",
            Key::Only => "--only",
            Key::Events => "--events",
            Key::Patience => "--patience",
            Key::Schedule => "--schedule",
            Key::Seed => "--seed",
        }
    }
}

/// The option that a text names.
pub(crate) fn key_of(text: &str) -> Option<Key>
    ensures { result ≡ key_of text.now }
{
    if text == "--limit" {
        Some(Key::Limit)
    } else if text == "--depth" {
        Some(Key::Depth)
    } else if text == "--only" {
        Some(Key::Only)
    } else if text == "--events" {
        Some(Key::Events)
    } else if text == "--patience" {
        Some(Key::Patience)
    } else if text == "--schedule" {
        Some(Key::Schedule)
    } else if text == "--seed" {
        Some(Key::Seed)
    } else {
        None
    }
}
