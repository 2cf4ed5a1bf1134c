//! The options behind a command.

ghost use Rattle.std.specs.Prelude.{◌≡◌, ◌≤◌, IfSome};
ghost use Rattle.command_words.specs.Options.{least_of, most_of};
ghost use Rattle.command_words.specs.Machine.{setting_named, is_free, nothing_given, with_number, with_whole, with_first, filled};
ghost use Rattle.command_words.specs.Numbers.{number_in};

/// How a pipeline is run.
#[derive(Clone, Copy, Debug, PartialEq, Eq)]
pub struct RunOptions {
    /// How many points a chunk has at most: 1 to 64.
    pub chunk: u32,

    /// How many items a queue holds: 1 to 64.
    pub queue: u32,

    /// How many workers there are: 1 to 32.
    pub workers: u32,

    /// How many rounds a worker finds nothing to do before it stops: 0 to 1,000,000.
    pub patience: u32,

    /// Whether stages hand on whole lists of points in place of chunks.
    pub whole: bool,

    /// Whether the run ends at the first fault that is seen.
    pub stop_first: bool,
}

/// An option that has a number behind it.
#[derive(Clone, Copy)]
pub(crate) enum Setting {
    Chunk,
    Queue,
    Workers,
    Patience,
}

/// The options that were given so far.
#[derive(Clone, Copy)]
pub(crate) struct GivenOptions {
    pub(crate) chunk: Option<u32>,
    pub(crate) queue: Option<u32>,
    pub(crate) workers: Option<u32>,
    pub(crate) patience: Option<u32>,
    pub(crate) whole: bool,
    pub(crate) stop_first: bool,
}

impl Setting {
    /// The option with this name.
    pub(crate) fn named(word: &str) -> Option<Setting>
        ensures { result ≡ setting_named word.now }
    {
        match word {
            "--chunk" => Some(Setting::Chunk),
            "--queue" => Some(Setting::Queue),
            "--workers" => Some(Setting::Workers),
            "--patience" => Some(Setting::Patience),
            _ => None,
        }
    }

    /// The number that a word writes for the option.
    pub(crate) fn number(self, word: &str) -> Option<u32>
        ensures { result ≡ number_in (least_of self) (most_of self) word.now }
    {
        match self {
            Setting::Chunk => number_in(1, 64, word),
            Setting::Queue => number_in(1, 64, word),
            Setting::Workers => number_in(1, 32, word),
            Setting::Patience => number_in(0, 1_000_000, word),
        }
    }
}

impl GivenOptions {
    /// No options.
    pub(crate) fn none() -> GivenOptions
        ensures { result ≡ nothing_given }
    {
        GivenOptions {
            chunk: None,
            queue: None,
            workers: None,
            patience: None,
            whole: false,
            stop_first: false,
        }
    }

    /// Whether the option wasn't given yet.
    pub(crate) fn is_free(self, setting: Setting) -> bool
        ensures { result ≡ is_free setting self }
    {
        match setting {
            Setting::Chunk => self.chunk.is_none(),
            Setting::Queue => self.queue.is_none(),
            Setting::Workers => self.workers.is_none(),
            Setting::Patience => self.patience.is_none(),
        }
    }

    /// The same with one option more.
    pub(crate) fn with_number(mut self, setting: Setting, number: u32) -> GivenOptions
        ensures { result ≡ with_number setting number self }
    {
        match setting {
            Setting::Chunk => self.chunk = Some(number),
            Setting::Queue => self.queue = Some(number),
            Setting::Workers => self.workers = Some(number),
            Setting::Patience => self.patience = Some(number),
        }
        self
    }

    /// The same with `--whole`.
    pub(crate) fn with_whole(mut self) -> GivenOptions
        ensures { result ≡ with_whole self }
    {
        self.whole = true;
        self
    }

    /// The same with `--stop first`.
    pub(crate) fn with_first(mut self) -> GivenOptions
        ensures { result ≡ with_first self }
    {
        self.stop_first = true;
        self
    }

    /// The options, where those that weren't given have their usual values.
    pub(crate) fn filled(self) -> RunOptions
        ensures { result ≡ filled self }
    {
        RunOptions {
            chunk: self.chunk.unwrap_or(64),
            queue: self.queue.unwrap_or(8),
            workers: self.workers.unwrap_or(1),
            patience: self.patience.unwrap_or(1_000),
            whole: self.whole,
            stop_first: self.stop_first,
        }
    }
}

/// The number that a word writes: digits with no zero before them, within bounds.
pub(crate) fn number_in(least: u32, most: u32, word: &str) -> Option<u32>
    ensures { result ≡ number_in least most word.now }
{
    let bytes = word.as_bytes();
    if bytes.len() == 0 || bytes[0] == b'+' {
        return None;
    }
    if bytes.len() > 1 && bytes[0] == b'0' {
        return None;
    }
    match word.parse::<u32>() {
        Ok(number) => {
            if least <= number && number <= most {
                Some(number)
            } else {
                None
            }
        }
        Err(_) => None,
    }
}
