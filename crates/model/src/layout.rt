//! Where the parts of an image lie. Each version of the image has its layout.
ghost use Rattle.model.specs.Layout as layouts;

/// How many bytes a word has.
pub const WORD_BYTES: u64 = 8;

/// How many words a line has.
pub const LINE_WORDS: u64 = 8;

/// How many bytes a line has.
pub const LINE_BYTES: u64 = LINE_WORDS * WORD_BYTES;

/// How many words of the superblock say what the image is. The root is behind them.
pub const SUPERBLOCK_WORDS: u64 = 4;

/// The word of a record where the pairs of its gaps begin.
pub const GAPS_WORD: u64 = 6;

/// The line of entry 0.
pub const DIRECTORY_LINE: u64 = 8;

/// How many lines an image has for each line of its directory and of the slots behind it.
pub const ENTRY_SHARE: u64 = 8;

/// An entry's word of lengths is the key's length plus this many times the field's.
pub const FIELD_LENGTH_UNIT: u64 = 65_536;

/// Where the parts of an image lie, by its version. Line 0 is the superblock, and the extents begin right after the directory, or after the record slots
/// where these stand behind it. The directory and the extents begin at the same lines in all of them.
#[derive(Clone, Copy, Debug, PartialEq, Eq)]
pub enum Layout {
    /// The two record slots stand before the directory.
    Version1 = 1,
    /// Records hold more gaps, and their slots stand right behind the directory, which has an entry fewer for each line of theirs.
    Version2 = 2,
    /// On its way from version 1 to version 2: its records stand as those of version 1, and it is read without the entries that version 2 has no room for.
    Halfway = 3,
}

/// The layout of new images, and of those that are opened.
pub const LAYOUT: Layout = Layout::Version2;

impl Layout {
    ghost use Rattle.std.specs.Prelude.{◌≡◌, ◌≢◌, ◌+◌, ◌<◌, ◌^◌, MatchOption};
    ghost use Rattle.model.specs.declared.layout.Layout.{Layout as ImageLayout};

    /// The layout of the images whose word 1 is this number, or `None` where there are none.
    pub fn of_version(number: u64) -> Option<Layout>
        ensures { MatchOption result ((layout : ImageLayout) → layouts.version layout ≢ number) (λ layout. layouts.version layout ≡ number) }
    {
        match number {
            1 => Some(Layout::Version1),
            2 => Some(Layout::Version2),
            3 => Some(Layout::Halfway),
            _ => None,
        }
    }

    /// The version, which is word 1 of the image.
    pub fn version(self) -> u64
        ensures { result ≡ layouts.version self }
    {
        match self {
            Layout::Version1 => 1,
            Layout::Version2 => 2,
            Layout::Halfway => 3,
        }
    }

    /// The word of the superblock that names the current record.
    pub fn root_word(self) -> u64
        ensures { result ≡ layouts.root_word self }
    {
        match self {
            Layout::Version1 | Layout::Halfway => 4,
            Layout::Version2 => 5,
        }
    }

    /// How many lines a record slot has.
    pub fn slot_lines(self) -> u64
        ensures { result ≡ layouts.slot_lines self }
    {
        match self {
            Layout::Version1 | Layout::Halfway => 3,
            Layout::Version2 => 9,
        }
    }

    /// How many gaps a record holds at most.
    pub fn max_gaps(self) -> u64
        ensures { result ≡ layouts.max_gaps self }
    {
        match self {
            Layout::Version1 | Layout::Halfway => 8,
            Layout::Version2 => 32,
        }
    }

    /// The word of a record that holds its role, after the gaps. The word after it holds the floor.
    pub fn role_word(self) -> u64
        ensures { result ≡ layouts.role_word self }
    {
        match self {
            Layout::Version1 | Layout::Halfway => GAPS_WORD + 2 * 8,
            Layout::Version2 => GAPS_WORD + 2 * 32,
        }
    }

    /// How many lines an image of `lines` lines has for its directory, with the slots behind it. It is word 3 of the image.
    pub fn directory_room(lines: u64) -> u64
        ensures { result ≡ layouts.directory_room lines }
    {
        lines / ENTRY_SHARE
    }

    /// How many entries the directory has in an image of `lines` lines.
    pub fn entries_of_lines(self, lines: u64) -> u64
        ensures { result ≡ layouts.entries_of_lines self lines }
    {
        let room = Layout::directory_room(lines);
        match self {
            Layout::Version1 => room,
            Layout::Version2 | Layout::Halfway => room.saturating_sub(2 * 9),
        }
    }

    /// The line of entry `i`.
    pub fn entry_line(i: u64) -> u64
        requires { DIRECTORY_LINE + i < 2 ^ 64 }
        ensures { result ≡ layouts.entry_line i }
    {
        DIRECTORY_LINE + i
    }

    /// The first line of the extents in an image of `lines` lines.
    pub fn first_extent_line(lines: u64) -> u64
        ensures { result ≡ layouts.first_extent_line lines }
    {
        DIRECTORY_LINE + Layout::directory_room(lines)
    }

    /// The first line of slot 0 in an image of `lines` lines. Slot 1 follows it.
    pub fn first_slot_line(self, lines: u64) -> u64
        ensures { result ≡ layouts.first_slot_line self lines }
    {
        match self {
            Layout::Version1 | Layout::Halfway => 1,
            Layout::Version2 => DIRECTORY_LINE + self.entries_of_lines(lines),
        }
    }

    /// The first line of the slot of record `n` in an image of `lines` lines: the two slots take turns.
    pub fn slot_line(self, lines: u64, n: u64) -> u64
        ensures { result ≡ layouts.slot_line self lines n }
    {
        self.first_slot_line(lines) + self.slot_lines() * (n % 2)
    }
}
