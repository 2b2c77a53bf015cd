// Where a file with a journal has what.
ghost use Rattle.std.specs.Prelude.{◌≡◌, ◌↔◌, ◌+◌, ◌*◌, ◌^◌, ◌<◌, ◌≤◌, Some, IsTrue, IfSome};
ghost use Rattle.journal.specs.Head.{head_of};
ghost use Rattle.journal.specs.File.{lines_of_file, head_at, part_at};

/// The first word of a head: "WBLJRN01", its first byte lowest.
pub const MAGIC: u64 = 0x3130_4e52_4a4c_4257;

/// How many lines of 64 bytes a part has at most: 32 MiB.
pub const MAX_PART_LINES: u64 = 524_288;

/// How many lines the image of a file has, and each part of its journal.
#[derive(Clone, Copy, Debug, PartialEq, Eq)]
pub struct Shape {
    pub lines: u64,
    pub part: u64,
}

/// What a head tells.
#[derive(Clone, Copy, Debug, PartialEq, Eq)]
pub struct Head {
    pub shape: Shape,
    pub generation: u64,
}

impl Shape {
    /// The shape of a file for an image of so many lines: a part is a quarter of it, and 32 MiB at most.
    pub fn of_image(lines: u64) -> Shape
        ensures lines { result.lines ≡ lines }
        ensures part { result.part ≤ MAX_PART_LINES }
        ensures quarter { 4 * result.part ≤ lines }
        ensures most { 4 * MAX_PART_LINES ≤ lines → result.part ≡ MAX_PART_LINES }
        ensures all { lines < 4 * MAX_PART_LINES → lines < 4 * result.part + 4 }
    {
        Shape {
            lines,
            part: (lines / 4).min(MAX_PART_LINES),
        }
    }

    /// How many lines the file has.
    pub fn lines_of_file(&self) -> u64
        requires { lines_of_file self.now < 2 ^ 64 }
        ensures { result ≡ lines_of_file self.now }
    {
        self.lines + 1 + 2 * self.part
    }

    /// Whether a file of so many lines has this shape.
    pub fn is_of(&self, lines: u64) -> bool
        ensures { IsTrue result ↔ (lines_of_file self.now ≡ lines) }
    {
        if lines <= self.lines {
            return false;
        }
        let behind = lines - self.lines - 1;
        behind % 2 == 0 && behind / 2 == self.part
    }

    /// The first word of the head.
    pub fn head_at(&self) -> u64
        requires { 8 * lines_of_file self.now < 2 ^ 64 }
        ensures { result ≡ head_at self.now }
    {
        8 * self.lines
    }

    /// The first word of the part that a generation uses.
    pub fn part_at(&self, generation: u64) -> u64
        requires { 8 * lines_of_file self.now < 2 ^ 64 }
        ensures value { result ≡ part_at self.now generation }
        ensures within { result + 8 * self.now.part ≤ 8 * lines_of_file self.now }
    {
        if generation % 2 == 0 {
            8 * (self.lines + 1)
        } else {
            8 * (self.lines + 1 + self.part)
        }
    }
}

impl Head {
    /// The eight words of a head.
    pub fn words(&self) -> [u64; 8]
        ensures { result ≡ head_of self.now.shape self.now.generation }
    {
        [
            MAGIC,
            self.generation,
            self.shape.lines,
            self.shape.part,
            0,
            0,
            0,
            0,
        ]
    }
}

/// What these words tell, where they are a head.
pub fn read_head(words: &[u64]) -> Option<Head>
    ensures sound { IfSome result (λ head. words.now ≡ head_of head.shape head.generation) }
    ensures found { (head : Head) → words.now ≡ head_of head.shape head.generation → result ≡ Some head }
{
    if words.len() != 8 {
        return None;
    }
    let head = Head {
        shape: Shape {
            lines: words[2],
            part: words[3],
        },
        generation: words[1],
    };
    if words == head.words().as_slice() {
        Some(head)
    } else {
        None
    }
}
