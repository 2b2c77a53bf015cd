// The lines that were flushed since the last fence that succeeded.
ghost use Rattle.std.specs.Prelude.{◌≡◌, ℕ, ◌<◌, ◌≤◌, ◌||◌, ◌==◌, true, false, length, vec_len, vec_capacity, slice_index_or, IfOk};
ghost use Rattle.pmem_file.specs.Line.{has_line, marked};

use std::alloc::{AllocError, Global};

/// Noted lines of a device, each once. No call but `new` takes memory.
#[derive(Drop)]
pub struct Notes {
    lines: Vec<u64>,
    /// For each line of the device, whether it is noted.
    marks: Vec<bool>,
    ghost listed: { (line : ℕ) → slice_index_or marks.items line false ≡ has_line lines.items line },
    ghost counted: { vec_len lines ≡ marked marks.items },
    ghost room: { vec_len marks ≤ vec_capacity lines },
}

impl Notes {
    ghost use Rattle.std.specs.List.Sorted.{IsNonDecreasing};
    ghost use Rattle.pmem_file.specs.Noted.{is_noted};

    /// No line is noted, on a device with the given number of lines.
    pub fn new(alloc: Global, lines: usize) -> Result<Notes, AllocError>
        ensures none { IfOk result (λ notes. (line : ℕ) → is_noted notes line ≡ false) }
        ensures lines { IfOk result (λ notes. vec_len notes.marks ≡ lines) }
    {
        Ok(Notes {
            lines: Vec::with_capacity(alloc, lines)?,
            marks: vec![in alloc; false; lines]?,
        })
    }

    /// Notes a line.
    pub fn add(&mut self, line: u64)
        requires { line < vec_len self.old.marks }
        ensures noted { (other : ℕ) → is_noted self.new other ≡ ((other == line) || is_noted self.old other) }
        ensures lines { vec_len self.new.marks ≡ vec_len self.old.marks }
    {
        if self.marks[line as usize] {
            return;
        }
        if self.lines.push(line).is_err() {
            unreachable!();
        }
        self.marks[line as usize] = true;
    }

    /// Notes these lines.
    pub fn add_all(&mut self, lines: &[u64])
        requires { (line : ℕ) → has_line lines.now line ≡ true → line < vec_len self.old.marks }
        ensures noted { (line : ℕ) → is_noted self.new line ≡ (is_noted self.old line || has_line lines.now line) }
        ensures lines { vec_len self.new.marks ≡ vec_len self.old.marks }
    {
        for line in lines {
            self.add(*line);
        }
    }

    /// Puts the noted lines in rising order.
    pub fn sort(&mut self)
        ensures sorted { IsNonDecreasing self.new.lines.items }
        ensures noted { (line : ℕ) → is_noted self.new line ≡ is_noted self.old line }
        ensures lines { vec_len self.new.marks ≡ vec_len self.old.marks }
    {
        self.lines.sort_unstable();
    }

    /// The noted lines.
    pub fn lines(&self) -> &[u64]
        ensures same { result.now ≡ self.now.lines.items }
        ensures listed { (line : ℕ) → has_line result.now line ≡ is_noted self.now line }
        ensures within { (line : ℕ) → has_line result.now line ≡ true → line < vec_len self.now.marks }
        ensures few { length result.now ≤ vec_len self.now.marks }
    {
        &self.lines
    }

    /// Notes no line any more.
    pub fn clear(&mut self)
        ensures none { (line : ℕ) → is_noted self.new line ≡ false }
        ensures lines { vec_len self.new.marks ≡ vec_len self.old.marks }
    {
        unmark(&mut self.marks, &self.lines);
        self.lines.clear();
    }
}

/// Takes the marks of these lines away, which are all that there are.
fn unmark(marks: &mut Vec<bool>, lines: &[u64])
    requires { (line : ℕ) → slice_index_or marks.old.items line false ≡ has_line lines.now line }
    ensures none { (line : ℕ) → slice_index_or marks.new.items line false ≡ false }
    ensures lines { vec_len marks.new ≡ vec_len marks.old }
{
    for line in lines {
        marks[*line as usize] = false;
    }
}
