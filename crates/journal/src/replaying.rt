// Reading the records of a journal, and bringing their lines to an image.
ghost use Rattle.std.specs.Prelude.{◌≡◌, ℕ, ◌+◌, ◌-◌, ◌*◌, ◌≤◌, ◌++◌, ◌↔◌, true, List, length, replicate, slice_index, vec_capacity, IsSome, IfSome};
ghost use Rattle.journal.specs.Record.{Record, are_below, all_sealed};
ghost use Rattle.journal.specs.Journal.{lines_in, behind, record_in, passes, IsJournal};
ghost use Rattle.journal.specs.Replay.{with_line, with_lines, replayed};

use crate::sealing::count_zeros;

/// Brings the lines of the records of a journal to an image of `lines` lines, record by record, up to the first that does not pass, and says
/// how many words these records have. There is room for the whole image; its words behind the last one are 0. It takes no memory.
pub fn replay(lines: u64, words: &[u64], image: &mut Vec<u64>) -> usize
    requires { 8 * lines ≤ vec_capacity image.old }
    ensures replayed { (records : List Record) × IsJournal lines words.now records × (result ≡ length (all_sealed records))
        × ((word : ℕ) → slice_index image.new.items word ≡ replayed records (λ w. slice_index image.old.items w) word) }
    ensures capacity { vec_capacity image.new ≡ vec_capacity image.old }
{
    let mut rest = words;
    while passes(lines, rest) {
        let (record, later) = rest.split_at(2 + 9 * rest[1] as usize);
        put_record(lines, record, image);
        rest = later;
    }
    words.len() - rest.len()
}

/// The numbers of the lines that a record has, and what stands behind it.
#[derive(Clone, Copy)]
pub struct Recorded<'a> {
    pub numbers: &'a [u64],
    pub behind: &'a [u64],
}

/// The lines of the record at the beginning of a journal of an image of `lines` lines, where one passes.
pub fn next_record<'a>(lines: u64, words: &'a [u64]) -> Option<Recorded<'a>>
    ensures passes { IsSome result ↔ (passes lines words.now ≡ true) }
    ensures numbers { IfSome result (λ r. r.numbers.now ≡ (record_in words.now).numbers) }
    ensures behind { IfSome result (λ r. r.behind.now ≡ behind words.now) }
{
    if !passes(lines, words) {
        return None;
    }
    let (head, rest) = words.split_at(2);
    let count = head[1] as usize;
    let (numbers, _) = rest.split_at(count);
    let (_, behind) = rest.split_at(9 * count);
    Some(Recorded { numbers, behind })
}

/// Whether a record stands at the beginning of these words, whole, with lines of an image of `lines` lines alone.
pub fn passes(lines: u64, words: &[u64]) -> bool
    ensures { result ≡ passes lines words.now }
{
    if words.len() < 2 {
        return false;
    }
    let (head, rest) = words.split_at(2);
    if head[1] == 0 || head[1] > (rest.len() / 9) as u64 {
        return false;
    }
    let count = head[1] as usize;
    let (body, _) = rest.split_at(9 * count);
    if head[0] != 1 + count_zeros(body) {
        return false;
    }
    let (numbers, _) = body.split_at(count);
    are_below(lines, numbers)
}

/// Whether each of these is the number of a line, where there are `lines`.
fn are_below(lines: u64, numbers: &[u64]) -> bool
    ensures { result ≡ are_below lines numbers.now }
{
    for number in numbers {
        if *number >= lines {
            return false;
        }
    }
    true
}

/// Brings the lines of a record that passes to an image.
fn put_record(lines: u64, record: &[u64], image: &mut Vec<u64>)
    requires passes { passes lines record.now ≡ true }
    requires whole { length record.now ≡ 2 + 9 * lines_in record.now }
    requires room { 8 * lines ≤ vec_capacity image.old }
    ensures image { (word : ℕ) → slice_index image.new.items word
        ≡ with_lines (record_in record.now).numbers (record_in record.now).words (λ w. slice_index image.old.items w) word }
    ensures capacity { vec_capacity image.new ≡ vec_capacity image.old }
{
    let (head, body) = record.split_at(2);
    let (numbers, words) = body.split_at(head[1] as usize);
    put_lines(lines, numbers, words, image);
}

/// Brings lines, eight words for each, to an image.
fn put_lines(lines: u64, numbers: &[u64], words: &[u64], image: &mut Vec<u64>)
    requires eight { length words.now ≡ 8 * length numbers.now }
    requires below { are_below lines numbers.now ≡ true }
    requires room { 8 * lines ≤ vec_capacity image.old }
    ensures image { (word : ℕ) → slice_index image.new.items word
        ≡ with_lines numbers.now words.now (λ w. slice_index image.old.items w) word }
    ensures capacity { vec_capacity image.new ≡ vec_capacity image.old }
{
    let mut rest = words;
    for number in numbers {
        let (line, later) = rest.split_at(8);
        put_line(*number, line, image);
        rest = later;
    }
}

/// Brings the eight words of a line to an image.
fn put_line(number: u64, words: &[u64], image: &mut Vec<u64>)
    requires eight { length words.now ≡ 8 }
    requires room { 8 * number + 8 ≤ vec_capacity image.old }
    ensures image { (word : ℕ) → slice_index image.new.items word ≡ with_line number words.now (λ w. slice_index image.old.items w) word }
    ensures capacity { vec_capacity image.new ≡ vec_capacity image.old }
{
    let first = 8 * number as usize;
    fill(image, first + 8);
    for (i, word) in words.iter().enumerate() {
        image[first + i] = *word;
    }
}

/// Makes them so many words at least, by zeros. It takes no memory.
fn fill(words: &mut Vec<u64>, count: usize)
    requires { count ≤ vec_capacity words.old }
    ensures items { words.new.items ≡ words.old.items ++ replicate (count - length words.old.items) 0 }
    ensures capacity { vec_capacity words.new ≡ vec_capacity words.old }
{
    while words.len() < count {
        words.push_reserved(0);
    }
}
