// Making the words of a record.
ghost use Rattle.std.specs.Prelude.{◌≡◌, ◌+◌, ◌*◌, ◌^◌, ◌<◌, ◌≤◌, ◌++◌, All, length, slice_index, vec_len, vec_capacity};
ghost use Rattle.journal.specs.Record.{zeros, sealed, line_of, lines_of, record_of};

/// Adds the record of these lines of an image, whose words behind the last one are 0. It takes no memory.
pub fn seal(numbers: &[u64], image: &[u64], words: &mut Vec<u64>)
    requires room { vec_len words.old + (2 + 9 * length numbers.now) ≤ vec_capacity words.old }
    requires countable { All (λ number. 8 * number + 8 ≤ 2 ^ 64) numbers.now }
    ensures words { words.new.items ≡ words.old.items ++ sealed (record_of (λ word. slice_index image.now word) numbers.now) }
    ensures capacity { vec_capacity words.new ≡ vec_capacity words.old }
{
    let at = words.len();
    words.push_reserved(0);
    words.push_reserved(numbers.len() as u64);
    push_all(numbers, words);
    push_lines(numbers, image, words);
    let (_, body) = words.as_slice().split_at(at + 2);
    words[at] = 1 + count_zeros(body);
}

/// How many words the record of so many lines has.
pub fn sealed_words(count: usize) -> usize
    requires { 2 + 9 * count < 2 ^ 64 }
    ensures { result ≡ 2 + 9 * count }
{
    2 + 9 * count
}

/// Adds these words.
fn push_all(more: &[u64], words: &mut Vec<u64>)
    requires { vec_len words.old + length more.now ≤ vec_capacity words.old }
    ensures words { words.new.items ≡ words.old.items ++ more.now }
    ensures capacity { vec_capacity words.new ≡ vec_capacity words.old }
{
    for word in more {
        words.push_reserved(*word);
    }
}

/// Adds the words of these lines.
fn push_lines(numbers: &[u64], image: &[u64], words: &mut Vec<u64>)
    requires room { vec_len words.old + 8 * length numbers.now ≤ vec_capacity words.old }
    requires countable { All (λ number. 8 * number + 8 ≤ 2 ^ 64) numbers.now }
    ensures words { words.new.items ≡ words.old.items ++ lines_of (λ word. slice_index image.now word) numbers.now }
    ensures capacity { vec_capacity words.new ≡ vec_capacity words.old }
{
    for number in numbers {
        push_line(*number, image, words);
    }
}

/// Adds the eight words of a line.
fn push_line(number: u64, image: &[u64], words: &mut Vec<u64>)
    requires room { vec_len words.old + 8 ≤ vec_capacity words.old }
    requires countable { 8 * number + 8 ≤ 2 ^ 64 }
    ensures words { words.new.items ≡ words.old.items ++ line_of (λ word. slice_index image.now word) number }
    ensures count { vec_len words.new ≡ vec_len words.old + 8 }
    ensures capacity { vec_capacity words.new ≡ vec_capacity words.old }
{
    let first = 8 * number;
    words.push_reserved(word_at(image, first));
    words.push_reserved(word_at(image, first + 1));
    words.push_reserved(word_at(image, first + 2));
    words.push_reserved(word_at(image, first + 3));
    words.push_reserved(word_at(image, first + 4));
    words.push_reserved(word_at(image, first + 5));
    words.push_reserved(word_at(image, first + 6));
    words.push_reserved(word_at(image, first + 7));
}

/// The word at this place, and 0 where there is none.
#[inline]
fn word_at(image: &[u64], word: u64) -> u64
    ensures { result ≡ slice_index image.now word }
{
    match image.get(word as usize) {
        Some(value) => *value,
        None => 0,
    }
}

/// How many of these words are 0.
pub(crate) fn count_zeros(words: &[u64]) -> u64
    ensures value { result ≡ zeros words.now }
    ensures few { result ≤ length words.now }
{
    let mut count: u64 = 0;
    for word in words {
        if *word == 0 {
            count += 1;
        }
    }
    count
}
