// Finding the journal of a file.
ghost use Rattle.std.specs.Prelude.{◌≡◌, ◌⊎◌, ◌↔◌, ◌+◌, ◌*◌, ◌^◌, ◌<◌, ◌≤◌, ◌++◌, List, Some, length, take, drop, IsTrue, IsSome, IfOk, IfErr, IfSome};
ghost use Rattle.kv_types.specs.declared.refusal.Refusal;
ghost use Rattle.journal.specs.declared.shape.Head.{Head};
ghost use Rattle.journal.specs.declared.shape.Shape.{Shape};
ghost use Rattle.journal.specs.Head.{head_of};
ghost use Rattle.journal.specs.File.{lines_of_file};
ghost use Rattle.model.specs.declared.image.TheConstants.{MIN_LINES, MAX_LINES};
ghost use Rattle.pmem_file.specs.Opening.{Step, AreReads, steps_of};
ghost use Rattle.pmem_file.specs.Finding.{IsMade, IsTold, IsPartOf, IsSeenWhere, part_behind};

use crate::bytes::{decode, word_at};
use crate::opening::Opening;
use journal::{Head, Shape, read_head};
use kv_types::Refusal;
use model::{LINE_BYTES, MAX_LINES, MIN_LINES};
use std::alloc::Global;

/// The head of the journal behind the image of a file of `lines` lines, where it has one. The third word of a file with an image tells how many lines the image
/// has: where these are fewer than those of the file, and the line behind them is a head of a file of that shape, there is one. Where that line is what a crash
/// leaves of the first head, the journal has not begun, and its generation is 0.
pub fn find_journal(
    alloc: Global,
    opening: &mut Opening,
    lines: u64,
) -> Result<Option<Head>, Refusal>
    ensures looks { IfOk result (λ _. (looks : List Step) × AreReads looks × (steps_of opening.new.calls ≡ looks ++ steps_of opening.old.calls)) }
    ensures many { IfOk result (λ found. IfSome found (λ head. MIN_LINES ≤ head.shape.lines)) }
    ensures few { IfOk result (λ found. IfSome found (λ head. head.shape.lines ≤ MAX_LINES)) }
    ensures whole { IfOk result (λ found. IfSome found (λ head. lines_of_file head.shape ≡ lines)) }
    ensures seen { IfOk result (λ found. IsSeenWhere found (steps_of opening.old.calls) (steps_of opening.new.calls)) }
    ensures causes { IfErr result (λ refusal. (refusal ≡ Refusal.Fault) ⊎ (refusal ≡ Refusal.Memory)) }
{
    let mut block = vec![in alloc; 0; LINE_BYTES as usize]?;
    if !opening.read(0, &mut block) {
        return Err(Refusal::Fault);
    }
    let image = word_at(&block, 16);
    if image < MIN_LINES || MAX_LINES < image || image >= lines {
        return Ok(None);
    }
    if !opening.read(LINE_BYTES * image, &mut block) {
        return Err(Refusal::Fault);
    }
    let mut words = Vec::with_capacity(alloc, 8)?;
    decode(&block, &mut words)?;
    Ok(head_told(&words, image, lines))
}

/// The head that this line tells, behind an image of so many lines in a file of so many.
pub fn head_told(words: &[u64], image: u64, lines: u64) -> Option<Head>
    requires { image < lines }
    ensures image { IfSome result (λ head. head.shape.lines ≡ image) }
    ensures whole { IfSome result (λ head. lines_of_file head.shape ≡ lines) }
    ensures told { IfSome result (λ head. IsTold head.shape head.generation words.now) }
    // a head is found, and so is what a crash may leave of the first one, which is of the shape in which files are made
    ensures found { (head : Head) → words.now ≡ head_of head.shape head.generation → head.shape.lines ≡ image → lines_of_file head.shape ≡ lines
        → result ≡ Some head }
    ensures first { (shape : Shape) → IsMade shape → shape.lines ≡ image → lines_of_file shape ≡ lines → IsPartOf words.now (head_of shape 1) → IsSome result }
{
    if let Some(head) = whole_head(words, image, lines) {
        return Some(head);
    }
    first_head(words, image, lines)
}

/// The head that this line is, where it is one of an image of so many lines in a file of so many.
fn whole_head(words: &[u64], image: u64, lines: u64) -> Option<Head>
    ensures image { IfSome result (λ head. head.shape.lines ≡ image) }
    ensures whole { IfSome result (λ head. lines_of_file head.shape ≡ lines) }
    ensures sound { IfSome result (λ head. words.now ≡ head_of head.shape head.generation) }
    ensures found { (head : Head) → words.now ≡ head_of head.shape head.generation → head.shape.lines ≡ image → lines_of_file head.shape ≡ lines
        → result ≡ Some head }
{
    match read_head(words) {
        Some(head) => head_that_fits(head, image, lines),
        None => None,
    }
}

/// This head, where it is one of an image of so many lines in a file of so many.
fn head_that_fits(head: Head, image: u64, lines: u64) -> Option<Head>
    ensures image { IfSome result (λ found. found.shape.lines ≡ image) }
    ensures whole { IfSome result (λ found. lines_of_file found.shape ≡ lines) }
    ensures same { IfSome result (λ found. found ≡ head) }
    ensures found { head.shape.lines ≡ image → lines_of_file head.shape ≡ lines → result ≡ Some head }
{
    if head.shape.lines == image && head.shape.is_of(lines) {
        Some(head)
    } else {
        None
    }
}

/// What comes before the first head, where a crash may leave this line of it, in a file as one is made. In no other: a superblock that tells of too many lines
/// may have zeros behind them.
fn first_head(words: &[u64], image: u64, lines: u64) -> Option<Head>
    ensures image { IfSome result (λ head. head.shape.lines ≡ image) }
    ensures whole { IfSome result (λ head. lines_of_file head.shape ≡ lines) }
    ensures generation { IfSome result (λ head. head.generation ≡ 0) }
    ensures made { IfSome result (λ head. IsMade head.shape) }
    ensures found { (shape : Shape) → IsMade shape → shape.lines ≡ image → lines_of_file shape ≡ lines → IsPartOf words.now (head_of shape 1) → IsSome result }
{
    let shape = Shape::of_image(image);
    let first = Head {
        shape,
        generation: 1,
    };
    if shape.is_of(lines) && is_part_of(words, &first.words()) {
        Some(Head {
            shape,
            generation: 0,
        })
    } else {
        None
    }
}

/// Whether each of these words is that of the head, or 0.
fn is_part_of(words: &[u64], head: &[u64]) -> bool
    ensures { IsTrue result ↔ IsPartOf words.now head.now }
{
    if words.len() != head.len() {
        return false;
    }
    for i in 0..words.len() {
        if words[i] != 0 && words[i] != head[i] {
            return false;
        }
    }
    true
}

/// The words of the part in use, of what stands behind the image: the second word of the head tells which it is.
pub fn part_of(tail: &[u64], shape: Shape) -> &[u64]
    requires countable { 8 * lines_of_file shape < 2 ^ 64 }
    requires whole { length tail.now + 8 * shape.lines ≡ 8 * lines_of_file shape }
    ensures { result.now ≡ part_behind shape tail.now }
{
    let first = shape.part_at(tail[1]) - shape.head_at();
    let (_, rest) = tail.split_at(first as usize);
    let (part, _) = rest.split_at(8 * shape.part as usize);
    part
}
