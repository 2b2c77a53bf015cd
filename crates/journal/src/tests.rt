//! A record by hand, and the head of a small file.

use crate::{Head, Shape, next_record, passes, read_head, replay, seal, sealed_words};
use std::alloc::AllocError;

/// Three lines.
const IMAGE: [u64; 24] = [
    1, 2, 3, 4, 5, 6, 7, 8, 0, 0, 0, 0, 0, 0, 0, 0, 9, 0, 0, 0, 0, 0, 0, 10,
];

/// The record of the first of them and the last, with seven zeros behind its second word.
const RECORD: [u64; 20] = [8, 2, 0, 2, 1, 2, 3, 4, 5, 6, 7, 8, 9, 0, 0, 0, 0, 0, 0, 10];

#[test]
fn seals_lines_of_an_image(rt: HostRuntime) -> Result<(), AllocError> {
    let mut words = Vec::with_capacity(rt.alloc(), 20)?;
    seal(&[0, 2], &IMAGE, &mut words);
    assert!(rt; words.as_slice() == RECORD.as_slice());
    assert!(rt; sealed_words(2) == 20);
    Ok(())
}

#[test]
fn takes_a_whole_record_alone(rt: HostRuntime) {
    assert!(rt; passes(3, &RECORD));
    assert!(rt; !passes(2, &RECORD));
    assert!(rt;
        next_record(3, &RECORD).is_some_and(|record| record.numbers == [0, 2].as_slice()
            && record.behind.is_empty())
    );
    let mut lost = RECORD;
    lost[4] = 0;
    assert!(rt; !passes(3, &lost));
    assert!(rt; next_record(3, &lost).is_none());
}

#[test]
fn replays_up_to_what_is_no_record(rt: HostRuntime) -> Result<(), AllocError> {
    let mut journal = Vec::from_array(rt.alloc(), RECORD)?;
    journal.extend_from_slice(&[0; 20])?;
    let mut image = Vec::with_capacity(rt.alloc(), 24)?;
    assert!(rt; replay(3, &journal, &mut image) == 20);
    assert!(rt; image.as_slice() == IMAGE.as_slice());
    Ok(())
}

#[test]
fn finds_the_parts_of_a_small_file(rt: HostRuntime) {
    let shape = Shape::of_image(4_096);
    let head = Head {
        shape,
        generation: 3,
    };
    assert!(rt; shape.part == 1_024);
    assert!(rt; shape.is_of(6_145) && !shape.is_of(6_144));
    assert!(rt; read_head(&head.words()) == Some(head));
}
