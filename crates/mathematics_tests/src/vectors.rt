ghost use Rattle.std.specs.Prelude.{◌<◌};
ghost use Rattle.fx_vectors.specs.Marks.{row_of};

use fx_vectors::{Effect, Effects, Mark, Marks, contains};
use std::alloc::Global;
use std::process::Abort;

/// A mark whose row and word tell its place.
fn mark_at(i: usize) -> Mark
    ensures { row_of result < 1024 }
{
    let row = (i % 1024) as u16;
    match i % 3 {
        0 => Mark::Branch { row },
        1 => Mark::Word {
            row,
            word: u128::MAX - i as u128,
        },
        _ => Mark::Worse { row },
    }
}

fn marks_of(rt: &impl Abort, alloc: Global, count: usize) -> Marks {
    let mut marks = Marks::new(alloc);
    for i in 0..count {
        marks.push(mark_at(i)).expect(rt, "memory");
    }
    marks
}

fn stand_at(marks: &Marks, places: &[usize]) -> bool {
    for i in places {
        if *i >= marks.len() || marks.get(*i) != mark_at(*i) {
            return false;
        }
    }
    true
}

/// One more mark than two pieces hold.
#[test]
fn marks_are_kept_past_the_end_of_a_piece(rt: HostRuntime) {
    const PLACES: [usize; 8] = [0, 1, 2, 65535, 65536, 65537, 131071, 131072];
    assert!(rt; Marks::new(rt.alloc()).is_empty());
    let marks = marks_of(&rt, rt.alloc(), 131073);
    assert!(rt; marks.len() == 131073 && stand_at(&marks, &PLACES));
}

/// Words at the edges of each number of digits to the base 2^32, from none to four.
const WORDS: [u128; 11] = [
    0,
    1,
    4294967295,
    4294967296,
    18446744073709551615,
    18446744073709551616,
    79228162514264337593543950335,
    79228162514264337593543950336,
    170141183460469231731687303715884105727,
    170141183460469231731687303715884105728,
    340282366920938463463374607431768211455,
];

/// Marks of which the last are of these words, and one more.
fn marks_of_words(rt: &impl Abort, alloc: Global, count: usize, words: &[u128]) -> Marks {
    let mut marks = marks_of(rt, alloc, count);
    for word in words {
        let mark = Mark::Word {
            row: 1023,
            word: *word,
        };
        marks.push(mark).expect(rt, "memory");
    }
    marks.push(Mark::Worse { row: 1023 }).expect(rt, "memory");
    marks
}

/// Whether marks of these words stand from this place on, and one more.
fn stand_from(marks: &Marks, count: usize, words: &[u128]) -> bool {
    let mut i = count;
    for word in words {
        let mark = Mark::Word {
            row: 1023,
            word: *word,
        };
        if i >= marks.len() || marks.get(i) != mark {
            return false;
        }
        i += 1;
    }
    i < marks.len() && marks.get(i) == Mark::Worse { row: 1023 } && marks.len() - i == 1
}

/// Six of the words are in one piece, and five in the next.
#[test]
fn words_of_all_lengths_are_kept_about_the_end_of_a_piece(rt: HostRuntime) {
    let marks = marks_of_words(&rt, rt.alloc(), 65530, &WORDS);
    assert!(rt; stand_from(&marks, 65530, &WORDS));
    assert!(rt; stand_at(&marks, &[0, 1, 2, 65527, 65528, 65529]));
}

/// Appends a list to one, and its marks one by one to another.
fn append_both(rt: &impl Abort, appended: &mut Marks, pushed: &mut Marks, more: Marks) {
    for i in 0..more.len() {
        pushed.push(more.get(i)).expect(rt, "memory");
    }
    appended.append(more).expect(rt, "memory");
}

fn are_same(marks: &Marks, others: &Marks) -> bool {
    for i in 0..marks.len() {
        if i >= others.len() || marks.get(i) != others.get(i) {
            return false;
        }
    }
    marks.len() == others.len()
}

/// Lists of no marks, of few, which are copied, and of more than a piece, whose pieces are moved.
#[test]
fn appended_lists_have_the_marks_of_each(rt: HostRuntime) {
    let alloc = rt.alloc();
    let mut appended = Marks::new(alloc);
    let mut pushed = Marks::new(alloc);
    for count in [0, 65525, 3, 65530] {
        let more = marks_of_words(&rt, alloc, count, &WORDS);
        append_both(&rt, &mut appended, &mut pushed, more);
        append_both(&rt, &mut appended, &mut pushed, Marks::new(alloc));
    }
    assert!(rt; appended.len() == 131106);
    assert!(rt; are_same(&appended, &pushed));
}

#[test]
fn an_effect_is_among_others_or_not(rt: HostRuntime) {
    let effects = [Effect(1), Effect(6)];
    let effects = Effects::from_slice(rt.alloc(), &effects).expect(&rt, "memory");
    assert!(rt; contains(&effects, Effect(6)) && !contains(&effects, Effect(2)));
}
