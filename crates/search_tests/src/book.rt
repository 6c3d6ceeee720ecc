ghost use Rattle.fx_vectors.specs.Shape.{IsShape};

use fx_base::Bytes;
use fx_book::{BookStop, book_pieces, read_book, write_book};
use fx_vectors::{Book, Demands, Mark, Marks};
use std::alloc::Global;
use std::process::Abort;
use std::thread::Threads;

/// The book of five factors in eight runs at resolution 4, of which there is no design.
const WORKED: &str =
    "factex-book 2\nsize 2 3 5 0\nresolution 4\npattern none\nO 1\nO 2\nO 4\nO 7\nW 6 1:1 4:1 5:1\nW 5 2:1 4:1 5:1\nW 3 3:1 4:1 5:1\nW 6 2:1 3:1 4:1\nW 5 1:1 3:1 4:1\nW 3 1:1 2:1 4:1\nEND\n";

/// The code and the line of a text's first fault, or None for a book.
fn fault(alloc: Global, text: &[u8]) -> Option<(u8, u32)> {
    match read_book(alloc, text) {
        Err(BookStop::Fault(fault)) => Some((fault.kind.code(), fault.line)),
        Err(BookStop::NoMemory) | Ok(_) => None,
    }
}

/// Whether the text of the book that a text is is the text again.
fn comes_back(rt: &impl Abort, alloc: Global, text: &str) -> bool {
    let book = read_book(alloc, text.as_bytes()).expect(rt, "a book");
    let mut out = Bytes::new(alloc);
    write_book(&book, &mut out).expect(rt, "memory");
    out.as_slice() == text.as_bytes()
}

/// Tests that each text is no book, with a fault of this code in this line.
fn are_faulty(rt: &impl Abort, alloc: Global, cases: &[(&str, u8, u32)]) {
    for (text, code, line) in cases {
        assert!(rt;
            fault(alloc, text.as_bytes()) == Some((*code, *line)),
            "{text}"
        );
    }
}

/// Whether a book has this shape, and asks for resolution 4 and no pattern.
fn is_headed(book: &Book, q: u8, m: u8, s: u8, t: u8) -> bool {
    let shape = book.head.question.shape;
    let is_shape = shape.q == q && shape.m == m && shape.s == s && shape.t == t;
    let is_asked = matches!(&book.head.question.demands, Demands::Resolution { r: 4 });
    is_shape && is_asked && !book.head.question.least && book.head.beat.is_none()
}

/// Whether there are ten marks, of which the fourth and the last are these.
fn has_marks(marks: &Marks, fourth: Mark, last: Mark) -> bool {
    marks.len() == 10 && marks.get(3) == fourth && marks.get(9) == last
}

#[test]
fn worked_book_is_read(rt: HostRuntime) {
    let book = read_book(rt.alloc(), WORKED.as_bytes()).expect(&rt, "a book");
    assert!(rt; is_headed(&book, 2, 3, 5, 0));
    let fourth = Mark::Branch { row: 7 };
    let last = Mark::Word { row: 3, word: 11 };
    assert!(rt; has_marks(&book.marks, fourth, last));
}

/// Tests that each text comes back.
fn all_come_back(rt: &impl Abort, alloc: Global, cases: &[&str]) {
    for text in cases {
        assert!(rt; comes_back(rt, alloc, text), "{text}");
    }
}

#[test]
fn books_come_back(rt: HostRuntime) {
    const TEXTS: [&str; 9] = [
        WORKED,
        "factex-book 2\nsize 2 3 4 0\nresolution 4\npattern 0 0 0 1\nO 1\nO 2\nO 4\nP 7\nP 6\nP 5\nP 3\nEND\n",
        "factex-book 2\nsize 2 1 2 0\neffects 1 2 /\npattern none\nO 1\nW 1 1:1 2:1\nW 0 2:1\nW 0 1:1\nEND\n",
        "factex-book 2\nsize 3 2 4 2\neffects 1 2 3 / 4 8 5\npattern none\nEND\n",
        "factex-book 2\nsize 2 10 1 10\nresolution 3\npattern none\nEND\n",
        "factex-book 2\nsize 2 3 2 0\nresolution 3\npattern 0 170141183460469231731687303715884105727\nEND\n",
        "factex-book 2\nsize 9 3 40 0\nresolution 99\npattern none\nW 728 #147808829414345923316083210206383297600\nEND\n",
        "factex-book 2\nsize 2 6 63 0\nresolution 99\npattern none\nW 63 #9223372036854775807\nW 1 41:1 63:1\nEND\n",
        "factex-book 2\nsize 3 6 63 0\nresolution 99\npattern none\nW 728 #1144561273430837494885949696426\nW 0 1:1 2:2 3:1 4:2 5:1 6:2 7:1 63:2\nEND\n",
    ];
    all_come_back(&rt, rt.alloc(), &TEXTS);
}

fn add_words(rt: &impl Abort, marks: &mut Marks, count: u32) {
    for i in 0..count {
        let row = (i % 8) as u16;
        let word = u128::from(i);
        marks.push(Mark::Word { row, word }).expect(rt, "memory");
    }
}

/// The text of a book, from the pieces of so many threads.
fn text_by<R: Threads + Sync + Abort>(rt: &R, alloc: Global, book: &Book, threads: u8) -> Bytes
    requires { IsShape book.now.head.question.shape }
{
    assert!(rt; threads > 0);
    let pieces = book_pieces(rt, alloc, book, threads).expect(rt, "memory");
    let mut text = Bytes::new(alloc);
    for piece in pieces.as_slice() {
        text.extend_from_slice(piece.as_slice())
            .expect(rt, "memory");
    }
    text
}

/// A book of 100,010 entries, whose text two threads and more make in pieces.
#[test]
fn pieces_make_the_text(rt: HostRuntime) {
    let alloc = rt.alloc();
    let mut book = read_book(alloc, WORKED.as_bytes()).expect(&rt, "a book");
    add_words(&rt, &mut book.marks, 100_000);
    let mut text = Bytes::new(alloc);
    write_book(&book, &mut text).expect(&rt, "memory");
    for threads in [1, 2, 3, 4, 64] {
        let made = text_by(&rt, alloc, &book, threads);
        assert!(rt; made.as_slice() == text.as_slice(), "{threads} threads");
    }
}

#[test]
fn first_lines_have_their_faults(rt: HostRuntime) {
    const CASES: [(&str, u8, u32); 26] = [
        ("", 2, 1),
        ("\n", 2, 1),
        ("factex-book 1", 2, 1),
        ("factex-book 3\nsize 2 3 5 0\n", 2, 1),
        ("factex-book 1\r\nsize 2 3 5 0\n", 2, 1),
        ("factex-book 1\n", 3, 2),
        ("factex-book 1\nsize 2 3 5 0", 3, 2),
        ("factex-book 1\nsize 2 3 5\n", 3, 2),
        ("factex-book 1\nsize 2 3 5 0 0\n", 3, 2),
        ("factex-book 1\nsize 2 3 5 00\n", 3, 2),
        ("factex-book 1\nsize 2 3 05 0\n", 3, 2),
        ("factex-book 1\nsize 2  3 5 0\n", 3, 2),
        ("factex-book 1\nsize 2 3 5 0 \n", 3, 2),
        ("factex-book 1\nsize 6 3 5 0\n", 3, 2),
        ("factex-book 1\nsize 2 0 5 0\n", 3, 2),
        ("factex-book 1\nsize 2 11 5 0\n", 3, 2),
        ("factex-book 1\nsize 3 7 5 0\n", 3, 2),
        ("factex-book 1\nsize 2 3 0 0\n", 3, 2),
        ("factex-book 1\nsize 2 3 41 0\n", 3, 2),
        ("factex-book 1\nsize 2 6 63 0\n", 3, 2),
        ("factex-book 2\nsize 2 6 64 0\n", 3, 2),
        ("factex-book 2\nsize 4 3 41 0\n", 3, 2),
        ("factex-book 2\nsize 2 6 31 1\n", 3, 2),
        ("factex-book 1\nsize 2 3 31 1\n", 3, 2),
        ("factex-book 1\nsize 2 3 5 11\n", 3, 2),
        (
            "factex-book 1\nsize 2 3 5 1000000000000000000000000000000000000000\n",
            3,
            2,
        ),
    ];
    are_faulty(&rt, rt.alloc(), &CASES);
}

/// The fault of a text with a line between its front and its end.
fn fault_with(
    rt: &impl Abort,
    alloc: Global,
    front: &str,
    line: &str,
    end: &str,
) -> Option<(u8, u32)> {
    let mut text = Bytes::from_slice(alloc, front.as_bytes()).expect(rt, "memory");
    text.extend_from_slice(line.as_bytes()).expect(rt, "memory");
    text.extend_from_slice(end.as_bytes()).expect(rt, "memory");
    fault(alloc, text.as_slice())
}

/// Tests that these texts are no third line of a book of four factors in eight runs.
fn are_no_demands(rt: &impl Abort, alloc: Global, lines: &[&str]) {
    let front = "factex-book 1\nsize 2 3 4 0\n";
    for line in lines {
        let found = fault_with(rt, alloc, front, line, "\npattern none\nEND\n");
        assert!(rt; found == Some((4, 3)), "{line}");
    }
}

#[test]
fn demands_have_their_faults(rt: HostRuntime) {
    const CASES: [&str; 27] = [
        "",
        "resolution",
        "resolution ",
        "resolution 2",
        "resolution 100",
        "resolution 03",
        "resolution 3 3",
        "Resolution 3",
        "effects",
        "effects /",
        "effects / 1",
        "effects 1",
        "effects 1/",
        "effects 1 / ",
        "effects 1 /  2",
        "effects  1 / 2",
        "effects 1 / / 2",
        "effects 1 / 2 /",
        "effects 0 /",
        "effects 16 /",
        "effects 1 / 16",
        "effects 1 / 1000000000000000000000000000000000000000",
        "effects 2 1 /",
        "effects 1 1 /",
        "effects 3 4 /",
        "effects 1 / 4 2",
        "effects 1 2 / 2",
    ];
    are_no_demands(&rt, rt.alloc(), &CASES);
}

#[test]
fn patterns_have_their_faults(rt: HostRuntime) {
    const CASES: [(&str, u8, u32); 9] = [
        ("factex-book 1\nsize 2 3 2 0\nresolution 3\n", 5, 4),
        (
            "factex-book 1\nsize 2 3 2 0\nresolution 3\npattern none",
            5,
            4,
        ),
        (
            "factex-book 1\nsize 2 3 2 0\nresolution 3\npattern\nEND\n",
            5,
            4,
        ),
        (
            "factex-book 1\nsize 2 3 2 0\nresolution 3\npattern 0\nEND\n",
            5,
            4,
        ),
        (
            "factex-book 1\nsize 2 3 2 0\nresolution 3\npattern 0 0 0\nEND\n",
            5,
            4,
        ),
        (
            "factex-book 1\nsize 2 3 2 0\nresolution 3\npattern 0 none\nEND\n",
            5,
            4,
        ),
        (
            "factex-book 1\nsize 2 3 2 0\nresolution 3\npattern 0 170141183460469231731687303715884105728\nEND\n",
            5,
            4,
        ),
        (
            "factex-book 1\nsize 2 3 2 1\nresolution 3\npattern 0 0\nEND\n",
            5,
            4,
        ),
        (
            "factex-book 1\nsize 2 3 2 0\neffects 1 /\npattern 0 0\nEND\n",
            5,
            4,
        ),
    ];
    are_faulty(&rt, rt.alloc(), &CASES);
}

/// Tests that these lines have a fault of this code as entries behind these five lines.
fn are_no_entries(rt: &impl Abort, alloc: Global, front: &str, code: u8, lines: &[&str]) {
    for line in lines {
        let found = fault_with(rt, alloc, front, line, "\nEND\n");
        assert!(rt; found == Some((code, 6)), "{line}");
    }
}

#[test]
fn entries_have_their_faults(rt: HostRuntime) {
    let front = "factex-book 1\nsize 2 3 5 0\nresolution 4\npattern none\nO 1\n";
    const MALFORMED: [&str; 17] = [
        "", "O", "O ", "O 1 ", "O  1", "O 1\r", "O 01", "O 1 1", "o 1", "P 1", "P 9", "W 1",
        "W 1 01", "W 1 1 1", "END ", "W 8 x", "W 1 1:1",
    ];
    are_no_entries(&rt, rt.alloc(), front, 6, &MALFORMED);
    const OUT_OF_RANGE: [&str; 6] = [
        "O 8",
        "O 1000000000000000000000000000000000000000",
        "W 8 1",
        "W 7 0",
        "W 7 32",
        "W 7 1000000000000000000000000000000000000000",
    ];
    are_no_entries(&rt, rt.alloc(), front, 7, &OUT_OF_RANGE);
}

/// Of nine factors of three levels, by their places: in a wrong form; then out of range, with nine parts,
/// with places that fall or repeat, and by the number of a vector of eight entries.
#[test]
fn words_have_their_faults(rt: HostRuntime) {
    let front = "factex-book 2\nsize 3 2 9 0\nresolution 4\npattern none\nO 1\n";
    const MALFORMED: [&str; 14] = [
        "W 6 25",
        "W 6 ",
        "W 6 4",
        "W 6 4:",
        "W 6 :1",
        "W 6 4:1:1",
        "W 6 4:01",
        "W 6 4:1 5",
        "W 6 4:1 ",
        "W 6 #",
        "W 6 #09841",
        "W 6 #9841 4:1",
        "W 6 4:1 #9841",
        "W 9 10:1 x",
    ];
    are_no_entries(&rt, rt.alloc(), front, 6, &MALFORMED);
    const OUT_OF_RANGE: [&str; 11] = [
        "W 6 1:1 2:1 3:1 4:1 5:1 6:1 7:1 8:1 9:1",
        "W 6 4:1 3:1",
        "W 6 4:1 4:1",
        "W 6 0:1",
        "W 6 10:1",
        "W 6 4:0",
        "W 6 4:3",
        "W 9 4:1",
        "W 6 #3280",
        "W 6 #0",
        "W 6 #19683",
    ];
    are_no_entries(&rt, rt.alloc(), front, 7, &OUT_OF_RANGE);
}

#[test]
fn ends_have_their_faults(rt: HostRuntime) {
    const CASES: [(&str, u8, u32); 5] = [
        (
            "factex-book 1\nsize 2 3 5 0\nresolution 3\npattern none\n",
            8,
            5,
        ),
        (
            "factex-book 1\nsize 2 3 5 0\nresolution 3\npattern none\nEND",
            8,
            5,
        ),
        (
            "factex-book 1\nsize 2 3 5 0\nresolution 3\npattern none\nO 7\nnone",
            8,
            6,
        ),
        (
            "factex-book 1\nsize 2 3 5 0\nresolution 3\npattern none\nO 7\nEND\n\n",
            9,
            7,
        ),
        (
            "factex-book 1\nsize 2 3 5 0\nresolution 3\npattern none\nEND\nEND\n",
            9,
            6,
        ),
    ];
    are_faulty(&rt, rt.alloc(), &CASES);
}

/// A book that is cut off has its fault in the line that is not ended.
#[test]
fn no_part_of_a_book_is_one(rt: HostRuntime) {
    let book = WORKED.as_bytes();
    let mut line = 1u32;
    for cut in 0..book.len() {
        if cut > 0 && book[cut - 1] == b'\n' && line < 100 {
            line += 1;
        }
        let code = if line < 5 { line as u8 + 1 } else { 8 };
        assert!(rt; fault(rt.alloc(), &book[..cut]) == Some((code, line)));
    }
}

/// A text that is too long has no other fault; at the limit its first line is judged.
#[test]
fn limit_is_kept(rt: HostRuntime) {
    let text = vec![in rt.alloc(); b'\n'; 268_435_457].expect(&rt, "memory");
    assert!(rt; fault(rt.alloc(), text.as_slice()) == Some((1, 1)));
    assert!(rt; fault(rt.alloc(), &text.as_slice()[1..]) == Some((2, 1)));
}
