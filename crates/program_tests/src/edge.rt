use fx_base::SureShelf;
use fx_edge::{CurrentFolder, FolderShelf, start};
use std::alloc::Global;
use std::env::Args;
use std::fs;
use std::process::Abort;

const HALF: &str = "proc factex;\nfactors A B C D;\nsize design=8;\nmodel resolution=4;\nrun;\n";

const HALF_LISTING: &str =
    "step 1\nfactors 4 levels 2\ndesign 8 runs\nresolution 4\nnodes 4\nrules\n  D = A*B*C\n";

const MADE: &str =
    "proc factex nodes=20000;\nfactors X1-X6 / nlev=2;\nsize design=32;\nmodel resolution=max;\nrun;\n";

const PLANNED: &str =
    "proc factex; factors A B C; size design=4; model resolution=3; output out=Factex_Test C cvals=('lo,w' 'hi');";

const PLAN: &str = "A,B,C\n-1,-1,\"lo,w\"\n-1,1,hi\n1,-1,hi\n1,1,\"lo,w\"\n";

const BARRED: &str = "proc factex; factors A; model resolution=3; output out=Factex_Barred;";

/// Two steps without a design, and a plan with a name of 36 bytes.
const BOOKS: &str = "\
proc factex; factors A B / nlev=3; size design=3; model estimate=(A*B); run;
proc factex; factors A B C; size design=2; model resolution=3; run;
proc factex; factors A B; size design=4; model resolution=3; output out=factex_beside_a_name_of_32_bytes;
";

/// What is written to the files of that program, by their names.
const BOOK_FILES: [(&str, &str); 3] = [
    (
        "step1-1.book",
        "factex-book 2\nsize 3 1 2 0\neffects 3 /\npattern none\nO 1\nW 1 1:2 2:1\nW 0 2:1\nW 0 1:1\nEND\n",
    ),
    (
        "step2-1.book",
        "factex-book 2\nsize 2 1 3 0\nresolution 3\npattern none\nO 1\nEND\n",
    ),
    (
        "factex_beside_a_name_of_32_bytes.csv",
        "A,B\n-1,-1\n-1,1\n1,-1\n1,1\n",
    ),
];

/// The words of a command line, between blanks.
fn args_in(rt: &impl Abort, alloc: Global, line: &str) -> Args {
    let mut args = Vec::new(alloc);
    for word in line.split_whitespace() {
        let word = String::from_str(alloc, word).expect(rt, "memory");
        args.push(word).expect(rt, "memory");
    }
    args.into_iter()
}

#[test]
fn runs_from_a_slice_to_a_vector(rt: HostRuntime) {
    let alloc = rt.alloc();
    let args = args_in(&rt, alloc, "factex run");
    let mut shelf = SureShelf::new(alloc, 1, 0).expect(&rt, "memory");
    let out = Vec::new(alloc);
    let ran = start(&rt, alloc, Ok(args), HALF.as_bytes(), out, &mut shelf);
    assert!(rt; ran.status == 0);
    assert!(rt; ran.output.writer.as_slice() == HALF_LISTING.as_bytes());
}

/// The words after the command reach it, and the reader, which has no text of a program, is left unread.
#[test]
fn makes_a_text(rt: HostRuntime) {
    let alloc = rt.alloc();
    let args = args_in(&rt, alloc, "factex make 1");
    let mut shelf = SureShelf::new(alloc, 1, 0).expect(&rt, "memory");
    let text = b"no program".as_slice();
    let ran = start(&rt, alloc, Ok(args), text, Vec::new(alloc), &mut shelf);
    assert!(rt; ran.status == 0);
    assert!(rt; ran.output.writer.as_slice() == MADE.as_bytes());
    assert!(rt; ran.input.reader == text);
}

/// The plan takes the place of a longer file of the same name.
#[test]
fn a_plan_is_written_to_the_folder(rt: HostRuntime) {
    let alloc = rt.alloc();
    let args = args_in(&rt, alloc, "factex run");
    fs::write(&rt, "factex_test.csv", HALF_LISTING).expect(&rt, "a file");
    let mut shelf = FolderShelf::new(CurrentFolder::new(&rt));
    let out = Vec::new(alloc);
    let ran = start(&rt, alloc, Ok(args), PLANNED.as_bytes(), out, &mut shelf);
    let held = fs::read(&rt, "factex_test.csv").expect(&rt, "a plan");
    fs::remove_file(&rt, "factex_test.csv").expect(&rt, "a plan");
    assert!(rt; ran.status == 0);
    assert!(rt; held.as_slice() == PLAN.as_bytes());
}

/// Each book and each plan has a file of its own name.
#[test]
fn books_and_plans_are_written_to_the_folder(rt: HostRuntime) {
    let alloc = rt.alloc();
    let args = args_in(&rt, alloc, "factex run");
    let mut shelf = FolderShelf::new(CurrentFolder::new(&rt));
    let ran = start(
        &rt,
        alloc,
        Ok(args),
        BOOKS.as_bytes(),
        Vec::new(alloc),
        &mut shelf,
    );
    assert!(rt; ran.status == 1);
    for (name, content) in BOOK_FILES {
        let held = fs::read(&rt, name).expect(&rt, "a file");
        fs::remove_file(&rt, name).expect(&rt, "a file");
        assert!(rt; held.as_slice() == content.as_bytes());
    }
}

/// A folder of the plan's name stands in the way.
#[test]
fn a_file_that_cannot_be_made_ends_the_run(rt: HostRuntime) {
    let alloc = rt.alloc();
    let args = args_in(&rt, alloc, "factex run");
    fs::create_dir(&rt, "factex_barred.csv").expect(&rt, "a folder");
    let mut shelf = FolderShelf::new(CurrentFolder::new(&rt));
    let out = Vec::new(alloc);
    let ran = start(&rt, alloc, Ok(args), BARRED.as_bytes(), out, &mut shelf);
    fs::remove_dir(&rt, "factex_barred.csv").expect(&rt, "the folder");
    assert!(rt; ran.status == 4 && ran.output.writer.is_empty());
}
