mod ample;
mod books;
mod catalogues;
mod failing;
mod forged;
mod given;
mod limits;
mod outside;
mod tables;

use crate::rows_of;
use fx_base::{Bytes, put};
use fx_program::{Settings, make_text, read_words};
use outside::{Limits, Outside, SURE, Tally, file_of, left_by, lists, shelves, tally_of, words_in};
use std::alloc::Global;
use std::process::Abort;
use std::thread::Threads;

/// How many bytes a source or a sink moves at a call.
const STEP: usize = SURE.step;

/// Objects outside whose reads fail, all of them.
const UNREAD: Limits = Limits {
    first_read: Some(1),
    ..SURE
};

const HALF: &str = "proc factex;\nfactors A B C D;\nsize design=8;\nmodel resolution=4;\nrun;\n";

const HALF_LISTING: &str =
    "step 1\nfactors 4 levels 2\ndesign 8 runs\nresolution 4\nnodes 4\nrules\n  D = A*B*C\n";

/// Each text with its listing and status.
const PROGRAMS: [(&str, &str, u8); 47] = [
    (
        "proc factex; factors A B C D; output out=a [A B C D]=Q;",
        "step 1\nfactors 4 levels 2\ndesign 16 runs\nno defining words\nnodes 12\nrules\n  none\noutput a.csv 16 rows\nderived Q 16 levels balanced\n",
        0,
    ),
    (
        "proc factex; factors A B C / nlev=4; output out=a [A B C]=Q;",
        "step 1\nfactors 3 levels 4\ndesign 64 runs\nno defining words\nnodes 6\nrules\n  none\noutput a.csv 64 rows\nderived Q 64 levels balanced\n",
        0,
    ),
    (
        "proc factex;factors A;size design=4;model r=max;blocks nblocks=2;",
        "step 1\nfactors 1 levels 2\ndesign 4 runs in 2 blocks\nno defining words\nblocks clear to resolution 3 highest\nnodes 2\nrules\n  [1] = run factor 2\n",
        0,
    ),
    (HALF, HALF_LISTING, 0),
    (
        "PROC Factex ;factors A B C D E;\tsize\ndesign = 8;model res=4;run;",
        "step 1\nfactors 5 levels 2\nno design in 8 runs\nnodes 10\nbook step1-1.book\n",
        1,
    ),
    (
        "proc factex;factors A;model r=3;",
        "step 1\nfactors 1 levels 2\ndesign 2 runs\nno defining words\nnodes 1\nrules\n  none\n",
        0,
    ),
    (
        "proc factex;factors A B C D E F G;size fraction=8;model resolution=4;run;",
        "step 1\nfactors 7 levels 2\ndesign 16 runs\nresolution 4\nnodes 19\nrules\n  E = B*C*D\n  F = A*C*D\n  G = A*B*D\n",
        0,
    ),
    (
        "proc factex;factors X1-X8;size design=8;model resolution=3;",
        "step 1\nfactors 8 levels 2\nno design in 8 runs\nnodes 18\nbook step1-1.book\n",
        1,
    ),
    (
        "proc factex;factors A;size design=1024;model resolution=99;",
        "step 1\nfactors 1 levels 2\ndesign 1024 runs\nno defining words\nnodes 1\nrules\n  none\n",
        0,
    ),
    (
        "proc factex;factors A B C D / nlev=3;size design=9;model resolution=3;",
        "step 1\nfactors 4 levels 3\ndesign 9 runs\nresolution 3\nnodes 4\nrules\n  C = A^2*B\n  D = A*B\n",
        0,
    ),
    (
        "proc factex;factors A B C D E / nlev=3;size design=9;model resolution=3;",
        "step 1\nfactors 5 levels 3\nno design in 9 runs\nnodes 5\nbook step1-1.book\n",
        1,
    ),
    (
        "proc factex;factors A B C D E/nlev=4;size design=16;model r=3;",
        "step 1\nfactors 5 levels 4\ndesign 16 runs\nresolution 3\nnodes 5\nrules\n  C = A^3*B\n  D = A^2*B\n  E = A*B\n",
        0,
    ),
    (
        "proc factex;factors A B C D E F/nlev=5;size design=25;model r=3;",
        "step 1\nfactors 6 levels 5\ndesign 25 runs\nresolution 3\nnodes 6\nrules\n  C = A^4*B\n  D = A^3*B\n  E = A^2*B\n  F = A*B\n",
        0,
    ),
    (
        "proc factex;factors A B C D E F G H/nlev=7;size design=49;model r=3;",
        "step 1\nfactors 8 levels 7\ndesign 49 runs\nresolution 3\nnodes 8\nrules\n  C = A^6*B\n  D = A^5*B\n  E = A^4*B\n  F = A^3*B\n  G = A^2*B\n  H = A*B\n",
        0,
    ),
    (
        "proc factex;factors A B C D E F G H I/nlev=8;size design=64;model r=3;",
        "step 1\nfactors 9 levels 8\ndesign 64 runs\nresolution 3\nnodes 9\nrules\n  C = A^7*B\n  D = A^6*B\n  E = A^5*B\n  F = A^4*B\n  G = A^3*B\n  H = A^2*B\n  I = A*B\n",
        0,
    ),
    (
        "proc factex;factors A B C D E F G H I J/nlev=9;size design=81;model r=3;",
        "step 1\nfactors 10 levels 9\ndesign 81 runs\nresolution 3\nnodes 10\nrules\n  C = A^8*B\n  D = A^7*B\n  E = A^6*B\n  F = A^5*B\n  G = A^4*B\n  H = A^3*B\n  I = A^2*B\n  J = A*B\n",
        0,
    ),
    (
        "proc factex;factors A B C D E F/nlev=4;size design=16;model r=3;",
        "step 1\nfactors 6 levels 4\nno design in 16 runs\nnodes 9\nbook step1-1.book\n",
        1,
    ),
    (
        "proc factex;factors A B C/nlev=3;size fraction=3;model resolution=3;",
        "step 1\nfactors 3 levels 3\ndesign 9 runs\nresolution 3\nnodes 3\nrules\n  C = A^2*B\n",
        0,
    ),
    (
        "proc factex;factors A B/nlev=3;size design=3;model estimate=(A*B);",
        "step 1\nfactors 2 levels 3\nno design in 3 runs\nnodes 4\nbook step1-1.book\n",
        1,
    ),
    (
        "proc factex;factors A B C D;size nrunfacs=2;model estimate=(A*B C A*C);",
        "step 1\nfactors 4 levels 2\ndesign 4 runs\nresolution 1\nnodes 10\nrules\n  B = 0\n  D = A*C\n",
        0,
    ),
    (
        "proc factex;factors A;model r=3;proc factex nodes=1;factors A B;model r=3;proc factex;factors A B C;size design=2;model r=3;",
        "step 1\nfactors 1 levels 2\ndesign 2 runs\nno defining words\nnodes 1\nrules\n  none\nstep 2\nfactors 2 levels 2\nbudget ended after 1 nodes\nstep 3\nfactors 3 levels 2\nno design in 2 runs\nnodes 1\nbook step3-1.book\n",
        2,
    ),
    (
        "proc factex;factors A B C D;size design=8;model estimate=(A B C A*B);",
        "step 1\nfactors 4 levels 2\ndesign 8 runs\nresolution 4\nnodes 4\nrules\n  D = A*B*C\n",
        0,
    ),
    (
        "proc factex;factors A B;size design=2;model estimate=(A B);",
        "step 1\nfactors 2 levels 2\nno design in 2 runs\nnodes 4\nbook step1-1.book\n",
        1,
    ),
    (
        "proc factex;factors A B;size design=2;model estimate=(A) nonnegligible=(B);",
        "step 1\nfactors 2 levels 2\ndesign 2 runs\nresolution 1\nnodes 3\nrules\n  B = 0\n",
        0,
    ),
    (
        "proc factex;factors A B;size design=2;model estimate=(B);",
        "step 1\nfactors 2 levels 2\ndesign 2 runs\nresolution 2\nnodes 2\nrules\n  B = A\n",
        0,
    ),
    (
        "proc factex nodes=1;factors A B;size design=4;model resolution=3;",
        "step 1\nfactors 2 levels 2\nbudget ended after 1 nodes\n",
        2,
    ),
    (
        "proc factex nodes=9;factors A B C D E;size design=8;model resolution=4;
        proc factex nodes=10;factors A B C D E;size design=8;model resolution=4;",
        "step 1\nfactors 5 levels 2\nbudget ended after 9 nodes\nstep 2\nfactors 5 levels 2\nno design in 8 runs\nnodes 10\nbook step2-1.book\n",
        2,
    ),
    (
        "/* two */ proc factex; factors X1-X2; size nrunfacs=2; model res=3; examine confounding; quit;
        * the second; proc factex; factors A B C; size design=2; model res=3; run;",
        "step 1\nfactors 2 levels 2\ndesign 4 runs\nno defining words\nnodes 2\nrules\n  none\nstep 2\nfactors 3 levels 2\nno design in 2 runs\nnodes 1\nbook step2-1.book\n",
        1,
    ),
    (
        "proc factex; factors A B C; size design=4; model r=3; examine blocked aliasing; examine design;",
        "step 1\nfactors 3 levels 2\ndesign 4 runs\nresolution 3\nnodes 3\nrules\n  C = A*B\npoints A B C\n  1 -1 -1 -1\n  2 -1 1 1\n  3 1 -1 1\n  4 1 1 -1\naliasing\n  A = B*C\n  B = A*C\n  C = A*B\nblocked\n  none\n",
        0,
    ),
    (
        "proc factex; factors A B C / nlev=3; size design=9; model r=3; examine aliasing;
        proc factex; factors A B C; size design=2; model res=3; examine design aliasing;",
        "step 1\nfactors 3 levels 3\ndesign 9 runs\nresolution 3\nnodes 3\nrules\n  C = A^2*B\naliasing\n  A = B^2*C\n  B = A*C\n  C = A^2*B\n  A*B = A^2*C = B*C\nstep 2\nfactors 3 levels 2\nno design in 2 runs\nnodes 1\nbook step2-1.book\n",
        1,
    ),
    (
        "proc factex; factors A B C D; size design=8; model resolution=max / minabs;",
        "step 1\nfactors 4 levels 2\ndesign 8 runs\nresolution 4 least aberration\nnodes 7\nrules\n  D = A*B*C\nbook step1-1.book\n",
        0,
    ),
    (
        "proc factex; factors A B C D E F G; size design=32; model resolution=max / minabs; examine aberration;",
        "step 1\nfactors 7 levels 2\ndesign 32 runs\nresolution 4 least aberration\nnodes 282\nrules\n  F = B*C*D*E\n  G = A*C*D*E\nbook step1-1.book\naberration\n  A4 1\n  A5 2\n",
        0,
    ),
    (
        "proc factex nodes=30; factors A B C D E F G; size design=32; model resolution=max / minabs; examine aberration;",
        "step 1\nfactors 7 levels 2\nbudget ended after 30 nodes\n",
        2,
    ),
    (
        "proc factex nodes=55; factors A B C D E F G; size design=32; model resolution=max / minabs; examine aberration;",
        "step 1\nfactors 7 levels 2\nbudget ended after 55 nodes\ndesign 32 runs not proved best\nresolution 4\nrules\n  F = A*B*C*D*E\n  G = C*D*E\naberration\n  A4 2\n  A6 1\n",
        2,
    ),
    (
        "proc factex nodes=55; factors A B C D E F G; size design=32; model resolution=max / minabs; foldover A F;",
        "step 1\nfactors 7 levels 2\nbudget ended after 55 nodes\ndesign 32 runs not proved best\nresolution 4\nrules\n  F = A*B*C*D*E\n  G = C*D*E\nfoldover A*F\n  resolution 4\n  B4 2\n  B6 1\noutput step1-fold.csv 64 rows\n",
        2,
    ),
    (
        "proc factex nodes=56; factors A B C D E F G; size design=32; model resolution=3 / minabs;",
        "step 1\nfactors 7 levels 2\nbudget ended after 56 nodes\ndesign 32 runs not proved best\nresolution 4\nrules\n  F = B*C*D*E\n  G = A*C*D*E\n",
        2,
    ),
    (
        "proc factex; factors A B C D / nlev=3; size design=9; model resolution=3; examine aberration;",
        "step 1\nfactors 4 levels 3\ndesign 9 runs\nresolution 3\nnodes 4\nrules\n  C = A^2*B\n  D = A*B\naberration\n  A3 4\n",
        0,
    ),
    (
        "proc factex; factors A / nlev=9; model resolution=max / minabs; examine aberration;",
        "step 1\nfactors 1 levels 9\ndesign 9 runs\nno defining words\nnodes 1\nrules\n  none\nbook step1-1.book\naberration\n  none\n",
        0,
    ),
    (
        "proc factex;factors A B C;size design=4;model r=max;",
        "step 1\nfactors 3 levels 2\ndesign 4 runs\nresolution 3 highest\nnodes 6\nrules\n  C = A*B\nbook step1-2.book\n",
        0,
    ),
    (
        "proc factex;factors A B C;size design=min;model r=3;",
        "step 1\nfactors 3 levels 2\ndesign 4 runs\nresolution 3\nnodes 4\nrules\n  C = A*B\nbook step1-1.book\n",
        0,
    ),
    (
        "proc factex;factors A B C D;size design=8;model r=3;blocks nblocks=max;",
        "step 1\nfactors 4 levels 2\ndesign 8 runs in 4 blocks\nresolution 4\nnodes 198\nrules\n  D = A*B*C\n  [1] = B*C\n  [2] = A*C\nbook step1-3.book\n",
        0,
    ),
    (
        "proc factex;factors A B C D;size design=8;model r=3;blocks nblocks=2;",
        "step 1\nfactors 4 levels 2\ndesign 8 runs in 2 blocks\nresolution 4\nnodes 6\nrules\n  D = A*B*C\n  [1] = B*C\n",
        0,
    ),
    (
        "proc factex;factors A B C;size design=4;",
        "step 1\nfactors 3 levels 2\ndesign 4 runs\nresolution 3 highest\nnodes 6\nrules\n  C = A*B\nbook step1-2.book\n",
        0,
    ),
    (
        "proc factex;factors A B C D;size design=4;model r=max;",
        "step 1\nfactors 4 levels 2\nno design in 4 runs\nnodes 3\nbook step1-1.book\n",
        1,
    ),
    (
        "proc factex;factors A B C;size design=4;model r=3;blocks nblocks=2;",
        "step 1\nfactors 3 levels 2\nno design in 4 runs with 2 blocks\nnodes 7\nbook step1-1.book\n",
        1,
    ),
    ("", "", 0),
    ("; run; quit;", "", 0),
];

/// Tests that each text has its listing and status.
fn are_listed<R: Threads + Sync + Abort>(rt: &R, alloc: Global, cases: &[(&str, &str, u8)]) {
    for (text, listing, status) in cases {
        let is_so = lists(rt, alloc, "run", text.as_bytes(), SURE, *status, listing);
        assert!(rt; is_so, "{text}");
    }
}

#[test]
fn programs_have_their_listing(rt: HostRuntime) {
    are_listed(&rt, rt.alloc(), &PROGRAMS);
}

/// The examples of docs/LANGUAGE.md and further texts that are refused, each with its message.
const REFUSED: [(&str, &str); 52] = [
    (
        "proc factex; factors A B C; /* run;",
        "L1 1:29 comment is not closed",
    ),
    (
        "proc factex; factors A B C; output out=a A cvals=('x);",
        "L2 1:51 string is not closed",
    ),
    ("proc factex;\nfactors A 'b", "L2 2:11 string is not closed"),
    (
        "proc factex; factors A B C; size design=8%;",
        "L3 1:42 character is not allowed",
    ),
    (
        "proc factex; factors A B C; size design=000000000000000000000000000000000000008;",
        "L4 1:41 number is too long",
    ),
    (
        "proc factex; factors a23456789012345678901234567890123;",
        "L5 1:22 name is too long",
    ),
    (
        "proc factex; factors A B C; title x;",
        "E1 1:29 statement is not known",
    ),
    (
        "proc factex; factors A B C; size design=max;",
        "E2 1:41 unexpected word or end",
    ),
    (
        "proc factex; factors A B C; size runs=8;",
        "E3 1:34 option is not known",
    ),
    (
        "proc factex; factors A B C; model e=(A B*Z);",
        "E4 1:42 factor is not known",
    ),
    (
        "proc factex; factors A B C; output out=a Z nvals=(1 2);",
        "E4 1:42 factor is not known",
    ),
    (
        "proc factex; factors X1-X17; size design=4; model e=(X1|X2|X3|X4|X5|X6|X7|X8|X9|X10|X11|X12|X13|X14|X15|X16|X17) n=(Z);",
        "E4 1:117 factor is not known",
    ),
    ("proc factex; factors X1-X3 X2;", "E5 1:28 name is repeated"),
    (
        "proc factex; factors A B C; model r=3; blocks nblkfacs=1; output out=a blockname=B;",
        "E5 1:82 name is repeated",
    ),
    (
        "proc factex; factors A B / nlev=6;",
        "E6 1:33 number of levels is not 2, 3, 4, 5, 7, 8 or 9",
    ),
    ("proc factex; run;", "E7 1:1 step has no FACTORS statement"),
    (
        "proc factex; factors A B / nlev=3; foldover;",
        "E36 1:36 FOLDOVER needs two levels and no BLOCKS",
    ),
    (
        "proc factex; factors A B C; size design=12;",
        "E8 1:41 size is not a power of the number of levels",
    ),
    (
        "proc factex; factors A B C; size design=2048;",
        "E9 1:41 more than 1024 runs",
    ),
    (
        "proc factex; factors X1-X11;",
        "E9 1:14 more than 1024 runs",
    ),
    (
        "proc factex; factors A X1-X63;",
        "E10 1:24 too many factors",
    ),
    (
        "proc factex; factors A B C; model resolution=2;",
        "E11 1:46 resolution is not from 3 to 99",
    ),
    (
        "proc factex; factors A B C; model e=(A) / minabs;",
        "E12 1:43 MINABS with ESTIMATE",
    ),
    (
        "proc factex; factors A B C; blocks nblkfacs=max;",
        "E13 1:29 MINABS with BLOCKS, or two maxima",
    ),
    (
        "proc factex; factors A B C; size design=min;",
        "E14 1:41 minimum size with a maximum or MINABS",
    ),
    (
        "proc factex; factors A B C; model r=3; blocks nblocks=3;",
        "E15 1:55 blocks are not a power of the number of levels",
    ),
    (
        "proc factex; factors A B C; model r=3; blocks nblkfacs=4;",
        "E16 1:56 more blocks than runs",
    ),
    (
        "proc factex; factors A B C; output out=a A nvals=(1 2 3);",
        "E17 1:44 number of values differs from number of levels",
    ),
    (
        "proc factex; factors A B C; output out=a; output out=A;",
        "E18 1:54 OUT name is repeated",
    ),
    (
        "proc factex; factors A B C; output out=a randomize(18446744073709551616);",
        "E19 1:52 seed is too large",
    ),
    (
        "proc factex; factors A B C; output out=a pointrep=0;",
        "E20 1:51 replication is not from 1 to 200000",
    ),
    (
        "proc factex; factors A B C; output out=a pointrep=30000;",
        "E21 1:40 more than 200000 rows",
    ),
    (
        "proc factex; factors A B C D / nlev=9; size design=81; model e=(A*B*C*D);",
        "E22 1:62 more than 2000000 demands",
    ),
    (
        "proc factex; factors X1-X40; size design=4; model e=(X1*X2*X3*X4); examine aliasing;",
        "E23 1:76 more than 100000 effects",
    ),
    (
        "proc factex; factors X1-X17; size design=4; model e=(X1|X2|X3|X4|X5|X6|X7|X8|X9|X10|X11|X12|X13|X14|X15|X16|X17);",
        "E23 1:51 more than 100000 effects",
    ),
    (
        "proc factex; factors X1-X27; size design=4; model e=(X1) n=(X1|X2|X3|X4|X5|X6|X7|X8|X9|X10|X11|X12|X13|X14|X15|X16|X17|X18|X19|X20|X21|X22|X23|X24|X25|X26|X27@5);",
        "E23 1:58 more than 100000 effects",
    ),
    ("proc factex time=60;", "E24 1:13 not kept in this profile"),
    (
        "proc factex; factors A B C; size design=8; size design=8;",
        "E26 1:44 statement is repeated in the step",
    ),
    (
        "proc factex;\nfactors A B C;\nsize design=8;\nsize design=8;\nrun;\n",
        "E26 4:1 statement is repeated in the step",
    ),
    (
        "proc factex; factors A B C; run; size design=8;",
        "E27 1:34 statement after RUN",
    ),
    (
        "proc factex nodes=1 nodes=2;",
        "E28 1:21 option is repeated",
    ),
    (
        "proc factex; factors A B C; output out=a A nvals=(1 2) a nvals=(1 2);",
        "E28 1:56 option is repeated",
    ),
    (
        "proc factex nodes=0; factors A;",
        "E29 1:19 number is out of range",
    ),
    (
        "proc factex; factors A B C; model e=(A*B@1);",
        "E29 1:42 number is out of range",
    ),
    (
        "proc factex; factors X5-X2;",
        "E30 1:22 range of names is not regular",
    ),
    (
        "proc factex; factors A B C; output out=a blockname=day;",
        "E31 1:42 BLOCKNAME without BLOCKS",
    ),
    (
        "proc factex; factors A B C; output out=a designrep=a;",
        "E33 1:52 plan is not known",
    ),
    (
        "proc factex; factors A B C; output out=a [A B]=c;",
        "E34 1:48 column is repeated",
    ),
    (
        "proc factex; factors A B C D; output out=a [A B]=E [C D]=E;",
        "E34 1:50 column is repeated",
    ),
    (
        "proc factex; factors A B C; output out=a [A]=D;",
        "E35 1:42 derived factor has too few or too many levels",
    ),
    // Four factors are the most, and 64 levels.
    (
        "proc factex; factors A B C D E; output out=a [A B C D E]=Q;",
        "E35 1:46 derived factor has too few or too many levels",
    ),
    (
        "proc factex; factors A B C / nlev=5; output out=a [A B C]=Q;",
        "E35 1:51 derived factor has too few or too many levels",
    ),
];

/// Whether what was listed is the one line of this message.
fn is_message(listed: &[u8], message: &str) -> bool {
    match listed.strip_prefix("factex: ".as_bytes()) {
        Some(line) => line.strip_suffix("\n".as_bytes()) == Some(message.as_bytes()),
        None => false,
    }
}

/// Whether just this message is listed, and no call failed.
fn is_told(left: &Outside, message: &str) -> bool {
    left.status == 3 && left.faults() == 0 && is_message(left.listing.bytes(), message)
}

/// Whether the words of a line list just this message of a text, and no call fails.
fn tells<R: Threads + Sync + Abort>(
    rt: &R,
    alloc: Global,
    line: &str,
    text: &[u8],
    limits: Limits,
    message: &str,
) -> bool {
    is_told(&left_by(rt, alloc, line, text, limits), message)
}

/// Tests that each text has its message.
fn texts_are_refused<R: Threads + Sync + Abort>(rt: &R, alloc: Global, cases: &[(&str, &str)]) {
    for (text, message) in cases {
        let is_so = tells(rt, alloc, "run", text.as_bytes(), SURE, message);
        assert!(rt; is_so, "{text}");
    }
}

#[test]
fn faults_of_a_text_are_told(rt: HostRuntime) {
    texts_are_refused(&rt, rt.alloc(), &REFUSED);
}

/// Two plans of four runs, the second by a seed of its own.
const SEEDED: &str =
    "proc factex; factors A B; model r=3; output out=x randomize; output out=y randomize(7);";

/// Words with a seed, each with the listing and the first plan.
const SEEDS: [(&str, &str, &str); 3] = [
    (
        "run --seed=0",
        "step 1\nfactors 2 levels 2\ndesign 4 runs\nno defining words\nnodes 2\nrules\n  none\noutput x.csv 4 rows seed 0\noutput y.csv 4 rows seed 7\n",
        "A,B\n-1,1\n-1,-1\n1,1\n1,-1\n",
    ),
    (
        "run --seed=7",
        "step 1\nfactors 2 levels 2\ndesign 4 runs\nno defining words\nnodes 2\nrules\n  none\noutput x.csv 4 rows seed 7\noutput y.csv 4 rows seed 7\n",
        "A,B\n1,1\n-1,-1\n1,-1\n-1,1\n",
    ),
    (
        "run --seed=18446744073709551615",
        "step 1\nfactors 2 levels 2\ndesign 4 runs\nno defining words\nnodes 2\nrules\n  none\noutput x.csv 4 rows seed 18446744073709551615\noutput y.csv 4 rows seed 7\n",
        "A,B\n1,-1\n1,1\n-1,-1\n-1,1\n",
    ),
];

/// The seed of the command line is that of a plan that has none of its own.
#[test]
fn the_seed_of_the_words_shuffles(rt: HostRuntime) {
    for (line, listing, plan) in rows_of(&SEEDS) {
        let files = [("x.csv", *plan), ("y.csv", "A,B\n1,1\n-1,-1\n1,-1\n-1,1\n")];
        let is_so = shelves(&rt, rt.alloc(), line, SEEDED, SURE, 0, listing, &files);
        assert!(rt; is_so, "{line}");
    }
}

/// Command lines that are refused, each with the message.
const REFUSED_WORDS: [(&str, &str); 30] = [
    ("", "C1 word 1"),
    ("x y", "C2 word 1"),
    ("RUN", "C2 word 1"),
    ("Make 1", "C2 word 1"),
    ("run x", "C3 word 2"),
    ("check x", "C3 word 2"),
    ("check --seed=1 x", "C3 word 2"),
    ("upgrade x", "C3 word 2"),
    ("run --seed=1 --seed=2", "C5 word 3"),
    ("run --seed=18446744073709551616", "C4 word 2"),
    ("make", "C6 word 2"),
    ("make 0", "C4 word 2"),
    ("make 101", "C4 word 2"),
    ("make 256", "C4 word 2"),
    ("make x y", "C4 word 2"),
    ("make --seed=1", "C4 word 2"),
    ("make 000000000000000000001", "C4 word 2"),
    ("make 1 2", "C3 word 3"),
    ("large", "C6 word 2"),
    ("large 0", "C4 word 2"),
    ("large 101", "C4 word 2"),
    ("large 1 --seed=1", "C3 word 3"),
    ("plan --threads=2", "C3 word 2"),
    ("plan --seed=1 --seed=1", "C5 word 3"),
    ("plan --seed=18446744073709551616", "C4 word 2"),
    ("judge", "C6 word 2"),
    ("judge 6", "C4 word 2"),
    ("judge 10", "C4 word 2"),
    ("judge 6 2", "C4 word 2"),
    ("judge 2 2", "C3 word 3"),
];

/// Tests that each command line has its message.
fn words_are_refused<R: Threads + Sync + Abort>(rt: &R, alloc: Global, cases: &[(&str, &str)]) {
    for (line, message) in cases {
        let is_so = tells(rt, alloc, line, HALF.as_bytes(), UNREAD, message);
        assert!(rt; is_so, "{line}");
    }
}

#[test]
fn refused_words_are_told(rt: HostRuntime) {
    words_are_refused(&rt, rt.alloc(), &REFUSED_WORDS);
}

/// A plan that is refused is named by its code and its record, and the status is that of a refusal.
#[test]
fn refused_plans_are_told(rt: HostRuntime) {
    let alloc = rt.alloc();
    let line = "factex: J4 record 2\n";
    assert!(rt; lists(&rt, alloc, "judge 2", b"A,B\nx\n", SURE, 3, line));
    let wide = Limits {
        step: 65536,
        ..SURE
    };
    let mut long = Bytes::from_slice(alloc, b"A\n1\n1\n1\n").expect(&rt, "memory");
    for _i in 1..131072 {
        put(&mut long, b"1\n1\n1\n1\n").expect(&rt, "memory");
    }
    assert!(rt;
        lists(
            &rt,
            alloc,
            "judge 2",
            long.as_slice(),
            wide,
            3,
            "factex: J7 record 4098\n"
        )
    );
    put(&mut long, b"\n").expect(&rt, "memory");
    assert!(rt;
        lists(
            &rt,
            alloc,
            "judge 2",
            long.as_slice(),
            wide,
            3,
            "factex: J1 record 1\n"
        )
    );
}

/// Whether the words of a line have these settings.
fn are_settings(rt: &impl Abort, alloc: Global, line: &str, settings: Settings) -> bool {
    read_words(words_in(rt, alloc, line).as_slice()) == Ok(settings)
}

#[test]
fn numbers_of_steps_are_read(rt: HostRuntime) {
    const WORDS: [(&str, Settings); 4] = [
        ("make 1", Settings::Make { n: 1 }),
        ("make 100", Settings::Make { n: 100 }),
        ("make 00000000000000000012", Settings::Make { n: 12 }),
        ("large 40", Settings::Large { n: 40, threads: 1 }),
    ];
    for (line, settings) in rows_of(&WORDS) {
        assert!(rt; are_settings(&rt, rt.alloc(), line, *settings), "{line}");
    }
}

/// The text of twelve steps, after which they come again.
const TWELVE: &str = "\
    proc factex nodes=20000;\n\
    factors X1-X6 / nlev=2;\n\
    size design=32;\n\
    model resolution=max;\n\
    run;\n\
    proc factex nodes=20000;\n\
    factors X1-X7 / nlev=2;\n\
    size design=16;\n\
    model resolution=max;\n\
    run;\n\
    proc factex nodes=20000;\n\
    factors X1-X8 / nlev=3;\n\
    size design=27;\n\
    model resolution=max;\n\
    run;\n\
    proc factex nodes=20000;\n\
    factors X1-X9 / nlev=2;\n\
    size design=16;\n\
    model resolution=max / minabs;\n\
    run;\n\
    proc factex nodes=20000;\n\
    factors X1-X10 / nlev=2;\n\
    size design=32;\n\
    model resolution=max;\n\
    run;\n\
    proc factex nodes=20000;\n\
    factors X1-X5 / nlev=3;\n\
    size design=27;\n\
    model resolution=max;\n\
    run;\n\
    proc factex nodes=20000;\n\
    factors X1-X6 / nlev=2;\n\
    size design=32;\n\
    model resolution=max;\n\
    run;\n\
    proc factex nodes=20000;\n\
    factors X1-X7 / nlev=2;\n\
    size design=16;\n\
    model resolution=max / minabs;\n\
    run;\n\
    proc factex nodes=20000;\n\
    factors X1-X8 / nlev=3;\n\
    size design=27;\n\
    model resolution=max;\n\
    run;\n\
    proc factex nodes=20000;\n\
    factors X1-X9 / nlev=2;\n\
    size design=16;\n\
    model resolution=max;\n\
    run;\n\
    proc factex nodes=20000;\n\
    factors X1-X10 / nlev=2;\n\
    size design=32;\n\
    model resolution=max;\n\
    run;\n\
    proc factex nodes=20000;\n\
    factors X1-X5 / nlev=3;\n\
    size design=27;\n\
    model resolution=max / minabs;\n\
    run;\n";

#[test]
fn texts_are_made(rt: HostRuntime) {
    let mut text = Bytes::new(rt.alloc());
    make_text(0, &mut text).expect(&rt, "memory");
    assert!(rt; text.is_empty());
    make_text(12, &mut text).expect(&rt, "memory");
    assert!(rt; text.as_slice() == TWELVE.as_bytes());
    make_text(24, &mut text).expect(&rt, "memory");
    assert!(rt; text.len() == 3 * TWELVE.len());
    assert!(rt; text.as_slice().ends_with(TWELVE.as_bytes()));
    assert!(rt;
        lists(
            &rt,
            rt.alloc(),
            "make 12",
            HALF.as_bytes(),
            UNREAD,
            0,
            TWELVE
        )
    );
}

#[test]
fn large_sums_up(rt: HostRuntime) {
    const SUMMARIES: [(&str, &str); 2] = [
        ("large 1", "steps 1\ndesigns 1\nnone 0\nended 0\nnodes 55\n"),
        (
            "large 2",
            "steps 2\ndesigns 2\nnone 0\nended 0\nnodes 106\n",
        ),
    ];
    for (line, summary) in rows_of(&SUMMARIES) {
        let is_so = lists(&rt, rt.alloc(), line, HALF.as_bytes(), UNREAD, 0, summary);
        assert!(rt; is_so, "{line}");
    }
}

/// Forty steps, of which some have many nodes, have one summary and one status by any number of threads.
#[test]
fn threads_do_not_change_a_summary(rt: HostRuntime) {
    let one = left_by(&rt, rt.alloc(), "large 40 --threads=1", &[], UNREAD);
    assert!(rt; one.status <= 2 && one.listing.bytes().starts_with(b"steps 40\n"));
    for line in ["large 40 --threads=2", "large 40 --threads=64"] {
        let other = left_by(&rt, rt.alloc(), line, &[], UNREAD);
        assert!(rt;
            other.status == one.status && other.listing.bytes() == one.listing.bytes(),
            "{line}"
        );
    }
}

/// Whether the status is 4 after failed writes, so many bytes are listed, and no other call failed.
fn is_after_write(left: Option<Tally>, listed: usize) -> bool {
    match left {
        Some(left) => left.status == 4
            && left.read_faults == 0
            && left.write_faults == 1
            && left.listed == listed,
        None => false,
    }
}

/// After a failed write of a made text or of a summary nothing is written again.
#[test]
fn no_call_follows_a_failed_write_of_a_piece(rt: HostRuntime) {
    let limits = Limits {
        first_write: Some(2),
        ..UNREAD
    };
    for (line, listing) in [("make 1", TWELVE), ("large 1", "steps 1\ndesigns 1\n")] {
        let left = tally_of(&rt, rt.alloc(), line, HALF.as_bytes(), limits, listing);
        assert!(rt; is_after_write(left, STEP), "{line}");
    }
}

/// Whether the status is 4 after a failed read, and nothing is written.
fn is_after_read(left: Option<Tally>) -> bool {
    match left {
        Some(left) => left.status == 4
            && left.read_faults == 1
            && left.write_faults == 0
            && left.listed == 0,
        None => false,
    }
}

/// After a failed read nothing is read again and nothing is written: each further call would fail
/// too, and be counted.
#[test]
fn no_call_follows_a_failed_read(rt: HostRuntime) {
    for text in [HALF, "no program"] {
        // The last read finds the end.
        for call in 1..=text.len().div_ceil(STEP) + 1 {
            let limits = Limits {
                first_read: Some(call),
                first_write: Some(1),
                ..SURE
            };
            let left = tally_of(&rt, rt.alloc(), "run", text.as_bytes(), limits, "");
            assert!(rt; is_after_read(left));
        }
    }
}

/// After a failed write nothing is written again, and nothing is read that was not needed before.
#[test]
fn no_call_follows_a_failed_write(rt: HostRuntime) {
    let text = HALF.as_bytes();
    let needed = Limits {
        first_read: Some(text.len().div_ceil(STEP) + 2),
        ..SURE
    };
    let calls = HALF_LISTING.len().div_ceil(STEP);
    for call in 1..=calls {
        let limits = Limits {
            first_write: Some(call),
            ..needed
        };
        let left = tally_of(&rt, rt.alloc(), "run", text, limits, HALF_LISTING);
        assert!(rt; is_after_write(left, (call - 1) * STEP));
    }
    let limits = Limits {
        first_write: Some(calls + 1),
        ..needed
    };
    assert!(rt; lists(&rt, rt.alloc(), "run", text, limits, 0, HALF_LISTING));
}

/// Each text with its listing, its files by name and content, and its status.
const PLANNED: &[(&str, &str, &[(&str, &str)], u8)] = &[
    (
        "proc factex;factors A B C D E;size design=8;model resolution=3;foldover;",
        "step 1\nfactors 5 levels 2\ndesign 8 runs\nresolution 3\nnodes 5\nrules\n  D = A*B*C\n  E = B*C\nfoldover A*B*C*D*E\n  resolution 4\n  B4 1\noutput step1-fold.csv 16 rows\n",
        &[(
            "step1-fold.csv",
            "A,B,C,D,E\n-1,-1,-1,-1,-1\n-1,-1,1,1,1\n-1,1,-1,1,1\n-1,1,1,-1,-1\n1,-1,-1,1,-1\n1,-1,1,-1,1\n1,1,-1,-1,1\n1,1,1,1,-1\n1,1,1,1,1\n1,1,-1,-1,-1\n1,-1,1,-1,-1\n1,-1,-1,1,1\n-1,1,1,-1,1\n-1,1,-1,1,-1\n-1,-1,1,1,-1\n-1,-1,-1,-1,1\n",
        )],
        0,
    ),
    (
        "proc factex;factors A;model r=3;run;quit;proc factex;factors A B C;size design=4;model r=3;output out=Half;foldover A;output out=Rest;examine aberration;",
        "step 1\nfactors 1 levels 2\ndesign 2 runs\nno defining words\nnodes 1\nrules\n  none\nstep 2\nfactors 3 levels 2\ndesign 4 runs\nresolution 3\nnodes 3\nrules\n  C = A*B\naberration\n  A3 1\nfoldover A\n  no defining words\noutput half.csv 4 rows\noutput rest.csv 4 rows\noutput step2-fold.csv 8 rows\n",
        &[
            ("half.csv", "A,B,C\n-1,-1,-1\n-1,1,1\n1,-1,1\n1,1,-1\n"),
            ("rest.csv", "A,B,C\n-1,-1,-1\n-1,1,1\n1,-1,1\n1,1,-1\n"),
            (
                "step2-fold.csv",
                "A,B,C\n-1,-1,-1\n-1,1,1\n1,-1,1\n1,1,-1\n1,-1,-1\n1,1,1\n-1,-1,1\n-1,1,-1\n",
            ),
        ],
        0,
    ),
    (
        "proc factex;factors A B C;size design=2;model r=3;foldover;proc factex nodes=1;factors A B;model r=3;foldover;",
        "step 1\nfactors 3 levels 2\nno design in 2 runs\nnodes 1\nbook step1-1.book\nstep 2\nfactors 2 levels 2\nbudget ended after 1 nodes\n",
        &[(
            "step1-1.book",
            "factex-book 2\nsize 2 1 3 0\nresolution 3\npattern none\nO 1\nEND\n",
        )],
        2,
    ),
    (
        "proc factex; factors A B; size design=4; model resolution=3; output out=Plan pointrep=2 designrep=2 B cvals=('lo,w' 'h\"i');",
        "step 1\nfactors 2 levels 2\ndesign 4 runs\nno defining words\nnodes 2\nrules\n  none\noutput plan.csv 16 rows\n",
        &[(
            "plan.csv",
            "A,B\n-1,\"lo,w\"\n-1,\"lo,w\"\n-1,\"h\"\"i\"\n-1,\"h\"\"i\"\n1,\"lo,w\"\n1,\"lo,w\"\n1,\"h\"\"i\"\n1,\"h\"\"i\"\n-1,\"lo,w\"\n-1,\"lo,w\"\n-1,\"h\"\"i\"\n-1,\"h\"\"i\"\n1,\"lo,w\"\n1,\"lo,w\"\n1,\"h\"\"i\"\n1,\"h\"\"i\"\n",
        )],
        0,
    ),
    (
        "proc factex; factors A B; size design=4; model resolution=3; output out=four [A B]=D cvals=('w' 'x' 'y' 'z');",
        "step 1\nfactors 2 levels 2\ndesign 4 runs\nno defining words\nnodes 2\nrules\n  none\noutput four.csv 4 rows\nderived D 4 levels balanced\n",
        &[("four.csv", "D\nw\nx\ny\nz\n")],
        0,
    ),
    (
        "proc factex; factors A B; size design=4; model resolution=3; output out=four [A B]=D cvals=('w' 'x,' 'y\"' '');",
        "step 1\nfactors 2 levels 2\ndesign 4 runs\nno defining words\nnodes 2\nrules\n  none\noutput four.csv 4 rows\nderived D 4 levels balanced\n",
        &[("four.csv", "D\nw\n\"x,\"\n\"y\"\"\"\n\"\"\n")],
        0,
    ),
    (
        "proc factex; factors A B C; size design=4; model resolution=3; output out=p [A B C]=D; output out=q [C A]=D B cvals=('l,o' 'h') randomize(7);",
        "step 1\nfactors 3 levels 2\ndesign 4 runs\nresolution 3\nnodes 3\nrules\n  C = A*B\noutput p.csv 4 rows\nderived D 8 levels not balanced\noutput q.csv 4 rows seed 7\nderived D 4 levels balanced\n",
        &[
            ("p.csv", "D\n0\n3\n5\n6\n"),
            ("q.csv", "B,D\n\"l,o\",1\nh,3\nh,0\n\"l,o\",2\n"),
        ],
        0,
    ),
    (
        "proc factex;factors N;size design=2;model r=3;output out=outer N cvals=('l,o' 'hi');proc factex;factors A B;size design=4;model r=3;output out=c designrep=Outer;output out=d pointrep=OUTER;",
        "step 1\nfactors 1 levels 2\ndesign 2 runs\nno defining words\nnodes 1\nrules\n  none\noutput outer.csv 2 rows\nstep 2\nfactors 2 levels 2\ndesign 4 runs\nno defining words\nnodes 2\nrules\n  none\noutput c.csv 8 rows\noutput d.csv 8 rows\n",
        &[
            ("outer.csv", "N\n\"l,o\"\nhi\n"),
            (
                "c.csv",
                "A,B,N\n-1,-1,\"l,o\"\n-1,1,\"l,o\"\n1,-1,\"l,o\"\n1,1,\"l,o\"\n-1,-1,hi\n-1,1,hi\n1,-1,hi\n1,1,hi\n",
            ),
            (
                "d.csv",
                "A,B,N\n-1,-1,\"l,o\"\n-1,-1,hi\n-1,1,\"l,o\"\n-1,1,hi\n1,-1,\"l,o\"\n1,-1,hi\n1,1,\"l,o\"\n1,1,hi\n",
            ),
        ],
        0,
    ),
    (
        "proc factex;factors N M;size design=4;model r=3;output out=n [N M]=K randomize(5);proc factex;factors A;model r=3;output out=a pointrep=n;proc factex;factors B;model r=3;output out=b pointrep=a;",
        "step 1\nfactors 2 levels 2\ndesign 4 runs\nno defining words\nnodes 2\nrules\n  none\noutput n.csv 4 rows seed 5\nderived K 4 levels balanced\nstep 2\nfactors 1 levels 2\ndesign 2 runs\nno defining words\nnodes 1\nrules\n  none\noutput a.csv 8 rows\nstep 3\nfactors 1 levels 2\ndesign 2 runs\nno defining words\nnodes 1\nrules\n  none\noutput b.csv 16 rows\n",
        &[
            ("n.csv", "K\n3\n1\n2\n0\n"),
            ("a.csv", "A,K\n-1,3\n-1,1\n-1,2\n-1,0\n1,3\n1,1\n1,2\n1,0\n"),
            (
                "b.csv",
                "B,A,K\n-1,-1,3\n-1,-1,1\n-1,-1,2\n-1,-1,0\n-1,1,3\n-1,1,1\n-1,1,2\n-1,1,0\n1,-1,3\n1,-1,1\n1,-1,2\n1,-1,0\n1,1,3\n1,1,1\n1,1,2\n1,1,0\n",
            ),
        ],
        0,
    ),
    // The columns of POINTREP's plan come before those of DESIGNREP's.
    (
        "proc factex;factors N;size design=2;model r=3;output out=n;proc factex;factors M;size design=2;model r=3;output out=m;proc factex;factors A;size design=2;model r=3;output out=c pointrep=n designrep=m;",
        "step 1\nfactors 1 levels 2\ndesign 2 runs\nno defining words\nnodes 1\nrules\n  none\noutput n.csv 2 rows\nstep 2\nfactors 1 levels 2\ndesign 2 runs\nno defining words\nnodes 1\nrules\n  none\noutput m.csv 2 rows\nstep 3\nfactors 1 levels 2\ndesign 2 runs\nno defining words\nnodes 1\nrules\n  none\noutput c.csv 8 rows\n",
        &[
            ("n.csv", "N\n-1\n1\n"),
            ("m.csv", "M\n-1\n1\n"),
            (
                "c.csv",
                "A,N,M\n-1,-1,-1\n-1,1,-1\n1,-1,-1\n1,1,-1\n-1,-1,1\n-1,1,1\n1,-1,1\n1,1,1\n",
            ),
        ],
        0,
    ),
    // A plan that is not written makes none.
    (
        "proc factex;factors A B C;size design=2;model r=3;output out=none;proc factex;factors N;model r=3;output out=p pointrep=none;output out=q;",
        "step 1\nfactors 3 levels 2\nno design in 2 runs\nnodes 1\nbook step1-1.book\nstep 2\nfactors 1 levels 2\ndesign 2 runs\nno defining words\nnodes 1\nrules\n  none\noutput q.csv 2 rows\n",
        &[
            (
                "step1-1.book",
                "factex-book 2\nsize 2 1 3 0\nresolution 3\npattern none\nO 1\nEND\n",
            ),
            ("q.csv", "N\n-1\n1\n"),
        ],
        1,
    ),
    (
        "proc factex;factors A B C;size design=2;model r=3;output out=none;proc factex;factors N;model r=3;output out=p designrep=none;output out=q;",
        "step 1\nfactors 3 levels 2\nno design in 2 runs\nnodes 1\nbook step1-1.book\nstep 2\nfactors 1 levels 2\ndesign 2 runs\nno defining words\nnodes 1\nrules\n  none\noutput q.csv 2 rows\n",
        &[
            (
                "step1-1.book",
                "factex-book 2\nsize 2 1 3 0\nresolution 3\npattern none\nO 1\nEND\n",
            ),
            ("q.csv", "N\n-1\n1\n"),
        ],
        1,
    ),
    (
        "proc factex; factors A B; model r=3; output out=z randomize(0) novalran; output out=y randomize(18446744073709551615); output out=x randomize novalran;",
        "step 1\nfactors 2 levels 2\ndesign 4 runs\nno defining words\nnodes 2\nrules\n  none\noutput z.csv 4 rows seed 0\noutput y.csv 4 rows seed 18446744073709551615\noutput x.csv 4 rows seed 0\n",
        &[
            ("z.csv", "A,B\n1,1\n1,-1\n-1,1\n-1,-1\n"),
            ("y.csv", "A,B\n1,-1\n1,1\n-1,-1\n-1,1\n"),
            ("x.csv", "A,B\n1,1\n1,-1\n-1,1\n-1,-1\n"),
        ],
        0,
    ),
    (
        "proc factex; factors A B C; size design=2; model r=3; output out=a;",
        "step 1\nfactors 3 levels 2\nno design in 2 runs\nnodes 1\nbook step1-1.book\n",
        &[(
            "step1-1.book",
            "factex-book 2\nsize 2 1 3 0\nresolution 3\npattern none\nO 1\nEND\n",
        )],
        1,
    ),
    (
        "proc factex; factors A; model r=3; output out=a23456789012345678901234567890ZZ; run; proc factex; factors B / nlev=3; model r=3; output out=b;",
        "step 1\nfactors 1 levels 2\ndesign 2 runs\nno defining words\nnodes 1\nrules\n  none\noutput a23456789012345678901234567890zz.csv 2 rows\nstep 2\nfactors 1 levels 3\ndesign 3 runs\nno defining words\nnodes 1\nrules\n  none\noutput b.csv 3 rows\n",
        &[
            ("a23456789012345678901234567890zz.csv", "A\n-1\n1\n"),
            ("b.csv", "B\n-1\n0\n1\n"),
        ],
        0,
    ),
    (
        "proc factex nodes=6; factors A B C D; size design=8; model resolution=max / minabs; output out=a;",
        "step 1\nfactors 4 levels 2\nbudget ended after 6 nodes\ndesign 8 runs not proved best\nresolution 4\nrules\n  D = A*B*C\noutput a.csv 8 rows\n",
        &[(
            "a.csv",
            "A,B,C,D\n-1,-1,-1,-1\n-1,-1,1,1\n-1,1,-1,1\n-1,1,1,-1\n1,-1,-1,1\n1,-1,1,-1\n1,1,-1,-1\n1,1,1,1\n",
        )],
        2,
    ),
];

/// A plan with values that are quoted, of bytes that are no UTF-8.
const QUOTED: &[u8] =
    b"proc factex; factors A B C; size fraction=2; model res=3; examine aliasing; output out=HALF A nvals=(10 -2.5) B cvals=('' '\xe9\n\r');";

const QUOTED_LISTING: &str =
    "step 1\nfactors 3 levels 2\ndesign 4 runs\nresolution 3\nnodes 3\nrules\n  C = A*B\naliasing\n  A = B*C\n  B = A*C\n  C = A*B\noutput half.csv 4 rows\n";

const QUOTED_PLAN: &[u8] = b"A,B,C\n10,,-1\n10,\"\xe9\n\r\",1\n-2.5,,1\n-2.5,\"\xe9\n\r\",-1\n";

/// Tests that each text has its listing, its files and its status.
fn are_shelved<R: Threads + Sync + Abort>(
    rt: &R,
    alloc: Global,
    cases: &[(&str, &str, &[(&str, &str)], u8)],
) {
    for (text, listing, files, status) in cases {
        let is_so = shelves(rt, alloc, "run", text, SURE, *status, listing, files);
        assert!(rt; is_so, "{text}");
    }
}

#[test]
fn plans_are_shelved(rt: HostRuntime) {
    are_shelved(&rt, rt.alloc(), PLANNED);
    let plan = file_of(&rt, rt.alloc(), QUOTED, SURE, 0, QUOTED_LISTING);
    assert!(rt; plan.as_slice() == QUOTED_PLAN);
}

/// Whether the status is 4 after a failed call on the shelf, nothing is listed, and no file is ended.
fn is_after_file(left: Option<Tally>, files: usize) -> bool {
    match left {
        Some(left) => left.status == 4
            && left.file_faults == 1
            && left.listed == 0
            && left.files == files
            && left.ended == 0,
        None => false,
    }
}

/// After a failed call on the shelf none is made again, and nothing is listed. The file is begun,
/// written in two pieces, and ended.
#[test]
fn no_call_follows_a_failed_file(rt: HostRuntime) {
    let text = "proc factex; factors A; model r=3; output out=a;";
    for call in 1..5 {
        let limits = Limits {
            step: 4,
            first_file: Some(call),
            ..SURE
        };
        let left = tally_of(&rt, rt.alloc(), "run", text.as_bytes(), limits, "");
        assert!(rt; is_after_file(left, usize::from(call > 1)));
    }
    let limits = Limits {
        step: 4,
        first_file: Some(5),
        ..SURE
    };
    let listing =
        "step 1\nfactors 1 levels 2\ndesign 2 runs\nno defining words\nnodes 1\nrules\n  none\noutput a.csv 2 rows\n";
    let files = [("a.csv", "A\n-1\n1\n")];
    assert!(rt; shelves(&rt, rt.alloc(), "run", text, limits, 0, listing, &files));
}

/// So many blanks, and a program.
fn long_text(rt: &impl Abort, alloc: Global, blanks: usize) -> Vec<u8> {
    let mut text = vec![in alloc; b' '; blanks].expect(rt, "memory");
    text.extend_from_slice(HALF.as_bytes()).expect(rt, "memory");
    text
}

/// The longest text, and one byte more.
#[test]
fn long_texts_are_read(rt: HostRuntime) {
    let text = long_text(&rt, rt.alloc(), 1_048_576 - HALF.len());
    assert!(rt;
        lists(
            &rt,
            rt.alloc(),
            "run",
            text.as_slice(),
            SURE,
            0,
            HALF_LISTING
        )
    );
    let text = long_text(&rt, rt.alloc(), 1_048_577 - HALF.len());
    let message = "E25 1:1 text is over 1048576 bytes";
    assert!(rt; tells(&rt, rt.alloc(), "run", text.as_slice(), SURE, message));
}

/// A text of one step more than may be.
#[test]
fn more_than_a_hundred_steps_are_refused(rt: HostRuntime) {
    let mut text = Bytes::new(rt.alloc());
    for _step in 0..101 {
        put(&mut text, b"proc factex; factors A;\n").expect(&rt, "memory");
    }
    let message = "E32 101:1 more than 100 steps";
    assert!(rt; tells(&rt, rt.alloc(), "run", text.as_slice(), SURE, message));
}
