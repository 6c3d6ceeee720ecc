//! Success where memory suffices, which no clause says: each command at each number of levels, and with the greatest sizes.
use super::outside::{Limits, lists};
use crate::rows_of;
use fx_base::{Bytes, put};
use std::alloc::Global;
use std::process::Abort;

/// Objects outside with room for long output.
const ROOMY: Limits = Limits {
    step: 4096,
    listing_room: 10000,
    shelf_room: 10000,
    first_read: None,
    first_write: None,
    first_file: None,
};

/// The words of a line and a text, with their listing and their status. The other commands have each number of levels
/// elsewhere: `plan` in `given`, designs of `run` in `program`.
const ASKED: [(&str, &str, &str, u8); 49] = [
    (
        "judge 2",
        "A,B,C\n-1,-1,-1\n-1,1,1\n1,-1,1\n1,1,-1\n",
        "plan 4 rows\nfactors 3 levels 2\nregular\nrules\n  C = A*B\npairs 15\naliased 3\northogonal 12\npartial 0\nnot orthogonal\n  A = B*C\n  B = A*C\n  C = A*B\n",
        0,
    ),
    (
        "judge 3",
        "A,B\n-1,0\n0,1\n1,-1\n",
        "plan 3 rows\nfactors 2 levels 3\nregular\nrules\n  B = A + 1\npairs 6\naliased 3\northogonal 3\npartial 0\nnot orthogonal\n  A = B\n  A = A*B\n  B = A*B\n",
        0,
    ),
    (
        "judge 4",
        "A,B\n0,1\n1,2\n2,3\n3,0\n",
        "plan 4 rows\nfactors 2 levels 4\nnot regular\npairs 10\naliased 0\northogonal 3\npartial 7\nnot orthogonal\n  A ~ B\n  A ~ A*B\n  A ~ A^2*B\n  A ~ A^3*B\n  B ~ A*B\n  B ~ A^2*B\n  B ~ A^3*B\n",
        0,
    ),
    (
        "judge 5",
        "A,B\n0,1\n1,2\n2,3\n3,0\n",
        "plan 4 rows\nfactors 2 levels 5\nnot regular\npairs 15\naliased 0\northogonal 0\npartial 15\nnot orthogonal\n  A ~ B\n  A ~ A*B\n  A ~ A^2*B\n  A ~ A^3*B\n  A ~ A^4*B\n  B ~ A*B\n  B ~ A^2*B\n  B ~ A^3*B\n  B ~ A^4*B\n  A*B ~ A^2*B\n  A*B ~ A^3*B\n  A*B ~ A^4*B\n  A^2*B ~ A^3*B\n  A^2*B ~ A^4*B\n  A^3*B ~ A^4*B\n",
        0,
    ),
    (
        "judge 7",
        "A,B\n0,1\n1,2\n2,3\n3,0\n",
        "plan 4 rows\nfactors 2 levels 7\nnot regular\npairs 28\naliased 0\northogonal 0\npartial 28\nnot orthogonal\n  A ~ B\n  A ~ A*B\n  A ~ A^2*B\n  A ~ A^3*B\n  A ~ A^4*B\n  A ~ A^5*B\n  A ~ A^6*B\n  B ~ A*B\n  B ~ A^2*B\n  B ~ A^3*B\n  B ~ A^4*B\n  B ~ A^5*B\n  B ~ A^6*B\n  A*B ~ A^2*B\n  A*B ~ A^3*B\n  A*B ~ A^4*B\n  A*B ~ A^5*B\n  A*B ~ A^6*B\n  A^2*B ~ A^3*B\n  A^2*B ~ A^4*B\n  A^2*B ~ A^5*B\n  A^2*B ~ A^6*B\n  A^3*B ~ A^4*B\n  A^3*B ~ A^5*B\n  A^3*B ~ A^6*B\n  A^4*B ~ A^5*B\n  A^4*B ~ A^6*B\n  A^5*B ~ A^6*B\n",
        0,
    ),
    (
        "judge 8",
        "A,B\n0,1\n1,2\n2,3\n3,0\n",
        "plan 4 rows\nfactors 2 levels 8\nnot regular\npairs 36\naliased 0\northogonal 3\npartial 33\nnot orthogonal\n  A ~ B\n  A ~ A*B\n  A ~ A^2*B\n  A ~ A^3*B\n  A ~ A^4*B\n  A ~ A^5*B\n  A ~ A^6*B\n  A ~ A^7*B\n  B ~ A*B\n  B ~ A^2*B\n  B ~ A^3*B\n  B ~ A^4*B\n  B ~ A^5*B\n  B ~ A^6*B\n  B ~ A^7*B\n  A*B ~ A^2*B\n  A*B ~ A^4*B\n  A*B ~ A^5*B\n  A*B ~ A^7*B\n  A^2*B ~ A^3*B\n  A^2*B ~ A^4*B\n  A^2*B ~ A^5*B\n  A^2*B ~ A^6*B\n  A^2*B ~ A^7*B\n  A^3*B ~ A^4*B\n  A^3*B ~ A^5*B\n  A^3*B ~ A^7*B\n  A^4*B ~ A^5*B\n  A^4*B ~ A^6*B\n  A^4*B ~ A^7*B\n  A^5*B ~ A^6*B\n  A^5*B ~ A^7*B\n  A^6*B ~ A^7*B\n",
        0,
    ),
    (
        "judge 9",
        "A,B\n0,1\n1,2\n2,3\n3,0\n",
        "plan 4 rows\nfactors 2 levels 9\nnot regular\npairs 45\naliased 0\northogonal 0\npartial 45\nnot orthogonal\n  A ~ B\n  A ~ A*B\n  A ~ A^2*B\n  A ~ A^3*B\n  A ~ A^4*B\n  A ~ A^5*B\n  A ~ A^6*B\n  A ~ A^7*B\n  A ~ A^8*B\n  B ~ A*B\n  B ~ A^2*B\n  B ~ A^3*B\n  B ~ A^4*B\n  B ~ A^5*B\n  B ~ A^6*B\n  B ~ A^7*B\n  B ~ A^8*B\n  A*B ~ A^2*B\n  A*B ~ A^3*B\n  A*B ~ A^4*B\n  A*B ~ A^5*B\n  A*B ~ A^6*B\n  A*B ~ A^7*B\n  A*B ~ A^8*B\n  A^2*B ~ A^3*B\n  A^2*B ~ A^4*B\n  A^2*B ~ A^5*B\n  A^2*B ~ A^6*B\n  A^2*B ~ A^7*B\n  A^2*B ~ A^8*B\n  A^3*B ~ A^4*B\n  A^3*B ~ A^5*B\n  A^3*B ~ A^6*B\n  A^3*B ~ A^7*B\n  A^3*B ~ A^8*B\n  A^4*B ~ A^5*B\n  A^4*B ~ A^6*B\n  A^4*B ~ A^7*B\n  A^4*B ~ A^8*B\n  A^5*B ~ A^6*B\n  A^5*B ~ A^7*B\n  A^5*B ~ A^8*B\n  A^6*B ~ A^7*B\n  A^6*B ~ A^8*B\n  A^7*B ~ A^8*B\n",
        0,
    ),
    (
        "check",
        "factex-book 2\nsize 4 1 3 0\nresolution 3\npattern none\nO 1\nEND\n",
        "accepted\nsize 4 1 3 0\nresolution 3\npattern none\n",
        0,
    ),
    (
        "upgrade",
        "factex-book 2\nsize 4 1 3 0\nresolution 3\npattern none\nO 1\nEND\n",
        "factex-book 2\nsize 4 1 3 0\nresolution 3\npattern none\nO 1\nEND\n",
        0,
    ),
    (
        "check",
        "factex-book 2\nsize 5 1 3 0\nresolution 3\npattern none\nO 1\nEND\n",
        "accepted\nsize 5 1 3 0\nresolution 3\npattern none\n",
        0,
    ),
    (
        "upgrade",
        "factex-book 2\nsize 5 1 3 0\nresolution 3\npattern none\nO 1\nEND\n",
        "factex-book 2\nsize 5 1 3 0\nresolution 3\npattern none\nO 1\nEND\n",
        0,
    ),
    (
        "check",
        "factex-book 2\nsize 7 1 3 0\nresolution 3\npattern none\nO 1\nEND\n",
        "accepted\nsize 7 1 3 0\nresolution 3\npattern none\n",
        0,
    ),
    (
        "upgrade",
        "factex-book 2\nsize 7 1 3 0\nresolution 3\npattern none\nO 1\nEND\n",
        "factex-book 2\nsize 7 1 3 0\nresolution 3\npattern none\nO 1\nEND\n",
        0,
    ),
    (
        "check",
        "factex-book 2\nsize 8 1 3 0\nresolution 3\npattern none\nO 1\nEND\n",
        "accepted\nsize 8 1 3 0\nresolution 3\npattern none\n",
        0,
    ),
    (
        "upgrade",
        "factex-book 2\nsize 8 1 3 0\nresolution 3\npattern none\nO 1\nEND\n",
        "factex-book 2\nsize 8 1 3 0\nresolution 3\npattern none\nO 1\nEND\n",
        0,
    ),
    (
        "check",
        "factex-book 2\nsize 9 1 3 0\nresolution 3\npattern none\nO 1\nEND\n",
        "accepted\nsize 9 1 3 0\nresolution 3\npattern none\n",
        0,
    ),
    (
        "upgrade",
        "factex-book 2\nsize 9 1 3 0\nresolution 3\npattern none\nO 1\nEND\n",
        "factex-book 2\nsize 9 1 3 0\nresolution 3\npattern none\nO 1\nEND\n",
        0,
    ),
    (
        "catalogue 3 1 3",
        "",
        "catalogue levels 3 runs 3\nfactors 2 nodes 1 none\n",
        1,
    ),
    (
        "tables 3 1 3",
        "",
        "table levels 3 runs 3\nfactors 2 entries 1 none\n",
        1,
    ),
    (
        "catalogue 4 1 3",
        "",
        "catalogue levels 4 runs 4\nfactors 2 nodes 1 none\n",
        1,
    ),
    (
        "tables 4 1 3",
        "",
        "table levels 4 runs 4\nfactors 2 entries 1 none\n",
        1,
    ),
    (
        "catalogue 5 1 3",
        "",
        "catalogue levels 5 runs 5\nfactors 2 nodes 1 none\n",
        1,
    ),
    (
        "tables 5 1 3",
        "",
        "table levels 5 runs 5\nfactors 2 entries 1 none\n",
        1,
    ),
    (
        "catalogue 7 1 3",
        "",
        "catalogue levels 7 runs 7\nfactors 2 nodes 1 none\n",
        1,
    ),
    (
        "tables 7 1 3",
        "",
        "table levels 7 runs 7\nfactors 2 entries 1 none\n",
        1,
    ),
    (
        "catalogue 8 1 3",
        "",
        "catalogue levels 8 runs 8\nfactors 2 nodes 1 none\n",
        1,
    ),
    (
        "tables 8 1 3",
        "",
        "table levels 8 runs 8\nfactors 2 entries 1 none\n",
        1,
    ),
    (
        "run",
        "proc factex;factors A B/nlev=4;size design=16;model r=3;output out=a [A B]=D;",
        "step 1\nfactors 2 levels 4\ndesign 16 runs\nno defining words\nnodes 2\nrules\n  none\noutput a.csv 16 rows\nderived D 16 levels balanced\n",
        0,
    ),
    (
        "run",
        "proc factex;factors A B/nlev=5;size design=25;model r=3;output out=a [A B]=D;",
        "step 1\nfactors 2 levels 5\ndesign 25 runs\nno defining words\nnodes 2\nrules\n  none\noutput a.csv 25 rows\nderived D 25 levels balanced\n",
        0,
    ),
    (
        "run",
        "proc factex;factors A B/nlev=7;size design=49;model r=3;output out=a [A B]=D;",
        "step 1\nfactors 2 levels 7\ndesign 49 runs\nno defining words\nnodes 2\nrules\n  none\noutput a.csv 49 rows\nderived D 49 levels balanced\n",
        0,
    ),
    (
        "run",
        "proc factex;factors A B/nlev=8;size design=64;model r=3;output out=a [A B]=D;",
        "step 1\nfactors 2 levels 8\ndesign 64 runs\nno defining words\nnodes 2\nrules\n  none\noutput a.csv 64 rows\nderived D 64 levels balanced\n",
        0,
    ),
    (
        "run",
        "proc factex;factors A B/nlev=9;size design=81;model r=3;output out=a;",
        "step 1\nfactors 2 levels 9\ndesign 81 runs\nno defining words\nnodes 2\nrules\n  none\noutput a.csv 81 rows\n",
        0,
    ),
    (
        "run",
        "proc factex;factors A B/nlev=2;size design=1024;model r=3;examine aliasing aberration;",
        "step 1\nfactors 2 levels 2\ndesign 1024 runs\nno defining words\nnodes 2\nrules\n  none\naliasing\n  A\n  B\n  A*B\naberration\n  none\n",
        0,
    ),
    (
        "run",
        "proc factex;factors A B/nlev=2;size design=1024;model r=3;blocks nblocks=2;examine blocked;",
        "step 1\nfactors 2 levels 2\ndesign 1024 runs in 2 blocks\nno defining words\nnodes 3\nrules\n  [1] = run factor 3\nblocked\n  none\n",
        0,
    ),
    (
        "run",
        "proc factex;factors A B/nlev=3;size design=729;model r=3;examine aliasing aberration;",
        "step 1\nfactors 2 levels 3\ndesign 729 runs\nno defining words\nnodes 2\nrules\n  none\naliasing\n  A\n  B\n  A*B\n  A^2*B\naberration\n  none\n",
        0,
    ),
    (
        "run",
        "proc factex;factors A B/nlev=3;size design=729;model r=3;blocks nblocks=3;examine blocked;",
        "step 1\nfactors 2 levels 3\ndesign 729 runs in 3 blocks\nno defining words\nnodes 3\nrules\n  [1] = run factor 3\nblocked\n  none\n",
        0,
    ),
    (
        "run",
        "proc factex;factors A B/nlev=4;size design=1024;model r=3;examine aliasing aberration;",
        "step 1\nfactors 2 levels 4\ndesign 1024 runs\nno defining words\nnodes 2\nrules\n  none\naliasing\n  A\n  B\n  A*B\n  A^2*B\n  A^3*B\naberration\n  none\n",
        0,
    ),
    (
        "run",
        "proc factex;factors A B/nlev=4;size design=1024;model r=3;blocks nblocks=4;examine blocked;",
        "step 1\nfactors 2 levels 4\ndesign 1024 runs in 4 blocks\nno defining words\nnodes 3\nrules\n  [1] = run factor 3\nblocked\n  none\n",
        0,
    ),
    (
        "run",
        "proc factex;factors A B/nlev=5;size design=625;model r=3;examine aliasing aberration;",
        "step 1\nfactors 2 levels 5\ndesign 625 runs\nno defining words\nnodes 2\nrules\n  none\naliasing\n  A\n  B\n  A*B\n  A^2*B\n  A^3*B\n  A^4*B\naberration\n  none\n",
        0,
    ),
    (
        "run",
        "proc factex;factors A B/nlev=5;size design=625;model r=3;blocks nblocks=5;examine blocked;",
        "step 1\nfactors 2 levels 5\ndesign 625 runs in 5 blocks\nno defining words\nnodes 3\nrules\n  [1] = run factor 3\nblocked\n  none\n",
        0,
    ),
    (
        "run",
        "proc factex;factors A B/nlev=7;size design=343;model r=3;examine aliasing aberration;",
        "step 1\nfactors 2 levels 7\ndesign 343 runs\nno defining words\nnodes 2\nrules\n  none\naliasing\n  A\n  B\n  A*B\n  A^2*B\n  A^3*B\n  A^4*B\n  A^5*B\n  A^6*B\naberration\n  none\n",
        0,
    ),
    (
        "run",
        "proc factex;factors A B/nlev=7;size design=343;model r=3;blocks nblocks=7;examine blocked;",
        "step 1\nfactors 2 levels 7\ndesign 343 runs in 7 blocks\nno defining words\nnodes 3\nrules\n  [1] = run factor 3\nblocked\n  none\n",
        0,
    ),
    (
        "run",
        "proc factex;factors A B/nlev=8;size design=512;model r=3;examine aliasing aberration;",
        "step 1\nfactors 2 levels 8\ndesign 512 runs\nno defining words\nnodes 2\nrules\n  none\naliasing\n  A\n  B\n  A*B\n  A^2*B\n  A^3*B\n  A^4*B\n  A^5*B\n  A^6*B\n  A^7*B\naberration\n  none\n",
        0,
    ),
    (
        "run",
        "proc factex;factors A B/nlev=8;size design=512;model r=3;blocks nblocks=8;examine blocked;",
        "step 1\nfactors 2 levels 8\ndesign 512 runs in 8 blocks\nno defining words\nnodes 3\nrules\n  [1] = run factor 3\nblocked\n  none\n",
        0,
    ),
    (
        "run",
        "proc factex;factors A B/nlev=9;size design=729;model r=3;examine aliasing aberration;",
        "step 1\nfactors 2 levels 9\ndesign 729 runs\nno defining words\nnodes 2\nrules\n  none\naliasing\n  A\n  B\n  A*B\n  A^2*B\n  A^3*B\n  A^4*B\n  A^5*B\n  A^6*B\n  A^7*B\n  A^8*B\naberration\n  none\n",
        0,
    ),
    (
        "run",
        "proc factex;factors A B/nlev=9;size design=729;model r=3;blocks nblocks=9;examine blocked;",
        "step 1\nfactors 2 levels 9\ndesign 729 runs in 9 blocks\nno defining words\nnodes 3\nrules\n  [1] = run factor 3\nblocked\n  none\n",
        0,
    ),
    (
        "catalogue 2 6 63 --nodes=1",
        "",
        "catalogue levels 2 runs 64\nfactors 7 budget ended after 1 nodes\nfactors 8 budget ended after 1 nodes\nfactors 9 budget ended after 1 nodes\nfactors 10 budget ended after 1 nodes\nfactors 11 budget ended after 1 nodes\nfactors 12 budget ended after 1 nodes\nfactors 13 budget ended after 1 nodes\nfactors 14 budget ended after 1 nodes\nfactors 15 budget ended after 1 nodes\nfactors 16 budget ended after 1 nodes\nfactors 17 budget ended after 1 nodes\nfactors 18 budget ended after 1 nodes\nfactors 19 budget ended after 1 nodes\nfactors 20 budget ended after 1 nodes\nfactors 21 budget ended after 1 nodes\nfactors 22 budget ended after 1 nodes\nfactors 23 budget ended after 1 nodes\nfactors 24 budget ended after 1 nodes\nfactors 25 budget ended after 1 nodes\nfactors 26 budget ended after 1 nodes\nfactors 27 budget ended after 1 nodes\nfactors 28 budget ended after 1 nodes\nfactors 29 budget ended after 1 nodes\nfactors 30 budget ended after 1 nodes\nfactors 31 budget ended after 1 nodes\nfactors 32 budget ended after 1 nodes\nfactors 33 budget ended after 1 nodes\nfactors 34 budget ended after 1 nodes\nfactors 35 budget ended after 1 nodes\nfactors 36 budget ended after 1 nodes\nfactors 37 budget ended after 1 nodes\nfactors 38 budget ended after 1 nodes\nfactors 39 budget ended after 1 nodes\nfactors 40 budget ended after 1 nodes\nfactors 41 budget ended after 1 nodes\nfactors 42 budget ended after 1 nodes\nfactors 43 budget ended after 1 nodes\nfactors 44 budget ended after 1 nodes\nfactors 45 budget ended after 1 nodes\nfactors 46 budget ended after 1 nodes\nfactors 47 budget ended after 1 nodes\nfactors 48 budget ended after 1 nodes\nfactors 49 budget ended after 1 nodes\nfactors 50 budget ended after 1 nodes\nfactors 51 budget ended after 1 nodes\nfactors 52 budget ended after 1 nodes\nfactors 53 budget ended after 1 nodes\nfactors 54 budget ended after 1 nodes\nfactors 55 budget ended after 1 nodes\nfactors 56 budget ended after 1 nodes\nfactors 57 budget ended after 1 nodes\nfactors 58 budget ended after 1 nodes\nfactors 59 budget ended after 1 nodes\nfactors 60 budget ended after 1 nodes\nfactors 61 budget ended after 1 nodes\nfactors 62 budget ended after 1 nodes\nfactors 63 budget ended after 1 nodes\n",
        2,
    ),
    (
        "catalogue 4 2 40 --nodes=1",
        "",
        "catalogue levels 4 runs 16\nfactors 3 budget ended after 1 nodes\nfactors 4 budget ended after 1 nodes\nfactors 5 budget ended after 1 nodes\nfactors 6 budget ended after 1 nodes\nfactors 7 budget ended after 1 nodes\nfactors 8 budget ended after 1 nodes\nfactors 9 budget ended after 1 nodes\nfactors 10 budget ended after 1 nodes\nfactors 11 budget ended after 1 nodes\nfactors 12 budget ended after 1 nodes\nfactors 13 budget ended after 1 nodes\nfactors 14 budget ended after 1 nodes\nfactors 15 budget ended after 1 nodes\nfactors 16 budget ended after 1 nodes\nfactors 17 budget ended after 1 nodes\nfactors 18 budget ended after 1 nodes\nfactors 19 budget ended after 1 nodes\nfactors 20 budget ended after 1 nodes\nfactors 21 budget ended after 1 nodes\nfactors 22 budget ended after 1 nodes\nfactors 23 budget ended after 1 nodes\nfactors 24 budget ended after 1 nodes\nfactors 25 budget ended after 1 nodes\nfactors 26 budget ended after 1 nodes\nfactors 27 budget ended after 1 nodes\nfactors 28 budget ended after 1 nodes\nfactors 29 budget ended after 1 nodes\nfactors 30 budget ended after 1 nodes\nfactors 31 budget ended after 1 nodes\nfactors 32 budget ended after 1 nodes\nfactors 33 budget ended after 1 nodes\nfactors 34 budget ended after 1 nodes\nfactors 35 budget ended after 1 nodes\nfactors 36 budget ended after 1 nodes\nfactors 37 budget ended after 1 nodes\nfactors 38 budget ended after 1 nodes\nfactors 39 budget ended after 1 nodes\nfactors 40 budget ended after 1 nodes\n",
        2,
    ),
    (
        "large 100",
        "",
        "steps 100\ndesigns 100\nnone 0\nended 0\nnodes 16064\n",
        0,
    ),
];

#[test]
fn each_command_has_memory_enough(rt: HostRuntime) {
    for (line, text, listing, status) in rows_of(&ASKED) {
        let is_so = lists(
            &rt,
            rt.alloc(),
            line,
            text.as_bytes(),
            ROOMY,
            *status,
            listing,
        );
        assert!(rt; is_so, "{line} {text}");
    }
}

/// A plan of 4,096 runs.
fn longest_plan(rt: &impl Abort, alloc: Global) -> Bytes {
    let mut text = Bytes::from_slice(alloc, b"A,B\n").expect(rt, "memory");
    for _i in 0..1024 {
        put(&mut text, b"-1,-1\n-1,1\n1,-1\n1,1\n").expect(rt, "memory");
    }
    text
}

#[test]
fn the_longest_plan_is_judged(rt: HostRuntime) {
    let text = longest_plan(&rt, rt.alloc());
    let listing =
        "plan 4096 rows\nfactors 2 levels 2\nregular\nrules\n  none\npairs 3\naliased 0\northogonal 3\npartial 0\nnot orthogonal\n  none\n";
    assert!(rt;
        lists(
            &rt,
            rt.alloc(),
            "judge 2",
            text.as_slice(),
            ROOMY,
            0,
            listing
        )
    );
}
