//! Steps whose designs rules give, under `plan`.
use super::outside::{Limits, lists};
use crate::rows_of;
use std::alloc::Global;
use std::process::Abort;
use std::thread::Threads;

/// Objects outside with room enough.
const ROOMY: Limits = Limits {
    step: 100,
    listing_room: 2000,
    shelf_room: 5000,
    first_read: None,
    first_write: None,
    first_file: None,
};

/// For each number of levels two factors and their sum, in blocks and as a third factor: the runs, and how many components
/// of two factors there are and are clear.
const LEVELS: [(u32, u32, u32, u32, u32); 7] = [
    (2, 4, 3, 1, 0),
    (3, 9, 6, 2, 1),
    (4, 16, 9, 3, 2),
    (5, 25, 12, 4, 3),
    (7, 49, 18, 6, 5),
    (8, 64, 21, 7, 6),
    (9, 81, 24, 8, 7),
];

fn pairs_name(q: u32) -> &'static str {
    if q == 2 { "interactions" } else { "components" }
}

/// Whether three factors, the third of which is the sum of the others, have this listing.
fn is_third<R: Threads + Sync + Abort>(rt: &R, alloc: Global, q: u32, runs: u32, all: u32) -> bool {
    let text = format!(in alloc;
        "rules C=A*B\nproc factex;factors A B C/nlev={q};size design={runs};model resolution=3;"
    ).expect(rt, "memory");
    let name = pairs_name(q);
    let listing = format!(in alloc;
        "step 1\nfactors 3 levels {q}\ndesign {runs} runs given\nresolution 3\nmeets the model\nclear 0 of 3 factors, 0 of {all} two-factor {name}\nrules\n  C = A*B\n"
    ).expect(rt, "memory");
    lists(
        rt,
        alloc,
        "plan",
        text.as_bytes(),
        ROOMY,
        0,
        listing.as_str(),
    )
}

/// Whether two factors in blocks by their sum have this listing.
fn is_blocked<R: Threads + Sync + Abort>(
    rt: &R,
    alloc: Global,
    q: u32,
    runs: u32,
    all: u32,
    clear: u32,
) -> bool {
    let text = format!(in alloc;
        "rules [1]=A*B\nproc factex;factors A B/nlev={q};size design={runs};blocks nblocks={q};model resolution=5;"
    ).expect(rt, "memory");
    let name = pairs_name(q);
    let listing = format!(in alloc;
        "step 1\nfactors 2 levels {q}\ndesign {runs} runs in {q} blocks given\nno defining words\ndoes not meet the model\nclear 2 of 2 factors, {clear} of {all} two-factor {name}\nconfounded with blocks B2 1\nrules\n  [1] = A*B\n"
    ).expect(rt, "memory");
    lists(
        rt,
        alloc,
        "plan",
        text.as_bytes(),
        ROOMY,
        1,
        listing.as_str(),
    )
}

#[test]
fn given_designs_are_listed_at_each_number_of_levels(rt: HostRuntime) {
    for (q, runs, third, all, clear) in rows_of(&LEVELS) {
        assert!(rt; is_third(&rt, rt.alloc(), *q, *runs, *third), "{q}");
        assert!(rt; is_blocked(&rt, rt.alloc(), *q, *runs, *all, *clear), "{q}");
    }
}

/// Two steps, the second of which names the plan of the first.
const TWO: &str = "rules C=A*B\nproc factex; factors A B C; size design=4; output out=inner;\n\
rules none\nproc factex; factors D; size design=2; output out=outer randomize novalran pointrep=inner;\n";

const TWO_LISTING: &str = "\
step 1
factors 3 levels 2
design 4 runs given
resolution 3
clear 0 of 3 factors, 0 of 3 two-factor interactions
rules
  C = A*B
output inner.csv 4 rows
step 2
factors 1 levels 2
design 2 runs given
no defining words
clear 1 of 1 factors, 0 of 0 two-factor interactions
rules
  none
output outer.csv 8 rows seed 5
";

#[test]
fn steps_with_rules_write_their_plans(rt: HostRuntime) {
    let is_so = lists(
        &rt,
        rt.alloc(),
        "plan --seed=5",
        TWO.as_bytes(),
        ROOMY,
        0,
        TWO_LISTING,
    );
    assert!(rt; is_so);
}

/// Each text with its message.
const REFUSED: [(&str, &str); 14] = [
    (
        "rules D=\nproc factex;factors A B C D;size design=8;",
        "P1 2:1 rules are not of their form",
    ),
    (
        "rules D=A*Q\nproc factex;factors A B C D;size design=8;",
        "P2 1:11 name is no factor and no block factor",
    ),
    (
        "rules E=A*B D=A*C\nproc factex;factors A B C D E;size design=16;",
        "P3 1:13 rules are not in the order of the factors",
    ),
    (
        "rules C=A*D\nproc factex;factors A B C D;size design=8;",
        "P4 1:11 factor has no run index before this product",
    ),
    (
        "rules C=A*A\nproc factex;factors A B C;size design=4;",
        "P5 1:11 factor is twice in a product",
    ),
    (
        "rules C=A^3*B\nproc factex;factors A B C / nlev=3;size design=9;",
        "P6 1:11 power is no code",
    ),
    (
        "rules D=A*B\nproc factex;factors A B C D;size design=4;",
        "P7 1:7 more factors without a rule than run indexes",
    ),
    (
        "rules [1]=run factor 3\nproc factex;factors A;size design=4;blocks nblocks=2;",
        "P8 1:22 run factor is not the next",
    ),
    (
        "proc factex;factors A B;size design=4;",
        "P9 1:1 a step has no rules, or rules have no step",
    ),
    (
        "rules none\nproc factex;factors A;size design=2;proc factex;factors A;size design=2;",
        "P9 2:37 a step has no rules, or rules have no step",
    ),
    (
        "rules none\nproc factex;factors A;size design=2;\nrules none",
        "P9 3:1 a step has no rules, or rules have no step",
    ),
    (
        "\n rules none\nproc factex;factors A;size design=minimum;model r=3;",
        "P10 2:2 a minimum, a maximum or MINABS with rules",
    ),
    (
        "rules none\nproc factex;factors A B;size design=4;model r=3;blocks nblocks=maximum;",
        "P10 1:1 a minimum, a maximum or MINABS with rules",
    ),
    (
        "rules none\nproc factex;factors A B;size design=5;",
        "E8 2:37 size is not a power of the number of levels",
    ),
];

#[test]
fn rules_are_refused_with_their_place(rt: HostRuntime) {
    for (text, message) in rows_of(&REFUSED) {
        let line = format!(in rt.alloc(); "factex: {message}\n").expect(&rt, "memory");
        let is_so = lists(
            &rt,
            rt.alloc(),
            "plan",
            text.as_bytes(),
            ROOMY,
            3,
            line.as_str(),
        );
        assert!(rt; is_so, "{text}");
    }
}
