ghost use Rattle.std.specs.Prelude.{◌≡◌, ℕ, IsTrue, None};
ghost use Rattle.fx_settings.specs.declared.settings.Blocks.TheVariants.{Factors, Without};
ghost use Rattle.fx_plan.specs.Products.{IsHanded};
ghost use Rattle.fx_plan.specs.Steps.{IsDesignOf};

use crate::alias::{are_few, matrix_of, program_of, push};
use crate::rows_of;
use fx_base::Bytes;
use fx_plan::{draw, plan, table_text};
use fx_statements::{Blocks, Rep, Step};
use fx_vectors::{Matrix, Shape};
use rand_core::SeedableRng;
use rand_pcg::Pcg64;
use std::alloc::Global;
use std::process::Abort;

// The expected numbers and texts were computed apart from this program, in Python: the generator by
// its definition, the lines by the module csv.

/// Twice each run, with values that have to be quoted, and one that is empty.
const KEPT: &[&[u8]] = &[
    b"Day,A,B,C\nMo,10,\"lo,w\",\nMo,10,\"lo,w\",\n,10,\"lo,w\",\"\xe9\n\r\"\n,10,\"lo,w",
    b"\",\"\xe9\n\r\"\nTu,10,\"h\"\"i\",\nTu,10,\"h\"\"i\",\n1,10,\"h\"\"i\",\"\xe9\n\r\"",
    b"\n1,10,\"h\"\"i\",\"\xe9\n\r\"\n1,-2.5,\"lo,w\",\n1,-2.5,\"lo,w\",\nTu,-2.5,\"lo,w",
    b"\",\"\xe9\n\r\"\nTu,-2.5,\"lo,w\",\"\xe9\n\r\"\n,-2.5,\"h\"\"i\",\n,-2.5,\"h\"\"i\"",
    b",\nMo,-2.5,\"h\"\"i\",\"\xe9\n\r\"\nMo,-2.5,\"h\"\"i\",\"\xe9\n\r\"\n",
];

/// By the greatest seed.
const SHUFFLED: &[&[u8]] = &[
    b"Day,A,B,C\nMo,10,\"h\"\"i\",\"\xe9\n\r\"\nMo,-2.5,\"lo,w\",\nTu,-2.5,\"h\"\"i\",\n",
    b"Tu,10,\"lo,w\",\"\xe9\n\r\"\n1,10,\"lo,w\",\n1,-2.5,\"h\"\"i\",\"\xe9\n\r\"\n,10,\"",
    b"h\"\"i\",\n,-2.5,\"lo,w\",\"\xe9\n\r\"\n",
];

/// The design twice, by the seed 0, without a change of values.
const ROWS_SHUFFLED: &[&[u8]] = &[
    b"BLOCK,A,B,C\n4,1,1,-1\n4,1,1,-1\n4,-1,-1,1\n4,-1,-1,1\n3,1,-1,-1\n3,-1,1,1\n3,1,-1",
    b",-1\n3,-1,1,1\n2,-1,1,-1\n2,-1,1,-1\n2,1,-1,1\n2,1,-1,1\n1,1,1,1\n1,1,1,1\n1,-1,-1",
    b",-1\n1,-1,-1,-1\n",
];

/// By the program's seed, which is 5.
const BY_SEED: &[&[u8]] = &[
    b"BLOCK,A,B,C\n3,-2.5,1,1\n3,10,-1,-1\n1,-2.5,-1,-1\n1,10,1,1\n4,10,1,-1\n4,-2.5,-1,",
    b"1\n2,10,-1,1\n2,-2.5,1,-1\n",
];

/// Four levels, by the seed 3.
const FOUR_LEVELS: &[&[u8]] = &[
    b"X1,X2,X3\n1,0,3\n2,3,1\n3,1,3\n0,0,0\n2,1,0\n3,2,0\n1,3,0\n0,2,1\n2,2,3\n0,3,3\n3,",
    b"3,2\n0,1,2\n3,0,1\n1,2,2\n1,1,1\n2,0,2\n",
];

/// Three levels in three blocks, each run twice, by the seed 11.
const THREE: &[&[u8]] = &[
    b"BLOCK,A,B,C\n2,1,-1,-1\n2,0,1,1\n2,0,1,1\n2,-1,0,0\n2,-1,0,0\n2,1,-1,-1\n1,1,0,1\n",
    b"1,0,-1,0\n1,-1,1,-1\n1,-1,1,-1\n1,0,-1,0\n1,1,0,1\n3,-1,-1,1\n3,0,0,-1\n3,1,1,0\n3",
    b",1,1,0\n3,-1,-1,1\n3,0,0,-1\n",
];

/// Eight runs of three factors in four blocks.
const IN_BLOCKS: Shape = Shape {
    q: 2,
    m: 3,
    s: 3,
    t: 2,
};

/// Whether the matrix is a design of the step.
fn is_design(step: &Step, matrix: &Matrix) -> bool
    ensures { IsTrue result → IsDesignOf step.now matrix.now }
{
    let shape = matrix.shape();
    if matrix.len() != shape.rows() || !are_few(shape) {
        return false;
    }
    if shape.q != step.settings.q || usize::from(shape.s) != step.factors.len() {
        return false;
    }
    has_blocks(step.settings.blocks, shape.t)
}

/// Whether `t` is the number of block factors.
fn has_blocks(blocks: Blocks, t: u8) -> bool
    ensures unblocked { IsTrue result → blocks ≡ Without → t ≡ 0 }
    ensures block_factors { IsTrue result → (own : ℕ) → blocks ≡ Factors own → t ≡ own }
{
    match blocks {
        Blocks::Without => t == 0,
        Blocks::Factors { t: own } => t == own,
        Blocks::PerBlock { k: _k } => false,
        Blocks::Most => false,
    }
}

/// Whether no plan is named.
fn is_number(rep: Rep) -> bool
    ensures { IsTrue result → IsHanded rep None }
{
    match rep {
        Rep::Times(_) => true,
        Rep::Plan(_) => false,
    }
}

/// Whether a text is these parts, one after another.
fn is_joined(text: &[u8], parts: &[&[u8]]) -> bool {
    let mut rest = text;
    for part in parts {
        match rest.strip_prefix(*part) {
            Some(after) => rest = after,
            None => return false,
        }
    }
    rest.is_empty()
}

/// Whether the text's only step has this plan for its OUTPUT statement at `i`.
fn is_planned(
    rt: &impl Abort,
    alloc: Global,
    text: &[u8],
    matrix: &Matrix,
    i: usize,
    expected: &[&[u8]],
) -> bool {
    is_joined(planned(rt, alloc, text, matrix, i).as_slice(), expected)
}

/// The plan of a step for the OUTPUT statement at `i`, by the seed 5.
fn plan_of(rt: &impl Abort, alloc: Global, step: &Step, matrix: &Matrix, i: usize) -> Bytes {
    assert!(rt; i < step.outputs.len() && is_design(step, matrix));
    let output = step.outputs.get(i);
    assert!(rt; is_number(output.pointrep) && is_number(output.designrep));
    let made = plan(alloc, step, matrix, output, 5, None, None).expect(rt, "memory");
    table_text(alloc, &made).expect(rt, "memory")
}

/// The plan of the text's only step.
fn planned(rt: &impl Abort, alloc: Global, text: &[u8], matrix: &Matrix, i: usize) -> Bytes {
    let program = program_of(rt, alloc, text);
    assert!(rt; program.len() == 1);
    plan_of(rt, alloc, program.get(0), matrix, i)
}

/// Seeds, each with bounds and what is drawn below each, one after another.
const DRAWS: &[(u64, &[(u64, u64)])] = &[
    (
        0,
        &[
            (1, 0),
            (10, 3),
            (1 << 63, 6546293130088182040),
            (u64::MAX, 718076624554797017),
            (3, 2),
        ],
    ),
    (
        u64::MAX,
        &[(6, 5), (1_000_000_000_000_000_000, 740548068244286540)],
    ),
];

/// Whether a generator draws these.
fn are_drawn(seed: u64, draws: &[(u64, u64)]) -> bool {
    let mut rng = Pcg64::seed_from_u64(seed);
    for (bound, drawn) in draws {
        if *bound == 0 || draw(&mut rng, *bound) != *drawn {
            return false;
        }
    }
    true
}

#[test]
fn draws_are_those_of_the_generator(rt: HostRuntime) {
    for (seed, draws) in rows_of(DRAWS) {
        assert!(rt; are_drawn(*seed, draws));
    }
}

#[test]
fn a_design_in_blocks_is_planned(rt: HostRuntime) {
    let alloc = rt.alloc();
    let matrix = matrix_of(&rt, IN_BLOCKS, &[1, 2, 4, 6, 5]);
    let text = b"proc factex; factors A B C; size design=8; model resolution=3; blocks nblocks=4; \
output out=p1 pointrep=2 A nvals=(10 -2.5) B cvals=('lo,w' 'h\"i') C cvals=('' '\xe9\n\r') \
blockname=Day cvals=('Mo' 'Tu' '1' ''); \
output out=p2 randomize(18446744073709551615) A nvals=(10 -2.5) B cvals=('lo,w' 'h\"i') \
C cvals=('' '\xe9\n\r') blockname=Day cvals=('Mo' 'Tu' '1' ''); \
output out=p3 randomize(0) novalran designrep=2; output out=p4 randomize A nvals=(10 -2.5);";
    for (i, plan) in [KEPT, SHUFFLED, ROWS_SHUFFLED, BY_SEED].iter().enumerate() {
        assert!(rt; is_planned(&rt, alloc, text, &matrix, i, plan), "{i}");
    }
}

#[test]
fn designs_of_more_levels_are_planned(rt: HostRuntime) {
    let alloc = rt.alloc();
    let four = Shape {
        q: 4,
        m: 2,
        s: 3,
        t: 0,
    };
    let matrix = matrix_of(&rt, four, &[1, 4, 9]);
    let text = b"proc factex; factors X1-X3 / nlev=4; size design=16; model resolution=3; \
output out=x randomize(3);";
    assert!(rt; is_planned(&rt, alloc, text, &matrix, 0, FOUR_LEVELS));
    let three = Shape {
        q: 3,
        m: 2,
        s: 3,
        t: 1,
    };
    let matrix = matrix_of(&rt, three, &[1, 3, 4, 7]);
    let text = b"proc factex; factors A B C / nlev=3; size design=9; model resolution=3; \
blocks nblkfacs=1; output out=x pointrep=2 randomize(11);";
    assert!(rt; is_planned(&rt, alloc, text, &matrix, 0, THREE));
}

/// A matrix of forty factors: the others follow from the first six, in the order of their numbers.
fn forty_factors(rt: &impl Abort) -> Matrix {
    let forty = Shape {
        q: 2,
        m: 6,
        s: 40,
        t: 0,
    };
    let mut matrix = matrix_of(rt, forty, &[1, 2, 4, 8, 16, 32]);
    for row in 3..=40 {
        if row != 4 && row != 8 && row != 16 && row != 32 {
            push(rt, &mut matrix, row);
        }
    }
    matrix
}

/// The FNV-1a checksum.
fn checksum(text: &[u8]) -> u64 {
    let mut sum = 0xcbf29ce484222325_u64;
    for b in text {
        sum = (sum ^ u64::from(*b)).wrapping_mul(0x100000001b3);
    }
    sum
}

/// Forty names of 32 bytes, 192 rows: the length of the text, and its checksum.
#[test]
fn a_plan_of_forty_factors_is_whole(rt: HostRuntime) {
    let text = b"proc factex; factors NNNNNNNNNNNNNNNNNNNNNNNNNNNNNN11-\
NNNNNNNNNNNNNNNNNNNNNNNNNNNNNN50; size design=64; model resolution=3; \
output out=x randomize(18446744073709551615) designrep=3;";
    let matrix = forty_factors(&rt);
    let bytes = planned(&rt, rt.alloc(), text, &matrix, 0);
    assert!(rt; bytes.len() == 20520 && checksum(bytes.as_slice()) == 12066249520895240827);
}
