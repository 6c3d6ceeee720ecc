use fx_base::{Bytes, put, put_number};
use fx_galois::Field;
use fx_judge::{PlanFault, PlanStop, judge_listing, read_plan};
use std::alloc::Global;
use std::process::Abort;
use std::test::Fail;

/// The most bytes that a plan may have.
const LIMIT: usize = 1048576;

/// The fault of a text within the limit, where it is refused.
fn fault_of(rt: &HostRuntime, q: u8, text: &[u8]) -> Option<PlanFault> {
    let field = Field::of(q)?;
    if text.len() > LIMIT {
        return None;
    }
    match read_plan(rt.alloc(), text, field) {
        Err(PlanStop::Refused(fault)) => Some(fault),
        _ => None,
    }
}

/// Whether the listing of the plan that a text holds is this one.
fn lists(rt: &HostRuntime, q: u8, text: &[u8], listing: &[u8]) -> bool {
    let Some(field) = Field::of(q) else {
        return false;
    };
    if text.len() > LIMIT {
        return false;
    }
    let Ok(plan) = read_plan(rt.alloc(), text, field) else {
        return false;
    };
    let mut out = Bytes::new(rt.alloc());
    if judge_listing(rt.alloc(), &plan, &mut out).is_err() {
        return false;
    }
    out.as_slice() == listing
}

#[test]
fn half_fraction_is_regular(rt: HostRuntime) -> Result<(), Fail> {
    assert!(rt;
        lists(
            &rt,
            2,
            b"A,B,C\n-1,-1,-1\n-1,1,1\n1,-1,1\n1,1,-1\n",
            b"plan 4 rows\nfactors 3 levels 2\nregular\nrules\n  C = A*B\npairs 15\naliased 3\northogonal 12\npartial 0\nnot orthogonal\n  A = B*C\n  B = A*C\n  C = A*B\n"
        )
    );
    Ok(())
}

#[test]
fn lost_run_leaves_partial_pairs(rt: HostRuntime) -> Result<(), Fail> {
    assert!(rt;
        lists(
            &rt,
            2,
            b"A,B\n-1,-1\n-1,1\n1,-1\n",
            b"plan 3 rows\nfactors 2 levels 2\nnot regular\npairs 3\naliased 0\northogonal 0\npartial 3\nnot orthogonal\n  A ~ B\n  A ~ A*B\n  B ~ A*B\n"
        )
    );
    Ok(())
}

#[test]
fn constant_and_complemented_columns_have_rules(rt: HostRuntime) -> Result<(), Fail> {
    assert!(rt;
        lists(
            &rt,
            2,
            b"block,A,B,C\nx,-1,1,1\ny,+1,1,-1\n",
            b"plan 2 rows\nfactors 3 levels 2\nregular\nrules\n  B = 0 + 1\n  C = A + 1\npairs 15\naliased 7\northogonal 8\npartial 0\nnot orthogonal\n  A = C\n  A = A*B\n  A = B*C\n  B = A*C\n  C = A*B\n  C = B*C\n  A*B = B*C\n"
        )
    );
    Ok(())
}

#[test]
fn coefficients_of_three_levels_are_found(rt: HostRuntime) -> Result<(), Fail> {
    assert!(rt;
        lists(
            &rt,
            3,
            b"A,B\n-1,-1\n0,1\n+1,0\n",
            b"plan 3 rows\nfactors 2 levels 3\nregular\nrules\n  B = A^2\npairs 6\naliased 3\northogonal 3\npartial 0\nnot orthogonal\n  A = B\n  A = A^2*B\n  B = A^2*B\n"
        )
    );
    Ok(())
}

#[test]
fn one_column_has_no_pair(rt: HostRuntime) -> Result<(), Fail> {
    assert!(rt;
        lists(
            &rt,
            2,
            b"A\n-1\n1\n",
            b"plan 2 rows\nfactors 1 levels 2\nregular\nrules\n  none\npairs 0\naliased 0\northogonal 0\npartial 0\nnot orthogonal\n  none\n"
        )
    );
    Ok(())
}

/// Whether a text is refused with this code at this record.
fn refuses(rt: &HostRuntime, q: u8, text: &[u8], code: u8, record: u32) -> bool {
    match fault_of(rt, q, text) {
        Some(fault) => fault.kind.code() == code && fault.number == record,
        None => false,
    }
}

#[test]
fn first_fault_is_named_at_its_record(rt: HostRuntime) -> Result<(), Fail> {
    assert!(rt; refuses(&rt, 2, b"", 2, 1));
    assert!(rt; refuses(&rt, 2, b"\n\n", 2, 1));
    assert!(rt; refuses(&rt, 2, b"A,B\n", 2, 2));
    assert!(rt; refuses(&rt, 2, b"A,a\n", 3, 1));
    assert!(rt; refuses(&rt, 2, b"A,\"B,C\"\n1,1\n", 3, 1));
    assert!(rt; refuses(&rt, 2, b"BLOCK\n1\n", 3, 1));
    assert!(rt; refuses(&rt, 2, b"A,Block\n1\n", 4, 2));
    assert!(rt; refuses(&rt, 2, b"A,B\n\n1\n", 4, 2));
    // Too few fields come before a wrong one.
    assert!(rt; refuses(&rt, 2, b"A,B\nx\n", 4, 2));
    // Names begin with a letter, and have at most 32 bytes.
    assert!(rt; refuses(&rt, 2, b"1A\n1\n", 3, 1));
    assert!(rt; fault_of(&rt, 2, b"A2345678901234567890123456789012\n1\n").is_none());
    assert!(rt; refuses(&rt, 2, b"A23456789012345678901234567890123\n1\n", 3, 1));
    assert!(rt; refuses(&rt, 2, b"A,B\n1,1\n-1,2\n", 5, 3));
    assert!(rt; refuses(&rt, 4, b"A,B\n0,+1\n", 5, 2));
    assert!(rt; refuses(&rt, 2, b"A,B\n1,\"1\n", 5, 2));
    Ok(())
}

/// Appends bytes for which there is memory.
fn add(rt: &impl Abort, out: &mut Bytes, bytes: &[u8]) {
    put(out, bytes).expect(rt, "memory");
}

/// Names F1 to Fn.
fn names(rt: &impl Abort, alloc: Global, n: usize) -> Bytes {
    let mut out = Bytes::new(alloc);
    for i in 0..n {
        add(rt, &mut out, if i == 0 { b"F" } else { b",F" });
        put_number(&mut out, i as u128 + 1).expect(rt, "memory");
    }
    out
}

/// Names F1 to Fn, and a row of low levels.
fn wide(rt: &impl Abort, alloc: Global, n: usize) -> Bytes {
    let mut out = names(rt, alloc, n);
    for i in 0..n {
        add(rt, &mut out, if i == 0 { b"\n-1" } else { b",-1" });
    }
    out
}

#[test]
fn limits_of_plans_are_kept(rt: HostRuntime) {
    let alloc = rt.alloc();
    // 24 factors of two levels have 300 components, 25 have 325; 8 of nine levels have 232, 9 have 297, 10 have 370.
    assert!(rt; fault_of(&rt, 2, wide(&rt, alloc, 24).as_slice()).is_none());
    assert!(rt; refuses(&rt, 2, wide(&rt, alloc, 25).as_slice(), 6, 1));
    assert!(rt; refuses(&rt, 2, wide(&rt, alloc, 40).as_slice(), 6, 1));
    assert!(rt; refuses(&rt, 2, wide(&rt, alloc, 41).as_slice(), 3, 1));
    // Too many come before no run.
    assert!(rt; refuses(&rt, 2, names(&rt, alloc, 24).as_slice(), 2, 2));
    assert!(rt; refuses(&rt, 2, names(&rt, alloc, 25).as_slice(), 6, 1));
    // 4,096 runs, and one more.
    let mut text = Bytes::from_slice(alloc, b"A\n").expect(&rt, "memory");
    for _i in 0..4096 {
        add(&rt, &mut text, b"1\n");
    }
    assert!(rt; fault_of(&rt, 2, text.as_slice()).is_none());
    add(&rt, &mut text, b"x,y\n");
    assert!(rt; refuses(&rt, 2, text.as_slice(), 7, 4098));
    // A field of 100,000 bytes.
    let mut long = Bytes::from_slice(alloc, b"A,B\n1,").expect(&rt, "memory");
    for _i in 0..10000 {
        add(&rt, &mut long, b"1111111111");
    }
    assert!(rt; refuses(&rt, 2, long.as_slice(), 5, 2));
}

#[test]
fn records_are_those_of_common_files(rt: HostRuntime) {
    let listing =
        b"plan 2 rows\nfactors 1 levels 2\nregular\nrules\n  none\npairs 0\naliased 0\northogonal 0\npartial 0\nnot orthogonal\n  none\n";
    assert!(rt; lists(&rt, 2, b"\xef\xbb\xbfA\n-1\n1\n", listing));
    assert!(rt; lists(&rt, 2, b"A\r\n-1\r\n1\r\n", listing));
    assert!(rt; lists(&rt, 2, b"\nA\n\n-1\n1\n\n\n", listing));
    assert!(rt; lists(&rt, 2, b"\"A\"\n\"-1\"\n1", listing));
    assert!(rt; lists(&rt, 2, b"Block,A\nx,-1\n,1\n", listing));
    assert!(rt; lists(&rt, 2, b"BLOCK,A\nx,-1\n\"y,z\",+1\n", listing));
    assert!(rt; lists(&rt, 2, b"bLoCk,A\n1,-1\n2,1\n", listing));
}

#[test]
fn signs_are_read_at_two_and_three_levels(rt: HostRuntime) {
    assert!(rt; fault_of(&rt, 2, b"A\n+1\n").is_none());
    assert!(rt; fault_of(&rt, 3, b"A\n+1\n0\n").is_none());
    assert!(rt; refuses(&rt, 4, b"A\n+1\n", 5, 2));
    assert!(rt; refuses(&rt, 2, b"A\n0\n", 5, 2));
    assert!(rt; refuses(&rt, 3, b"A\n+0\n", 5, 2));
}
