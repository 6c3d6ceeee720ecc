ghost use Rattle.std.specs.Prelude.{◌≤◌, length};
ghost use Rattle.fx_vectors.specs.Shape.{IsShape};

use fx_base::Bytes;
use fx_rules::{Part, blanked, parts_of, place_after, read_rules};
use fx_text::Names;
use fx_vectors::Shape;
use std::alloc::Global;
use std::process::Abort;
use std::test::Fail;

/// The most bytes of a text.
const LIMIT: usize = 1048576;

/// The factors of these names.
fn names_of(rt: &impl Abort, alloc: Global, factors: &[&str]) -> Names {
    let mut names = Names::new(alloc);
    for factor in factors {
        let name = Bytes::from_slice(alloc, factor.as_bytes()).expect(rt, "memory");
        names.push(name).expect(rt, "memory");
    }
    names
}

/// The first part of a text.
fn first_part(rt: &impl Abort, alloc: Global, text: &[u8]) -> Part {
    let parts = parts_of(alloc, text).expect(rt, "memory");
    assert!(rt; !parts.is_empty());
    parts.get(0)
}

/// Whether the first part of a text gives these rows.
fn gives(
    rt: &impl Abort,
    alloc: Global,
    shape: Shape,
    factors: &[&str],
    text: &str,
    rows: &[u16],
) -> bool
    requires { IsShape shape }
{
    let part = first_part(rt, alloc, text.as_bytes());
    assert!(rt; part.at <= part.end && part.end <= text.len());
    let names = names_of(rt, alloc, factors);
    let Ok(matrix) = read_rules(shape, &names, &text.as_bytes()[part.at..part.end]) else {
        return false;
    };
    if matrix.len() != rows.len() {
        return false;
    }
    for i in 0..matrix.len() {
        if matrix.row(i) != rows[i] {
            return false;
        }
    }
    true
}

/// The code of the first problem of the first part of a text, with its line and column; zeros where there is none.
fn fault_in(
    rt: &impl Abort,
    alloc: Global,
    shape: Shape,
    factors: &[&str],
    text: &str,
) -> (u8, u32, u32)
    requires { IsShape shape }
{
    let bytes = text.as_bytes();
    let part = first_part(rt, alloc, bytes);
    assert!(rt; part.at <= part.end && part.end <= bytes.len() && bytes.len() <= LIMIT);
    let names = names_of(rt, alloc, factors);
    match read_rules(shape, &names, &bytes[part.at..part.end]) {
        Ok(_) => (0, 0, 0),
        Err(fault) => {
            assert!(rt; fault.at <= part.end - part.at);
            let place = place_after(&bytes[..part.at + fault.at]);
            (fault.problem.code(), place.line, place.column)
        }
    }
}

#[test]
fn rules_of_a_half_are_read(rt: HostRuntime) -> Result<(), Fail> {
    assert!(rt;
        gives(
            &rt,
            rt.alloc(),
            Shape {
                q: 2,
                m: 3,
                s: 4,
                t: 0
            },
            &["Temperature", "Pressure", "Formaldehyde", "Stirring"],
            "rules Stirring = Temperature*Pressure*Formaldehyde\nproc factex;",
            &[1, 2, 4, 7]
        )
    );
    Ok(())
}

#[test]
fn blocks_powers_and_constants_are_read(rt: HostRuntime) -> Result<(), Fail> {
    assert!(rt;
        gives(
            &rt,
            rt.alloc(),
            Shape {
                q: 2,
                m: 4,
                s: 6,
                t: 2
            },
            &["A", "B", "C", "D", "E", "F"],
            "rules E=A*B*C  F=B*C*D  [1]=A*C*D [2]=A*B*D\nproc factex;",
            &[1, 2, 4, 8, 7, 14, 13, 11]
        )
    );
    assert!(rt;
        gives(
            &rt,
            rt.alloc(),
            Shape {
                q: 4,
                m: 2,
                s: 4,
                t: 0
            },
            &["A", "B", "C", "D"],
            "rules C=A*B^2 D=A*B^3\nproc factex;",
            &[1, 4, 9, 13]
        )
    );
    assert!(rt;
        gives(
            &rt,
            rt.alloc(),
            Shape {
                q: 2,
                m: 2,
                s: 3,
                t: 0
            },
            &["A", "B", "C"],
            "rules C=0\nproc factex;",
            &[1, 2, 0]
        )
    );
    Ok(())
}

#[test]
fn both_forms_of_listings_are_read(rt: HostRuntime) -> Result<(), Fail> {
    assert!(rt;
        gives(
            &rt,
            rt.alloc(),
            Shape {
                q: 2,
                m: 3,
                s: 5,
                t: 0
            },
            &["Pressure", "Temp", "Speed", "Feed", "Time"],
            "rules\n  Feed = Pressure*Temp*Speed\n  X5 = X1*X2\nproc factex;",
            &[1, 2, 4, 7, 3]
        )
    );
    assert!(rt;
        gives(
            &rt,
            rt.alloc(),
            Shape {
                q: 2,
                m: 3,
                s: 2,
                t: 1
            },
            &["A", "B"],
            "rules\n  [1] = run factor 3\nproc factex;",
            &[1, 2, 4]
        )
    );
    assert!(rt;
        gives(
            &rt,
            rt.alloc(),
            Shape {
                q: 2,
                m: 4,
                s: 3,
                t: 0
            },
            &["A", "B", "C"],
            "rules none\nproc factex;",
            &[1, 2, 4]
        )
    );
    Ok(())
}

#[test]
fn own_words_of_a_listing_come_first(rt: HostRuntime) -> Result<(), Fail> {
    assert!(rt;
        gives(
            &rt,
            rt.alloc(),
            Shape {
                q: 2,
                m: 3,
                s: 3,
                t: 0
            },
            &["none", "run", "A"],
            "rules none\nproc factex;",
            &[1, 2, 4]
        )
    );
    assert!(rt;
        gives(
            &rt,
            rt.alloc(),
            Shape {
                q: 2,
                m: 2,
                s: 3,
                t: 0
            },
            &["none", "run", "A"],
            "rules A=none*run\nproc factex;",
            &[1, 2, 3]
        )
    );
    assert!(rt;
        gives(
            &rt,
            rt.alloc(),
            Shape {
                q: 2,
                m: 3,
                s: 2,
                t: 1
            },
            &["run", "A"],
            "rules [1]=run factor 3\nproc factex;",
            &[1, 2, 4]
        )
    );
    assert!(rt;
        gives(
            &rt,
            rt.alloc(),
            Shape {
                q: 2,
                m: 2,
                s: 2,
                t: 1
            },
            &["run", "A"],
            "rules [1]=X1*A\nproc factex;",
            &[1, 2, 3]
        )
    );
    Ok(())
}

#[test]
fn problems_have_codes_and_places(rt: HostRuntime) -> Result<(), Fail> {
    assert!(rt;
        fault_in(
            &rt,
            rt.alloc(),
            Shape {
                q: 2,
                m: 3,
                s: 4,
                t: 0
            },
            &["A", "B", "C", "D"],
            "rules D=\nproc factex;"
        ) == (1, 2, 1)
    );
    assert!(rt;
        fault_in(
            &rt,
            rt.alloc(),
            Shape {
                q: 2,
                m: 3,
                s: 4,
                t: 0
            },
            &["A", "B", "C", "D"],
            "rules D=A*Q\nproc factex;"
        ) == (2, 1, 11)
    );
    assert!(rt;
        fault_in(
            &rt,
            rt.alloc(),
            Shape {
                q: 2,
                m: 4,
                s: 5,
                t: 0
            },
            &["A", "B", "C", "D", "E"],
            "rules E=A*B D=A*C\nproc factex;"
        ) == (3, 1, 13)
    );
    assert!(rt;
        fault_in(
            &rt,
            rt.alloc(),
            Shape {
                q: 2,
                m: 3,
                s: 4,
                t: 0
            },
            &["A", "B", "C", "D"],
            "rules D=A*B D=A*C\nproc factex;"
        ) == (3, 1, 13)
    );
    Ok(())
}

#[test]
fn problems_of_products_have_codes_and_places(rt: HostRuntime) -> Result<(), Fail> {
    assert!(rt;
        fault_in(
            &rt,
            rt.alloc(),
            Shape {
                q: 2,
                m: 3,
                s: 5,
                t: 0
            },
            &["A", "B", "C", "D", "E"],
            "rules D=A*B E=A*D\nproc factex;"
        ) == (4, 1, 17)
    );
    assert!(rt;
        fault_in(
            &rt,
            rt.alloc(),
            Shape {
                q: 2,
                m: 2,
                s: 3,
                t: 0
            },
            &["A", "B", "C"],
            "rules A=B*C\nproc factex;"
        ) == (4, 1, 9)
    );
    assert!(rt;
        fault_in(
            &rt,
            rt.alloc(),
            Shape {
                q: 2,
                m: 3,
                s: 4,
                t: 0
            },
            &["A", "B", "C", "D"],
            "rules D=A*A\nproc factex;"
        ) == (5, 1, 11)
    );
    assert!(rt;
        fault_in(
            &rt,
            rt.alloc(),
            Shape {
                q: 2,
                m: 2,
                s: 3,
                t: 0
            },
            &["A", "B", "C"],
            "rules C=A*B^2\nproc factex;"
        ) == (6, 1, 13)
    );
    Ok(())
}

#[test]
fn problems_of_run_indexes_have_codes_and_places(rt: HostRuntime) -> Result<(), Fail> {
    assert!(rt;
        fault_in(
            &rt,
            rt.alloc(),
            Shape {
                q: 2,
                m: 2,
                s: 4,
                t: 0
            },
            &["A", "B", "C", "D"],
            "rules D=A*B\nproc factex;"
        ) == (7, 1, 7)
    );
    assert!(rt;
        fault_in(
            &rt,
            rt.alloc(),
            Shape {
                q: 2,
                m: 2,
                s: 3,
                t: 0
            },
            &["A", "B", "C"],
            "rules\nproc factex;"
        ) == (7, 2, 1)
    );
    assert!(rt;
        fault_in(
            &rt,
            rt.alloc(),
            Shape {
                q: 2,
                m: 3,
                s: 2,
                t: 1
            },
            &["A", "B"],
            "rules [1] = run factor 4\nproc factex;"
        ) == (8, 1, 24)
    );
    assert!(rt;
        fault_in(
            &rt,
            rt.alloc(),
            Shape {
                q: 2,
                m: 2,
                s: 2,
                t: 1
            },
            &["A", "B"],
            "rules [1] = run factor 3\nproc factex;"
        ) == (8, 1, 24)
    );
    Ok(())
}

#[test]
fn parts_of_two_steps_are_found(rt: HostRuntime) -> Result<(), Fail> {
    let alloc = rt.alloc();
    let text = b"rules C=A*B\n proc = A\nproc factex;\nrules none\nPROC factex;\n".as_slice();
    let parts = parts_of(alloc, text).expect(&rt, "memory");
    assert!(rt; parts.len() == 2);
    let first = parts.get(0);
    assert!(rt; first.at == 0 && first.end == 22 && first.step == 22);
    let second = parts.get(1);
    assert!(rt; second.at == 35 && second.end == 46 && second.step == 46);
    let expected = b"           \n         \nproc factex;\n          \nPROC factex;\n".as_slice();
    let rest = blanked(alloc, text, parts.as_slice()).expect(&rt, "memory");
    assert!(rt; rest.as_slice() == expected);
    Ok(())
}
