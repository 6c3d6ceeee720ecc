ghost use Rattle.fx_table_book.specs.Tables.{IsBase};

use fx_table_book::Base;
use fx_table_rules::rule_matrix;

// The rules, and that they have the words of the rows, were computed apart from this program, in Python.

/// Whether the rule matrix of these rows has these others.
fn has_rules(base: Base, rows: &[u16], rules: &[u16]) -> bool
    requires { IsBase base }
{
    match rule_matrix(base, rows) {
        None => false,
        Some(matrix) => {
            if matrix.len() != rules.len() {
                return false;
            }
            for i in 0..matrix.len() {
                if matrix.row(i) != rules[i] {
                    return false;
                }
            }
            true
        }
    }
}

/// Six factors of 16 runs in four blocks: X5=X2*X3*X4 X6=X1*X3*X4 [1]=X3*X4 [2]=X1*X2*X4.
#[test]
fn rules_in_blocks(rt: HostRuntime) {
    let base = Base {
        q: 2,
        m: 4,
        h: 2,
        w: 0,
        n: 6,
    };
    let rows = [4, 8, 15, 14, 9, 5];
    assert!(rt; has_rules(base, &rows, &[1, 2, 4, 8, 14, 13, 12, 11]));
}

/// Two and three factors inside four whole plots of 16 runs: the rows are the rules.
#[test]
fn rules_in_whole_plots(rt: HostRuntime) {
    let base = Base {
        q: 2,
        m: 4,
        h: 2,
        w: 2,
        n: 4,
    };
    let rows = [1, 2, 4, 8, 14, 13];
    assert!(rt; has_rules(base, &rows, &rows));
    let more = Base { w: 3, n: 3, ..base };
    let rows = [1, 2, 3, 4, 8, 13];
    assert!(rt; has_rules(more, &rows, &rows));
}

/// Four factors with three levels in three blocks: rows are taken as normal multiples.
#[test]
fn rules_of_three_levels(rt: HostRuntime) {
    let base = Base {
        q: 3,
        m: 3,
        h: 1,
        w: 0,
        n: 4,
    };
    let rows = [3, 9, 17, 13];
    assert!(rt; has_rules(base, &rows, &[1, 3, 9, 12, 16]));
}

/// There are none where a row is missing or too great, or where the rows do not span all.
#[test]
fn no_rules(rt: HostRuntime) {
    let base = Base {
        q: 2,
        m: 3,
        h: 1,
        w: 0,
        n: 3,
    };
    assert!(rt; rule_matrix(base, &[2, 4, 7]).is_some());
    assert!(rt; rule_matrix(base, &[2, 4]).is_none());
    assert!(rt; rule_matrix(base, &[2, 4, 8]).is_none());
    assert!(rt; rule_matrix(base, &[2, 3, 2]).is_none());
}

/// With block factors there are at most 30 factors.
#[test]
fn no_rules_of_many_factors_in_blocks(rt: HostRuntime) {
    let rows = [
        2, 4, 8, 16, 32, 63, 62, 61, 60, 59, 58, 57, 56, 55, 54, 53, 52, 51, 50, 49, 48, 47, 46,
        45, 44, 43, 42, 41, 40, 39, 38,
    ];
    let base = Base {
        q: 2,
        m: 6,
        h: 1,
        w: 0,
        n: 31,
    };
    assert!(rt; rule_matrix(base, &rows).is_none());
    let fewer = Base { n: 30, ..base };
    assert!(rt; rule_matrix(fewer, &rows[..30]).is_some());
}
