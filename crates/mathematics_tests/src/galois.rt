use fx_galois::Field;

/// Whether the powers of `x`, from 1 up, are those of the list, after which 1 comes again.
fn has_powers(q: u8, x: u8, powers: &[u8]) -> bool {
    let Some(field) = Field::of(q) else {
        return false;
    };
    let mut power = 1;
    for expected in powers {
        if power != *expected || x >= q || power >= q {
            return false;
        }
        power = field.mul(power, x);
    }
    power == 1
}

#[test]
fn powers_are_those_of_the_reductions(rt: HostRuntime) {
    assert!(rt; has_powers(4, 2, &[1, 2, 3]));
    assert!(rt; has_powers(8, 2, &[1, 2, 4, 3, 6, 7, 5]));
    assert!(rt; has_powers(9, 3, &[1, 3, 7, 8, 2, 6, 5, 4]));
    assert!(rt; has_powers(7, 3, &[1, 3, 2, 6, 4, 5]));
}

#[test]
fn sums_of_the_field_of_nine_go_digit_by_digit(rt: HostRuntime) {
    let has_sums = match Field::of(9) {
        None => false,
        Some(nine) => nine.add(8, 8) == 4 && nine.neg(5) == 7 && nine.inv(3) == 4,
    };
    assert!(rt; has_sums);
}

#[test]
fn six_and_ten_have_no_field(rt: HostRuntime) {
    assert!(rt; Field::of(6).is_none());
    assert!(rt; Field::of(10).is_none());
}
