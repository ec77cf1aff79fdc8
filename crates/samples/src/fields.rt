//! Published and hand-worked values of the two fields.
use field::Field;
use field256::Field256;
use field257::Field257;

/// The sum and the products of 0x57 are those that FIPS 197 works out.
#[test]
fn field_256_matches_fips_197(rt: HostRuntime) {
    assert_eq!(rt; Field256::sum(0x57, 0x83), 0xd4);
    assert_eq!(rt; Field256::difference(0xd4, 0x83), 0x57);
    assert_eq!(rt; Field256::product(0x57, 0x83), 0xc1);
    assert_eq!(rt; Field256::product(0x57, 0x13), 0xfe);
    assert_eq!(rt; Field256::inverse(5), 0x52);
    assert_eq!(rt; Field256::product(5, 0x52), 1);
}

/// The code 256 stands for -1, so it is a square root of 1 and its own inverse.
#[test]
fn field_257_divides_by_257(rt: HostRuntime) {
    assert_eq!(rt; Field257::sum(256, 1), 0);
    assert_eq!(rt; Field257::difference(0, 1), 256);
    assert_eq!(rt; Field257::product(256, 256), 1);
    assert_eq!(rt; Field257::inverse(2), 129);
    assert_eq!(rt; Field257::inverse(256), 256);
}

/// The code 0 has no inverse, and 0 stands for that too.
#[test]
fn zero_has_no_inverse(rt: HostRuntime) {
    assert_eq!(rt; Field256::product(0, 0x57), 0);
    assert_eq!(rt; Field256::inverse(0), 0);
    assert_eq!(rt; Field257::product(0, 256), 0);
    assert_eq!(rt; Field257::inverse(0), 0);
}

#[test]
fn field_256_answers_0_beyond_its_codes(rt: HostRuntime) {
    assert_eq!(rt; Field256::sum(256, 1), 0);
    assert_eq!(rt; Field256::difference(1, 256), 0);
    assert_eq!(rt; Field256::product(256, 1), 0);
    assert_eq!(rt; Field256::inverse(256), 0);
}

#[test]
fn field_257_answers_0_beyond_its_codes(rt: HostRuntime) {
    assert_eq!(rt; Field257::sum(257, 1), 0);
    assert_eq!(rt; Field257::difference(1, 257), 0);
    assert_eq!(rt; Field257::product(1, u16::MAX), 0);
    assert_eq!(rt; Field257::inverse(257), 0);
}

#[test]
fn sizes_and_widths(rt: HostRuntime) {
    assert_eq!(rt; Field256::SIZE, 256);
    assert_eq!(rt; Field256::WIDTH, 1);
    assert_eq!(rt; Field257::SIZE, 257);
    assert_eq!(rt; Field257::WIDTH, 2);
}
