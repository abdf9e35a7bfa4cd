ghost use Rattle.std.specs.Prelude.{◌≡◌, Ok};

use gn_decimal::{NotANumber, print, read, write_number, write_whole};
use gn_value::Fx;

/// Texts and their raw numbers, worked out as whole fractions.
static NUMBERS: [(&str, i64); 33] = [
    ("1e-05", 42_950),
    ("-0.1", -429_496_730),
    ("2.5000000001", 10_737_418_240),
    ("0.00048828125", 2_097_152),
    ("0.00146484375", 6_291_456),
    ("1e99", 9_223_372_036_854_775_807),
    ("-1e99", -9_223_372_036_854_775_808),
    ("1e-99", 0),
    ("+.5", 2_147_483_648),
    ("5.", 21_474_836_480),
    ("-0.5", -2_147_483_648),
    ("1.000000", 4_294_967_296),
    ("1e+05", 429_496_729_600_000),
    ("1E2", 429_496_729_600),
    ("1e000099", 9_223_372_036_854_775_807),
    ("-.25e1", -10_737_418_240),
    ("12.345678e-3", 53_024_283),
    ("-0", 0),
    ("2147483647.9999999998", 9_223_372_036_854_775_807),
    ("2147483648", 9_223_372_036_854_775_807),
    ("-2147483648", -9_223_372_036_854_775_808),
    ("-2147483649", -9_223_372_036_854_775_808),
    ("0.0000000001", 0),
    ("0.1234567890123456789", 530_242_871),
    ("123456789.123456789123456789", 530_242_871_754_415_416),
    ("98765432109876543.21e-8", 4_241_943_008_872_280_317),
    ("9999999999999999999e-19", 4_294_967_296),
    ("12345678901234567890123456789012345e-34", 5_302_428_713),
    (
        "1000000000000000000000000000000000000000e-39",
        4_294_967_296,
    ),
    ("00000000000000000000000000001.5", 6_442_450_944),
    ("0.00000000000000000099e18", 4_252_017_623),
    ("0.0000000000000000009999", 0),
    // Half a part of 2^-32 above one of them: the digits behind the eighteenth place don't count.
    ("0.000000000349245965480804443359375", 1),
];

static NO_NUMBERS: [&str; 20] = [
    "", ".", "-", "+.", "e5", ".e5", "1e", "1e+", "1e100", "1e-100", "1e5.0", "1.2.3", "--1", "1-",
    " 1", "1 ", "0x10", "1_000", "inf", "1,5",
];

/// Raw numbers and their texts.
static TEXTS: [(i64, &str); 14] = [
    (42_950, "0.0000100001"),
    (-429_496_730, "-0.1000000001"),
    (10_737_418_240, "2.5"),
    (2_097_152, "0.0004882812"),
    (6_291_456, "0.0014648438"),
    (-2_097_152, "-0.0004882812"),
    (0, "0"),
    (1, "0.0000000002"),
    (-1, "-0.0000000002"),
    (4_294_967_295, "0.9999999998"),
    (42_949_672_960, "10"),
    (-1_073_741_824, "-0.25"),
    (9_223_372_036_854_775_807, "2147483647.9999999998"),
    (-9_223_372_036_854_775_808, "-2147483648"),
];

/// Reads what is printed, which gives the number back for each number there is.
fn read_back(value: Fx) -> Result<Fx, NotANumber>
    ensures { result ≡ Ok value }
{
    let mut text = [0; 24];
    let len = print(value, &mut text);
    read(&text[..len])
}

#[test]
fn reads_numbers(rt: HostRuntime) {
    for (text, raw) in NUMBERS {
        assert_eq!(rt; read(text.as_bytes()), Ok(Fx(raw)), "{text}");
    }
}

#[test]
fn refuses_other_texts(rt: HostRuntime) {
    for text in NO_NUMBERS {
        assert_eq!(rt; read(text.as_bytes()), Err(NotANumber), "{text}");
    }
}

#[test]
fn reads_a_text_of_thousands_of_digits(rt: HostRuntime) {
    let mut thirds = [b'3'; 4000];
    thirds[0] = b'1';
    thirds[1] = b'.';
    assert_eq!(rt; read(&thirds), Ok(Fx(5_726_623_061)));
    let mut zeros = [b'0'; 4000];
    zeros[3997] = b'2';
    zeros[3998] = b'.';
    zeros[3999] = b'5';
    assert_eq!(rt; read(&zeros), Ok(Fx(10_737_418_240)));
}

#[test]
fn prints_numbers(rt: HostRuntime) {
    for (raw, text) in TEXTS {
        let mut into = [0; 24];
        let len = print(Fx(raw), &mut into);
        assert_eq!(rt; &into[..len], text.as_bytes(), "{raw}");
        assert_eq!(rt; read_back(Fx(raw)), Ok(Fx(raw)), "{raw}");
    }
}

#[test]
fn writes_behind_what_stands_there(rt: HostRuntime) {
    let mut into = *b"v .......................................";
    let number = write_number(Fx(-429_496_730), &mut into, 2);
    into[number] = b' ';
    let end = write_whole(1_000_907, &mut into, number + 1);
    assert_eq!(rt; &into[..end], b"v -0.1000000001 1000907".as_slice());
}
