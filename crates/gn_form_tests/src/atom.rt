use gn_atom::{Atom, constant_in, is_atom};
use gn_kinds::SocketKind;
use gn_value::{Fx, Place, V3, Value as Constant, ValueKind};
use serde_json::Value;
use std::test::Fail;

/// Values, and whether each is the atom: of whole numbers, ids, names and truths.
static TEXTS: [(Atom, &str, bool); 21] = [
    (Atom::Format, "1", true),
    (Atom::Format, "0", false),
    (Atom::Format, "2", false),
    (Atom::Format, "-0", false),
    (Atom::Format, "1.0", false),
    (Atom::Format, r#""1""#, false),
    (Atom::Id, r#""""#, false),
    (Atom::Id, r#""a-b""#, false),
    (Atom::Id, r#""A""#, false),
    (Atom::Id, "7", false),
    (Atom::NodeKind, r#""cube""#, true),
    (Atom::NodeKind, r#""group""#, true),
    (Atom::NodeKind, r#""index_switch""#, false),
    (Atom::Truth, "false", true),
    (Atom::Truth, "0", false),
    (Atom::ColumnName, r#""Position!~""#, true),
    (Atom::ColumnName, r#""position""#, false),
    (Atom::ColumnName, r#""a b""#, false),
    (Atom::FileName, r#""ä.obj""#, true),
    (Atom::FileName, r#""a\u007f""#, false),
    (Atom::FileName, r#""""#, false),
];

/// The same of what the atom itself lists.
static LISTED: [(Atom, &str, bool); 9] = [
    (
        Atom::KindIn(&[SocketKind::Int, SocketKind::Geometry]),
        r#""geometry""#,
        true,
    ),
    (
        Atom::KindIn(&[SocketKind::Int, SocketKind::Geometry]),
        r#""vector""#,
        false,
    ),
    (Atom::KindIn(&[SocketKind::Truth]), r#""bool""#, false),
    (Atom::WordOf(&["less", "equal"]), r#""equal""#, true),
    (Atom::WordOf(&["less", "equal"]), r#""<""#, false),
    (Atom::WordOf(&[]), r#""""#, false),
    (
        Atom::PlaceIn(&[Place::Point, Place::Face]),
        r#""face""#,
        true,
    ),
    (
        Atom::PlaceIn(&[Place::Point, Place::Face]),
        r#""corner""#,
        false,
    ),
    (Atom::PlaceIn(&[Place::Point]), "0", false),
];

/// The same of constants of one kind.
static CONSTANTS: [(Atom, &str, bool); 13] = [
    (Atom::ConstantAs(ValueKind::Fixed), r#""0.5""#, true),
    (Atom::ConstantAs(ValueKind::Fixed), "0.5", false),
    (Atom::ConstantAs(ValueKind::Fixed), "1", false),
    (Atom::ConstantAs(ValueKind::Int), "2147483647", true),
    (Atom::ConstantAs(ValueKind::Int), "2147483648", false),
    (Atom::ConstantAs(ValueKind::Int), "-2147483648", true),
    (Atom::ConstantAs(ValueKind::Int), "-2147483649", false),
    (Atom::ConstantAs(ValueKind::Int), "true", false),
    (Atom::ConstantAs(ValueKind::Truth), "true", true),
    (Atom::ConstantAs(ValueKind::Truth), "0", false),
    (
        Atom::ConstantAs(ValueKind::Vector),
        r#"["1e-2",".5","-3"]"#,
        true,
    ),
    (Atom::ConstantAs(ValueKind::Vector), r#"["1","1"]"#, false),
    (
        Atom::ConstantAs(ValueKind::Vector),
        r#"["1","1","x"]"#,
        false,
    ),
];

#[test]
fn tells_atoms_from_other_values(rt: HostRuntime) -> Result<(), Fail> {
    for (atom, text, good) in TEXTS.iter().chain(&LISTED).chain(&CONSTANTS) {
        let value = Value::from_slice(rt.alloc(), text.as_bytes())?;
        assert_eq!(rt; is_atom(*atom, &value), *good, "{text}");
    }
    Ok(())
}

/// Ids and names of that many bytes.
static LENGTHS: [(Atom, usize, bool); 6] = [
    (Atom::Id, 32, true),
    (Atom::Id, 33, false),
    (Atom::ColumnName, 64, true),
    (Atom::ColumnName, 65, false),
    (Atom::FileName, 255, true),
    (Atom::FileName, 256, false),
];

#[test]
fn ids_and_names_have_a_greatest_length(rt: HostRuntime) -> Result<(), Fail> {
    let alloc = rt.alloc();
    for (atom, length, good) in LENGTHS {
        let name = "n".repeat(alloc, length)?;
        let text = format!(in alloc; "\"{name}\"")?;
        let value = Value::from_slice(alloc, text.as_bytes())?;
        assert_eq!(rt; is_atom(atom, &value), good, "{length}");
    }
    Ok(())
}

/// Values, and the constant that each is; raw numbers are 2^32 for each whole. No constant are the
/// numbers that are no whole ones of 32 bits, and the texts that are no numbers.
static VALUES: [(&str, Option<Constant>); 26] = [
    ("null", None),
    ("{}", None),
    ("true", Some(Constant::Truth(true))),
    ("false", Some(Constant::Truth(false))),
    ("0", Some(Constant::Int(0))),
    ("-7", Some(Constant::Int(-7))),
    ("2147483647", Some(Constant::Int(2_147_483_647))),
    ("2147483648", None),
    ("-2147483648", Some(Constant::Int(-2_147_483_648))),
    ("-2147483649", None),
    ("9223372036854775808", None),
    ("18446744073709551616", None),
    ("-9223372036854775809", None),
    ("-0", None),
    ("1.0", None),
    ("1e0", None),
    (r#""0.5""#, Some(Constant::Fixed(Fx(2_147_483_648)))),
    (r#""-3""#, Some(Constant::Fixed(Fx(-12_884_901_888)))),
    (r#""1e-2""#, Some(Constant::Fixed(Fx(42_949_673)))),
    (
        r#""1e99""#,
        Some(Constant::Fixed(Fx(9_223_372_036_854_775_807))),
    ),
    (r#""1e400""#, None),
    (r#""""#, None),
    (
        r#"["1","-2","0.25"]"#,
        Some(Constant::Vector(V3 {
            x: Fx(4_294_967_296),
            y: Fx(-8_589_934_592),
            z: Fx(1_073_741_824),
        })),
    ),
    (r#"["1","2","3","4"]"#, None),
    (r#"["1","2",3]"#, None),
    ("[[]]", None),
];

#[test]
fn gives_the_constants_that_values_are(rt: HostRuntime) -> Result<(), Fail> {
    for (text, wanted) in VALUES {
        let value = Value::from_slice(rt.alloc(), text.as_bytes())?;
        assert!(rt; constant_in(&value) == wanted, "{text}");
    }
    Ok(())
}
