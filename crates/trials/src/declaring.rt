use crate::answers::{number_of, told};
use schemas::declaring::Declaring;
use std::test::Fail;
use vocabulary::refusals::Place;
use vocabulary::types::{DType, Kind};

fn i64_type() -> DType {
    DType::new(Kind::I64, false)
}

#[test]
fn a_column_is_found_at_its_place(rt: HostRuntime) -> Result<(), Fail> {
    let mut declaring = Declaring::new();
    assert!(rt; declaring.add_column(0, b"brightness", i64_type()).is_ok());
    assert!(rt;
        declaring
            .add_column(0, b"label", DType::new(Kind::Utf8, true))
            .is_ok()
    );
    let schemas = declaring.finish();
    let Ok(Some(label)) = schemas.find(0, b"label") else {
        return Err(Fail::new("label is not found"));
    };
    assert!(rt; label.place == 1);
    assert!(rt; label.dtype.is_nullable());
    assert!(rt; matches!(schemas.find(0, b"Label"), Ok(None)));
    assert!(rt; matches!(schemas.find(1, b"label"), Ok(None)));
    Ok(())
}

#[test]
fn a_schema_above_7_is_refused_before_any_other_cause(rt: HostRuntime) {
    let mut declaring = Declaring::new();
    let answer = told(declaring.add_column(8, b"", DType::new(Kind::Row(0), false)));
    assert_eq!(rt; answer, Some((3, Place::Asked(8))));
    assert_eq!(rt; number_of(declaring.finish().find(255, b"x")), Some(3));
}

#[test]
fn a_schema_takes_32_columns(rt: HostRuntime) {
    let mut declaring = Declaring::new();
    for i in 0..32u8 {
        assert!(rt; declaring.add_column(7, &[b'c', i], i64_type()).is_ok());
    }
    assert_eq!(rt;
        told(declaring.add_column(7, b"one more", i64_type())),
        Some((
            2,
            Place::SchemaColumn {
                schema: 7,
                column: 32
            }
        ))
    );
    assert!(rt; declaring.add_column(6, b"one more", i64_type()).is_ok());
}

#[test]
fn names_have_1_to_32_bytes_and_stand_once(rt: HostRuntime) {
    let mut declaring = Declaring::new();
    assert_eq!(rt;
        number_of(declaring.add_column(0, b"", i64_type())),
        Some(2)
    );
    assert_eq!(rt;
        number_of(declaring.add_column(0, &[b'n'; 32], i64_type())),
        None
    );
    assert_eq!(rt;
        number_of(declaring.add_column(0, &[b'n'; 33], i64_type())),
        Some(2)
    );
    assert_eq!(rt;
        told(declaring.add_column(0, &[b'n'; 32], i64_type())),
        Some((
            2,
            Place::SchemaColumn {
                schema: 0,
                column: 1
            }
        ))
    );
}

#[test]
fn a_column_has_a_plain_type(rt: HostRuntime) {
    let mut declaring = Declaring::new();
    let extension_15 = DType::new(Kind::Extension(15), true);
    let extension_16 = DType::new(Kind::Extension(16), true);
    let row = DType::new(Kind::Row(0), true);
    assert_eq!(rt;
        number_of(declaring.add_column(0, b"a", extension_15)),
        None
    );
    assert_eq!(rt;
        number_of(declaring.add_column(0, b"b", extension_16)),
        Some(2)
    );
    assert_eq!(rt; number_of(declaring.add_column(0, b"c", row)), Some(2));
    assert!(rt; !row.is_nullable());
}
