// A number with a range, which no format of this repository reads in this way.
use sasi_fields::{FieldFault, FieldReader, ShortField};

#[test]
fn range_is_kept(rt: HostRuntime) {
    let bytes = [9, 0, 0, 0, 0, 0, 0, 1, 0, 7];
    let mut reader = FieldReader::new(&bytes);
    assert!(rt; reader.u8() == Ok(9));
    assert!(rt; reader.ranged_u64(257, 300) == Err(FieldFault::BadField { at: 1, seen: 256 }));
    assert!(rt; reader.ranged_u64(1, 256) == Ok(256));
    assert!(rt; reader.ranged_u64(0, 9) == Err(FieldFault::Short(ShortField { at: 9 })));
    assert!(rt; reader.bytes(1) == Ok([7].as_slice()));
}
