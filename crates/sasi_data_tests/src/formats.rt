// Fixed bytes that a format expects.
use sasi_fields::FieldReader;
use sasi_formats::{FormatFault, broken_at, expect};
use sasi_host::FormatRule;

#[test]
fn wanted_text_is_read(rt: HostRuntime) {
    let mut reader = FieldReader::new(b"SFSES");
    assert!(rt; expect(&mut reader, FormatRule::Magic, b"SF").is_ok());
    let other = FormatFault::Broken(broken_at(FormatRule::Magic, 2, b"SE"));
    assert!(rt; expect(&mut reader, FormatRule::Magic, b"SF") == Err(other));
}

#[test]
fn text_that_ends_too_early_is_short(rt: HostRuntime) {
    let mut reader = FieldReader::new(b"S");
    assert!(rt; expect(&mut reader, FormatRule::Magic, b"SF") == Err(FormatFault::Short));
}
