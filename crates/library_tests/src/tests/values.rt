use dcm_base::Vr;
use dcm_value::{read_value, unescape};

/// Whether the text stands for these bytes.
fn stands_for(vr: Vr, text: &[u8], bytes: &[u8]) -> bool {
    match read_value(vr, text) {
        Ok(value) => value.as_slice() == bytes,
        Err(_) => false,
    }
}

#[test]
fn reads_texts(rt: HostRuntime) {
    assert!(rt; stands_for(Vr::PN, b"[AB^CD]", b"AB^CD"));
    assert!(rt; stands_for(Vr::LO, b"[a\\b%0A%5d%25]", b"a\\b\n]%"));
    assert!(rt; stands_for(Vr::LT, b"[]", b""));
    assert!(rt; stands_for(Vr::LT, b"(no value available)", b""));
    for text in [
        b"[AB".as_slice(),
        b"[A]B".as_slice(),
        b"[A%4]".as_slice(),
        b"[A%".as_slice(),
        b"[]]".as_slice(),
        b"AB".as_slice(),
        b"".as_slice(),
        b"=VerificationSOPClass".as_slice(),
    ] {
        assert!(rt; read_value(Vr::PN, text).is_err());
    }
}

#[test]
fn reads_identifiers(rt: HostRuntime) {
    assert!(rt; stands_for(Vr::UI, b"=LittleEndianExplicit", b"1.2.840.10008.1.2.1"));
    assert!(rt; stands_for(Vr::UI, b"[1.2]", b"1.2"));
    assert!(rt; read_value(Vr::UI, b"=Nothing").is_err());
    assert!(rt; read_value(Vr::UI, b"1.2").is_err());
}

#[test]
fn reads_numbers(rt: HostRuntime) {
    assert!(rt; stands_for(Vr::US, b"1\\512", &[1, 0, 0, 2]));
    assert!(rt; stands_for(Vr::SS, b"-1\\-32768\\-0", &[255, 255, 0, 128, 0, 0]));
    assert!(rt; stands_for(Vr::SL, b"2147483647", &[255, 255, 255, 127]));
    assert!(rt; stands_for(Vr::UV, b"18446744073709551615", &[255; 8]));
    assert!(rt; stands_for(Vr::SV, b"-9223372036854775808", &[0, 0, 0, 0, 0, 0, 0, 128]));
    assert!(rt;
        stands_for(
            Vr::AT,
            b"(0018,1063)\\(FFFE,e0dd)",
            &[0x18, 0, 0x63, 0x10, 0xFE, 0xFF, 0xDD, 0xE0]
        )
    );
    for text in [
        b"65536".as_slice(),
        b"-1".as_slice(),
        b"1\\".as_slice(),
        b"".as_slice(),
        b"000000000000000000001".as_slice(),
        b"1 ".as_slice(),
    ] {
        assert!(rt; read_value(Vr::US, text).is_err());
    }
    assert!(rt; read_value(Vr::SS, b"-32769").is_err());
    assert!(rt; read_value(Vr::SS, b"32768").is_err());
    assert!(rt; read_value(Vr::UV, b"18446744073709551616").is_err());
    assert!(rt; read_value(Vr::AT, b"(0018,106)").is_err());
    assert!(rt; read_value(Vr::SQ, b"(no value available)").is_err());
}

#[test]
fn reads_bytes(rt: HostRuntime) {
    assert!(rt; stands_for(Vr::OB, b"ff\\D8", &[255, 0xD8]));
    assert!(rt; stands_for(Vr::OW, b"0201\\0403", &[1, 2, 3, 4]));
    assert!(rt;
        stands_for(
            Vr::FD,
            b"408f400000000000",
            &[0, 0, 0, 0, 0, 0x40, 0x8F, 0x40]
        )
    );
    assert!(rt; read_value(Vr::OB, b"ff\\").is_err());
    assert!(rt; read_value(Vr::OW, b"ff").is_err());
    assert!(rt; read_value(Vr::OL, b"0000000g").is_err());
}

#[test]
fn reads_escapes(rt: HostRuntime) {
    assert!(rt; unescape(b"0a") == Some(10));
    assert!(rt; unescape(b"Ff") == Some(255));
    assert!(rt; unescape(b"g0") == None);
}
