// The dictionaries, with values of PS3.6 2022a (sections 6 to 8) and PS3.7 E.
use dcm_base::{
    Coding, Dictionary, Syntax, Tag, Vr, coding_of, element_in, keyword_in, read_as, tag_in, vr_in,
};

/// An element: its tag, its value representation and its keyword.
type Element = ((u16, u16), Vr, &'static [u8]);

/// Elements that both dictionaries have.
fn of_both() -> [Element; 8] {
    [
        ((0x0002, 0x0000), Vr::UL, b"FileMetaInformationGroupLength"),
        ((0x0002, 0x0010), Vr::UI, b"TransferSyntaxUID"),
        ((0x0008, 0x1140), Vr::SQ, b"ReferencedImageSequence"),
        ((0x0010, 0x0010), Vr::PN, b"PatientName"),
        ((0x0018, 0x9087), Vr::FD, b"DiffusionBValue"),
        ((0x0028, 0x0010), Vr::US, b"Rows"),
        ((0x0040, 0xA160), Vr::UT, b"TextValue"),
        ((0x7FE0, 0x0010), Vr::OW, b"PixelData"),
    ]
}

/// Elements that only the standard's dictionary has, its first and its last one among them, and retired ones.
fn of_standard() -> [Element; 18] {
    [
        ((0x0000, 0x0000), Vr::UL, b"CommandGroupLength"),
        ((0x0002, 0x0017), Vr::AE, b"SendingApplicationEntityTitle"),
        ((0x0004, 0x1220), Vr::SQ, b"DirectoryRecordSequence"),
        ((0x0008, 0x0001), Vr::UL, b"LengthToEnd"),
        ((0x0008, 0x0120), Vr::UR, b"URNCodeValue"),
        ((0x0010, 0x0021), Vr::LO, b"IssuerOfPatientID"),
        ((0x0018, 0x1151), Vr::IS, b"XRayTubeCurrent"),
        ((0x0018, 0x6020), Vr::SL, b"ReferencePixelX0"),
        ((0x0028, 0x0034), Vr::IS, b"PixelAspectRatio"),
        ((0x0040, 0xA30A), Vr::DS, b"NumericValue"),
        ((0x0070, 0x0022), Vr::FL, b"GraphicData"),
        ((0x0088, 0x0140), Vr::UI, b"StorageMediaFileSetUID"),
        ((0x3006, 0x0050), Vr::DS, b"ContourData"),
        ((0x300A, 0x0010), Vr::SQ, b"DoseReferenceSequence"),
        ((0x5200, 0x9229), Vr::SQ, b"SharedFunctionalGroupsSequence"),
        ((0x7FE0, 0x0008), Vr::OF, b"FloatPixelData"),
        ((0xFFFA, 0xFFFA), Vr::SQ, b"DigitalSignaturesSequence"),
        ((0xFFFC, 0xFFFC), Vr::OB, b"DataSetTrailingPadding"),
    ]
}

/// Elements of repeating groups, which no dictionary has.
fn of_none() -> [((u16, u16), &'static [u8]); 2] {
    [
        ((0x6000, 0x0010), b"OverlayRows"),
        ((0x6000, 0x3000), b"OverlayData"),
    ]
}

/// Elements that the standard leaves between two value representations: the one where pixels are not signed, and the
/// one where they are.
fn between_two() -> [((u16, u16), Vr, Vr, &'static [u8]); 15] {
    [
        ((0x0014, 0x3050), Vr::OW, Vr::OW, b"DarkCurrentCounts"),
        ((0x0018, 0x9810), Vr::UN, Vr::UN, b"ZeroVelocityPixelValue"),
        ((0x0022, 0x1452), Vr::UN, Vr::UN, b"MappedPixelValue"),
        ((0x0028, 0x0071), Vr::UN, Vr::UN, b"PerimeterValue"),
        ((0x0028, 0x0104), Vr::US, Vr::SS, b"SmallestValidPixelValue"),
        ((0x0028, 0x0106), Vr::US, Vr::SS, b"SmallestImagePixelValue"),
        ((0x0028, 0x0120), Vr::US, Vr::SS, b"PixelPaddingValue"),
        (
            (0x0028, 0x1101),
            Vr::US,
            Vr::SS,
            b"RedPaletteColorLookupTableDescriptor",
        ),
        ((0x0028, 0x1200), Vr::OW, Vr::OW, b"GrayLookupTableData"),
        ((0x0028, 0x3002), Vr::US, Vr::SS, b"LUTDescriptor"),
        ((0x0028, 0x3006), Vr::OW, Vr::OW, b"LUTData"),
        (
            (0x0040, 0x9211),
            Vr::US,
            Vr::SS,
            b"RealWorldValueLastValueMapped",
        ),
        ((0x0060, 0x3006), Vr::US, Vr::SS, b"HistogramLastBinValue"),
        ((0x5400, 0x0110), Vr::OW, Vr::OW, b"ChannelMinimumValue"),
        ((0x5400, 0x1010), Vr::OW, Vr::OW, b"WaveformData"),
    ]
}

fn tag(parts: (u16, u16)) -> Tag {
    Tag {
        group: parts.0,
        element: parts.1,
    }
}

/// Whether the dictionary has the element.
fn has(dictionary: Dictionary, element: Element) -> bool {
    let tag = tag(element.0);
    let (vr, keyword) = (element.1, element.2);
    match element_in(dictionary, tag) {
        Some(found) => {
            found.0 == vr
                && found.1 == keyword
                && vr_in(dictionary, tag) == vr
                && keyword_in(dictionary, tag) == keyword
                && tag_in(dictionary, keyword) == Some(tag)
        }
        None => false,
    }
}

/// Whether the dictionary has neither the tag nor the keyword.
fn lacks(dictionary: Dictionary, parts: (u16, u16), keyword: &[u8]) -> bool {
    element_in(dictionary, tag(parts)).is_none() && tag_in(dictionary, keyword).is_none()
}

/// What a dictionary says of a tag.
fn is_said(dictionary: Dictionary, parts: (u16, u16), vr: Vr, keyword: &[u8]) -> bool {
    let tag = tag(parts);
    vr_in(dictionary, tag) == vr && keyword_in(dictionary, tag) == keyword
}

/// What each dictionary says of a tag that is none of an element.
fn is_called(parts: (u16, u16), vr: Vr, keyword: &[u8]) -> bool {
    is_said(Dictionary::Extract, parts, vr, keyword)
        && is_said(Dictionary::Standard, parts, vr, keyword)
        && is_said(Dictionary::Signed, parts, vr, keyword)
}

#[test]
fn elements_of_both(rt: HostRuntime) {
    for element in of_both() {
        assert!(rt; has(Dictionary::Extract, element));
        assert!(rt; has(Dictionary::Standard, element));
        assert!(rt; has(Dictionary::Signed, element));
    }
}

#[test]
fn elements_of_the_standard(rt: HostRuntime) {
    for element in of_standard() {
        assert!(rt; has(Dictionary::Standard, element));
        assert!(rt; has(Dictionary::Signed, element));
        assert!(rt; lacks(Dictionary::Extract, element.0, element.2));
    }
}

#[test]
fn elements_of_none(rt: HostRuntime) {
    for element in of_none() {
        assert!(rt; lacks(Dictionary::Extract, element.0, element.1));
        assert!(rt; lacks(Dictionary::Standard, element.0, element.1));
        assert!(rt; lacks(Dictionary::Signed, element.0, element.1));
        assert!(rt; is_called(element.0, Vr::UN, b"Unknown Tag & Data"));
    }
    for keyword in [
        b"".as_slice(),
        b"Rows\n".as_slice(),
        b"rows".as_slice(),
        b"PatientNam".as_slice(),
        b"Item".as_slice(),
        b"PrivateCreator".as_slice(),
    ] {
        assert!(rt; tag_in(Dictionary::Standard, keyword).is_none());
    }
}

#[test]
fn elements_between_two(rt: HostRuntime) {
    for (tag, unsigned, signed, keyword) in between_two() {
        assert!(rt; lacks(Dictionary::Extract, tag, keyword));
        assert!(rt; lacks(Dictionary::Standard, tag, keyword));
        assert!(rt; lacks(Dictionary::Signed, tag, keyword));
        assert!(rt; is_said(Dictionary::Extract, tag, Vr::UN, b"Unknown Tag & Data"));
        assert!(rt; is_said(Dictionary::Standard, tag, unsigned, keyword));
        assert!(rt; is_said(Dictionary::Signed, tag, signed, keyword));
    }
}

#[test]
fn unknown_sequences(rt: HostRuntime) {
    let sequence = tag((0x0008, 0x1140));
    let (extract, standard) = (Dictionary::Extract, Dictionary::Standard);
    for dictionary in [standard, Dictionary::Signed] {
        for syntax in [Syntax::Little(dictionary), Syntax::Big(dictionary)] {
            assert!(rt; read_as(syntax, sequence, Vr::UN) == Vr::SQ);
            assert!(rt; read_as(syntax, sequence, Vr::OB) == Vr::OB);
            assert!(rt; read_as(syntax, tag((0x0010, 0x0020)), Vr::UN) == Vr::UN);
            assert!(rt; read_as(syntax, tag((0x0009, 0x1010)), Vr::UN) == Vr::UN);
            assert!(rt; read_as(syntax, tag((0x0018, 0x9810)), Vr::UN) == Vr::UN);
        }
        assert!(rt; read_as(Syntax::Implicit(dictionary), sequence, Vr::UN) == Vr::UN);
    }
    for syntax in [
        Syntax::Implicit(extract),
        Syntax::Little(extract),
        Syntax::Big(extract),
    ] {
        assert!(rt; read_as(syntax, sequence, Vr::UN) == Vr::UN);
    }
}

#[test]
fn tags_by_rule(rt: HostRuntime) {
    assert!(rt; is_called((0x0008, 0x0000), Vr::UL, b"GenericGroupLength"));
    assert!(rt; is_called((0x0009, 0x0000), Vr::UL, b"GenericGroupLength"));
    assert!(rt; is_called((0x0009, 0x000F), Vr::UN, b"Unknown Tag & Data"));
    assert!(rt; is_called((0x0009, 0x0010), Vr::LO, b"PrivateCreator"));
    assert!(rt; is_called((0x0009, 0x00FF), Vr::LO, b"PrivateCreator"));
    assert!(rt; is_called((0x0009, 0x0100), Vr::UN, b"Unknown Tag & Data"));
    assert!(rt; is_called((0xFFFE, 0xE000), Vr::UN, b"Item"));
    assert!(rt; is_called((0xFFFE, 0xE00D), Vr::UN, b"ItemDelimitationItem"));
    assert!(rt; is_called((0xFFFE, 0xE0DD), Vr::UN, b"SequenceDelimitationItem"));
    assert!(rt; is_called((0xFFFF, 0xFFFF), Vr::UN, b"Unknown Tag & Data"));
}

#[test]
fn syntaxes_read_by_a_dictionary(rt: HostRuntime) {
    let (extract, standard) = (Dictionary::Extract, Dictionary::Standard);
    for (by_extract, by_standard, is_big) in [
        (Syntax::Implicit(extract), Syntax::Implicit(standard), false),
        (Syntax::Little(extract), Syntax::Little(standard), false),
        (Syntax::Big(extract), Syntax::Big(standard), true),
    ] {
        assert!(rt; by_extract.dictionary() == extract && by_standard.dictionary() == standard);
        assert!(rt; by_extract.read_by(standard) == by_standard);
        assert!(rt; by_standard.read_by(standard) == by_standard);
        assert!(rt; by_standard.read_by(extract) == by_extract);
        assert!(rt; by_extract.is_big() == is_big && by_standard.is_big() == is_big);
        assert!(rt; by_extract != by_standard);
    }
}

#[test]
fn codings_read_by_a_dictionary(rt: HostRuntime) {
    let (extract, standard) = (Dictionary::Extract, Dictionary::Standard);
    for (uid, by_extract, by_standard, encapsulated) in [
        (
            b"1.2.840.10008.1.2".as_slice(),
            Syntax::Implicit(extract),
            Syntax::Implicit(standard),
            false,
        ),
        (
            b"1.2.840.10008.1.2.2".as_slice(),
            Syntax::Big(extract),
            Syntax::Big(standard),
            false,
        ),
        (
            b"1.2.840.10008.1.2.4.50".as_slice(),
            Syntax::Little(extract),
            Syntax::Little(standard),
            true,
        ),
    ] {
        let named = Coding {
            syntax: by_extract,
            encapsulated,
        };
        let read = Coding {
            syntax: by_standard,
            encapsulated,
        };
        assert!(rt; coding_of(uid) == Ok(named) && named.read_by(standard) == read);
    }
}
