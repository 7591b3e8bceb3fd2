// Rows of tables: runs, and what is wanted of them.
use dcm_test_devices::Start;
use std::alloc::{AllocError, Global};

/// A run, and what is wanted of it.
#[derive(Clone, Copy)]
pub struct Row {
    /// What tests call it.
    pub name: &'static str,
    /// Its words, parted by one space each.
    pub words: &'static str,
    /// What its input begins with.
    pub start: Start,
    /// The rest of its input.
    pub input: &'static [u8],
    /// What its output begins with: the head of a file, or the header of a dump of that file.
    pub header: Start,
    /// The rest of its output.
    pub lines: &'static [u8],
    /// The exit status.
    pub status: u8,
    /// The lines on standard error.
    pub told: &'static [u8],
}

/// A row without bytes, whose words are run well.
pub const EMPTY: Row = Row {
    name: "",
    words: "",
    start: Start::Nothing,
    input: b"",
    header: Start::Nothing,
    lines: b"",
    status: 0,
    told: b"",
};

/// The header of a dump.
pub fn header_of(start: Start) -> &'static [u8] {
    match start {
        Start::Nothing | Start::Prefix | Start::WithoutIdentity => b"",
        Start::ExplicitLittle => EXPLICIT_LITTLE_HEADER,
        Start::Implicit => IMPLICIT_HEADER,
        Start::Big => BIG_HEADER,
        Start::Jpeg => JPEG_HEADER,
    }
}

/// The header of a dump by characters.
fn header_by_characters(start: Start) -> &'static [u8] {
    match start {
        Start::Nothing | Start::Prefix | Start::WithoutIdentity | Start::Jpeg => b"",
        Start::ExplicitLittle => EXPLICIT_LITTLE_BY_CHARACTERS,
        Start::Implicit => IMPLICIT_BY_CHARACTERS,
        Start::Big => BIG_BY_CHARACTERS,
    }
}

/// What the output of a row begins with: the header of a dump, or the head of a file.
pub fn front_of(row: &Row) -> &'static [u8] {
    if row.words.starts_with("dcmdump +u8") {
        header_by_characters(row.header)
    } else if row.words.starts_with("dcmdump") {
        header_of(row.header)
    } else if row.words.starts_with("dcmdeid") {
        row.header.without_identity()
    } else {
        row.header.bytes()
    }
}

const EXPLICIT_LITTLE_HEADER: &[u8] =
    b"# Dicom-File-Format\n\n# Dicom-Meta-Information-Header\n# Used TransferSyntax: LittleEndianExplicit\n(0002,0000) UL 28                                       #   4, 1 FileMetaInformationGroupLength\n(0002,0010) UI =LittleEndianExplicit                    #  20, 1 TransferSyntaxUID\n\n# Dicom-Data-Set\n# Used TransferSyntax: LittleEndianExplicit\n";

const IMPLICIT_HEADER: &[u8] =
    b"# Dicom-File-Format\n\n# Dicom-Meta-Information-Header\n# Used TransferSyntax: LittleEndianExplicit\n(0002,0000) UL 26                                       #   4, 1 FileMetaInformationGroupLength\n(0002,0010) UI =LittleEndianImplicit                    #  18, 1 TransferSyntaxUID\n\n# Dicom-Data-Set\n# Used TransferSyntax: LittleEndianImplicit\n";

const BIG_HEADER: &[u8] =
    b"# Dicom-File-Format\n\n# Dicom-Meta-Information-Header\n# Used TransferSyntax: LittleEndianExplicit\n(0002,0000) UL 28                                       #   4, 1 FileMetaInformationGroupLength\n(0002,0010) UI =BigEndianExplicit                       #  20, 1 TransferSyntaxUID\n\n# Dicom-Data-Set\n# Used TransferSyntax: BigEndianExplicit\n";

const JPEG_HEADER: &[u8] =
    b"# Dicom-File-Format\n\n# Dicom-Meta-Information-Header\n# Used TransferSyntax: LittleEndianExplicit\n(0002,0000) UL 30                                       #   4, 1 FileMetaInformationGroupLength\n(0002,0010) UI =JPEGBaseline                            #  22, 1 TransferSyntaxUID\n\n# Dicom-Data-Set\n# Used TransferSyntax: JPEGBaseline\n";

const EXPLICIT_LITTLE_BY_CHARACTERS: &[u8] =
    b"# Dicom-File-Format (texts in UTF-8)\n\n# Dicom-Meta-Information-Header\n# Used TransferSyntax: LittleEndianExplicit\n(0002,0000) UL 28                                       #   4, 1 FileMetaInformationGroupLength\n(0002,0010) UI =LittleEndianExplicit                    #  20, 1 TransferSyntaxUID\n\n# Dicom-Data-Set\n# Used TransferSyntax: LittleEndianExplicit\n";

const IMPLICIT_BY_CHARACTERS: &[u8] =
    b"# Dicom-File-Format (texts in UTF-8)\n\n# Dicom-Meta-Information-Header\n# Used TransferSyntax: LittleEndianExplicit\n(0002,0000) UL 26                                       #   4, 1 FileMetaInformationGroupLength\n(0002,0010) UI =LittleEndianImplicit                    #  18, 1 TransferSyntaxUID\n\n# Dicom-Data-Set\n# Used TransferSyntax: LittleEndianImplicit\n";

const BIG_BY_CHARACTERS: &[u8] =
    b"# Dicom-File-Format (texts in UTF-8)\n\n# Dicom-Meta-Information-Header\n# Used TransferSyntax: LittleEndianExplicit\n(0002,0000) UL 28                                       #   4, 1 FileMetaInformationGroupLength\n(0002,0010) UI =BigEndianExplicit                       #  20, 1 TransferSyntaxUID\n\n# Dicom-Data-Set\n# Used TransferSyntax: BigEndianExplicit\n";

/// The rows of tables.
pub fn rows_of(alloc: Global, tables: &[&'static [Row]]) -> Result<Vec<Row>, AllocError> {
    let mut rows = Vec::new(alloc);
    for table in tables {
        rows.extend_from_slice(table)?;
    }
    Ok(rows)
}
