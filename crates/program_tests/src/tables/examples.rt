// The examples in the descriptions of the libraries of a table, at the top of each `lib.rt`.
use crate::runs::NAME;
use dcm_base::{Coding, Dictionary, MemIn, MemOut, Syntax, Tag, Watched};
use dcm_names::{ListReader, NextName, OpenLine, can_be_opened, shown_name};
use dcm_stream::Machine;
use dcm_table::{Cells, Column, Columns, RowEnd, TextForm, put_row, row_end};
use dcm_table_words::{Name, TableUsage, table_plan};
use std::test::Fail;

const PATIENT_NAME: Tag = Tag {
    group: 0x0010,
    element: 0x0010,
};

#[test]
fn lines_of_a_list(rt: HostRuntime) {
    let mut line = OpenLine::new();
    assert!(rt; line.take(b"a.dcm\nb.dcm") == Some(6) && line.name() == b"a.dcm".as_slice());
    line.clear();
    assert!(rt; !line.has_bytes() && line.take(b"b.dcm") == None);
    assert!(rt; line.name() == b"b.dcm".as_slice() && line.is_openable());
}

#[test]
fn names_of_a_list(rt: HostRuntime) {
    let mut input = Watched::new(MemIn::new(b"a\n\nb", 2));
    let mut names = ListReader::new();
    assert!(rt; names.next(&mut input) == NextName::Name && names.name() == b"a".as_slice());
    assert!(rt; names.next(&mut input) == NextName::Name && names.name() == b"b".as_slice());
    assert!(rt; names.is_openable() && names.next(&mut input) == NextName::End);
    assert!(rt; names.next(&mut input) == NextName::End);
}

#[test]
fn names(rt: HostRuntime) {
    assert!(rt; can_be_opened(b"a") && !can_be_opened(b"a\0"));
    assert!(rt; shown_name(b"a\n\\\x7f~").as_slice() == b"a\\0a\\5c\\7f~".as_slice());
}

#[test]
fn words(rt: HostRuntime) -> Result<(), Fail> {
    let words: [&[u8]; 4] = [b"dcm2csv", b"-k", b"PatientID", b"a.dcm"];
    let Ok(plan) = table_plan(&words) else {
        return Err("refused".into());
    };
    assert!(rt; plan.columns.len() == 1 && plan.has_header);
    assert!(rt; matches!(plan.names.after(0), Some((Name::File(_), 3))));
    Ok(())
}

#[test]
fn refused_words(rt: HostRuntime) -> Result<(), Fail> {
    let words: [&[u8]; 2] = [b"dcm2csv", b"a.dcm"];
    let Err(usage) = table_plan(&words) else {
        return Err("not refused".into());
    };
    assert!(rt; matches!(usage, TableUsage::NumberOfColumns));
    assert!(rt; usage.number() == "V8" && usage.text() == "not 1 to 64 columns");
    Ok(())
}

#[test]
fn columns(rt: HostRuntime) {
    let mut columns = Columns::new();
    columns.push(Column::of_number(PATIENT_NAME, *b"(0010,0010)"));
    columns.push(Column::of_number(
        Tag {
            group: 9,
            element: 0x10AB,
        },
        *b"(0009,10aB)",
    ));
    assert!(rt; columns.len() == 2 && columns.greatest() == PATIENT_NAME);
    let [first, second] = columns.as_slice() else {
        panic!(rt; "not two columns");
    };
    assert!(rt; *first == Column::of_keyword(PATIENT_NAME));
    assert!(rt; first.header() == b"PatientName".as_slice());
    assert!(rt; second.header() == b"(0009,10aB)".as_slice());
}

/// An output that has room for 300 bytes.
fn output(rt: HostRuntime) -> Result<Watched<MemOut>, Fail> {
    let mut room = Vec::new(rt.alloc());
    room.extend_from_slice(&[0; 300])?;
    Ok(Watched::new(MemOut::new(room)))
}

const EXPLICIT_LITTLE: Coding = Coding {
    syntax: Syntax::LITTLE,
    encapsulated: false,
};

#[test]
fn row_of_a_file(rt: HostRuntime) -> Result<(), Fail> {
    let mut columns = Columns::new();
    columns.push(Column::of_keyword(PATIENT_NAME));
    let mut cells = Cells::new(rt.alloc(), &columns)?;
    let coding = EXPLICIT_LITTLE.read_by(Dictionary::Standard);
    let mut machine = Machine::new(coding, 0);
    let fed = machine.feed(NAME, &mut cells);
    assert!(rt; fed.is_ok() && machine.finish(&mut cells).is_ok());
    assert!(rt; row_end(Ok(())) == RowEnd::Whole && cells.len() == 1);
    let mut out = output(rt)?;
    assert!(rt; put_row(TextForm::ValidUtf8, b"a", &cells, &mut out).is_ok());
    assert!(rt; out.device().written() == b"\"a\",\"AB^CD\"\n".as_slice());
    Ok(())
}
