use super::{holds, words_of};
use dcm_base::{Dictionary, EditRefusal, Tag, Vr};
use dcm_edits::{Action, Edit, EditFault, Edits, Index, settings_of};
use std::test::Fail;

/// The edits that the words of a line mean by a dictionary, or the refusal.
fn parsed_in(
    rt: HostRuntime,
    dictionary: Dictionary,
    line: &'static str,
) -> Result<Result<Edits, EditFault>, Fail> {
    let words = words_of(rt, line)?;
    match Edits::parse_in(rt.alloc(), dictionary, words.as_slice()) {
        Err(EditFault::Memory) => Err(Fail::new("out of memory")),
        answer => Ok(answer),
    }
}

/// The same by the extract.
fn parsed(rt: HostRuntime, line: &'static str) -> Result<Result<Edits, EditFault>, Fail> {
    parsed_in(rt, Dictionary::Extract, line)
}

#[test]
fn takes_edits_of_the_standard(rt: HostRuntime) -> Result<(), Fail> {
    for (line, count) in [
        ("-m XRayTubeCurrent=90", 1),
        ("-ea (0018,1151) -ep", 2),
        ("+dict -m XRayTubeCurrent=90 -dict -ep +dict", 2),
        ("-dict", 0),
        ("-i DoseReferenceSequence[0].DoseReferenceNumber=1", 1),
        ("-m GraphicData=3f800000\\00000000", 1),
        ("-m PatientName=A", 1),
    ] {
        match parsed_in(rt, Dictionary::Standard, line)? {
            Ok(edits) => holds(&rt, line, edits.len() == count),
            Err(_) => holds(&rt, line, false),
        }
    }
    Ok(())
}

#[test]
fn refuses_edits_of_the_standard(rt: HostRuntime) -> Result<(), Fail> {
    for (dictionary, line, refusal, number) in [
        (
            Dictionary::Extract,
            "-m XRayTubeCurrent=90",
            EditRefusal::UnknownTag,
            1,
        ),
        (
            Dictionary::Extract,
            "+dict -ep -m (0018,1151)=90",
            EditRefusal::UnknownTag,
            2,
        ),
        (
            Dictionary::Standard,
            "-e PixelPaddingValue",
            EditRefusal::UnknownTag,
            1,
        ),
        (
            Dictionary::Standard,
            "-e OverlayRows",
            EditRefusal::UnknownTag,
            1,
        ),
        (
            Dictionary::Standard,
            "-e (0009,0010)",
            EditRefusal::UnknownTag,
            1,
        ),
        (
            Dictionary::Standard,
            "-ep -e +dict",
            EditRefusal::UnknownTag,
            2,
        ),
        (Dictionary::Standard, "-dict -m", EditRefusal::BadOption, 1),
        (
            Dictionary::Standard,
            "-m DoseReferenceSequence=1",
            EditRefusal::SequenceMisused,
            1,
        ),
        (
            Dictionary::Standard,
            "-e XRayTubeCurrent[0]",
            EditRefusal::SequenceMisused,
            1,
        ),
        (
            Dictionary::Standard,
            "-m GraphicData=1.5",
            EditRefusal::ValueDoesNotFit,
            1,
        ),
        (
            Dictionary::Standard,
            "-i SendingApplicationEntityTitle=A",
            EditRefusal::MetaGroup,
            1,
        ),
        (
            Dictionary::Standard,
            "-ma XRayTubeCurrent=1 +dict -ea (0018,1151)",
            EditRefusal::Overlap,
            2,
        ),
    ] {
        match parsed_in(rt, dictionary, line)? {
            Ok(_) => holds(&rt, line, false),
            Err(fault) => holds(&rt, line, fault == EditFault::Refused(refusal, number)),
        }
    }
    Ok(())
}

#[test]
fn names_a_dictionary(rt: HostRuntime) -> Result<(), Fail> {
    for (line, dictionary) in [
        ("-ep", Dictionary::Extract),
        ("+dict", Dictionary::Standard),
        ("-dict", Dictionary::Extract),
        ("-m PatientName=A +dict", Dictionary::Standard),
        ("+dict -ep -dict", Dictionary::Extract),
        ("-dict -ep +dict -e Rows", Dictionary::Standard),
        ("-e +dict", Dictionary::Extract),
        ("+dict -m -dict", Dictionary::Standard),
        ("-e -e +dict", Dictionary::Standard),
    ] {
        let words = words_of(rt, line)?;
        holds(
            &rt,
            line,
            settings_of(words.as_slice()).dictionary == dictionary,
        );
    }
    Ok(())
}

#[test]
fn overwrites_where_that_is_said(rt: HostRuntime) -> Result<(), Fail> {
    for (line, overwrites) in [
        ("-ep", false),
        ("+ow", true),
        ("+ow +ow", true),
        ("-ep +ow -dict", true),
        ("-e +ow", false),
        ("-e Rows +ow", true),
    ] {
        let words = words_of(rt, line)?;
        holds(
            &rt,
            line,
            settings_of(words.as_slice()).overwrites == overwrites,
        );
    }
    Ok(())
}

#[test]
fn takes_edits(rt: HostRuntime) -> Result<(), Fail> {
    for (line, count) in [
        ("-e ReferencedImageSequence[0]", 1),
        ("-e StudyDate -i AccessionNumber=X", 2),
        ("-i (0010,0020)=7 -m PatientName=Q", 2),
        ("-m PatientID=7", 1),
        (
            "-i ReferencedImageSequence[0].ReferencedSOPInstanceUID=1.2",
            1,
        ),
        ("-ep -ma PatientName=A=B -ea PatientID -ep", 4),
        ("-m PatientName", 1),
    ] {
        match parsed(rt, line)? {
            Ok(edits) => holds(&rt, line, edits.len() == count),
            Err(_) => holds(&rt, line, false),
        }
    }
    Ok(())
}

#[test]
fn refuses_edits(rt: HostRuntime) -> Result<(), Fail> {
    for (line, refusal, number) in [
        ("-m PatientID=7 -m PatientID=7", EditRefusal::Overlap, 2),
        ("-i Rows=70000", EditRefusal::ValueDoesNotFit, 1),
        ("-e Rows -e Rows[0]", EditRefusal::SequenceMisused, 2),
        (
            "-e ReferencedImageSequence[0] -e ReferencedImageSequence[1]",
            EditRefusal::Overlap,
            2,
        ),
        ("-i (0002,0010)=1", EditRefusal::MetaGroup, 1),
        ("-m (0009,0010)=A", EditRefusal::UnknownTag, 1),
        ("-m PatientName[0]=A", EditRefusal::BadOption, 1),
        (
            "-e ReferencedImageSequence[0000000000]",
            EditRefusal::BadOption,
            1,
        ),
        ("-ep -e", EditRefusal::BadOption, 2),
    ] {
        match parsed(rt, line)? {
            Ok(_) => holds(&rt, line, false),
            Err(fault) => holds(&rt, line, fault == EditFault::Refused(refusal, number)),
        }
    }
    Ok(())
}

/// Whether an edit inserts this element into an item.
fn inserts(edit: &Edit, number: u32, tag: Tag, vr: Vr, value: &[u8]) -> bool {
    match edit {
        Edit::OnPath(path) => match (path.steps.as_slice(), &path.action) {
            ([step], Action::Insert(element)) => {
                step.index == Index::Number(number)
                    && element.tag == tag
                    && element.vr == vr
                    && element.value.as_slice() == value
            }
            _ => false,
        },
        _ => false,
    }
}

#[test]
fn keeps_paths_and_values(rt: HostRuntime) -> Result<(), Fail> {
    let line = "-i ReferencedImageSequence[12].ReferencedSOPInstanceUID=1.2";
    let tag = Tag {
        group: 0x0008,
        element: 0x1155,
    };
    match parsed(rt, line)? {
        Ok(edits) => match edits.list() {
            [edit] => holds(&rt, line, inserts(edit, 12, tag, Vr::UI, b"1.2")),
            _ => holds(&rt, line, false),
        },
        Err(_) => holds(&rt, line, false),
    }
    Ok(())
}

#[test]
fn keeps_representations_of_the_standard(rt: HostRuntime) -> Result<(), Fail> {
    let line = "-i DoseReferenceSequence[3].DoseReferenceNumber=1";
    let tag = Tag {
        group: 0x300A,
        element: 0x0012,
    };
    match parsed_in(rt, Dictionary::Standard, line)? {
        Ok(edits) => match edits.list() {
            [edit] => holds(&rt, line, inserts(edit, 3, tag, Vr::IS, b"1")),
            _ => holds(&rt, line, false),
        },
        Err(_) => holds(&rt, line, false),
    }
    Ok(())
}
