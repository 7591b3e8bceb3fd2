use super::{holds, words_of};
use dcm_base::{Dictionary, EditRefusal, Mode, Syntax, WordFault};
use dcm_words::{Convert, Dump, Job, Modify, Planned, Texts, Usage, plan};
use std::test::Fail;

/// How many edits the words of a line mean from one path to another, or the refusal.
fn edits_of(rt: HostRuntime, line: &'static str) -> Result<Result<usize, Usage>, Fail> {
    let words = words_of(rt, line)?;
    match plan(rt.alloc(), words.as_slice()) {
        Ok(
            Planned {
                job: Job::Modify(Modify { edits, .. }),
                ..
            },
        ) => Ok(Ok(edits.len())),
        Ok(_) => Err(Fail::new("another job")),
        Err(Usage::Memory) => Err(Fail::new("out of memory")),
        Err(usage) => Ok(Err(usage)),
    }
}

#[test]
fn plans_edits(rt: HostRuntime) -> Result<(), Fail> {
    for (line, expected) in [
        ("dcmodify -i (0010,0020)=7 -m PatientName=Q - out", Ok(2)),
        ("dcmodify in out", Ok(0)),
        (
            "dcmodify -x in in",
            Err(Usage::InEdit(EditRefusal::BadOption, 1)),
        ),
        (
            "dcmodify -x -e +x",
            Err(Usage::Whole(WordFault::WrongPaths)),
        ),
        ("dcmodify -ep in in", Err(Usage::Whole(WordFault::SamePath))),
    ] {
        let planned = edits_of(rt, line)?;
        holds(&rt, line, planned == expected);
    }
    Ok(())
}

/// What the words of a line mean, but for paths and edits: the dictionary, the syntax, and how much of long values is
/// shown.
#[derive(Clone, Copy, Debug, PartialEq, Eq)]
struct Said {
    dictionary: Dictionary,
    syntax: Option<Syntax>,
    mode: Option<Mode>,
    texts: Option<Texts>,
}

fn said_of(rt: HostRuntime, line: &'static str) -> Result<Result<Said, Usage>, Fail> {
    let words = words_of(rt, line)?;
    let planned = match plan(rt.alloc(), words.as_slice()) {
        Ok(planned) => planned,
        Err(Usage::Memory) => return Err(Fail::new("out of memory")),
        Err(usage) => return Ok(Err(usage)),
    };
    match planned.job {
        Job::Dump(
            Dump {
                dictionary,
                mode,
                texts,
                bare,
                ..
            },
        ) => Ok(Ok(Said {
            dictionary,
            syntax: bare,
            mode: Some(mode),
            texts: Some(texts),
        })),
        Job::Convert(Convert { dictionary, target }) => Ok(Ok(Said {
            dictionary,
            syntax: target,
            mode: None,
            texts: None,
        })),
        Job::Modify(Modify { dictionary, .. }) => Ok(Ok(Said {
            dictionary,
            syntax: None,
            mode: None,
            texts: None,
        })),
        Job::Build(_) | Job::Deidentify(_) => Err(Fail::new("another job")),
    }
}

/// The dictionary that the words of a line name.
fn dictionary_of(rt: HostRuntime, line: &'static str) -> Result<Result<Dictionary, Usage>, Fail> {
    Ok(said_of(rt, line)?.map(|said| said.dictionary))
}

#[test]
fn plans_texts(rt: HostRuntime) -> Result<(), Fail> {
    for (line, texts) in [
        ("dcmdump -", Texts::Bytes),
        ("dcmdump +u8 -", Texts::Characters),
        ("dcmdump +L - +u8", Texts::Characters),
        ("dcmdump +u8 -f -te +u8 -", Texts::Characters),
    ] {
        match said_of(rt, line)? {
            Ok(said) => assert!(rt; said.texts == Some(texts)),
            Err(_) => assert!(rt; false),
        }
    }
    Ok(())
}

#[test]
fn plans_dictionaries(rt: HostRuntime) -> Result<(), Fail> {
    for (line, dictionary) in [
        ("dcmdump -", Dictionary::Extract),
        ("dcmdump -dict -", Dictionary::Extract),
        ("dcmdump +dict -", Dictionary::Standard),
        ("dcmdump - +dict", Dictionary::Standard),
        ("dcmdump +dict - -dict", Dictionary::Extract),
        ("dcmdump -dict +L - +dict", Dictionary::Standard),
        ("dcmdump -f +dict -ti -", Dictionary::Standard),
        ("dcmconv +te - -", Dictionary::Extract),
        ("dcmconv +dict +te - -", Dictionary::Standard),
        ("dcmconv - +te - +dict", Dictionary::Standard),
        ("dcmconv +dict -dict - -", Dictionary::Extract),
        ("dcmodify - -", Dictionary::Extract),
        ("dcmodify +dict - -", Dictionary::Standard),
        ("dcmodify -ep +dict - -", Dictionary::Standard),
        ("dcmodify +dict -ep -dict - -", Dictionary::Extract),
        ("dcmodify -dict -ep +dict -e Rows - -", Dictionary::Standard),
        (
            "dcmodify -m XRayTubeCurrent=1 +dict - -",
            Dictionary::Standard,
        ),
    ] {
        let planned = dictionary_of(rt, line)?;
        holds(&rt, line, planned == Ok(dictionary));
    }
    Ok(())
}

#[test]
fn refuses_dictionaries(rt: HostRuntime) -> Result<(), Fail> {
    for (line, usage) in [
        (
            "dump2dcm +dict a b",
            Usage::AtWord(WordFault::UnknownOption, 2),
        ),
        (
            "dump2dcm a b -dict",
            Usage::AtWord(WordFault::UnknownOption, 4),
        ),
        (
            "dcmdump +dictionary -",
            Usage::AtWord(WordFault::UnknownOption, 2),
        ),
        ("dcmdump +dict", Usage::Whole(WordFault::WrongPaths)),
        ("dcmconv +dict a a", Usage::Whole(WordFault::SamePath)),
        ("dcmodify +dict a a", Usage::Whole(WordFault::SamePath)),
        ("dcmodify a b +dict", Usage::Whole(WordFault::WrongPaths)),
        (
            "dcmodify -m XRayTubeCurrent=1 - -",
            Usage::InEdit(EditRefusal::UnknownTag, 1),
        ),
        (
            "dcmodify +dict -m XRayTubeCurrent=1 -dict - -",
            Usage::InEdit(EditRefusal::UnknownTag, 1),
        ),
        (
            "dcmodify +dict -ep +dict -e X - -",
            Usage::InEdit(EditRefusal::UnknownTag, 2),
        ),
        (
            "dcmodify -e +dict - -",
            Usage::InEdit(EditRefusal::UnknownTag, 1),
        ),
        (
            "dcmodify +dict -e - -",
            Usage::InEdit(EditRefusal::BadOption, 1),
        ),
        (
            "dcmodify -ep +dict -x - -",
            Usage::InEdit(EditRefusal::BadOption, 2),
        ),
    ] {
        let planned = dictionary_of(rt, line)?;
        holds(&rt, line, planned == Err(usage));
    }
    Ok(())
}

#[test]
fn plans_a_data_set_alone_by_a_dictionary(rt: HostRuntime) -> Result<(), Fail> {
    let said = said_of(rt, "dcmdump +dict -f -tb +L -")?;
    match said {
        Ok(said) => {
            assert!(rt; said.dictionary == Dictionary::Standard && said.mode == Some(Mode::Full));
            assert!(rt; matches!(said.syntax, Some(Syntax::Big(_))));
        }
        Err(_) => assert!(rt; false),
    }
    Ok(())
}

/// What the words of a line mean for the taking of identity: what more is kept, in the order of the options, whether it
/// is reported that pixels may show identity, and whether the key is the file `key`.
#[derive(Clone, Copy, Debug, PartialEq, Eq)]
struct Taking {
    kept: [bool; 5],
    reports: bool,
    has_key: bool,
}

/// What they mean without options.
const TAKING: Taking = Taking {
    kept: [false; 5],
    reports: true,
    has_key: false,
};

/// What a plan says of it, where that is its job.
fn said_by(planned: &Planned) -> Option<Taking> {
    let Job::Deidentify(what) = &planned.job else {
        return None;
    };
    let options = what.options;
    Some(Taking {
        kept: [
            options.uids,
            options.device,
            options.institution,
            options.patient,
            options.dates.are_full(),
        ],
        reports: what.reports,
        has_key: planned.key == Some(b"key".as_slice()),
    })
}

fn taking_of(rt: HostRuntime, line: &'static str) -> Result<Result<Taking, Usage>, Fail> {
    let words = words_of(rt, line)?;
    let planned = match plan(rt.alloc(), words.as_slice()) {
        Ok(planned) => planned,
        Err(Usage::Memory) => return Err(Fail::new("out of memory")),
        Err(usage) => return Ok(Err(usage)),
    };
    match said_by(&planned) {
        Some(taking) => Ok(Ok(taking)),
        None => Err(Fail::new("another job")),
    }
}

#[test]
fn plans_taking_of_identity(rt: HostRuntime) -> Result<(), Fail> {
    for (line, taking) in [
        ("dcmdeid a b", TAKING),
        (
            "dcmdeid +ru a b",
            Taking {
                kept: [true, false, false, false, false],
                ..TAKING
            },
        ),
        (
            "dcmdeid a +rd b +ri",
            Taking {
                kept: [false, true, true, false, false],
                ..TAKING
            },
        ),
        (
            "dcmdeid +rl +bi +rp a b",
            Taking {
                kept: [false, false, false, true, true],
                reports: false,
                ..TAKING
            },
        ),
        (
            "dcmdeid +k b a +k key b",
            Taking {
                has_key: true,
                ..TAKING
            },
        ),
        ("dcmdeid +k a a b", TAKING),
    ] {
        let planned = taking_of(rt, line)?;
        holds(&rt, line, planned == Ok(taking));
    }
    Ok(())
}

#[test]
fn refuses_taking_of_identity(rt: HostRuntime) -> Result<(), Fail> {
    for (line, usage) in [
        (
            "dcmdeid +dict a b",
            Usage::AtWord(WordFault::UnknownOption, 2),
        ),
        (
            "dcmdeid a b +k",
            Usage::AtWord(WordFault::BadOptionValue, 4),
        ),
        (
            "dcmdeid a +k - b",
            Usage::AtWord(WordFault::BadOptionValue, 3),
        ),
        ("dcmdeid +k a b", Usage::Whole(WordFault::WrongPaths)),
        ("dcmdeid a a", Usage::Whole(WordFault::SamePath)),
        ("dcmdeid +k b a b", Usage::Whole(WordFault::SamePath)),
        ("dcmdeid +rm key - b", Usage::Whole(WordFault::NoKey)),
        (
            "dcmdeid +rm key +k a - b",
            Usage::Whole(WordFault::ReadTwice),
        ),
    ] {
        let planned = taking_of(rt, line)?;
        holds(&rt, line, planned == Err(usage));
    }
    Ok(())
}
