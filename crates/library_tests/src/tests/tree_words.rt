use super::{holds, words_of};
use dcm_base::{Dictionary, EditRefusal, WordFault};
use dcm_tree_words::{
    Part, Source, TreeOptions, TreePlan, asks_tree, part_of, tree_plan, words_of_one,
};
use dcm_words::{Convert, Deidentify, Job, Modify, Usage};
use linked_list_allocator::LocalHeap;
use std::process::Abort;
use std::test::Fail;

/// How a run goes on where its words say nothing of that.
const USUAL: TreeOptions = TreeOptions {
    continues: false,
    part: Part::WHOLE,
    has_header: true,
    counts: false,
    keeps_names: true,
};

/// The same of dcmdeid.
const NEW_NAMES: TreeOptions = TreeOptions {
    keeps_names: false,
    ..USUAL
};

/// What is expected of a run over a tree.
#[derive(Clone, Copy)]
struct Expected {
    line: &'static str,
    source: Source<'static>,
    output: &'static str,
    key: &'static str,
    options: TreeOptions,
    /// How many edits, or which options of dcmdeid or syntaxes, the job has.
    job: usize,
}

/// The number of edits of a job; of another job, how many of its options that are tried here are on.
fn size_of(job: &Job) -> usize {
    match job {
        Job::Modify(Modify { edits, .. }) => edits.len(),
        Job::Convert(Convert { dictionary, target }) => {
            usize::from(*dictionary == Dictionary::Standard) + usize::from(target.is_some())
        }
        Job::Deidentify(
            Deidentify {
                options,
                reports,
                ..
            },
        ) => { usize::from(options.uids) + usize::from(!*reports) }
        _ => 99,
    }
}

/// Whether a run is as it is expected to be.
fn is_as(tree: &TreePlan, expected: Expected) -> bool {
    let key = tree.planned.key.unwrap_or(b"");
    tree.source == expected.source
        && tree.planned.output == expected.output.as_bytes()
        && key == expected.key.as_bytes()
        && tree.options == expected.options
        && size_of(&tree.planned.job) == expected.job
}

/// Whether the words of a line mean the run that is expected.
fn means(rt: HostRuntime, expected: Expected) -> Result<bool, Fail> {
    let words = words_of(rt, expected.line)?;
    let one = words_of_one(rt.alloc(), words.as_slice())?;
    let is_meant = match tree_plan(rt.alloc(), words.as_slice(), one.as_slice()) {
        Ok(tree) => is_as(&tree, expected),
        Err(_) => false,
    };
    Ok(asks_tree(words.as_slice()) && is_meant)
}

/// The part of this number.
fn part(rt: &impl Abort, word: &'static str) -> Part {
    part_of(word.as_bytes()).expect(rt, "no part")
}

#[test]
fn plans_trees(rt: HostRuntime) -> Result<(), Fail> {
    for expected in [
        Expected {
            line: "dcmconv +r in out",
            source: Source::Folder(b"in"),
            output: "out",
            key: "",
            options: USUAL,
            job: 0,
        },
        Expected {
            line: "dcmconv in +dict +r out/ +te +nh",
            source: Source::Folder(b"in"),
            output: "out/",
            key: "",
            options: TreeOptions {
                has_header: false,
                ..USUAL
            },
            job: 2,
        },
        Expected {
            line: "dcmconv +r @list +v out +c",
            source: Source::List(b"list"),
            output: "out",
            key: "",
            options: TreeOptions {
                continues: true,
                counts: true,
                ..USUAL
            },
            job: 0,
        },
        Expected {
            line: "dcmconv +r @- out",
            source: Source::List(b"-"),
            output: "out",
            key: "",
            options: USUAL,
            job: 0,
        },
        Expected {
            line: "dcmconv +r ./@x @",
            source: Source::Folder(b"./@x"),
            output: "@",
            key: "",
            options: USUAL,
            job: 0,
        },
        Expected {
            line: "dcmconv +part 1/9 +r +part 03/5 in out",
            source: Source::Folder(b"in"),
            output: "out",
            key: "",
            options: TreeOptions {
                continues: true,
                part: part(&rt, "3/5"),
                ..USUAL
            },
            job: 0,
        },
    ] {
        let is_meant = means(rt, expected)?;
        holds(&rt, expected.line, is_meant);
    }
    Ok(())
}

#[test]
fn plans_edited_trees(rt: HostRuntime) -> Result<(), Fail> {
    for expected in [
        Expected {
            line: "dcmodify -m PatientID=7 +r -ea PatientName +part 1/1 -m Rows=2 in out",
            source: Source::Folder(b"in"),
            output: "out",
            key: "",
            options: TreeOptions {
                continues: true,
                ..USUAL
            },
            job: 3,
        },
        Expected {
            line: "dcmodify +r in out",
            source: Source::Folder(b"in"),
            output: "out",
            key: "",
            options: USUAL,
            job: 0,
        },
        Expected {
            line: "dcmodify +dict -ep +v +r @- out",
            source: Source::List(b"-"),
            output: "out",
            key: "",
            options: TreeOptions {
                counts: true,
                ..USUAL
            },
            job: 1,
        },
    ] {
        let is_meant = means(rt, expected)?;
        holds(&rt, expected.line, is_meant);
    }
    Ok(())
}

#[test]
fn plans_trees_without_identity(rt: HostRuntime) -> Result<(), Fail> {
    for expected in [
        Expected {
            line: "dcmdeid +k key +r in out",
            source: Source::Folder(b"in"),
            output: "out",
            key: "key",
            options: NEW_NAMES,
            job: 0,
        },
        Expected {
            line: "dcmdeid +kn +ru in +bi out +r",
            source: Source::Folder(b"in"),
            output: "out",
            key: "",
            options: USUAL,
            job: 2,
        },
        Expected {
            line: "dcmdeid +k +r +r in out",
            source: Source::Folder(b"in"),
            output: "out",
            key: "+r",
            options: NEW_NAMES,
            job: 0,
        },
    ] {
        let is_meant = means(rt, expected)?;
        holds(&rt, expected.line, is_meant);
    }
    Ok(())
}

/// The refusal of the words of a line.
fn refusal_of(rt: HostRuntime, line: &'static str) -> Result<Usage, Fail> {
    let words = words_of(rt, line)?;
    let one = words_of_one(rt.alloc(), words.as_slice())?;
    match tree_plan(rt.alloc(), words.as_slice(), one.as_slice()) {
        Ok(_) => Err(Fail::new("not refused")),
        Err(usage) => Ok(usage),
    }
}

#[test]
fn refuses_words_of_trees(rt: HostRuntime) -> Result<(), Fail> {
    for (line, fault, number) in [
        ("dcmconv +r +kn in out", WordFault::UnknownOption, 3),
        ("dcmconv in +r +part 0/1 out", WordFault::BadOptionValue, 4),
        ("dcmdeid +part 2/1 +q in out", WordFault::BadOptionValue, 2),
        ("dcmdeid +q +part 2/1 in out", WordFault::UnknownOption, 2),
        ("dcmdeid +c +rm 0 +r in out", WordFault::BadOptionValue, 3),
        ("dcmconv +r in out +part", WordFault::BadOptionValue, 5),
        ("dcmconv +part +r in out", WordFault::BadOptionValue, 2),
        (
            "dcmodify -e Nothing +r +part 1/10000 in out",
            WordFault::BadOptionValue,
            5,
        ),
        ("dcmodify +r +part in out", WordFault::BadOptionValue, 3),
        ("dcmconv +r +u8 in out", WordFault::UnknownOption, 3),
        ("dcmconv +r +part 1/2 +q in", WordFault::UnknownOption, 5),
        ("dcmdeid +k k +v +r +nh +q @ -", WordFault::UnknownOption, 7),
    ] {
        let refusal = refusal_of(rt, line)?;
        holds(&rt, line, refusal == Usage::AtWord(fault, number));
    }
    Ok(())
}

#[test]
fn refuses_paths_of_trees(rt: HostRuntime) -> Result<(), Fail> {
    for (line, fault) in [
        ("dcmconv +r in", WordFault::WrongPaths),
        ("dcmconv +r @ out", WordFault::WrongPaths),
        ("dcmconv +r @ @", WordFault::WrongPaths),
        ("dcmdeid +r +pi @ -", WordFault::WrongPaths),
        (
            "dcmodify -e Nothing +part 2/1 +r @ out",
            WordFault::WrongPaths,
        ),
        ("dcmconv +c @ out", WordFault::OptionsApart),
        ("dcmconv +c in in", WordFault::OptionsApart),
        ("dcmodify +v -ep in out", WordFault::OptionsApart),
        ("dcmconv +r in -", WordFault::OptionsApart),
        ("dcmodify +r -ep - out", WordFault::OptionsApart),
        ("dcmdeid +r +k out - out", WordFault::OptionsApart),
        ("dcmdeid +c +pi in out", WordFault::OptionsApart),
        ("dcmdeid +r +pi - out", WordFault::OptionsApart),
        ("dcmconv +r in in", WordFault::SamePath),
        ("dcmdeid +r +k out in out", WordFault::SamePath),
        ("dcmdeid +pi +r in in", WordFault::SamePath),
        ("dcmdeid +r +rm 7 +pi gone out", WordFault::NoKey),
    ] {
        let refusal = refusal_of(rt, line)?;
        holds(&rt, line, refusal == Usage::Whole(fault));
    }
    Ok(())
}

#[test]
fn refuses_edits_of_trees(rt: HostRuntime) -> Result<(), Fail> {
    for (line, refusal, number) in [
        (
            "dcmodify +r -e +r -e PatientID in out",
            EditRefusal::UnknownTag,
            1,
        ),
        ("dcmodify +r +kn in out", EditRefusal::BadOption, 1),
        ("dcmodify +c -ep +r -e in in", EditRefusal::BadOption, 2),
        ("dcmodify +c -e Nothing in out", EditRefusal::UnknownTag, 1),
    ] {
        let usage = refusal_of(rt, line)?;
        holds(&rt, line, usage == Usage::InEdit(refusal, number));
    }
    Ok(())
}

/// Words that stay those of one file.
#[test]
fn leaves_words_of_one_file(rt: HostRuntime) -> Result<(), Fail> {
    for line in [
        "dcmconv +te in out",
        "dcmconv +kn in out",
        "dcmconv --help",
        "dcmodify in out +r",
        "dcmodify +r out",
        "dcmodify -e +r -e PatientID in out",
        "dcmodify +kn in out",
        "dcmdeid +rm +r in out",
        "dcmdeid +k +r in out",
        "dcmdump +r in",
        "dump2dcm +r in out",
        "help +r",
    ] {
        let words = words_of(rt, line)?;
        holds(&rt, line, !asks_tree(words.as_slice()));
    }
    Ok(())
}

#[test]
fn reads_parts(rt: HostRuntime) -> Result<(), Fail> {
    for word in ["1/1", "9999/9999", "0003/5", "1/0001"] {
        holds(&rt, word, part_of(word.as_bytes()).is_some());
    }
    for word in [
        "", "/", "1", "1/", "/1", "0/1", "3/2", "1/10000", "00001/1", "1/1/1", "+1/1", "1/ 1",
        "a/b", "1/0x",
    ] {
        holds(&rt, word, part_of(word.as_bytes()).is_none());
    }
    let seven = part(&rt, "07/0009");
    holds(&rt, "07/0009", seven.number == 7 && seven.count == 9);
    Ok(())
}

/// A heap hands out its memory in units of so many bytes.
const UNIT: usize = 16;

/// Whether the words without those of a tree fit into a heap. If so they are as many as expected.
fn fit(heap: &LocalHeap, words: &[&[u8]], expected: usize) -> Result<bool, Fail> {
    match words_of_one(heap, words) {
        Ok(one) if one.len() == expected => Ok(true),
        Ok(_) => Err(Fail::new("other words")),
        Err(_) => Ok(false),
    }
}

#[test]
fn takes_all_words_or_none(rt: HostRuntime) -> Result<(), Fail> {
    let words = words_of(rt, "dcmdeid +k key +r +ru +part 1/2 in +c out +rp")?;
    let mut is_enough = false;
    for units in 1..64 {
        let heap = LocalHeap::new(rt.alloc(), units * UNIT)?;
        let fits = fit(&heap, words.as_slice(), 7)?;
        holds(&rt, "more memory is enough", fits || !is_enough);
        holds(&rt, "all memory is given back", heap.used() == 0);
        is_enough = fits;
    }
    holds(&rt, "much memory is enough", is_enough);
    Ok(())
}
