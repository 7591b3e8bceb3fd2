// Rows of names that are left out, and of names that are shown.
use super::bytes::GOOD;
use super::rows::Entry::{File, Folder, Link, Pipe, Plain};
use super::rows::{EMPTY, HEADER, Row};

/// What is no file, or no name of one.
pub static LEFT_OUT: [Row; 4] = [
    Row {
        name: "links and a pipe",
        words: "dcmconv +r in out",
        before: &[
            File(b"in/a", GOOD),
            Link(b"in/l", b"a"),
            Link(b"in/m", b"."),
            Link(b"in/n", b"gone"),
            Pipe(b"in/p"),
        ],
        output: &[
            HEADER,
            r#""a","a","written"
"l",,"left-out"
"m",,"left-out"
"n",,"left-out"
"p",,"left-out"
"#,
        ],
        told: b"dcmtools: l: no regular file\n\
dcmtools: m: no regular file\n\
dcmtools: n: no regular file\n\
dcmtools: p: no regular file\n",
        status: 4,
        made: &[File(b"out/a", GOOD)],
        ..EMPTY
    },
    Row {
        name: "the index of a medium",
        words: "dcmconv +r in out",
        before: &[
            File(b"in/DICOMDIR", GOOD),
            File(b"in/x/DicomDir", GOOD),
            File(b"in/x/dicomdir.", GOOD),
            File(b"in/x/DICOMDIR;1", GOOD),
            File(b"in/x/DICOMDIR.;12", GOOD),
            File(b"in/x/DICOMDIR;", GOOD),
            File(b"in/x/DICOMDIR;1a", GOOD),
            File(b"in/dicomdir.dcm", GOOD),
            File(b"in/y/dicomdir/a", GOOD),
        ],
        output: &[
            HEADER,
            r#""DICOMDIR",,"left-out"
"x/DicomDir",,"left-out"
"x/dicomdir.",,"left-out"
"x/DICOMDIR;1",,"left-out"
"x/DICOMDIR.;12",,"left-out"
"x/DICOMDIR;","x/DICOMDIR;","written"
"x/DICOMDIR;1a","x/DICOMDIR;1a","written"
"dicomdir.dcm","dicomdir.dcm","written"
"y/dicomdir/a","y/dicomdir/a","written"
"#,
        ],
        told: b"dcmtools: DICOMDIR: DICOMDIR is left out\n\
dcmtools: x/DicomDir: DICOMDIR is left out\n\
dcmtools: x/dicomdir.: DICOMDIR is left out\n\
dcmtools: x/DICOMDIR;1: DICOMDIR is left out\n\
dcmtools: x/DICOMDIR.;12: DICOMDIR is left out\n",
        made: &[
            File(b"out/x/DICOMDIR;", GOOD),
            File(b"out/x/DICOMDIR;1a", GOOD),
            File(b"out/dicomdir.dcm", GOOD),
            File(b"out/y/dicomdir/a", GOOD),
        ],
        ..EMPTY
    },
    Row {
        name: "names that are no UTF-8",
        words: "dcmconv +r in out",
        before: &[
            File(b"in/\xff", GOOD),
            File(b"in/d\xe9/a", GOOD),
            File(b"in/a", GOOD),
        ],
        output: &[
            HEADER,
            r#""\xff",,"left-out"
"d\xe9",,"left-out"
"a","a","written"
"#,
        ],
        told: b"dcmtools: \xff: name is no UTF-8\n\
dcmtools: d\xe9: name is no UTF-8\n",
        status: 4,
        made: &[File(b"out/a", GOOD)],
        ..EMPTY
    },
    Row {
        name: "names of parts",
        words: "dcmconv +r in out",
        before: &[
            File(b"in/.part.1", GOOD),
            File(b"in/.part.x/a", GOOD),
            File(b"in/.PART.1", GOOD),
            File(b"in/x/.part.1", GOOD),
            File(b"in/.part", GOOD),
        ],
        output: &[
            HEADER,
            r#"".part.1",,"left-out"
".part.x",,"left-out"
".PART.1",,"left-out"
"x/.part.1","x/.part.1","written"
".part",".part","written"
"#,
        ],
        told: b"dcmtools: .part.1: part of another run\n\
dcmtools: .part.x: part of another run\n\
dcmtools: .PART.1: part of another run\n",
        status: 4,
        made: &[File(b"out/x/.part.1", GOOD), File(b"out/.part", GOOD)],
        ..EMPTY
    },
];

/// Names with marks, lines and letters in them.
pub static SHOWN_NAMES: [Row; 2] = [
    Row {
        name: "names in rows",
        words: "dcmconv +r in out",
        before: &[
            File(b"in/a\"b, c", GOOD),
            File(b"in/new\nline", GOOD),
            File(b"in/\xc3\xa9\\", GOOD),
            File(b"in/=1", GOOD),
            File(b"in/-x", GOOD),
            File(b"in/@y", GOOD),
            File(b"in/ ", GOOD),
        ],
        output: &[
            HEADER,
            r#""a""b, c","a""b, c","written"
"new
line","new
line","written"
"é\","é\","written"
"=1","=1","written"
"-x","-x","written"
"@y","@y","written"
" "," ","written"
"#,
        ],
        made: &[
            File(b"out/a\"b, c", GOOD),
            File(b"out/new\nline", GOOD),
            File(b"out/\xc3\xa9\\", GOOD),
            File(b"out/=1", GOOD),
            File(b"out/-x", GOOD),
            File(b"out/@y", GOOD),
            File(b"out/ ", GOOD),
        ],
        ..EMPTY
    },
    Row {
        name: "names in lines",
        words: "dcmconv +r in out",
        before: &[
            Plain(b"in/a\"b, c", b""),
            Plain(b"in/new\nline", b""),
            Plain(b"in/\xc3\xa9\\", b""),
            Plain(b"in/=1", b""),
            Plain(b"in/-x", b""),
            Plain(b"in/@y", b""),
            Plain(b"in/ ", b""),
        ],
        output: &[
            HEADER,
            r#""a""b, c",,"refused"
"new
line",,"refused"
"é\",,"refused"
"=1",,"refused"
"-x",,"refused"
"@y",,"refused"
" ",,"refused"
"#,
        ],
        told: b"dcmtools: a\"b, c: R1 at byte 0: input ends too early\n\
dcmtools: new\\0aline: R1 at byte 0: input ends too early\n\
dcmtools: \xc3\xa9\\5c: R1 at byte 0: input ends too early\n\
dcmtools: =1: R1 at byte 0: input ends too early\n\
dcmtools: -x: R1 at byte 0: input ends too early\n\
dcmtools: @y: R1 at byte 0: input ends too early\n\
dcmtools:  : R1 at byte 0: input ends too early\n",
        status: 2,
        made: &[Folder(b"out")],
        ..EMPTY
    },
];
