// The texts that the program shows of itself. docs, the manual page and the completions name the same options:
// scripts/check_texts.py compares them.

/// The version, and the edition of the dictionary.
pub const VERSION: &str = "dcmtools 0.2.0, with the data dictionary of DICOM PS3.6 2022a\n";

/// How the program is used.
pub const PROGRAM: &str = "\
dcmtools: show DICOM files, convert their transfer syntax, build them from text, edit them,
de-identify them, and make tables of them

  dcmtools dcmdump [OPTION].. FILE..         show files as text
  dcmtools dcmconv [OPTION].. FILE OUTPUT    write a file in another transfer syntax
  dcmtools dump2dcm [OPTION].. LINES OUTPUT  build a file from the lines of a dump
  dcmtools dcmodify EDIT.. FILE OUTPUT       write a file with edits
  dcmtools dcmdeid [OPTION].. FILE OUTPUT    write a file without identity
  dcmtools dcm2csv -k TAG.. FILE..           write a table with a row for each file
  dcmtools dcmconv|dcmodify|dcmdeid .. +r FOLDER OUTPUT
                                             do each file of a folder, at any depth
  dcmtools help [TOOL]                       show this text, or that of a tool
  dcmtools version                           show the version and the edition of the dictionary

dcmtools TOOL --help shows the options of a tool. FILE, LINES and OUTPUT may be -, which is standard
input or standard output. If options conflict, the last one counts.

Exit status:
  0  done
  1  the command line is refused, and no file was opened
  2  the input has a fault, at the byte that is named; what comes before this byte was written,
     except by dcmdeid to a file and with +r
  3  an edit found no place, and all other edits were done; or pixels may show identity
  4  a file could not be opened, read or written
  5  out of memory

The manual: man dcmtools, and docs/users/PROFILE.md
";

/// How dcmdump is used.
pub const DUMP: &str = "\
dcmtools dcmdump [OPTION].. FILE..: show DICOM files as text, one element on a line

  -L     cut displays of more than 66 bytes (default)
  +L     show displays whole
  +u8    show texts in UTF-8, decoded by Specific Character Set
  +P TAG show only this element, at any depth: a keyword, or a number such as (0010,0010); up to
         64 times
  +p     with +P: show before each element the tags of the sequences around the element
  -p     cancel +p (default)
  +fo    the input is a file with a meta group (default)
  -f     the input is a data set alone, in one of the next three syntaxes
  -ti    with -f: implicit VR little endian
  -te    with -f: explicit VR little endian
  -tb    with -f: explicit VR big endian
  -dict  read with the extract of 90 elements (default)
  +dict  read with the whole data dictionary of PS3.6
  +F     show a heading before each dump, even if there is one file

@LIST in place of a FILE: the file LIST has the names of files, one on each line. - and @- are
standard input. If there are several files, each dump has a heading with the name of the file, and a
fault in one FILE does not stop the others.

Example: dcmtools dcmdump +dict +u8 scan.dcm

Exit status: 0 done, 1 arguments refused, 2 input with a fault, 4 file not opened, read or written,
5 out of memory. The manual: man dcmtools, and docs/users/PROFILE.md
";

/// How dcmconv is used.
pub const CONVERT: &str = "\
dcmtools dcmconv [OPTION].. FILE OUTPUT: write a DICOM file in another transfer syntax
dcmtools dcmconv [OPTION].. +r FOLDER OUTPUT: do each file of a folder, at any depth

  +t=    keep the transfer syntax (default)
  +ti    write implicit VR little endian
  +te    write explicit VR little endian
  +tb    write explicit VR big endian
  -e     write undefined lengths (always so)
  +fo    the input is a file with a meta group (always so)
  -dict  read with the extract of 90 elements (default)
  +dict  read with the whole data dictionary of PS3.6
  +ow    overwrite an existing OUTPUT (else OUTPUT with bytes is not changed: status 4)
  +r     do each file of FOLDER: the output of NAME is OUTPUT/NAME
  +c     with +r: continue an earlier run: existing outputs are not changed
  +part I/N
         with +r: do only the I-th of N shards of the names, 1 to 9999
  +nh    with +r: write no header row
  +v     with +r: show counts on standard error

FOLDER may be @LIST: the file LIST has the names of files, one on each line; @- is standard input. For
each name, standard output has a row that says what was done. No existing file is changed, and an
output gets its name only when it is complete.

Example: dcmtools dcmconv +dict +te scan.dcm explicit.dcm

Exit status: 0 done, 1 arguments refused, 2 input with a fault, 4 file not opened, read or written, or
a name not done, 5 out of memory; for a folder the greatest of its names. The manual: man dcmtools,
and docs/users/PROFILE.md
";

/// How dump2dcm is used.
pub const BUILD: &str = "\
dcmtools dump2dcm [OPTION].. LINES OUTPUT: build a DICOM file from the lines of dcmdump +L

  +l N   refuse lines of more than N bytes, 80 to 16384 (default 4096)
  -e     write undefined lengths (always so)
  +ow    overwrite an existing OUTPUT (else OUTPUT with bytes is not changed: status 4)

Example: dcmtools dump2dcm dump.txt rebuilt.dcm

Exit status: 0 done, 1 arguments refused, 2 input with a fault, 4 file not opened, read or written,
5 out of memory. The manual: man dcmtools, and docs/users/PROFILE.md
";

/// How dcmodify is used.
pub const MODIFY: &str = "\
dcmtools dcmodify EDIT.. FILE OUTPUT: write a DICOM file with edits
dcmtools dcmodify EDIT.. +r FOLDER OUTPUT: do each file of a folder, at any depth

  -i PATH=VALUE  replace an element, or put it where it is missing
  -m PATH=VALUE  replace an existing element
  -e PATH        erase an element or an item
  -ma TAG=VALUE  replace each element of a tag, at all depths
  -ea TAG        erase each element of a tag, at all depths
  -ep            erase each private element, at all depths
  -dict          name elements of the extract of 90 (default)
  +dict          name elements of the whole data dictionary of PS3.6, and read with it
  +ow            overwrite an existing OUTPUT (else OUTPUT with bytes is not changed: status 4)
  +r             do each file of FOLDER: the output of NAME is OUTPUT/NAME
  +c             with +r: continue an earlier run: existing outputs are not changed
  +part I/N      with +r: do only the I-th of N shards of the names, 1 to 9999
  +nh            with +r: write no header row
  +v             with +r: show counts on standard error

A TAG is a keyword or (gggg,eeee). A PATH is a TAG, after steps into items such as
ContentSequence[0]. or ContentSequence[*].

Without +dict, -ma, -ea and -ep do not see most sequences of implicit VR: patient names may be left.
The last argument is OUTPUT, and not a second FILE as in DCMTK. With +r no existing file is changed.
FOLDER may be @LIST: the file LIST has the names of files, one on each line; @- is standard input. For
each name, standard output has a row that says what was done.

Example: dcmtools dcmodify +dict -m 'PatientName=Doe^Jane' scan.dcm corrected.dcm

Exit status: 0 done, 1 arguments refused, 2 input with a fault, 3 an edit found no place and all other
edits were done, 4 file not opened, read or written, or a name not done, 5 out of memory; for a folder
the greatest of its names. The manual: man dcmtools, and docs/users/PROFILE.md
";

/// How dcmdeid is used.
pub const DEIDENTIFY: &str = "\
dcmtools dcmdeid [OPTION].. FILE OUTPUT: de-identify a DICOM file (PS3.15 annex E)
dcmtools dcmdeid [OPTION].. +r FOLDER OUTPUT: do each file of a folder, at any depth

  +ru    keep unique identifiers (UIDs)
  +rd    keep the identity of devices
  +ri    keep the identity of institutions
  +rp    keep characteristics of the patient, such as age and weight
  +rl    keep dates and times
  +rm N  keep dates and times, and shift each date by N days: -36524 to 36524, not 0
  +rm key
         keep dates and times, and shift the dates of each PatientID by 1 to 3652 days into the past,
         computed with KEY; FILE is read twice, and must be no pipe
  +pi    replace PatientID by a pseudonym computed with KEY (else PatientID is emptied)
  +bi    you have checked the pixels: write files that say that their pixels show identity
  +k KEY compute new identifiers with the bytes of the file KEY, 16 to 4096 bytes; +pi and +rm key
         need KEY
  +ow    overwrite an existing OUTPUT (else OUTPUT with bytes is not changed: status 4)
  +r     do each file of FOLDER: its output is OUTPUT/STUDY/SERIES/INSTANCE.dcm, by its new UIDs
  +c     with +r: continue an earlier run: existing outputs are not changed
  +part I/N
         with +r: do only the I-th of N shards of the names, 1 to 9999
  +nh    with +r: write no header row
  +v     with +r: show counts on standard error
  +kn    with +r: keep names: the output of NAME is OUTPUT/NAME

OUTPUT is written as OUTPUT.part, and gets its name at status 0; else it is removed. With +r, FOLDER
may be @LIST: the file LIST has the names of files, one on each line; @- is standard input. For each
name, standard output has a row that says what was done. Keep the rows as secret as the key.

Example: dcmtools dcmdeid +k site.key scan.dcm anonymous.dcm

Exit status: 0 done, 1 arguments or key refused, 2 input with a fault, 3 pixels may show identity and
no OUTPUT was left, 4 file not opened, read or written, or a name not done, 5 out of memory; for a
folder the greatest of its names. The manual: man dcmtools, and docs/users/PROFILE.md
";

/// How dcm2csv is used.
pub const TABLE: &str = "\
dcmtools dcm2csv -k TAG.. [OPTION].. FILE..: write comma separated values (RFC 4180), with a row for
each DICOM file

  -k TAG add a column: a keyword, or a number such as (0010,0010); 1 to 64 times
  +nh    write no header row
  +by    write the bytes of texts and names unchanged (else valid UTF-8: other bytes as \\xNN)
  +u8    write texts in UTF-8, decoded by Specific Character Set; of +by and +u8 the last counts

@LIST in place of a FILE: the file LIST has the names of files, one on each line. - and @- are
standard input. The table goes to standard output. A FILE with a fault has its row too, and does not
stop the others.

Example: dcmtools dcm2csv -k PatientID -k Modality scan.dcm

Exit status: 0 done, 1 arguments refused, 2 a file with a fault or a value of more than 16384 bytes,
4 a file not opened or read, or output failed, 5 out of memory. The manual: man dcmtools, and
docs/users/PROFILE.md
";
