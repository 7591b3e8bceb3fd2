// Rows of files that are read whole.
use crate::runs::Done::Whole;
use crate::runs::Entry::{File, Named};
use crate::runs::Row;
use dcm_test_devices::Start;

/// Texts and numbers.
pub fn plain() -> &'static [Row] {
    &PLAIN
}

static PLAIN: [Row; 7] = [
    Row {
        name: "a name",
        words: "dcm2csv -k PatientName -k (0010,0020)",
        names: &[b"a"],
        files: &[Named(b"a")],
        header: b"\"File\",\"PatientName\",\"PatientID\"\n",
        done: &[Whole(b"a", b"a", b"\"a\",\"AB^CD\",\n")],
    },
    Row {
        name: "a column twice",
        words: "dcm2csv a +nh -k Modality a -k PatientName -k PatientName +nh",
        names: &[],
        files: &[Named(b"a")],
        header: b"",
        done: &[
            Whole(b"a", b"a", b"\"a\",,\"AB^CD\",\"AB^CD\"\n"),
            Whole(b"a", b"a", b"\"a\",,\"AB^CD\",\"AB^CD\"\n"),
        ],
    },
    Row {
        name: "quotes",
        words: "dcm2csv -k PatientName -k (0010,0020) -k (0009,10aB)",
        names: &[b"q\"\n.dcm"],
        files: &[File(
            b"q\"\n.dcm",
            Start::ExplicitLittle,
            b"\t\0\xab\x10LO\t\0=1\\ x \0 \0\x10\0\x10\0PN\x06\0a\"b,\r\n\x10\0 \0LO\x04\0  \0 ",
        )],
        header: b"\"File\",\"PatientName\",\"PatientID\",\"(0009,10aB)\"\n",
        done: &[Whole(
            b"q\"\n.dcm",
            b"q\"\\0a.dcm",
            b"\"q\"\"\n.dcm\",\"a\"\"b,\r\n\",\"\",\"=1\\ x\"\n",
        )],
    },
    Row {
        name: "numbers",
        words: "dcm2csv +nh -k Rows -k Columns -k SmallestImagePixelValue -k (0029,1001) -k (0029,1002)",
        names: &[b"big", b"little"],
        files: &[
            File(
                b"big",
                Start::Big,
                b"\0(\0\x10US\0\x05\x01\0\0\x02\x05\0(\0\x11US\0\0\0(\x01\x06SS\0\x02\xff\xfe\0)\x10\x01SL\0\x04\x80\0\0\0\0)\x10\x02UL\0\x08\0\0\0\0\xff\xff\xff\xff",
            ),
            File(
                b"little",
                Start::ExplicitLittle,
                b"(\0\x10\0US\x01\0\x07(\0\x11\0US\x02\0\x07\0",
            ),
        ],
        header: b"",
        done: &[
            Whole(
                b"big",
                b"big",
                b"\"big\",\"256\\2\",\"\",-2,-2147483648,\"0\\4294967295\"\n",
            ),
            Whole(b"little", b"little", b"\"little\",\"\",7,,,\n"),
        ],
    },
    Row {
        name: "numbers of 8 bytes and tags",
        words: "dcm2csv +nh -k (0009,1001) -k (0009,1002) -k (0028,0009) -k (0028,000A)",
        names: &[b"x"],
        files: &[File(
            b"x",
            Start::ExplicitLittle,
            b"\t\0\x01\x10SV\0\0\x08\0\0\0\xff\xff\xff\xff\xff\xff\xff\xff\t\0\x02\x10UV\0\0\x08\0\0\0\xff\xff\xff\xff\xff\xff\xff\xff(\0\t\0AT\x06\0T\0\xe0\xfe\x01\0(\0\n\0AT\x08\0\x18\0c\x10T\0\x10\0",
        )],
        header: b"",
        done: &[Whole(
            b"x",
            b"x",
            b"\"x\",-1,18446744073709551615,\"(0054,fee0)\",\"(0018,1063)\\(0054,0010)\"\n",
        )],
    },
    Row {
        name: "floats",
        words: "dcm2csv +nh -k (0009,1001) -k (0009,1002) -k (0009,1003) -k (0009,1004) -k (0009,1005)",
        names: &[b"x"],
        files: &[File(
            b"x",
            Start::ExplicitLittle,
            b"\t\0\x01\x10FD\x08\0333333\xd3?\t\0\x02\x10FL\x0c\0\0\0\0M\0\0\x80\xbf\0\0\x80?\t\0\x03\x10FD \0\0\0\0\0\0\0\0\x80\0\0\0\0\0\0\xf8\x7f\0\0\0\0\0\0\xf0\xff\0\x80\xe07y\xc3AC\t\0\x04\x10FL\x04\0\xcd\xcc\xcc=\t\0\x05\x10FD\t\0\x01\0\0\0\0\0\0\0\xf1",
        )],
        header: b"",
        done: &[Whole(
            b"x",
            b"x",
            b"\"x\",0.3,\"134217730.0\\-1.0\\1.0\",\"-0.0\\NaN\\-inf\\1e16\",0.1,5e-324\n",
        )],
    },
    Row {
        name: "limits of floats",
        words: "dcm2csv +nh -k (0009,1001) -k (0009,1002)",
        names: &[b"x"],
        files: &[File(
            b"x",
            Start::ExplicitLittle,
            b"\t\0\x01\x10FD`\0\0\04&\xf5k\x0cC\xff\x7f\xe07y\xc3AC\0\x80\xe07y\xc3AC\0\xc0\xd0\xd35\xa5JC\xc9v\xbe\x9f\x0c$\xfe@i\x1dUM\x10u\xef>\xf1h\xe3\x88\xb5\xf8\xe4>\x8d\xed\xb5\xa0\xf7\xc6\xb0>\xf1h\xe3\x88\xb5\xf8\xb4>\xff\xff\xff\xff\xff\xff\xef\x7f\x01\0\0\0\0\0\x10C\0\0\0\0\0\00=\t\0\x02\x10FL0\0\xa5\xd4hS\0\0\0P\xe7\x84\x11U[GZU\xbd7\x865\x9cS\xc95\x95\xbf\xd63\x01\0\0J\0\0\x80\x0f\x01\0\0\0\xff\xff\x7f\x7f\0\0\x80K",
        )],
        header: b"",
        done: &[Whole(
            b"x",
            b"x",
            b"\"x\",\"1000000000000000.0\\9999999999999998.0\\1e16\\1.5e16\\123456.789\\0.000015\\0.00001\\1e-6\\1.25e-6\\1.7976931348623157e308\\1125899906842624.2\\5.684341886080802e-14\",\"1000000000000.0\\8589935000.0\\1e13\\1.5e13\\0.000001\\0.0000015\\1e-7\\2097152.2\\1.2621775e-29\\1e-45\\3.4028235e38\\16777216.0\"\n",
        )],
    },
];
