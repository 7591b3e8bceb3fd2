//! Texts by what is in force.
use dcm_text::TextKind;

/// A value of (0008,0005), what kind of text it is, the text, and what a dump and a cell of a table show of it.
pub type Row = (
    &'static [u8],
    TextKind,
    &'static [u8],
    &'static str,
    &'static str,
);

/// One byte a character.
#[rattlefmt::skip]
pub static ONE_BYTE: [Row; 16] = [
    (b"", TextKind::Values, b"a\xE9\\b~", "a%E9\\b~", "a\\xe9\\b~"),
    (b"", TextKind::Values, b"a\xE9", "a%E9", "a\\xe9"),
    (b"ISO_IR 6", TextKind::Values, b"\x80\xFF%]\x7F", "%80%FF%25%5D%7F", "\\x80\\xff%]\u{7F}"),
    (b"ISO_IR 100", TextKind::Names, b"Buc^J\xE9r\xF4me", "Buc^Jérôme", "Buc^Jérôme"),
    (b"ISO_IR 101", TextKind::Names, b"Dvo\xF8\xE1k", "Dvořák", "Dvořák"),
    (b"ISO_IR 109", TextKind::Values, b"\xA1a\xB1\xA5", "Ħaħ%A5", "Ħaħ\\xa5"),
    (b"ISO_IR 110", TextKind::Values, b"J\xE0nis \xD3", "Jānis Ķ", "Jānis Ķ"),
    (b"ISO_IR 126", TextKind::Names, b"\xC4\xE9\xEF\xED\xF5\xF3\xE9\xEF\xF2\xD2", "Διονυσιος%D2", "Διονυσιος\\xd2"),
    (
        b"ISO_IR 127",
        TextKind::Names,
        b"\xE2\xC8\xC7\xE6\xEA^\xE4\xE6\xD2\xC7\xD1",
        "\u{642}\u{628}\u{627}\u{646}\u{64A}^\u{644}\u{646}\u{632}\u{627}\u{631}",
        "\u{642}\u{628}\u{627}\u{646}\u{64A}^\u{644}\u{646}\u{632}\u{627}\u{631}",
    ),
    (
        b"ISO_IR 138",
        TextKind::Names,
        b"\xF9\xF8\xE5\xEF^\xE3\xE1\xE5\xF8\xE4\xFD\xFE\xA1",
        "\u{5E9}\u{5E8}\u{5D5}\u{5DF}^\u{5D3}\u{5D1}\u{5D5}\u{5E8}\u{5D4}%FD%FE%A1",
        "\u{5E9}\u{5E8}\u{5D5}\u{5DF}^\u{5D3}\u{5D1}\u{5D5}\u{5E8}\u{5D4}\u{200E}\u{200F}\\xa1",
    ),
    (b"ISO_IR 144", TextKind::Names, b"\xBB\xEE\xDAce\xDC\xD1yp\xD3", "Люкceмбypг", "Люкceмбypг"),
    (b"ISO_IR 148", TextKind::OneValue, b"\xD0\xDD\xDE\xF0\xFD\xFE", "ĞİŞğış", "ĞİŞğış"),
    (b"ISO_IR 203", TextKind::Values, b"\xA4\xA6\xBD", "€Šœ", "€Šœ"),
    (b"ISO_IR 166", TextKind::OneValue, b"\xA1\xD2\xA0\xDB", "กา%A0%DB", "กา\\xa0\\xdb"),
    (
        b"ISO_IR 13",
        TextKind::Names,
        b"\xD4\xCF\xC0\xDE^\xC0\xDB\xB3\\~\xA0\xE0",
        "ﾔﾏﾀﾞ^ﾀﾛｳ\\~%A0%E0",
        "ﾔﾏﾀﾞ^ﾀﾛｳ\\~\\xa0\\xe0",
    ),
    (
        b"ISO_IR 100",
        TextKind::OneValue,
        b"A\x85\x92\xA0\xAD\x0A\x1B-A\xE9",
        "A%85%92\u{A0}%AD%0A%1B-Aé",
        "A\\x85\\x92\u{A0}\u{AD}\u{A}\u{1B}-Aé",
    ),
];

/// UTF-8.
#[rattlefmt::skip]
pub static UTF_8: [Row; 10] = [
    (
        b"ISO_IR 192",
        TextKind::Names,
        b"Wang^XiaoDong=\xE7\x8E\x8B^\xE5\xB0\x8F\xE4\xB8\x9C=",
        "Wang^XiaoDong=王^小东=",
        "Wang^XiaoDong=王^小东=",
    ),
    (
        b"ISO_IR 192",
        TextKind::Values,
        b"A\xC3\xA9\xE2\x82\xAC\xF0\x9F\x98\x80\xF4\x8F\xBF\xBD\\\xEE\x80\x80",
        "Aé€😀\u{10FFFD}\\\u{E000}",
        "Aé€😀\u{10FFFD}\\\u{E000}",
    ),
    (b"ISO_IR 192", TextKind::Values, b"\xFFA\xC3(\x80\xBF\xFE", "%FFA%C3(%80%BF%FE", "\\xffA\\xc3(\\x80\\xbf\\xfe"),
    (b"ISO_IR 192", TextKind::Values, b"\xE2\x82A\xF0\x9F\x98", "%E2%82A%F0%9F%98", "\\xe2\\x82A\\xf0\\x9f\\x98"),
    (
        b"ISO_IR 192",
        TextKind::Values,
        b"\xC0\x80\xC1\xBF\xE0\x80\x9F\xF0\x80\x80\x80\xE0\x9F\xBF",
        "%C0%80%C1%BF%E0%80%9F%F0%80%80%80%E0%9F%BF",
        "\\xc0\\x80\\xc1\\xbf\\xe0\\x80\\x9f\\xf0\\x80\\x80\\x80\\xe0\\x9f\\xbf",
    ),
    (
        b"ISO_IR 192",
        TextKind::Values,
        b"\xED\xA0\x80\xED\xBF\xBF\xF4\x90\x80\x80\xED\x9F\xBF",
        "%ED%A0%80%ED%BF%BF%F4%90%80%80\u{D7FF}",
        "\\xed\\xa0\\x80\\xed\\xbf\\xbf\\xf4\\x90\\x80\\x80\u{D7FF}",
    ),
    (
        b"ISO_IR 192",
        TextKind::Values,
        b"\xC2\x85\xE2\x80\xAE\xE2\x80\xA8\xEF\xBB\xBF\xE2\x8F\xB0\xE2\x81\xA6\xD8\x9C\xC2\xAD\xE2\x80\x8B\xEF\xBF\xBE\xF3\xA0\x80\x81a",
        "%C2%85%E2%80%AE%E2%80%A8%EF%BB%BF⏰%E2%81%A6%D8%9C%C2%AD%E2%80%8B%EF%BF%BE%F3%A0%80%81a",
        "\u{85}\u{202E}\u{2028}\u{FEFF}⏰\u{2066}\u{61C}\u{AD}\u{200B}\u{FFFE}\u{E0001}a",
    ),
    (
        b"ISO_IR 192",
        TextKind::Values,
        b"\xE2\x80\x8D\xE2\x80\x8C\xEF\xBF\xBD\xCC\x81\xE8\x88\x80\xF3\xA0\x84\x80\xC2\xA0",
        "\u{200D}\u{200C}�\u{301}舀\u{E0100}\u{A0}",
        "\u{200D}\u{200C}�\u{301}舀\u{E0100}\u{A0}",
    ),
    (b"ISO_IR 192", TextKind::Values, b"\x1B$B\xC3\xA9", "%1B$Bé", "\u{1B}$Bé"),
    (b"ISO_IR 192\\ISO 2022 IR 87", TextKind::Values, b"\x1B$B;3\xC3\xA9", "%1B$B;3é", "\u{1B}$B;3é"),
];

/// Code extensions.
#[rattlefmt::skip]
pub static EXTENDED: [Row; 18] = [
    (
        b"\\ISO 2022 IR 87",
        TextKind::Names,
        b"Yamada^Tarou=\x1B$B;3ED\x1B(B^\x1B$BB@O:\x1B(B=\x1B$B$d$^$@\x1B(B^\x1B$B$?$m$&\x1B(B",
        "Yamada^Tarou=山田^太郎=やまだ^たろう",
        "Yamada^Tarou=山田^太郎=やまだ^たろう",
    ),
    (
        b"ISO 2022 IR 13\\ISO 2022 IR 87",
        TextKind::Names,
        b"\xD4\xCF\xC0\xDE^\xC0\xDB\xB3=\x1B$B;3ED\x1B(J^\x1B$BB@O:\x1B(J=\x1B$B$d$^$@\x1B(J^\x1B$B$?$m$&\x1B(J",
        "ﾔﾏﾀﾞ^ﾀﾛｳ=山田^太郎=やまだ^たろう",
        "ﾔﾏﾀﾞ^ﾀﾛｳ=山田^太郎=やまだ^たろう",
    ),
    (
        b"\\ISO 2022 IR 149",
        TextKind::Names,
        b"Hong^Gildong=\x1B$)C\xFB\xF3^\x1B$)C\xD1\xCE\xD4\xD7=\x1B$)C\xC8\xAB^\x1B$)C\xB1\xE6\xB5\xBF",
        "Hong^Gildong=洪^吉洞=홍^길동",
        "Hong^Gildong=洪^吉洞=홍^길동",
    ),
    (
        b"\\ISO 2022 IR 149",
        TextKind::OneValue,
        b"\x1B$)CThe 1st line includes \xB1\xE6\xB5\xBF.\x0D\x0A\x1B$)CThe 2nd line includes \xB1\xE6\xB5\xBF, too.\x0D\x0AThe 3rd line",
        "The 1st line includes 길동.%0D%0AThe 2nd line includes 길동, too.%0D%0AThe 3rd line",
        "The 1st line includes 길동.\u{D}\u{A}The 2nd line includes 길동, too.\u{D}\u{A}The 3rd line",
    ),
    (
        b"\\ISO 2022 IR 58",
        TextKind::Names,
        b"Zhang^XiaoDong=\x1B$)A\xD5\xC5^\x1B$)A\xD0\xA1\xB6\xAB=",
        "Zhang^XiaoDong=张^小东=",
        "Zhang^XiaoDong=张^小东=",
    ),
    (
        b"\\ISO 2022 IR 58",
        TextKind::OneValue,
        b"\x1B$)A\xB5\xDA\xD2\xBB\xD0\xD0\xCE\xC4\xD7\xD6\xA1\xA3\x0D\x0A\x1B$)A\xB5\xDA\xB6\xFE\xD0\xD0\xA1\xA4\xA1\xAA",
        "第一行文字。%0D%0A第二行・―",
        "第一行文字。\u{D}\u{A}第二行・―",
    ),
    (
        b"\\ISO 2022 IR 6\\ISO 2022 IR 13\\ISO 2022 IR 100\\ISO 2022 IR 101\\ISO 2022 IR 109\\ISO 2022 IR 110\\ISO 2022 IR 126\\ISO 2022 IR 127\\ISO 2022 IR 138\\ISO 2022 IR 144\\ISO 2022 IR 148\\ISO 2022 IR 166\\ISO 2022 IR 203\\ISO 2022 IR 87\\ISO 2022 IR 159\\ISO 2022 IR 149\\ISO 2022 IR 58",
        TextKind::Values,
        b"\x1B-A\xE9\x1B-B\xF8\x1B-C\xB1\x1B-D\xE0\x1B-F\xC4\x1B-G\xE2\x1B-H\xF9\x1B-L\xBB\x1B-M\xFE\x1B-T\xA1\x1B-b\xA4\x1B)I\xD4\x1B$)C\xFB\xF3\x1B$)A\xCD\xF5",
        "éřħāΔ\u{642}\u{5E9}Лşก€ﾔ洪王",
        "éřħāΔ\u{642}\u{5E9}Лşก€ﾔ洪王",
    ),
    (b"ISO 2022 IR 100", TextKind::Values, b"\xE9\x1B-A\xE9\x1B(B\x1B-L", "éé%1B-L", "éé\\x1b-L"),
    (b"ISO 2022 IR 149", TextKind::Names, b"\xFB\xF3^\xD1\xCE\xD4\xD7", "洪^吉洞", "洪^吉洞"),
    (b"ISO 2022 IR 87", TextKind::Values, b"\x1B$B;3\x1B(J\\\xE9", "山\\%E9", "山\\\\xe9"),
    (
        b"\\ISO 2022 IR 87",
        TextKind::Values,
        b"a\x1B-Ab\xE9\x1B$)C\x1B$B;3",
        "a%1B-Ab%E9%1B$)C山",
        "a\\x1b-Ab\\xe9\\x1b$)C山",
    ),
    (b"ISO_IR 100", TextKind::Values, b"\x1B-L\xE9\x1B(B", "%1B-Lé%1B(B", "\u{1B}-Lé\u{1B}(B"),
    (b"ISO_IR 100\\ISO_IR 144", TextKind::Values, b"\xE9\x1B-L\xB6", "éЖ", "éЖ"),
    (b"\\ISO 2022 IR 87", TextKind::Values, b"a\x1B$\x1B(\x1B", "a%1B$%1B(%1B", "a\\x1b$\\x1b(\\x1b"),
    (
        b"ISO 2022 IR 100\\ISO 2022 IR 87",
        TextKind::Values,
        b"\xE9\x1B$B;3\xE93D\xE9\x1B(B;3\xE9",
        "é山é劃é;3é",
        "é山é劃é;3é",
    ),
    (
        b"\\ISO 2022 IR 87",
        TextKind::OneValue,
        b"\x1B$B;3 ;\x0A;3\x1B$B)!3\x1B(B3",
        "山 %3B%0A;3%29%21%333",
        "山 \\x3b\u{A};3\\x29\\x21\\x333",
    ),
    (b"\\ISO 2022 IR 87", TextKind::OneValue, b"\x1B$B;3;", "山%3B", "山\\x3b"),
    (
        b"\\ISO 2022 IR 149",
        TextKind::OneValue,
        b"\x1B$)C\xA2\xE8\xA4\xD4\xC9\xA1\xFBA\xA1\xFF\x80",
        "㉾%A4%D4%C9%A1%FBA%A1%FF%80",
        "㉾\u{3164}\\xc9\\xa1\\xfbA\\xa1\\xff\\x80",
    ),
];

/// What brings the start back.
#[rattlefmt::skip]
pub static RESETS: [Row; 7] = [
    (b"\\ISO 2022 IR 87\\ISO 2022 IR 144", TextKind::Values, b"\x1B-L\xB6\\\xB6", "Ж\\%B6", "Ж\\\\xb6"),
    (b"ISO 2022 IR 100\\ISO 2022 IR 144", TextKind::Values, b"\x1B-L\xB6\\\xB6", "Ж\\¶", "Ж\\¶"),
    (
        b"ISO 2022 IR 100\\ISO 2022 IR 144",
        TextKind::OneValue,
        b"\x1B-L\xB6\\\xB6=^\xB6\x7F\xB6",
        "Ж\\Ж=^Ж%7FЖ",
        "Ж\\Ж=^Ж\u{7F}Ж",
    ),
    (
        b"ISO 2022 IR 100\\ISO 2022 IR 144",
        TextKind::OneValue,
        b"\x1B-L\xB6\x0A\xB6\x1B-L\xB6\x0D\xB6\x1B-L\xB6\x09\xB6\x1B-L\xB6\x0C\xB6\x1B-L\xB6\x00\xB6\x1B-L\xB6\x0E\xB6",
        "Ж%0A¶Ж%0D¶Ж%09¶Ж%0C¶Ж%00¶Ж%0E¶",
        "Ж\u{A}¶Ж\u{D}¶Ж\u{9}¶Ж\u{C}¶Ж\u{0}¶Ж\u{E}¶",
    ),
    (
        b"ISO 2022 IR 100\\ISO 2022 IR 144",
        TextKind::Names,
        b"\x1B-L\xB6^\xB6\x1B-L\xB6=\xB6\x1B-L\xB6,\xB6\\\xB6",
        "Ж^¶Ж=¶Ж,Ж\\¶",
        "Ж^¶Ж=¶Ж,Ж\\¶",
    ),
    (b"ISO 2022 IR 100\\ISO 2022 IR 144", TextKind::Values, b"\x1B-L\xB6^=\xB6", "Ж^=Ж", "Ж^=Ж"),
    (b"\\ISO 2022 IR 87", TextKind::Names, b"\x1B$B=\\\\!^=$^=U\x1B(B\\A", "旬棔渊ま春\\A", "旬棔渊ま春\\A"),
];

/// Terms.
#[rattlefmt::skip]
pub static TERMS: [Row; 4] = [
    (b"FOO", TextKind::Values, b"a\xE9\x1B(B", "a%E9%1B(B", "a\\xe9\u{1B}(B"),
    (b"FOO\\ISO 2022 IR 87\\ISO_IR 192", TextKind::Values, b"\xC3\xA9\x1B$B;3", "%C3%A9山", "\\xc3\\xa9山"),
    (b"ISO 2022 IR 192", TextKind::Values, b"\xC3\xA9", "%C3%A9", "\\xc3\\xa9"),
    (b"iso_ir 100", TextKind::Values, b"\xE9", "%E9", "\\xe9"),
];

/// The first and the last characters of tables, and what is beside them.
#[rattlefmt::skip]
pub static EDGES: [Row; 15] = [
    (
        b"\\ISO 2022 IR 87",
        TextKind::OneValue,
        b"\x1B$B!!!~(!(@)!/!0!0~t!t&u!",
        "\u{3000}◇─╂%29%21%2F%21亜蔭堯熙%75%21",
        "\u{3000}◇─╂\\x29\\x21\\x2f\\x21亜蔭堯熙\\x75\\x21",
    ),
    (
        b"\\ISO 2022 IR 149",
        TextKind::OneValue,
        b"\x1B$)C\xA1\xA1\xA1\xFE\xAC\xA1\xAC\xF1\xAD\xA1\xAF\xA1\xB0\xA1\xB0\xFE\xC8\xA1\xC8\xFE\xC9\xA1\xC9\xA1\xCA\xA1\xCA\xFE\xFD\xA1\xFD\xFE\xFE\xA1",
        "\u{3000}￢Ая%AD%A1%AF%A1가괆혤힝%C9%A1%C9%A1伽龕爻詰%FE%A1",
        "\u{3000}￢Ая\\xad\\xa1\\xaf\\xa1가괆혤힝\\xc9\\xa1\\xc9\\xa1伽龕爻詰\\xfe\\xa1",
    ),
    (
        b"\\ISO 2022 IR 58",
        TextKind::OneValue,
        b"\x1B$)A\xA1\xA1\xA1\xFE\xA9\xA4\xA9\xEF\xAA\xA1\xAF\xA1\xB0\xA1\xB0\xFE\xF7\xA1\xF7\xFE\xF8\xA1",
        "\u{3000}〓─╋%AA%A1%AF%A1啊剥鳌齄%F8%A1",
        "\u{3000}〓─╋\\xaa\\xa1\\xaf\\xa1啊剥鳌齄\\xf8\\xa1",
    ),
    (
        b"ISO_IR 100",
        TextKind::OneValue,
        b"\x7F\x80\x9F\xA0\xA0\xA1\xFE\xFF\xFF",
        "%7F%80%9F\u{A0}\u{A0}¡þÿÿ",
        "\u{7F}\\x80\\x9f\u{A0}\u{A0}¡þÿÿ",
    ),
    (
        b"ISO_IR 101",
        TextKind::OneValue,
        b"\x7F\x80\x9F\xA0\xA0\xA1\xFE\xFF\xFF",
        "%7F%80%9F\u{A0}\u{A0}Ąţ˙˙",
        "\u{7F}\\x80\\x9f\u{A0}\u{A0}Ąţ˙˙",
    ),
    (
        b"ISO_IR 109",
        TextKind::OneValue,
        b"\x7F\x80\x9F\xA0\xA0\xA1\xFE\xFF\xFF",
        "%7F%80%9F\u{A0}\u{A0}Ħŝ˙˙",
        "\u{7F}\\x80\\x9f\u{A0}\u{A0}Ħŝ˙˙",
    ),
    (
        b"ISO_IR 110",
        TextKind::OneValue,
        b"\x7F\x80\x9F\xA0\xA0\xA1\xFE\xFF\xFF",
        "%7F%80%9F\u{A0}\u{A0}Ąū˙˙",
        "\u{7F}\\x80\\x9f\u{A0}\u{A0}Ąū˙˙",
    ),
    (
        b"ISO_IR 144",
        TextKind::OneValue,
        b"\x7F\x80\x9F\xA0\xA0\xA1\xFE\xFF\xFF",
        "%7F%80%9F\u{A0}\u{A0}Ёўџџ",
        "\u{7F}\\x80\\x9f\u{A0}\u{A0}Ёўџџ",
    ),
    (
        b"ISO_IR 127",
        TextKind::OneValue,
        b"\x7F\x80\x9F\xA0\xA0\xA4\xF1\xF2\xFF",
        "%7F%80%9F\u{A0}\u{A0}¤\u{651}\u{652}%FF",
        "\u{7F}\\x80\\x9f\u{A0}\u{A0}¤\u{651}\u{652}\\xff",
    ),
    (
        b"ISO_IR 126",
        TextKind::OneValue,
        b"\x7F\x80\x9F\xA0\xA0\xA1\xFD\xFE\xFF",
        "%7F%80%9F\u{A0}\u{A0}‘ύώ%FF",
        "\u{7F}\\x80\\x9f\u{A0}\u{A0}‘ύώ\\xff",
    ),
    (
        b"ISO_IR 138",
        TextKind::OneValue,
        b"\x7F\x80\x9F\xA0\xA0\xA2\xFD\xFE\xFF",
        "%7F%80%9F\u{A0}\u{A0}¢%FD%FE%FF",
        "\u{7F}\\x80\\x9f\u{A0}\u{A0}¢\u{200E}\u{200F}\\xff",
    ),
    (
        b"ISO_IR 148",
        TextKind::OneValue,
        b"\x7F\x80\x9F\xA0\xA0\xA1\xFE\xFF\xFF",
        "%7F%80%9F\u{A0}\u{A0}¡şÿÿ",
        "\u{7F}\\x80\\x9f\u{A0}\u{A0}¡şÿÿ",
    ),
    (
        b"ISO_IR 203",
        TextKind::OneValue,
        b"\x7F\x80\x9F\xA0\xA0\xA1\xFE\xFF\xFF",
        "%7F%80%9F\u{A0}\u{A0}¡þÿÿ",
        "\u{7F}\\x80\\x9f\u{A0}\u{A0}¡þÿÿ",
    ),
    (
        b"ISO_IR 166",
        TextKind::OneValue,
        b"\x7F\x80\x9F\xA0\xA1\xA2\xFA\xFB\xFF",
        "%7F%80%9F%A0กข๚๛%FF",
        "\u{7F}\\x80\\x9f\\xa0กข๚๛\\xff",
    ),
    (
        b"ISO_IR 13",
        TextKind::OneValue,
        b"\x7F\x80\x9F\xA0\xA1\xA2\xDE\xDF\xFF",
        "%7F%80%9F%A0｡｢ﾞﾟ%FF",
        "\u{7F}\\x80\\x9f\\xa0｡｢ﾞﾟ\\xff",
    ),
];

/// GB18030 and ISO-IR 159, and the edges of their tables.
#[rattlefmt::skip]
pub static LONGER: [Row; 14] = [
    (
        b"GB18030",
        TextKind::Names,
        b"Wang^XiaoDong=\xCD\xF5^\xD0\xA1\xB6\xAB=",
        "Wang^XiaoDong=王^小东=",
        "Wang^XiaoDong=王^小东=",
    ),
    (
        b"GB18030",
        TextKind::Values,
        b"\x952\x826\x811\x810\x810\x810\xE32\x9A5\xFE9\xFE9",
        "𠀀\u{60A}%81%30%81%30%E3%32%9A%35%FE%39%FE%39",
        "𠀀\u{60A}\u{80}\u{10FFFF}\\xfe\\x39\\xfe\\x39",
    ),
    (
        b"GBK",
        TextKind::Values,
        b"\x81\\\\\x81\\\x952\x826",
        "乗\\乗𠀀",
        "乗\\乗𠀀",
    ),
    (
        b"GB18030",
        TextKind::Values,
        b"\xD5]]\xA6\\\\",
        "誡%5D\u{E6C2}\\",
        "誡]\u{E6C2}\\",
    ),
    (
        b"GB18030",
        TextKind::Values,
        b"\x81 \x80\xFFA\x810A\x810\x81 \x81\xFF",
        "%81 %80%FFA%810A%810%81 %81%FF",
        "\\x81 \\x80\\xffA\\x810A\\x810\\x81 \\x81\\xff",
    ),
    (
        b"GB18030",
        TextKind::OneValue,
        b"A\x810\x81",
        "A%810%81",
        "A\\x810\\x81",
    ),
    (
        b"GB18030\\ISO 2022 IR 87",
        TextKind::Values,
        b"\x1B$B;3",
        "%1B$B;3",
        "\u{1B}$B;3",
    ),
    (
        b"ISO 2022 IR 6\\GB18030",
        TextKind::Values,
        b"\xCD\xF5",
        "%CD%F5",
        "\\xcd\\xf5",
    ),
    (
        b"\\ISO 2022 IR 6\\ISO 2022 IR 13\\ISO 2022 IR 100\\ISO 2022 IR 101\\ISO 2022 IR 109\\ISO 2022 IR 110\\ISO 2022 IR 126\\ISO 2022 IR 127\\ISO 2022 IR 138\\ISO 2022 IR 144\\ISO 2022 IR 148\\ISO 2022 IR 166\\ISO 2022 IR 203\\ISO 2022 IR 87\\ISO 2022 IR 159\\ISO 2022 IR 149\\ISO 2022 IR 58",
        TextKind::Values,
        b"\x1B$B;3\x1B$(D0!\"7\x1B(J~\x1B$B;3\x1B(BA",
        "山丂\u{FF5E}~山A",
        "山丂\u{FF5E}~山A",
    ),
    (
        b"ISO 2022 IR 159",
        TextKind::Values,
        b"\x1B$(D0!\\0!\x1B(J~",
        "丂衜%21~",
        "丂衜\\x21~",
    ),
    (
        b"\\ISO 2022 IR 159",
        TextKind::Names,
        b"\x1B$(D0!0\"^0!\x1B$(D!!~~",
        "丂丄諟%21%21%21%7E%7E",
        "丂丄諟\\x21\\x21\\x21\\x7e\\x7e",
    ),
    (
        b"GB18030",
        TextKind::Values,
        b"\x81@\x81~\x81\x80\x81\xFE\xAA\xFE\xAB@\xD4\xFE\xD5@\xFE@\xFE\xFE",
        "丂亊亐侢\u{E05D}獲轧誁\u{FA0C}\u{E4C5}",
        "丂亊亐侢\u{E05D}獲轧誁\u{FA0C}\u{E4C5}",
    ),
    (
        b"GB18030",
        TextKind::Values,
        b"\x810\x810\x841\xA49\x841\xA50\x900\x810\xE32\x9A5\xE32\x9A6",
        "%81%30%81%30%84%31%A4%39%84%31%A5%30\u{10000}%E3%32%9A%35%E3%32%9A%36",
        "\u{80}\u{FFFF}\\x84\\x31\\xa5\\x30\u{10000}\u{10FFFF}\\xe3\\x32\\x9a\\x36",
    ),
    (
        b"\\ISO 2022 IR 159",
        TextKind::Values,
        b"\x1B$(D\"/&a'B)!+w0!m~n!",
        "\u{2D8}\u{386}\u{402}Æż丂%6D%7E%6E%21",
        "\u{2D8}\u{386}\u{402}Æż丂\\x6d\\x7e\\x6e\\x21",
    ),
];
