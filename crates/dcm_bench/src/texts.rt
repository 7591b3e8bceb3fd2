// Texts of values.
use crate::random::Random;
use arrayvec::ArrayVec;
use itoa::Buffer;

/// The most bytes of a text.
const MOST: usize = 192;

/// A text of a value.
pub type Text = ArrayVec<u8, MOST>;

/// Words of reports, and of descriptions.
const WORDS: [&[u8]; 16] = [
    b"nothing",
    b"remarkable",
    b"left",
    b"upper",
    b"lobe",
    b"of",
    b"the",
    b"lung",
    b"contrast",
    b"axial",
    b"measured",
    b"without",
    b"change",
    b"since",
    b"lesion",
    b"T2",
];

/// Names of families and persons, some with letters beyond ASCII (ISO 8859-1).
const NAMES: [&[u8]; 8] = [
    b"Miller",
    b"Jones",
    b"M\xfcller",
    b"Garc\xeda",
    b"Nguyen",
    b"Anna",
    b"John",
    b"Renata Maria",
];

/// Appends what has room.
pub fn add(text: &mut Text, bytes: &[u8]) {
    let _ = text.try_extend_from_slice(bytes);
}

/// Appends a number in decimal digits.
pub fn add_number(text: &mut Text, number: u64) {
    let mut buffer = Buffer::new();
    add(text, buffer.format(number).as_bytes());
}

/// A text with a number in it.
pub fn numbered(front: &[u8], number: u64, back: &[u8]) -> Text {
    let mut text = Text::new();
    add(&mut text, front);
    add_number(&mut text, number);
    add(&mut text, back);
    text
}

/// A number with as many leading zeros as it takes for two digits.
fn add_pair(text: &mut Text, number: u32) {
    if number < 10 {
        add(text, b"0");
    }
    add_number(text, u64::from(number));
}

/// So many words.
pub fn words(random: &mut Random, count: u32) -> Text {
    let mut text = Text::new();
    for _word in 0..count {
        if !text.is_empty() {
            add(&mut text, b" ");
        }
        add(&mut text, WORDS[random.below(16) as usize]);
    }
    text
}

/// The name of a person.
pub fn name(random: &mut Random) -> Text {
    let mut text = Text::new();
    add(&mut text, NAMES[random.below(8) as usize]);
    add(&mut text, b"^");
    add(&mut text, NAMES[random.below(8) as usize]);
    text
}

/// A unique identifier.
pub fn uid(random: &mut Random) -> Text {
    let mut text = numbered(b"1.2.840.113619.2.", u64::from(random.below(1000)), b".");
    add_number(&mut text, random.number());
    text
}

/// A date.
pub fn date(random: &mut Random) -> Text {
    let mut text = numbered(b"20", u64::from(10 + random.below(16)), b"");
    add_pair(&mut text, 1 + random.below(12));
    add_pair(&mut text, 1 + random.below(28));
    text
}

/// A time.
pub fn time(random: &mut Random) -> Text {
    let mut text = Text::new();
    add_pair(&mut text, random.below(24));
    add_pair(&mut text, random.below(60));
    add_pair(&mut text, random.below(60));
    add(&mut text, b".");
    add_number(&mut text, u64::from(100_000 + random.below(900_000)));
    text
}

/// So many decimal numbers.
pub fn decimals(random: &mut Random, count: u32) -> Text {
    let mut text = Text::new();
    for _number in 0..count {
        if !text.is_empty() {
            add(&mut text, b"\\");
        }
        if random.below(3) == 0 {
            add(&mut text, b"-");
        }
        let thousandths = random.below(500_000);
        add_number(&mut text, u64::from(thousandths / 1000));
        add(&mut text, b".");
        add_number(&mut text, u64::from(thousandths % 1000));
    }
    text
}
