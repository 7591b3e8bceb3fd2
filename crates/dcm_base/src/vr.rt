ghost use Rattle.std.specs.Prelude.{◌≡◌, find, bytes_eq, IfSome};
ghost use Rattle.std.specs.Option.{option_copied};
ghost use Rattle.dcm_base.specs.Tables.Representation as spec;

/// The value representations (PS3.5 6.2).
#[derive(Clone, Copy, Debug, PartialEq, Eq)]
pub enum Vr {
    AE,
    AS,
    AT,
    CS,
    DA,
    DS,
    DT,
    FD,
    FL,
    IS,
    LO,
    LT,
    OB,
    OD,
    OF,
    OL,
    OV,
    OW,
    PN,
    SH,
    SL,
    SQ,
    SS,
    ST,
    SV,
    TM,
    UC,
    UI,
    UL,
    UN,
    UR,
    US,
    UT,
    UV,
}

/// The value representations and their letters (PS3.5 6.2).
pub const LETTERS: [(Vr, [u8; 2]); 34] = [
    (Vr::AE, *b"AE"),
    (Vr::AS, *b"AS"),
    (Vr::AT, *b"AT"),
    (Vr::CS, *b"CS"),
    (Vr::DA, *b"DA"),
    (Vr::DS, *b"DS"),
    (Vr::DT, *b"DT"),
    (Vr::FD, *b"FD"),
    (Vr::FL, *b"FL"),
    (Vr::IS, *b"IS"),
    (Vr::LO, *b"LO"),
    (Vr::LT, *b"LT"),
    (Vr::OB, *b"OB"),
    (Vr::OD, *b"OD"),
    (Vr::OF, *b"OF"),
    (Vr::OL, *b"OL"),
    (Vr::OV, *b"OV"),
    (Vr::OW, *b"OW"),
    (Vr::PN, *b"PN"),
    (Vr::SH, *b"SH"),
    (Vr::SL, *b"SL"),
    (Vr::SQ, *b"SQ"),
    (Vr::SS, *b"SS"),
    (Vr::ST, *b"ST"),
    (Vr::SV, *b"SV"),
    (Vr::TM, *b"TM"),
    (Vr::UC, *b"UC"),
    (Vr::UI, *b"UI"),
    (Vr::UL, *b"UL"),
    (Vr::UN, *b"UN"),
    (Vr::UR, *b"UR"),
    (Vr::US, *b"US"),
    (Vr::UT, *b"UT"),
    (Vr::UV, *b"UV"),
];

impl Vr {
    /// Whether an explicit head has two reserved bytes and a length of four.
    pub fn is_long(self) -> bool
        ensures { result ≡ spec.is_long self }
    {
        matches!(
            self,
            Vr::OB
                | Vr::OD
                | Vr::OF
                | Vr::OL
                | Vr::OV
                | Vr::OW
                | Vr::SQ
                | Vr::SV
                | Vr::UC
                | Vr::UN
                | Vr::UR
                | Vr::UT
                | Vr::UV
        )
    }

    /// The bytes of one unit, in which a big endian value is turned round.
    pub fn unit(self) -> usize
        ensures { result ≡ spec.unit self }
    {
        match self {
            Vr::AT | Vr::US | Vr::SS | Vr::OW => 2,
            Vr::UL | Vr::SL | Vr::FL | Vr::OF | Vr::OL => 4,
            Vr::FD | Vr::OD | Vr::OV | Vr::SV | Vr::UV => 8,
            _ => 1,
        }
    }

    /// Whether a value is a text of characters (PS3.5 6.2). A unique identifier is none.
    pub fn is_text(self) -> bool
        ensures { result ≡ spec.is_text self }
    {
        matches!(
            self,
            Vr::AE
                | Vr::AS
                | Vr::CS
                | Vr::DA
                | Vr::DS
                | Vr::DT
                | Vr::IS
                | Vr::LO
                | Vr::LT
                | Vr::PN
                | Vr::SH
                | Vr::ST
                | Vr::TM
                | Vr::UC
                | Vr::UR
                | Vr::UT
        )
    }

    /// The byte that makes an odd value even: a space after a text, and 00 after all others.
    pub fn pad(self) -> u8
        ensures { result ≡ spec.pad self }
    {
        if self.is_text() { b' ' } else { 0 }
    }

    /// The two letters of a VR.
    #[tactic(auto, unfolding(crate::specs::Tables::Representation::letters))]
    pub fn letters(self) -> [u8; 2]
        ensures { result ≡ spec.letters self }
    {
        let rows = &LETTERS;
        rows[self as usize].1
    }
}

/// Whether a row has the letters.
fn has_letters(row: &(Vr, [u8; 2]), letters: &[u8; 2]) -> bool
    ensures { result ≡ bytes_eq row.now.1 letters.now }
{
    let [first, second] = row.1;
    first == letters[0] && second == letters[1]
}

/// The row that has the letters.
fn lettered<'a>(rows: &'a [(Vr, [u8; 2])], letters: &[u8; 2]) -> Option<&'a (Vr, [u8; 2])>
    ensures { option_copied result ≡ find (λ r. bytes_eq r.1 letters.now) rows.now }
{
    rows.iter().find(|row| has_letters(row, letters))
}

/// Guesses of the value representation of two letters. They are wrong for AT and SV alone. It is a static: of a
/// constant each look-up would put all 64 together on the stack.
static GUESSES: [Vr; 64] = [
    Vr::UN,
    Vr::UN,
    Vr::PN,
    Vr::UN,
    Vr::UN,
    Vr::OV,
    Vr::UN,
    Vr::UN,
    Vr::US,
    Vr::UN,
    Vr::AE,
    Vr::DA,
    Vr::UN,
    Vr::UN,
    Vr::SS,
    Vr::UN,
    Vr::UN,
    Vr::OB,
    Vr::UI,
    Vr::UN,
    Vr::IS,
    Vr::OF,
    Vr::OW,
    Vr::TM,
    Vr::UN,
    Vr::DS,
    Vr::UN,
    Vr::UR,
    Vr::AS,
    Vr::UN,
    Vr::CS,
    Vr::UV,
    Vr::LT,
    Vr::UL,
    Vr::UN,
    Vr::UN,
    Vr::UN,
    Vr::UN,
    Vr::UN,
    Vr::SL,
    Vr::DT,
    Vr::UN,
    Vr::UN,
    Vr::SH,
    Vr::SQ,
    Vr::LO,
    Vr::UN,
    Vr::UN,
    Vr::UN,
    Vr::UN,
    Vr::FL,
    Vr::OD,
    Vr::UN,
    Vr::UN,
    Vr::UN,
    Vr::UN,
    Vr::UC,
    Vr::UT,
    Vr::FD,
    Vr::OL,
    Vr::UN,
    Vr::UN,
    Vr::UN,
    Vr::ST,
];

/// The value representation that two letters are guessed to be, where it has them.
#[inline(always)]
fn guessed(letters: &[u8; 2]) -> Option<Vr>
    ensures { IfSome result (λ v. spec.letters v ≡ letters.now) }
{
    let place = (usize::from(letters[0]) ^ (usize::from(letters[1]) * 15)) % GUESSES.len();
    let guess = GUESSES[place];
    if guess.letters() == *letters {
        return Some(guess);
    }
    None
}

/// The value representation of two letters. Where the guess is wrong, the rows are searched.
#[tactic(auto, unfolding(crate::specs::Tables::Representation::vr_of))]
#[inline]
pub fn vr_of(letters: &[u8; 2]) -> Option<Vr>
    ensures { result ≡ spec.vr_of letters.now }
{
    if let Some(vr) = guessed(letters) {
        return Some(vr);
    }
    let row = lettered(&LETTERS, letters)?;
    Some(row.0)
}
