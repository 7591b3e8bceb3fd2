//! Laws of the definitions. Each function takes nothing and makes no call: its contract is the law.
ghost use Rattle.std.specs.Prelude.{◌≡◌, ◌≢◌, ℕ, ◌%◌, ℤ, negsuc, ◌≤ℤ◌, true, List, [], ◌++◌, codes, take, flat_map};
ghost use Rattle.std.specs.Int.{w64, from_be_bytes};
ghost use Rattle.dcm_uid.specs.Hmac.{hmac_sha256};
ghost use Rattle.dcm_uid.specs.Uid.{IsNewUid, is_one_uid, new_uid};
ghost use Rattle.dcm_uid.specs.Pseudonym.{DAYS, IsPseudonym, PSEUDONYM, days, hex_byte, message, patient, pseudonym};

/// Each new UID is a valid UID: the root 2.25, and at most 39 digits without leading zeros.
pub fn new_uids_are_uids()
    ensures { (key b : List ℕ) → IsNewUid (new_uid key b) }
{}

/// A patient has the same pseudonym in all files under one key.
///
/// - The pseudonym is P and twenty hexadecimal digits: the first ten bytes of the HMAC-SHA-256 of `PatientID\` and the
///   patient, under the key.
/// - A PatientID that names nobody has no pseudonym.
pub fn pseudonyms_agree()
    ensures agree { (key one other : List ℕ) → patient one ≡ patient other → pseudonym key one ≡ pseudonym key other }
    ensures none { (key value : List ℕ) → patient value ≡ [] → pseudonym key value ≡ [] }
    ensures form { (key value : List ℕ) → patient value ≢ [] → IsPseudonym (pseudonym key value) }
    ensures by_code { (key value : List ℕ) → patient value ≢ [] → pseudonym key value ≡ codes "P" ++ flat_map hex_byte
        (take 10 (hmac_sha256 key (codes "PatientID\\" ++ patient value))) }
{}

/// What is hashed for a pseudonym is never what is hashed for a date shift, and neither is a UID.
pub fn messages_differ()
    ensures apart { (one other : List ℕ) → message PSEUDONYM one ≢ message DAYS other }
    ensures no_uids { (name patient b : List ℕ) → is_one_uid b ≡ true → message name patient ≢ b }
{}

/// A patient has the same date shift in all files under one key: 1 to 3,652 days into the past.
///
/// - The number of days is 1 plus a remainder of division by 3,652. The dividend is the first eight bytes, the highest
///   one first, of the HMAC-SHA-256 of `days\` and the patient, under the key.
pub fn one_patient_one_move()
    ensures by_code { (key patient : List ℕ) → days key patient ≡ negsuc (from_be_bytes w64 (take 8 (hmac_sha256 key
        (codes "days\\" ++ patient))) % 3652) }
    ensures past { (key patient : List ℕ) → days key patient ≤ℤ negsuc 0 }
    ensures within { (key patient : List ℕ) → negsuc 3651 ≤ℤ days key patient }
{}
