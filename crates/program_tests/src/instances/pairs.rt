// Pairs of readers.

/// What two readers give: so many times ten digits, and then bytes of their own.
#[derive(Clone, Copy)]
pub struct Pair {
    pub name: &'static str,
    pub times: usize,
    pub first: &'static [u8],
    pub second: &'static [u8],
    /// How many calls of the first one go well.
    pub good: usize,
    pub same: bool,
}

/// All pairs.
pub static PAIRS: [Pair; 9] = [
    Pair {
        name: "nothing",
        times: 0,
        first: b"",
        second: b"",
        good: usize::MAX,
        same: true,
    },
    Pair {
        name: "the same",
        times: 4,
        first: b"abc",
        second: b"abc",
        good: usize::MAX,
        same: true,
    },
    Pair {
        name: "the same, of more than a buffer",
        times: 1639,
        first: b"abc",
        second: b"abc",
        good: usize::MAX,
        same: true,
    },
    Pair {
        name: "the same, of just a buffer",
        times: 1638,
        first: b"abcd",
        second: b"abcd",
        good: usize::MAX,
        same: true,
    },
    Pair {
        name: "the first is a beginning",
        times: 1638,
        first: b"abcd",
        second: b"abcde",
        good: usize::MAX,
        same: false,
    },
    Pair {
        name: "the second is a beginning",
        times: 1,
        first: b"a",
        second: b"",
        good: usize::MAX,
        same: false,
    },
    Pair {
        name: "the last byte",
        times: 1700,
        first: b"a",
        second: b"b",
        good: usize::MAX,
        same: false,
    },
    Pair {
        name: "no call goes well",
        times: 0,
        first: b"",
        second: b"",
        good: 0,
        same: false,
    },
    Pair {
        name: "the end is not reached",
        times: 0,
        first: b"a",
        second: b"a",
        good: 1,
        same: false,
    },
];
