// The block rows of the three rates as lists of terms: which permutation of which group is added. Groups are
// numbered from 0: the message, then the parity a and b, then the punctured group z. FIRST and SECOND are
// whole block rows; THIRD lacks its last summand, z itself. ASKED is the second without b, which the check coder
// solves with; the message's part of the third stands at its front, and the first without a behind its first summand.
use qc::Term;

// Rate 1/2: 2 message groups.
pub(crate) static HALF_FIRST: [Term; 3] = [
    Term {
        permutation: 0,
        group: 2,
    },
    Term {
        permutation: 0,
        group: 4,
    },
    Term {
        permutation: 1,
        group: 4,
    },
];

pub(crate) static HALF_SECOND: [Term; 6] = [
    Term {
        permutation: 0,
        group: 0,
    },
    Term {
        permutation: 0,
        group: 1,
    },
    Term {
        permutation: 0,
        group: 3,
    },
    Term {
        permutation: 2,
        group: 4,
    },
    Term {
        permutation: 3,
        group: 4,
    },
    Term {
        permutation: 4,
        group: 4,
    },
];

pub(crate) static HALF_THIRD: [Term; 5] = [
    Term {
        permutation: 0,
        group: 0,
    },
    Term {
        permutation: 5,
        group: 1,
    },
    Term {
        permutation: 6,
        group: 1,
    },
    Term {
        permutation: 7,
        group: 3,
    },
    Term {
        permutation: 8,
        group: 3,
    },
];

pub(crate) static HALF_ASKED: [Term; 5] = [
    Term {
        permutation: 0,
        group: 0,
    },
    Term {
        permutation: 0,
        group: 1,
    },
    Term {
        permutation: 2,
        group: 4,
    },
    Term {
        permutation: 3,
        group: 4,
    },
    Term {
        permutation: 4,
        group: 4,
    },
];

// Rate 2/3: 4 message groups.
pub(crate) static TWO_THIRDS_FIRST: [Term; 3] = [
    Term {
        permutation: 0,
        group: 4,
    },
    Term {
        permutation: 0,
        group: 6,
    },
    Term {
        permutation: 1,
        group: 6,
    },
];

pub(crate) static TWO_THIRDS_SECOND: [Term; 10] = [
    Term {
        permutation: 9,
        group: 0,
    },
    Term {
        permutation: 10,
        group: 0,
    },
    Term {
        permutation: 11,
        group: 0,
    },
    Term {
        permutation: 0,
        group: 1,
    },
    Term {
        permutation: 0,
        group: 2,
    },
    Term {
        permutation: 0,
        group: 3,
    },
    Term {
        permutation: 0,
        group: 5,
    },
    Term {
        permutation: 2,
        group: 6,
    },
    Term {
        permutation: 3,
        group: 6,
    },
    Term {
        permutation: 4,
        group: 6,
    },
];

pub(crate) static TWO_THIRDS_THIRD: [Term; 9] = [
    Term {
        permutation: 0,
        group: 0,
    },
    Term {
        permutation: 12,
        group: 1,
    },
    Term {
        permutation: 13,
        group: 1,
    },
    Term {
        permutation: 14,
        group: 1,
    },
    Term {
        permutation: 0,
        group: 2,
    },
    Term {
        permutation: 5,
        group: 3,
    },
    Term {
        permutation: 6,
        group: 3,
    },
    Term {
        permutation: 7,
        group: 5,
    },
    Term {
        permutation: 8,
        group: 5,
    },
];

pub(crate) static TWO_THIRDS_ASKED: [Term; 9] = [
    Term {
        permutation: 9,
        group: 0,
    },
    Term {
        permutation: 10,
        group: 0,
    },
    Term {
        permutation: 11,
        group: 0,
    },
    Term {
        permutation: 0,
        group: 1,
    },
    Term {
        permutation: 0,
        group: 2,
    },
    Term {
        permutation: 0,
        group: 3,
    },
    Term {
        permutation: 2,
        group: 6,
    },
    Term {
        permutation: 3,
        group: 6,
    },
    Term {
        permutation: 4,
        group: 6,
    },
];

// Rate 4/5: 8 message groups.
pub(crate) static FOUR_FIFTHS_FIRST: [Term; 3] = [
    Term {
        permutation: 0,
        group: 8,
    },
    Term {
        permutation: 0,
        group: 10,
    },
    Term {
        permutation: 1,
        group: 10,
    },
];

pub(crate) static FOUR_FIFTHS_SECOND: [Term; 18] = [
    Term {
        permutation: 21,
        group: 0,
    },
    Term {
        permutation: 22,
        group: 0,
    },
    Term {
        permutation: 23,
        group: 0,
    },
    Term {
        permutation: 0,
        group: 1,
    },
    Term {
        permutation: 15,
        group: 2,
    },
    Term {
        permutation: 16,
        group: 2,
    },
    Term {
        permutation: 17,
        group: 2,
    },
    Term {
        permutation: 0,
        group: 3,
    },
    Term {
        permutation: 9,
        group: 4,
    },
    Term {
        permutation: 10,
        group: 4,
    },
    Term {
        permutation: 11,
        group: 4,
    },
    Term {
        permutation: 0,
        group: 5,
    },
    Term {
        permutation: 0,
        group: 6,
    },
    Term {
        permutation: 0,
        group: 7,
    },
    Term {
        permutation: 0,
        group: 9,
    },
    Term {
        permutation: 2,
        group: 10,
    },
    Term {
        permutation: 3,
        group: 10,
    },
    Term {
        permutation: 4,
        group: 10,
    },
];

pub(crate) static FOUR_FIFTHS_THIRD: [Term; 17] = [
    Term {
        permutation: 0,
        group: 0,
    },
    Term {
        permutation: 24,
        group: 1,
    },
    Term {
        permutation: 25,
        group: 1,
    },
    Term {
        permutation: 26,
        group: 1,
    },
    Term {
        permutation: 0,
        group: 2,
    },
    Term {
        permutation: 18,
        group: 3,
    },
    Term {
        permutation: 19,
        group: 3,
    },
    Term {
        permutation: 20,
        group: 3,
    },
    Term {
        permutation: 0,
        group: 4,
    },
    Term {
        permutation: 12,
        group: 5,
    },
    Term {
        permutation: 13,
        group: 5,
    },
    Term {
        permutation: 14,
        group: 5,
    },
    Term {
        permutation: 0,
        group: 6,
    },
    Term {
        permutation: 5,
        group: 7,
    },
    Term {
        permutation: 6,
        group: 7,
    },
    Term {
        permutation: 7,
        group: 9,
    },
    Term {
        permutation: 8,
        group: 9,
    },
];

pub(crate) static FOUR_FIFTHS_ASKED: [Term; 17] = [
    Term {
        permutation: 21,
        group: 0,
    },
    Term {
        permutation: 22,
        group: 0,
    },
    Term {
        permutation: 23,
        group: 0,
    },
    Term {
        permutation: 0,
        group: 1,
    },
    Term {
        permutation: 15,
        group: 2,
    },
    Term {
        permutation: 16,
        group: 2,
    },
    Term {
        permutation: 17,
        group: 2,
    },
    Term {
        permutation: 0,
        group: 3,
    },
    Term {
        permutation: 9,
        group: 4,
    },
    Term {
        permutation: 10,
        group: 4,
    },
    Term {
        permutation: 11,
        group: 4,
    },
    Term {
        permutation: 0,
        group: 5,
    },
    Term {
        permutation: 0,
        group: 6,
    },
    Term {
        permutation: 0,
        group: 7,
    },
    Term {
        permutation: 2,
        group: 10,
    },
    Term {
        permutation: 3,
        group: 10,
    },
    Term {
        permutation: 4,
        group: 10,
    },
];
