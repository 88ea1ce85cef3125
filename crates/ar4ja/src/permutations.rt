// The permutations of the codes with 1,024 information bits, as the standard tabulates them. Entry t is Π t;
// entry 0 is the identity.
use qc::Permutation;

// Rate 1/2, M = 512.
pub(crate) static HALF_1024: [Permutation; 9] = [
    Permutation {
        theta: 0,
        phi: [0, 0, 0, 0],
    },
    Permutation {
        theta: 3,
        phi: [16, 0, 0, 0],
    },
    Permutation {
        theta: 0,
        phi: [103, 53, 8, 35],
    },
    Permutation {
        theta: 1,
        phi: [105, 74, 119, 97],
    },
    Permutation {
        theta: 2,
        phi: [0, 45, 89, 112],
    },
    Permutation {
        theta: 2,
        phi: [50, 47, 31, 64],
    },
    Permutation {
        theta: 3,
        phi: [29, 0, 122, 93],
    },
    Permutation {
        theta: 0,
        phi: [115, 59, 1, 99],
    },
    Permutation {
        theta: 1,
        phi: [30, 102, 69, 94],
    },
];

// Rate 2/3, M = 256.
pub(crate) static TWO_THIRDS_1024: [Permutation; 15] = [
    Permutation {
        theta: 0,
        phi: [0, 0, 0, 0],
    },
    Permutation {
        theta: 3,
        phi: [59, 0, 0, 0],
    },
    Permutation {
        theta: 0,
        phi: [18, 32, 46, 44],
    },
    Permutation {
        theta: 1,
        phi: [52, 21, 45, 51],
    },
    Permutation {
        theta: 2,
        phi: [23, 36, 27, 12],
    },
    Permutation {
        theta: 2,
        phi: [11, 30, 48, 15],
    },
    Permutation {
        theta: 3,
        phi: [7, 29, 37, 12],
    },
    Permutation {
        theta: 0,
        phi: [22, 44, 41, 4],
    },
    Permutation {
        theta: 1,
        phi: [25, 29, 13, 7],
    },
    Permutation {
        theta: 0,
        phi: [27, 39, 9, 2],
    },
    Permutation {
        theta: 1,
        phi: [30, 14, 49, 30],
    },
    Permutation {
        theta: 2,
        phi: [43, 22, 36, 53],
    },
    Permutation {
        theta: 0,
        phi: [14, 15, 10, 23],
    },
    Permutation {
        theta: 2,
        phi: [46, 48, 11, 29],
    },
    Permutation {
        theta: 3,
        phi: [62, 55, 18, 37],
    },
];

// Rate 4/5, M = 128.
pub(crate) static FOUR_FIFTHS_1024: [Permutation; 27] = [
    Permutation {
        theta: 0,
        phi: [0, 0, 0, 0],
    },
    Permutation {
        theta: 3,
        phi: [1, 0, 0, 0],
    },
    Permutation {
        theta: 0,
        phi: [22, 27, 12, 13],
    },
    Permutation {
        theta: 1,
        phi: [0, 30, 30, 19],
    },
    Permutation {
        theta: 2,
        phi: [26, 28, 18, 14],
    },
    Permutation {
        theta: 2,
        phi: [0, 7, 10, 15],
    },
    Permutation {
        theta: 3,
        phi: [10, 1, 16, 20],
    },
    Permutation {
        theta: 0,
        phi: [5, 8, 13, 17],
    },
    Permutation {
        theta: 1,
        phi: [18, 20, 9, 4],
    },
    Permutation {
        theta: 0,
        phi: [3, 26, 7, 4],
    },
    Permutation {
        theta: 1,
        phi: [22, 24, 15, 11],
    },
    Permutation {
        theta: 2,
        phi: [3, 4, 16, 17],
    },
    Permutation {
        theta: 0,
        phi: [8, 12, 18, 20],
    },
    Permutation {
        theta: 2,
        phi: [25, 23, 4, 8],
    },
    Permutation {
        theta: 3,
        phi: [25, 15, 23, 22],
    },
    Permutation {
        theta: 0,
        phi: [2, 15, 5, 19],
    },
    Permutation {
        theta: 1,
        phi: [27, 22, 3, 15],
    },
    Permutation {
        theta: 2,
        phi: [7, 31, 29, 5],
    },
    Permutation {
        theta: 0,
        phi: [7, 3, 11, 21],
    },
    Permutation {
        theta: 1,
        phi: [15, 29, 4, 17],
    },
    Permutation {
        theta: 2,
        phi: [10, 21, 8, 9],
    },
    Permutation {
        theta: 0,
        phi: [4, 2, 2, 20],
    },
    Permutation {
        theta: 1,
        phi: [19, 5, 11, 18],
    },
    Permutation {
        theta: 2,
        phi: [7, 11, 11, 31],
    },
    Permutation {
        theta: 1,
        phi: [9, 26, 3, 13],
    },
    Permutation {
        theta: 2,
        phi: [26, 9, 15, 2],
    },
    Permutation {
        theta: 3,
        phi: [17, 17, 13, 18],
    },
];
