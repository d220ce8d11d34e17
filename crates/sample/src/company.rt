ghost use Rattle.std.specs.Prelude.{◌≡◌, IsTrue, map};
ghost use Rattle.std.specs.List.{list_all};
ghost use Rattle.sample.specs.Book.{given, sound};

use lines::Fields;

// Kind, class, rate, first and second amount of each line.
const BOOK: [(u8, u8, u16, u32, u32); 44] = [
    // interest
    (1, 1, 0, 412_350, 398_120),
    (1, 2, 0, 412_350, 427_900),
    (1, 3, 0, 365_400, 352_210),
    (1, 4, 0, 365_400, 380_150),
    // equity
    (2, 1, 0, 84_120, 0),
    (2, 2, 0, 23_975, 0),
    // property
    (3, 0, 0, 51_200, 0),
    // spread
    (4, 1, 620, 90_500, 0),
    (4, 3, 1_250, 64_330, 0),
    (4, 4, 475, 38_210, 0),
    (4, 5, 900, 7_100, 0),
    (4, 8, 300, 4_020, 0),
    // concentration
    (5, 0, 0, 3_105, 0),
    (5, 0, 0, 1_277, 0),
    (5, 0, 0, 940, 0),
    // currency
    (6, 1, 0, 18_300, 0),
    (6, 2, 0, 25_410, 0),
    // mortality
    (7, 2, 0, 240_500, 243_120),
    // longevity
    (8, 2, 0, 240_500, 251_330),
    // disability
    (9, 2, 0, 112_000, 114_905),
    // lapse
    (10, 1, 0, 5_200, 4_100),
    (10, 2, 0, 240_500, 244_020),
    // life expense
    (11, 2, 0, 240_500, 242_777),
    // revision
    (12, 2, 0, 60_300, 61_150),
    // life catastrophe
    (13, 2, 0, 240_500, 241_999),
    // health expense
    (14, 0, 400, 9_120, 0),
    // health claims
    (15, 0, 1_050, 9_120, 0),
    // accumulation
    (16, 0, 65, 9_120, 0),
    // premium and reserve
    (17, 1, 715, 38_450, 0),
    (17, 4, 900, 27_110, 0),
    (17, 5, 650, 12_005, 0),
    (17, 7, 1_000, 31_990, 0),
    (17, 8, 1_250, 44_870, 0),
    (17, 10, 500, 2_300, 0),
    // catastrophe
    (18, 0, 0, 5_400, 0),
    (18, 0, 0, 2_210, 0),
    // default
    (20, 0, 120, 71_000, 0),
    (20, 0, 350, 15_600, 0),
    // operational
    (25, 1, 0, 22_100, 0),
    (25, 2, 0, 156_725, 0),
    (25, 3, 0, 9_120, 0),
    (25, 4, 0, 365_400, 0),
    (25, 5, 0, 143_210, 0),
    (25, 6, 0, 12_880, 0),
];

/// The company's lines, none of which breaks a rule of its kind.
pub fn book() -> [Fields; 44]
    ensures lines { result ≡ map given BOOK }
    ensures sound { IsTrue (list_all sound result) }
{
    BOOK.map(Fields::from)
}
