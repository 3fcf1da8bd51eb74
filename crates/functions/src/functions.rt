// The names of the built-in functions, compared with a text: byte strings, by their length first.
ghost use Rattle.std.specs.Prelude.{◌≡◌, length, map};
ghost use Rattle.names.specs.Same.{member};
ghost use Rattle.functions.specs.Functions.{is_function_name, names_of, at_place};

use names::fixed;

// At place n are the names of n characters.
static BY_LENGTH: [&[&[u8]]; 26] = [
    &[],
    &[],
    &[b"is"],
    &[
        b"abs", b"all", b"any", b"exp", b"log", b"max", b"min", b"not", b"now", b"odd", b"sum",
    ],
    &[
        b"date", b"even", b"mean", b"mode", b"sort", b"sqrt", b"time",
    ],
    &[
        b"after", b"count", b"floor", b"meets", b"range", b"split", b"today", b"union",
    ],
    &[
        b"append", b"before", b"during", b"median", b"met by", b"modulo", b"number", b"remove",
        b"starts", b"stddev", b"string",
    ],
    &[
        b"ceiling", b"context", b"decimal", b"flatten", b"matches", b"product", b"replace",
        b"reverse", b"sublist",
    ],
    &[
        b"contains",
        b"duration",
        b"finishes",
        b"includes",
        b"index of",
        b"overlaps",
        b"round up",
    ],
    &[b"coincides", b"ends with", b"get value", b"substring"],
    &[b"lower case", b"round down", b"started by", b"upper case"],
    &[
        b"concatenate",
        b"context put",
        b"day of week",
        b"day of year",
        b"finished by",
        b"get entries",
        b"starts with",
        b"string join",
    ],
    &[b"list replace", b"week of year"],
    &[
        b"context merge",
        b"date and time",
        b"insert before",
        b"list contains",
        b"month of year",
        b"round half up",
        b"string length",
    ],
    &[b"overlaps after"],
    &[
        b"distinct values",
        b"overlaps before",
        b"round half down",
        b"substring after",
    ],
    &[b"substring before"],
    &[],
    &[],
    &[],
    &[],
    &[],
    &[],
    &[],
    &[],
    &[b"years and months duration"],
];

// Whether the text is one of the names at the place of its length.
fn is_among_as_long(s: &[u32], by_length: &[&[&[u8]]]) -> bool
    ensures { result ≡ member s.now (at_place (map names_of by_length.now) (length s.now)) }
{
    by_length
        .get(s.len())
        .is_some_and(|names| fixed::is_among(s, names))
}

// Whether the text is the name of a built-in function. Only names as long as the text are tried: to try them all takes ten times as long.
// Ruled out, among others: `Sum` taken for `sum`; `date and time` with a space behind it; the longest name forgotten.
pub fn is_built_in_function_name(s: &[u32]) -> bool
    ensures { result ≡ is_function_name s.now }
{
    is_among_as_long(s, &BY_LENGTH)
}
