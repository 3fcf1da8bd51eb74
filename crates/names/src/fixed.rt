// The fixed names, compared with a text: byte strings, by their length first.
ghost use Rattle.std.specs.Prelude.{◌≡◌, ◌==◌};
ghost use Rattle.std.specs.List.{list_all, list_any, zip};
ghost use Rattle.names.specs.Same.{same, member};
ghost use Rattle.names.specs.Fixed as spec;

static PROPERTIES: [&[u8]; 19] = [
    b"end",
    b"end included",
    b"start",
    b"start included",
    b"year",
    b"years",
    b"month",
    b"months",
    b"day",
    b"days",
    b"weekday",
    b"hour",
    b"hours",
    b"minute",
    b"minutes",
    b"second",
    b"seconds",
    b"time offset",
    b"timezone",
];

static TYPES: [&[u8]; 10] = [
    b"Any",
    b"Null",
    b"boolean",
    b"number",
    b"string",
    b"date",
    b"date and time",
    b"time",
    b"years and months duration",
    b"days and time duration",
];

static TEMPORAL_FUNCTIONS: [&[u8]; 4] = [b"date", b"time", b"date and time", b"duration"];

fn agree(s: &[u32], t: &[u8]) -> bool
    ensures { result ≡ list_all (λ p. p.0 == p.1) (zip s.now t.now) }
{
    s.iter().zip(t).all(|(c, b)| *c == u32::from(*b))
}

// Whether the text is the byte string.
pub fn is(s: &[u32], t: &[u8]) -> bool
    ensures { result ≡ same t.now s.now }
{
    s.len() == t.len() && agree(s, t)
}

// Whether the text is one of the byte strings.
pub fn is_among(s: &[u32], names: &[&[u8]]) -> bool
    ensures { result ≡ list_any (λ t. same t.now s.now) names.now }
{
    names.iter().any(|t| is(s, t))
}

// Whether the text is one of the 19 property names.
// Ruled out, among others: `weekdays` taken for a property; `timezone` forgotten.
#[tactic(auto, unfolding(crate::specs::Same::member, crate::specs::Fixed::property_names))]
pub fn is_built_in_property_name(s: &[u32]) -> bool
    ensures { result ≡ member s.now spec.property_names }
{
    is_among(s, &PROPERTIES)
}

// Whether the text is one of the 10 type names.
// Ruled out, among others: `any` taken for `Any`; `duration` taken for a type.
#[tactic(auto, unfolding(crate::specs::Same::member, crate::specs::Fixed::type_names))]
pub fn is_built_in_type_name(s: &[u32]) -> bool
    ensures { result ≡ member s.now spec.type_names }
{
    is_among(s, &TYPES)
}

// Whether the text is the name of a temporal function.
// Ruled out, among others: `date time` taken for one; `duration` forgotten.
#[tactic(auto, unfolding(crate::specs::Same::member, crate::specs::Fixed::temporal_names))]
pub fn is_built_in_date_time_function_name(s: &[u32]) -> bool
    ensures { result ≡ member s.now spec.temporal_names }
{
    is_among(s, &TEMPORAL_FUNCTIONS)
}
